//! Writing an image.

ghost use Rattle.std.specs.Prelude.{◌≡◌, ℕ, ◌≤◌, ◌<◌, ◌*◌, ◌^◌, ◌++◌, List, length, vec_len, vec_capacity, IfOk, OnOk, Ok, true, nat_lt, string_bytes, ◌+◌, ◌-◌, ◌/◌};
ghost use Rattle.mw_model.specs.declared.shapes.Kind.TheVariants as kind;
ghost use Rattle.mw_model.specs.NetpbmWriting.{two_bytes, grey_raster, grey_header, packed, packed_rows, set_header, text_of};
ghost use Rattle.mw_netpbm_plain.specs.mw_pixel.Images.{grey_of, set_of};
ghost use Rattle.std.specs.List.{flat_map};
ghost use Rattle.mw_model.specs.Rasters.{Raster};
ghost use Rattle.mw_netpbm.specs.SetWords.{pixels_of};

use crate::blocks::{eight_words, pixels_as_bytes, words_as_bytes};
use mw_model::NoMemory;
use mw_netpbm_plain::pixel::{Bit, Image, Plane, View, Words};
use std::alloc::{AllocError, Global};

pub(crate) fn grey_head(
    alloc: Global,
    width: u32,
    height: u32,
    maxval: u16,
) -> Result<String, AllocError>
    ensures { IfOk result (λ s. string_bytes s ≡ grey_header width height maxval) }
{
    format!(in alloc; "P5\n{width} {height}\n{maxval}\n")
}

/// Adds bytes for which there is room.
pub(crate) fn append(out: &mut Vec<u8>, bytes: &[u8])
    requires { vec_len out.old + length bytes.now ≤ vec_capacity out.old }
    ensures bytes { out.new.items ≡ out.old.items ++ bytes.now }
    ensures count { vec_len out.new ≡ vec_len out.old + length bytes.now }
    ensures room { vec_capacity out.old ≤ vec_capacity out.new }
{
    match out.extend_from_slice(bytes) {
        Ok(()) => {}
        Err(_) => unreachable!(),
    }
}

/// Adds the bytes of samples one by one. There is room for them.
fn push_rest(out: &mut Vec<u8>, samples: &[u16])
    requires { vec_len out.old + 2 * length samples.now ≤ vec_capacity out.old }
    ensures bytes { out.new.items ≡ out.old.items ++ flat_map two_bytes samples.now }
    ensures count { vec_len out.new ≡ vec_len out.old + 2 * length samples.now }
    ensures room { vec_capacity out.old ≤ vec_capacity out.new }
{
    'samples: for s in samples {
        append(out, &[(*s / 256) as u8, (*s % 256) as u8]);
    }
}

/// Adds the bytes of samples, for which there is room.
pub(crate) fn push_words(out: &mut Vec<u8>, samples: &[u16])
    requires { vec_len out.old + 2 * length samples.now ≤ vec_capacity out.old }
    ensures bytes { out.new.items ≡ out.old.items ++ flat_map two_bytes samples.now }
    ensures count { vec_len out.new ≡ vec_len out.old + 2 * length samples.now }
    ensures room { vec_capacity out.old ≤ vec_capacity out.new }
{
    let mut rest = samples;
    'by_block: while rest.len() >= 32 {
        let (front, after) = rest.split_at(32);
        append(out, &words_as_bytes(front));
        rest = after;
    }
    push_rest(out, rest)
}

/// The text of an image in two parts: what was made of it, and behind that what lies in the image as it is written.
#[derive(Drop)]
pub struct Text<'a> {
    /// The header, and the raster where it had to be made.
    pub front: Vec<u8>,
    /// The samples of one byte each, as the image holds them.
    pub rest: &'a [u8],
}

fn grey8(alloc: Global, plane: &Plane<u8>, maxval: u8) -> Result<Text<'_>, AllocError>
    ensures text { IfOk result (λ t. t.front.items ++ t.rest.now ≡ text_of (grey_of plane.now maxval)) }
    ensures lent { IfOk result (λ t. t.rest.now ≡ plane.now.cells) }
{
    let head = grey_head(alloc, plane.width(), plane.height(), u16::from(maxval))?;
    Ok(Text {
        front: head.into_bytes(),
        rest: plane.samples(),
    })
}

fn grey16(alloc: Global, plane: &Plane<u16>, maxval: u16) -> Result<Vec<u8>, AllocError>
    requires { 256 ≤ maxval }
    ensures { IfOk result (λ v. v.items ≡ text_of (grey_of plane.now maxval)) }
{
    let head = grey_head(alloc, plane.width(), plane.height(), maxval)?;
    let mut out = head.into_bytes();
    let samples = plane.samples();
    out.reserve(samples.len().saturating_mul(2))?;
    push_words(&mut out, samples);
    Ok(out)
}

/// Adds so many bytes of the words of a row, for which there is room.
pub(crate) fn push_packed(out: &mut Vec<u8>, count: usize, words: &[u64])
    requires few { count < 2 ^ 60 }
    requires long { length words.now ≡ (count + 7) / 8 }
    requires room { vec_len out.old + count ≤ vec_capacity out.old }
    ensures bytes { out.new.items ≡ out.old.items ++ packed count (flat_map pixels_of words.now) }
    ensures count { vec_len out.new ≡ vec_len out.old + count }
    ensures room { vec_capacity out.old ≤ vec_capacity out.new }
{
    let mut left = count;
    let mut rest = words;
    'by_block: while left >= 64 {
        let (front, after) = rest.split_at(8);
        append(out, &pixels_as_bytes(front));
        left -= 64;
        rest = after;
    }
    let bytes = pixels_as_bytes(&eight_words(rest));
    append(out, &bytes[..left])
}

/// Adds the bytes of a set, row by row.
fn push_rows(out: &mut Vec<u8>, set: &Words) -> Result<(), AllocError>
    ensures { OnOk result (out.new.items ≡ out.old.items ++ packed_rows set.now.width set.now.height set.now.cells) }
{
    let count = (set.width() as usize + 7) / 8;
    let height = set.height();
    out.reserve(height as usize * count)?;
    'rows: for y in 0..height {
        push_packed(out, count, set.row(y));
    }
    Ok(())
}

pub(crate) fn set_head(alloc: Global, width: u32, height: u32) -> Result<String, AllocError>
    ensures { IfOk result (λ s. string_bytes s ≡ set_header width height) }
{
    format!(in alloc; "P4\n{width} {height}\n")
}

fn bits(alloc: Global, plane: &Plane<Bit>) -> Result<Vec<u8>, AllocError>
    ensures { IfOk result (λ v. v.items ≡ text_of (set_of plane.now)) }
{
    let head = set_head(alloc, plane.width(), plane.height())?;
    let mut out = head.into_bytes();
    push_rows(&mut out, plane.words())?;
    Ok(out)
}

fn all_made(front: Vec<u8>) -> Text<'static>
    ensures { result.front.items ++ result.rest.now ≡ front.items }
{
    Text { front, rest: &[] }
}

fn made(alloc: Global, image: &Image) -> Result<Text<'_>, AllocError>
    ensures text { IfOk result (λ t. t.front.items ++ t.rest.now ≡ text_of image.now) }
    ensures lent { image.now.kind ≡ kind.Grey → image.now.maxval ≤ 255 → IfOk result (λ t. t.rest.now ≡ image.now.samples) }
{
    match image.view() {
        View::Bits(plane) => Ok(all_made(bits(alloc, plane)?)),
        View::Grey8(plane, maxval) => grey8(alloc, plane, maxval),
        View::Grey16(plane, maxval) => Ok(all_made(grey16(alloc, plane, maxval)?)),
    }
}

/// The one text of an image in two parts. Samples of one byte are not copied.
pub fn parts(alloc: Global, image: &Image) -> Result<Text<'_>, NoMemory>
    ensures text { IfOk result (λ t. t.front.items ++ t.rest.now ≡ text_of image.now) }
    ensures lent { image.now.kind ≡ kind.Grey → image.now.maxval ≤ 255 → IfOk result (λ t. t.rest.now ≡ image.now.samples) }
{
    let text = made(alloc, image)?;
    Ok(text)
}

/// The one text of an image, raw (pbm(5), pgm(5)), or `NoMemory`.
pub fn write(alloc: Global, image: &Image) -> Result<Vec<u8>, NoMemory>
    ensures { IfOk result (λ v. v.items ≡ text_of image.now) }
{
    let Text { front, rest } = parts(alloc, image)?;
    let mut bytes = front;
    bytes.extend_from_slice(rest)?;
    Ok(bytes)
}
