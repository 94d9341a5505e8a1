//! Plain sets: the pixels of a plain raster, read into words.

ghost use Rattle.std.specs.Prelude.{◌≡◌, ◌≢◌, ◌+◌, ◌*◌, ◌/◌, ◌<◌, ◌≤◌, ◌^◌, IfOk, OnOk, Some, vec_len, vec_capacity};
ghost use Rattle.mw_netpbm_plain.specs.declared.fault.ReadFault.TheVariants.{Short};
ghost use Rattle.mw_netpbm_plain.specs.Reading.{result_viewed, Gives, fault_alone};
ghost use Rattle.mw_netpbm_plain.specs.Plain.{plain_at, pixel_in_text};
ghost use Rattle.mw_netpbm_plain.specs.SetWords.{word_at, row_at, words_from};
ghost use Rattle.mw_netpbm_plain.specs.Whole.{raster_from};

use crate::fault::ReadFault;
use crate::plain::{Places, check, pixel, tail};
use crate::room::has_room;
use mw_pixel::words::Words;
use std::alloc::{AllocError, Global};

/// So many pixels as a word, the first one lowest, and what follows them.
#[inline(always)]
fn word(count: usize, bytes: &[u8]) -> Result<(u64, &[u8]), ReadFault>
    requires { count ≤ 64 }
    ensures { result_viewed (λ x. (x.0, x.1.now)) result ≡ word_at count bytes.now }
{
    let mut word = 0u64;
    let mut rest = bytes;
    'pixels: for i in 0..count {
        let (s, after) = pixel(0, rest)?;
        word += u64::from(s) << i;
        rest = after;
    }
    Ok((word, rest))
}

/// Adds the words of a row, and gives what follows it.
fn row<'a>(out: &mut Vec<u64>, width: usize, bytes: &'a [u8]) -> Result<&'a [u8], ReadFault>
    requires wide { width < 2 ^ 60 }
    requires room { vec_len out.old + (width + 63) / 64 ≤ vec_capacity out.old }
    ensures value { result_viewed (λ rest. (out.new.items, rest.now)) result ≡ row_at out.old.items width bytes.now }
    ensures len { OnOk result (vec_len out.new ≡ vec_len out.old + (width + 63) / 64) }
    ensures capacity { vec_capacity out.new ≡ vec_capacity out.old }
{
    let mut left = width;
    let mut rest = bytes;
    'words: while left > 0 {
        let count = left.min(64);
        let (word, after) = word(count, rest)?;
        out.push_reserved(word);
        rest = after;
        left -= count;
    }
    Ok(rest)
}

/// The words of all rows, or the first fault, in one pass over memory that was asked for ahead of it.
fn rows(
    alloc: Global,
    width: usize,
    height: usize,
    bytes: &[u8],
) -> Result<Result<Vec<u64>, ReadFault>, AllocError>
    requires wide { width < 2 ^ 32 }
    requires high { height < 2 ^ 32 }
    requires long { fault_alone (plain_at pixel_in_text (height * width) bytes.now) ≢ Some Short }
    ensures value { IfOk result (λ found. result_viewed (λ v. v.items) found ≡ words_from width height (plain_at pixel_in_text (height * width) bytes.now)) }
    ensures few { IfOk result (λ found. IfOk found (λ v. vec_capacity v ≤ height * ((width + 63) / 64))) }
{
    let stride = (width + 63) / 64;
    let mut out = Vec::with_capacity(alloc, height * stride)?;
    let mut rest = bytes;
    'rows: for y in 0..height {
        match row(&mut out, width, rest) {
            Ok(after) => rest = after,
            Err(fault) => return Ok(Err(fault)),
        }
    }
    if let Err(fault) = tail(rest) {
        return Ok(Err(fault));
    }
    Ok(Ok(out))
}

/// The set of these pixels. A raster that may be too short is checked before memory is asked for; nor is a fault passed
/// over where memory is refused.
#[tactic(auto, using(crate::proofs::Faults::Fails_fault, crate::proofs::Faults::Fails_from))]
#[inline(never)]
pub fn set(alloc: Global, width: u32, height: u32, bytes: &[u8]) -> Result<Words, ReadFault>
    ensures { Gives (λ f. f) result (raster_from width height (plain_at pixel_in_text (height * width) bytes.now)) }
{
    let count = height as usize * width as usize;
    if !has_room(Places::Pixels, count, bytes) {
        check(Places::Pixels, count, bytes)?;
    }
    match rows(alloc, width as usize, height as usize, bytes) {
        Ok(Ok(words)) => Ok(Words::new(width, height, words)),
        Ok(Err(fault)) => Err(fault),
        Err(_refused) => {
            check(Places::Pixels, count, bytes)?;
            Err(ReadFault::NoMemory)
        }
    }
}
