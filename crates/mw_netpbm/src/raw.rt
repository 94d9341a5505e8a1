//! Raw rasters: samples of one or two bytes, or pixels of one bit, which become words; by vectors, 64 bytes at a time.

ghost use Rattle.std.specs.Prelude.{◌≡◌, ℕ, ◌≤◌, ◌<◌, ◌*◌, ◌+◌, ◌/◌, ◌++◌, List, length, IfOk, OnOk, IsTrue, ◌↔◌, fold, max, take, drop, vec_len};
ghost use Rattle.mw_model.specs.declared.limits.TheConstants.{PIXEL_LIMIT, SIDE_LIMIT};
ghost use Rattle.mw_netpbm_plain.specs.Reading.{result_viewed, Gives};
ghost use Rattle.mw_netpbm.specs.Rasters.{two_byte_samples, row_bits, rows_bits, grey8_at, grey16_at, bits_in_raster};
ghost use Rattle.mw_netpbm_plain.specs.SetWords.{in_words, in_rows};
ghost use Rattle.mw_netpbm_plain.specs.Whole.{raster_from};

use crate::blocks::{block_of, pixels_in, words_in};
use mw_netpbm_plain::ReadFault;
use mw_netpbm_plain::pixel::Words;
use std::alloc::{AllocError, Global};
use std::simd::prelude::*;

fn greatest8(samples: &[u8]) -> u8
    ensures { result ≡ fold max 0 samples.now }
{
    let mut most = 0;
    'samples: for s in samples {
        most = most.max(*s);
    }
    most
}

/// Whether a sample is over the maxval. None is over 255, so where that is the maxval, none is looked at.
fn is_over8(samples: &[u8], maxval: u8) -> bool
    ensures { IsTrue result ↔ maxval < fold max 0 samples.now }
{
    maxval < u8::MAX && greatest8(samples) > maxval
}

/// The bytes of a raster that are samples of one byte each.
#[tactic(auto, unfolding(crate::specs::Rasters::grey8_at))]
fn samples8(count: usize, maxval: u8, raster: &[u8]) -> Result<&[u8], ReadFault>
    ensures { result_viewed (λ x. x.now) result ≡ grey8_at count maxval raster.now }
{
    if raster.len() < count {
        return Err(ReadFault::Short);
    }
    let (samples, rest) = raster.split_at(count);
    if is_over8(samples, maxval) {
        return Err(ReadFault::Sample);
    }
    if !rest.is_empty() {
        return Err(ReadFault::Trailing);
    }
    Ok(samples)
}

/// One byte for each sample.
pub(crate) fn grey8(
    alloc: Global,
    count: usize,
    maxval: u8,
    raster: &[u8],
) -> Result<Vec<u8>, ReadFault>
    ensures { Gives (λ v. v.items) result (grey8_at count maxval raster.now) }
{
    let samples = samples8(count, maxval, raster)?;
    Ok(Vec::from_slice(alloc, samples)?)
}

/// Takes the first bytes away.
fn drop_front(file: &mut Vec<u8>, start: usize)
    requires { start ≤ length file.old.items }
    ensures { file.new.items ≡ drop start file.old.items }
{
    let left = file.len() - start;
    file.copy_within(start.., 0);
    file.truncate(left);
}

/// One byte for each sample, in the vector of a file whose raster begins there.
pub(crate) fn owned_grey8(
    count: usize,
    maxval: u8,
    start: usize,
    mut file: Vec<u8>,
) -> Result<Vec<u8>, ReadFault>
    requires { start ≤ length file.items }
    ensures { result_viewed (λ v. v.items) result ≡ grey8_at count maxval (drop start file.items) }
{
    let (_, raster) = file.split_at(start);
    let _samples = samples8(count, maxval, raster)?;
    drop_front(&mut file, start);
    Ok(file)
}

/// The greatest of a sample and of those in the bytes.
#[tactic(auto, unfolding(crate::specs::Rasters::two_byte_samples))]
fn greatest_from(first: u16, bytes: &[u8]) -> u16
    ensures { result ≡ fold max first (two_byte_samples bytes.now) }
{
    let mut most = first;
    let mut rest = bytes;
    'words: while let [high, low, after @ ..] = rest {
        most = most.max(u16::from(*high) * 256 + u16::from(*low));
        rest = after;
    }
    most
}

fn greatest_lane(lanes: [u16; 32]) -> u16
    ensures { result ≡ fold max 0 lanes }
{
    let mut most = 0;
    'lanes: for i in 0..32 {
        most = most.max(lanes[i]);
    }
    most
}

fn greatest16(bytes: &[u8]) -> u16
    ensures { result ≡ fold max 0 (two_byte_samples bytes.now) }
{
    let mut lanes = u16x32::splat(0);
    let mut rest = bytes;
    'by_block: while rest.len() >= 64 {
        let (front, after) = rest.split_at(64);
        lanes = lanes.simd_max(words_in(front));
        rest = after;
    }
    greatest_from(greatest_lane(lanes.to_array()), rest)
}

#[tactic(auto, unfolding(crate::specs::Rasters::two_byte_samples))]
fn push_words(out: &mut Vec<u16>, bytes: &[u8]) -> Result<(), AllocError>
    ensures { OnOk result (out.new.items ≡ out.old.items ++ two_byte_samples bytes.now) }
{
    let mut rest = bytes;
    'words: while let [high, low, after @ ..] = rest {
        out.push(u16::from(*high) * 256 + u16::from(*low))?;
        rest = after;
    }
    Ok(())
}

fn words(alloc: Global, count: usize, bytes: &[u8]) -> Result<Vec<u16>, AllocError>
    ensures { IfOk result (λ v. v.items ≡ two_byte_samples bytes.now) }
{
    let mut out = Vec::with_capacity(alloc, count)?;
    let mut rest = bytes;
    'by_block: while rest.len() >= 64 {
        let (front, after) = rest.split_at(64);
        out.extend_from_slice(&words_in(front).to_array())?;
        rest = after;
    }
    push_words(&mut out, rest)?;
    Ok(out)
}

/// Whether one of the samples of two bytes each is over the maxval. None is over 65,535.
fn is_over16(samples: &[u8], maxval: u16) -> bool
    ensures { IsTrue result ↔ maxval < fold max 0 (two_byte_samples samples.now) }
{
    maxval < u16::MAX && greatest16(samples) > maxval
}

/// Two bytes for each sample, the higher first.
#[tactic(auto, unfolding(crate::specs::Rasters::grey16_at))]
pub(crate) fn grey16(
    alloc: Global,
    count: usize,
    maxval: u16,
    raster: &[u8],
) -> Result<Vec<u16>, ReadFault>
    requires { count ≤ PIXEL_LIMIT }
    ensures { Gives (λ v. v.items) result (grey16_at count maxval raster.now) }
{
    if raster.len() < 2 * count {
        return Err(ReadFault::Short);
    }
    let (samples, rest) = raster.split_at(2 * count);
    if is_over16(samples, maxval) {
        return Err(ReadFault::Sample);
    }
    if !rest.is_empty() {
        return Err(ReadFault::Trailing);
    }
    Ok(words(alloc, count, samples)?)
}

/// Adds the words of a row's last pixels.
fn push_rest(out: &mut Vec<u64>, left: usize, rest: &[u8]) -> Result<(), AllocError>
    requires some { (0 < left) × (left ≤ 512) }
    requires long { length rest.now ≡ (left + 7) / 8 }
    ensures { OnOk result (out.new.items ≡ out.old.items ++ in_words ((left + 63) / 64) (row_bits left rest.now)) }
{
    let words = pixels_in(&block_of(left, rest));
    out.extend_from_slice(&words[..(left + 63) / 64])?;
    Ok(())
}

/// Adds the words of a row.
fn push_row(out: &mut Vec<u64>, width: usize, row: &[u8]) -> Result<(), AllocError>
    requires wide { width ≤ SIDE_LIMIT }
    requires long { length row.now ≡ (width + 7) / 8 }
    ensures { OnOk result (out.new.items ≡ out.old.items ++ in_words ((width + 63) / 64) (row_bits width row.now)) }
{
    let mut left = width;
    let mut rest = row;
    'by_block: while left >= 512 {
        let (front, after) = rest.split_at(64);
        out.extend_from_slice(&pixels_in(front))?;
        left -= 512;
        rest = after;
    }
    if left > 0 {
        push_rest(out, left, rest)?;
    }
    Ok(())
}

fn rows(alloc: Global, width: usize, height: usize, raster: &[u8]) -> Result<Vec<u64>, AllocError>
    requires wide { width ≤ SIDE_LIMIT }
    requires high { height ≤ SIDE_LIMIT }
    requires long { height * ((width + 7) / 8) ≤ length raster.now }
    ensures { IfOk result (λ v. v.items ≡ in_rows width height (rows_bits width height raster.now)) }
{
    let mut out = Vec::with_capacity(alloc, height * ((width + 63) / 64))?;
    let stride = (width + 7) / 8;
    let mut rest = raster;
    'rows: for y in 0..height {
        let (row, after) = rest.split_at(stride);
        push_row(&mut out, width, row)?;
        rest = after;
    }
    Ok(out)
}

/// Eight pixels to a byte.
#[tactic(auto, unfolding(crate::specs::Rasters::bits_in_raster))]
pub(crate) fn bits(
    alloc: Global,
    width: u32,
    height: u32,
    raster: &[u8],
) -> Result<Words, ReadFault>
    requires wide { width ≤ SIDE_LIMIT }
    requires high { height ≤ SIDE_LIMIT }
    ensures { Gives (λ f. f) result (raster_from width height (bits_in_raster width height raster.now)) }
{
    let count = height as usize * ((width as usize + 7) / 8);
    if raster.len() < count {
        return Err(ReadFault::Short);
    }
    if raster.len() > count {
        return Err(ReadFault::Trailing);
    }
    let words = rows(alloc, width as usize, height as usize, raster)?;
    Ok(Words::new(width, height, words))
}
