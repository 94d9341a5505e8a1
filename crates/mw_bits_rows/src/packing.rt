//! Pixels packed into words: 64 at a time, by comparing 64 bytes with 0 at once.
ghost use Rattle.std.specs.Prelude.{◌≡◌, ℕ, ◌*◌, ◌+◌, ◌<◌, ◌≤◌, length, slice_index, slice_range};
ghost use Rattle.std.specs.Int.{bit_at};
ghost use Rattle.mw_model.specs.declared.limits.TheConstants.{FAR_LIMIT};
ghost use Rattle.mw_line.specs.mw_pixel_words.Packed.{bit_of, stride_of};

use mw_line::pixel::Bit;
use std::simd::Simd;
use std::simd::prelude::*;

/// The word of 64 pixels.
#[inline(always)]
fn pack_block(pixels: &[Bit]) -> u64
    requires { length pixels.now ≡ 64 }
    ensures { (i : ℕ) → i < 64 → bit_at result i ≡ slice_index pixels.now i }
{
    let mut bytes = [0u8; 64];
    for i in 0..64usize {
        bytes[i] = pixels[i].number();
    }
    Simd::<u8, 64>::from_slice(&bytes)
        .simd_ne(Simd::<u8, 64>::splat(0))
        .to_bitmask()
}

/// The word of up to 64 pixels; its other bits are 0.
fn pack_rest(pixels: &[Bit]) -> u64
    requires { length pixels.now ≤ 64 }
    ensures { (i : ℕ) → i < 64 → bit_at result i ≡ slice_index pixels.now i }
{
    let mut block = [Bit::new(false); 64];
    block[..pixels.len()].copy_from_slice(pixels);
    pack_block(&block)
}

/// The word of the pixels from a place on; bits past the last pixel are 0.
#[inline(always)]
fn pack_from(row: &[Bit], from: usize) -> u64
    ensures { (i : ℕ) → i < 64 → bit_at result i ≡ slice_index row.now (from + i) }
{
    let rest = &row[from.min(row.len())..];
    if rest.len() >= 64 {
        pack_block(&rest[..64])
    } else {
        pack_rest(rest)
    }
}

/// Packs a row; bits past its last pixel are 0.
pub fn pack_row(row: &[Bit], out: &mut [u64])
    requires { length out.old ≤ FAR_LIMIT }
    ensures { (x : ℕ) → x < 64 * length out.old → bit_of out.new x ≡ slice_index row.now x }
{
    for k in 0..out.len() {
        out[k] = pack_from(row, 64 * k);
    }
}
