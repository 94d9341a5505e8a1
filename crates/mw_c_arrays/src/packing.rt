//! Sets of which a caller has a byte a pixel, packed into words: 64 bytes are compared with 0 at once.

ghost use Rattle.std.specs.Prelude.{◌≡◌, ℕ, ◌+◌, ◌*◌, ◌<◌, ◌≤◌, length, slice_index};
ghost use Rattle.std.specs.Int.{bit_at};
ghost use Rattle.mw_model.specs.declared.limits.TheConstants.{FAR_LIMIT};
ghost use Rattle.mw_pixel.specs.mw_pixel_words.Packed.{bit_of, samples_of, stride_of, IsPacked};
ghost use Rattle.mw_c_arrays.specs.Arrays.{pixels_in_bytes};

use crate::Set;
use mw_lane::LevelBlocks;
use mw_model::NoMemory;
use mw_pixel::words::{repeated, stride};
use mw_pixel::{Bit, Plane, Words};
use std::alloc::Global;

/// The word of up to 64 bytes; its other bits are 0.
fn last_word(bytes: &[u8]) -> u64
    requires { length bytes.now ≤ 64 }
    ensures { (i : ℕ) → i < 64 → bit_at result i ≡ slice_index (pixels_in_bytes bytes.now) i }
{
    let mut block = [0u8; 64];
    block[..bytes.len()].copy_from_slice(bytes);
    u8::at_least(&block, 1)
}

/// The word of the bytes from a place on; bits past the last byte are 0.
#[inline(always)]
fn word_from(bytes: &[u8], from: usize) -> u64
    ensures { (i : ℕ) → i < 64 → bit_at result i ≡ slice_index (pixels_in_bytes bytes.now) (from + i) }
{
    let rest = &bytes[from.min(bytes.len())..];
    if rest.len() >= 64 {
        u8::at_least(&rest[..64], 1)
    } else {
        last_word(rest)
    }
}

/// Packs a row; bits past its last byte are 0.
fn pack_row(bytes: &[u8], out: &mut [u64])
    requires { length out.old ≤ FAR_LIMIT }
    ensures { (x : ℕ) → x < 64 * length out.old → bit_of out.new x ≡ slice_index (pixels_in_bytes bytes.now) x }
{
    for k in 0..out.len() {
        out[k] = word_from(bytes, 64 * k);
    }
}

/// Packs each row.
fn pack_rows(bytes: &[u8], width: u32, height: u32, out: &mut [u64])
    requires size { length bytes.now ≡ height * width }
    requires room { length out.old ≡ height * stride_of width }
    ensures packed { IsPacked width height out.new }
    ensures samples { samples_of width height out.new ≡ pixels_in_bytes bytes.now }
{
    let stride = stride(width);
    for y in 0..height {
        let first = y as usize * width as usize;
        let start = y as usize * stride;
        pack_row(
            &bytes[first..first + width as usize],
            &mut out[start..start + stride],
        );
    }
}

impl<'a> Set<'a> {
    ghost use Rattle.std.specs.Prelude.{◌≡◌, ◌*◌, length, IfOk};
    ghost use Rattle.mw_model.specs.Rasters.{raster};
    ghost use Rattle.mw_c_arrays.specs.Arrays.{pixels_in_bytes};

    /// Its pixels. It may want memory (`NoMemory`).
    pub fn plane(&self, alloc: Global) -> Result<Plane<Bit>, NoMemory>
        requires { length self.now.pixels.now ≡ self.now.height * self.now.width }
        ensures { IfOk result (λ p. p ≡ raster self.now.width self.now.height (pixels_in_bytes self.now.pixels.now)) }
    {
        let mut words = repeated(alloc, self.height as usize * stride(self.width), 0u64)?;
        pack_rows(self.pixels, self.width, self.height, words.as_mut_slice());
        Ok(Plane::of_words(Words::new(self.width, self.height, words)))
    }
}
