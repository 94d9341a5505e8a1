//! Sets in words written out with a byte a pixel. Eight pixels are written at once, out of a table of those of each byte.

ghost use Rattle.std.specs.Prelude.{◌≡◌, ℕ, ◌+◌, ◌*◌, ◌/◌, ◌%◌, ◌<◌, ◌≤◌, List, length, slice_index};
ghost use Rattle.std.specs.Int.{bit_at};
ghost use Rattle.mw_pixel.specs.mw_pixel_words.Packed.{bit_of, stride_of};
ghost use Rattle.mw_c_arrays.specs.Tables.{IsTable};

use mw_pixel::{Bit, Plane};

/// The pixels of each byte, the lowest bit first.
fn table() -> [u8; 2048]
    ensures { IsTable result }
{
    let mut pixels = [0u8; 2048];
    for k in 0..2048usize {
        pixels[k] = (((k / 8) >> (k % 8)) & 1) as u8;
    }
    pixels
}

/// A byte of a word, the lowest first.
#[inline(always)]
fn byte_of(word: u64, j: usize) -> usize
    requires { j < 8 }
    ensures small { result < 256 }
    ensures bits { (b : ℕ) → b < 8 → bit_at result b ≡ bit_at word (8 * j + b) }
{
    ((word >> (8 * j)) & 255) as usize
}

/// Writes the pixels of a word.
#[inline(always)]
fn put_word(table: &[u8], word: u64, out: &mut [u8])
    requires table { IsTable table.now }
    requires room { length out.old ≡ 64 }
    ensures { (i : ℕ) → i < 64 → slice_index out.new i ≡ bit_at word i }
{
    for j in 0..8usize {
        let at = 8 * byte_of(word, j);
        out[8 * j..8 * j + 8].copy_from_slice(&table[at..at + 8]);
    }
}

/// Writes the first pixels of a word.
fn put_part(table: &[u8], word: u64, out: &mut [u8])
    requires table { IsTable table.now }
    requires few { length out.old ≤ 64 }
    ensures { (i : ℕ) → i < length out.old → slice_index out.new i ≡ bit_at word i }
{
    let mut pixels = [0u8; 64];
    put_word(table, word, &mut pixels);
    out.copy_from_slice(&pixels[..out.len()]);
}

/// Writes the pixels of a row.
fn put_row(table: &[u8], words: &[u64], out: &mut [u8])
    requires table { IsTable table.now }
    requires room { length words.now ≡ stride_of (length out.old) }
    ensures { (x : ℕ) → x < length out.old → slice_index out.new x ≡ bit_of words.now x }
{
    let whole = out.len() / 64;
    for k in 0..whole {
        put_word(table, words[k], &mut out[64 * k..64 * k + 64]);
    }
    if out.len() % 64 > 0 {
        put_part(table, words[whole], &mut out[64 * whole..]);
    }
}

/// Writes a byte for each pixel: 1 where it is of the set, else 0.
pub(crate) fn put_pixels(set: &Plane<Bit>, out: &mut [u8])
    requires { length set.now.cells ≡ length out.old }
    ensures { out.new ≡ set.now.cells }
{
    let table = table();
    let (width, height) = (set.width(), set.height());
    let words = set.words();
    for y in 0..height {
        let start = y as usize * width as usize;
        put_row(
            &table,
            words.row(y),
            &mut out[start..start + width as usize],
        );
    }
}
