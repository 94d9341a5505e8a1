//! Words unpacked into pixels, eight at a time.
ghost use Rattle.std.specs.Prelude.{◌≡◌, ℕ, ◌*◌, ◌+◌, ◌<◌, ◌≤◌, ◌^◌, length, slice_index};
ghost use Rattle.std.specs.Int.{bit_at};
ghost use Rattle.mw_line.specs.mw_pixel_words.Packed.{bit_of};

use mw_line::pixel::Bit;

/// Writes the pixels of a byte.
#[inline(always)]
fn unpack_byte(byte: u8, out: &mut [Bit])
    requires { length out.old ≡ 8 }
    ensures { (i : ℕ) → i < 8 → slice_index out.new i ≡ bit_at byte i }
{
    for i in 0..8usize {
        out[i] = Bit::new(byte & (1 << i) != 0);
    }
}

/// Writes the pixels of a word.
#[inline(always)]
fn unpack_word(word: u64, out: &mut [Bit])
    requires { length out.old ≡ 64 }
    ensures { (i : ℕ) → i < 64 → slice_index out.new i ≡ bit_at word i }
{
    for j in 0..8usize {
        let byte = ((word >> (8 * j)) & 255) as u8;
        unpack_byte(byte, &mut out[8 * j..8 * j + 8]);
    }
}

/// Writes the pixels of a row of words.
pub fn unpack_row(row: &[u64], out: &mut [Bit])
    requires { length out.old ≡ 64 * length row.now }
    ensures { (x : ℕ) → x < 64 * length row.now → slice_index out.new x ≡ bit_of row.now x }
{
    for k in 0..row.len() {
        unpack_word(row[k], &mut out[64 * k..64 * k + 64]);
    }
}
