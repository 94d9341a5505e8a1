//! What distances begin with: the top at each pixel of the set, and 0 outside it.

ghost use Rattle.std.specs.Prelude.{◌≡◌, ℕ, ◌*◌, ◌<◌, length};
ghost use Rattle.std.specs.Int.{bit_at};
ghost use Rattle.mw_pixel.specs.mw_pixel_words.Packed.{bit_of, stride_of};
ghost use Rattle.mw_geodesic_distances.specs.Rows.{distance_at, begin_of_bit};
ghost use Rattle.mw_geodesic_distances.specs.Grids.{grid};

use mw_pixel::Words;

/// The number of the pixel that a bit of a word is.
#[inline(always)]
fn number_of(word: u64, bit: u32, top: u32) -> u32
    requires { bit < 64 }
    ensures { result ≡ begin_of_bit top (bit_at word bit) }
{
    if (word >> bit) & 1 == 1 { top } else { 0 }
}

/// Writes the numbers of a row of pixels.
fn begin_row(row: &mut [u32], words: &[u64], top: u32)
    requires { length words.now ≡ stride_of (length row.old) }
    ensures { (x : ℕ) → x < length row.old → distance_at row.new x ≡ begin_of_bit top (bit_of words.now x) }
{
    for x in 0..row.len() {
        row[x] = number_of(words[x / 64], (x % 64) as u32, top);
    }
}

/// Writes the numbers of all places of a set.
pub(crate) fn begin(numbers: &mut [u32], set: &Words, top: u32)
    requires { length numbers.old ≡ set.now.height * set.now.width }
    ensures { (x y : ℕ) → x < set.now.width → y < set.now.height → grid set.now.width numbers.new x y ≡ begin_of_bit top (grid set.now.width set.now.cells x y) }
{
    let width = set.width() as usize;
    for y in 0..set.height() {
        let start = y as usize * width;
        begin_row(&mut numbers[start..start + width], set.row(y), top);
    }
}
