//! Extrema of bits that stand equally far apart, by doubling: after j passes each bit is the extremum of 2^j. The bits of
//! all words are one row of places, so one pass takes all rows of a set at once, and rows that lie below one another are
//! merged as bits that stand a whole row apart.
ghost use Rattle.std.specs.Prelude.{◌≡◌, ℕ, ◌+◌, ◌-◌, ◌*◌, ◌<◌, ◌≤◌, ◌^◌, length, slice_index_or};
ghost use Rattle.mw_line.specs.Extrema.{strided};
ghost use Rattle.mw_bits_rows.specs.Rows.{laid_bits};

use crate::WordExtremum;
use crate::shifting::combine_ahead;

/// Each bit that has as many after it becomes the extremum of k bits, each `stride` further on than the one before. The
/// last word is there to be shifted in.
pub fn slide_words<E: WordExtremum>(cells: &mut [u64], stride: usize, k: usize)
    requires positive { 0 < k }
    requires some { 0 < length cells.old }
    requires few { length cells.old < 2 ^ 58 }
    requires room { k * stride < 64 * (length cells.old - 1) + stride }
    ensures { (p d : ℕ) → p + k * stride < 64 * (length cells.old - 1) + stride → slice_index_or (laid_bits cells.new) p d ≡ strided E.merge (laid_bits cells.old) d stride (k - 1) p }
{
    let mut taken = 1usize;
    let mut left = 64 * (cells.len() - 1);
    'doubling: while taken <= k / 2 {
        let shift = taken * stride;
        left -= shift;
        combine_ahead::<E>(cells, shift);
        taken *= 2;
    }
    if taken < k {
        combine_ahead::<E>(cells, (k - taken) * stride);
    }
}
