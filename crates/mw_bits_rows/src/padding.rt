//! A row of pixels merged into a row of words, shifted; where the row has no place, nothing changes.
ghost use Rattle.std.specs.Prelude.{◌≡◌, ℕ, ◌+◌, ◌*◌, ◌<◌, ◌≤◌, ◌^◌, negsuc, pos, ◌+ℤ◌, ◌-ℤ◌, ◌≤ℤ◌, length};
ghost use Rattle.std.specs.Int.{bit_at};
ghost use Rattle.mw_model.specs.declared.limits.TheConstants.{FAR_LIMIT};
ghost use Rattle.mw_line.specs.mw_lane.Shifted.{merge_at};
ghost use Rattle.mw_line.specs.mw_pixel_words.Packed.{bit_of, stride_of};
ghost use Rattle.mw_bits_rows.specs.Rows.{pixel_at, words_before};

use crate::WordExtremum;
use mw_line::words::funnel;

/// So many words are thought to stand before a row, so that no place of interest is negative.
const BEFORE: u64 = 34359738368;

/// A word of a row that goes on with neutral pixels on both sides, counted from `BEFORE` words before the row.
#[inline(always)]
fn padded_word<E: WordExtremum>(row: &[u64], width: u32, at: u64) -> u64
    requires size { length row.now ≡ stride_of width }
    requires clean { (x : ℕ) → width ≤ x → bit_of row.now x ≡ 0 }
    ensures { (i : ℕ) → i < 64 → bit_at result i ≡ merge_at E.merge (E.neutral_of 1) (pixel_at row.now width (pos (64 * at + i) -ℤ pos (64 * words_before))) }
{
    if at < BEFORE || at - BEFORE >= row.len() as u64 {
        return E::neutral_word();
    }
    let k = at - BEFORE;
    let word = row[k as usize];
    let kept = u64::from(width) - 64 * k;
    if kept >= 64 {
        word
    } else {
        word | (E::neutral_word() << kept)
    }
}

/// How many places there are to a column from `BEFORE` words before the row on.
fn places_to(column: i64) -> u64
    requires low { negsuc FAR_LIMIT ≤ℤ column }
    requires high { column ≤ℤ pos FAR_LIMIT }
    ensures value { column ≡ pos result -ℤ pos (64 * words_before) }
    ensures small { result ≤ 2 ^ 42 }
{
    (column + 64 * BEFORE as i64) as u64
}

/// Merges into each bit the pixel of the row so many columns further on, where there is one.
pub fn combine_row<E: WordExtremum>(row: &[u64], width: u32, column: i64, out: &mut [u64])
    requires size { length row.now ≡ stride_of width }
    requires clean { (x : ℕ) → width ≤ x → bit_of row.now x ≡ 0 }
    requires low { negsuc FAR_LIMIT ≤ℤ column }
    requires high { column ≤ℤ pos FAR_LIMIT }
    requires few { length out.old ≤ FAR_LIMIT }
    ensures { (x : ℕ) → x < 64 * length out.old → bit_of out.new x ≡ merge_at E.merge (bit_of out.old x) (pixel_at row.now width (column +ℤ pos x)) }
{
    let from = places_to(column);
    let first = from / 64;
    let shift = (from % 64) as u32;
    let mut low = padded_word::<E>(row, width, first);
    for i in 0..out.len() {
        let high = padded_word::<E>(row, width, first + i as u64 + 1);
        out[i] = E::combine_words(out[i], funnel(low, high, shift));
        low = high;
    }
}
