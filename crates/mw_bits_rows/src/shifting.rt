//! Words merged with words that lie any number of bits further on. The bits of all words are one row of places: place p is
//! bit p % 64 of word p / 64.
ghost use Rattle.std.specs.Prelude.{◌≡◌, ℕ, ◌+◌, ◌-◌, ◌*◌, ◌/◌, ◌%◌, ◌<◌, ◌≤◌, length};
ghost use Rattle.std.specs.Int.{bit_at};
ghost use Rattle.mw_line.specs.mw_pixel_words.Packed.{bit_of};

use crate::WordExtremum;
use mw_line::words::funnel;

/// Merges into each bit the one `start` places further on in the cells.
pub fn combine_from<E: WordExtremum>(cells: &[u64], start: usize, out: &mut [u64])
    requires { start / 64 + length out.old < length cells.now }
    ensures { (q : ℕ) → q < 64 * length out.old → bit_of out.new q ≡ E.merge (bit_of out.old q) (bit_of cells.now (start + q)) }
{
    let first = start / 64;
    let shift = (start % 64) as u32;
    for i in 0..out.len() {
        let ahead = funnel(cells[first + i], cells[first + i + 1], shift);
        out[i] = E::combine_words(out[i], ahead);
    }
}

/// Merges the ones at two places that lie as far into their words: these are merged first, and shifted once.
fn combine_aligned<E: WordExtremum>(cells: &[u64], start: usize, other: usize, out: &mut [u64])
    requires first { start / 64 + length out.old < length cells.now }
    requires second { other / 64 + length out.old < length cells.now }
    requires aligned { start % 64 ≡ other % 64 }
    ensures { (q : ℕ) → q < 64 * length out.old → bit_of out.new q ≡ E.merge (E.merge (bit_of out.old q) (bit_of cells.now (start + q))) (bit_of cells.now (other + q)) }
{
    let (first, second) = (start / 64, other / 64);
    let shift = (start % 64) as u32;
    for i in 0..out.len() {
        let low = E::combine_words(cells[first + i], cells[second + i]);
        let high = E::combine_words(cells[first + i + 1], cells[second + i + 1]);
        out[i] = E::combine_words(out[i], funnel(low, high, shift));
    }
}

/// Merges the ones at two places, each shifted by itself.
fn combine_apart<E: WordExtremum>(cells: &[u64], start: usize, other: usize, out: &mut [u64])
    requires first { start / 64 + length out.old < length cells.now }
    requires second { other / 64 + length out.old < length cells.now }
    ensures { (q : ℕ) → q < 64 * length out.old → bit_of out.new q ≡ E.merge (E.merge (bit_of out.old q) (bit_of cells.now (start + q))) (bit_of cells.now (other + q)) }
{
    let (first, shift) = (start / 64, (start % 64) as u32);
    let (second, turn) = (other / 64, (other % 64) as u32);
    for i in 0..out.len() {
        let near = funnel(cells[first + i], cells[first + i + 1], shift);
        let far = funnel(cells[second + i], cells[second + i + 1], turn);
        let best = E::combine_words(out[i], near);
        out[i] = E::combine_words(best, far);
    }
}

/// Merges into each bit the ones `start` and `other` places further on in the cells, in one pass.
pub fn combine_both<E: WordExtremum>(cells: &[u64], start: usize, other: usize, out: &mut [u64])
    requires first { start / 64 + length out.old < length cells.now }
    requires second { other / 64 + length out.old < length cells.now }
    ensures { (q : ℕ) → q < 64 * length out.old → bit_of out.new q ≡ E.merge (E.merge (bit_of out.old q) (bit_of cells.now (start + q))) (bit_of cells.now (other + q)) }
{
    if start % 64 == other % 64 {
        combine_aligned::<E>(cells, start, other, out);
    } else {
        combine_apart::<E>(cells, start, other, out);
    }
}

/// Merges with each bit the one `shift` places further on, up to the last words.
pub fn combine_ahead<E: WordExtremum>(cells: &mut [u64], shift: usize)
    requires { shift / 64 < length cells.old }
    ensures { (q : ℕ) → q < 64 * (length cells.old - 1 - shift / 64) → bit_of cells.new q ≡ E.merge (bit_of cells.old q) (bit_of cells.old (shift + q)) }
{
    let far = shift / 64;
    let near = (shift % 64) as u32;
    for i in 0..cells.len() - 1 - far {
        let ahead = funnel(cells[far + i], cells[far + i + 1], near);
        cells[i] = E::combine_words(cells[i], ahead);
    }
}
