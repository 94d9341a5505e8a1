//! Extrema of columns, by doubling, while the rows are made: after each row those rows are merged with one further down
//! that have 2, 4, 8 .. rows from them on by then, and the one that has all of its column. So a row is merged while it
//! still lies in the processor's cache. One pass over all rows for each power of 2 would read each row from memory
//! as often.
ghost use Rattle.std.specs.Prelude.{◌≡◌, ℕ, ◌+◌, ◌*◌, ◌<◌, ◌≤◌, length, slice_index_or};
ghost use Rattle.mw_line.specs.Columns.{IsGrown};

use mw_lane::combine_ahead;
use mw_tile::pixel::{Extremum, Pixel};

/// Merges into a row the one that is `down` rows below it.
fn merge_row<P: Pixel, E: Extremum<P>>(rows: &mut [P], width: usize, at: usize, down: usize)
    requires { (at + down + 1) * width ≤ length rows.old }
    ensures row { (x : ℕ) (d : P) → x < width → slice_index_or rows.new (at * width + x) d ≡ E.merge (slice_index_or rows.old (at * width + x) d) (slice_index_or rows.old ((at + down) * width + x) d) }
    ensures above { (x y : ℕ) (d : P) → x < width → y < at → slice_index_or rows.new (y * width + x) d ≡ slice_index_or rows.old (y * width + x) d }
    ensures below { (x y : ℕ) (d : P) → x < width → at < y → slice_index_or rows.new (y * width + x) d ≡ slice_index_or rows.old (y * width + x) d }
{
    let start = at * width;
    let shift = down * width;
    combine_ahead::<P, E>(&mut rows[start..start + (shift + width)], shift, width);
}

/// Takes extrema of up to `k` samples of each column on by the row that was made last.
pub(crate) fn grow<P: Pixel, E: Extremum<P>>(rows: &mut [P], width: usize, last: usize, k: usize)
    requires some { 0 < k }
    requires size { (last + 1) * width ≤ length rows.old }
    ensures { (value : ℕ → ℕ → P) (d : P) → IsGrown E.merge value d width k last rows.old → ((x : ℕ) → x < width → slice_index_or rows.old (last * width + x) d ≡ value x last) → IsGrown E.merge value d width k (last + 1) rows.new }
{
    let mut taken = 1usize;
    let mut at = last;
    'doubling: while taken <= k / 2 && taken <= at {
        at -= taken;
        merge_row::<P, E>(rows, width, at, taken);
        taken *= 2;
    }
    if taken < k && k - taken <= at {
        merge_row::<P, E>(rows, width, at - (k - taken), k - taken);
    }
}
