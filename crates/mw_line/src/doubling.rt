//! Extrema of samples that stand equally far apart, by doubling: after j passes each sample is the extremum of 2^j.
ghost use Rattle.std.specs.Prelude.{◌≡◌, ℕ, ◌+◌, ◌-◌, ◌*◌, ◌<◌, ◌≤◌, length, slice_index_or};
ghost use Rattle.mw_line.specs.Extrema.{strided};

use mw_lane::combine_ahead;
use mw_tile::pixel::{Extremum, Pixel};

/// That many places, or as many more as fill blocks of 64, where there is room.
fn whole_blocks(count: usize, room: usize) -> usize
    requires { count ≤ room }
    ensures enough { count ≤ result }
    ensures few { result ≤ count + 63 }
    ensures fits { result ≤ room }
{
    if room - count < 63 {
        return count;
    }
    (count + 63) / 64 * 64
}

/// Each of the first `len` samples that has as many after it there becomes the extremum of k samples, each `stride`
/// further on than the one before. The samples from `len + 63` on stay as they are. What those between become is not said:
/// where there is room, each pass goes by whole blocks.
pub fn slide_by<P: Pixel, E: Extremum<P>>(row: &mut [P], len: usize, stride: usize, k: usize)
    requires positive { 0 < k }
    requires within { len ≤ length row.old }
    requires room { k * stride < len + stride }
    ensures windows { (p : ℕ) (d : P) → p + k * stride < len + stride → slice_index_or row.new p d ≡ strided E.merge row.old d stride (k - 1) p }
    ensures past { (p : ℕ) (d : P) → len + 63 ≤ p → slice_index_or row.new p d ≡ slice_index_or row.old p d }
{
    let mut taken = 1usize;
    let mut left = len;
    'doubling: while taken <= k / 2 {
        let shift = taken * stride;
        left -= shift;
        let count = whole_blocks(left, row.len() - shift);
        combine_ahead::<P, E>(row, shift, count);
        taken *= 2;
    }
    if taken < k {
        let shift = (k - taken) * stride;
        left -= shift;
        let count = whole_blocks(left, row.len() - shift);
        combine_ahead::<P, E>(row, shift, count);
    }
}
