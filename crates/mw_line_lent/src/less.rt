//! Rows of results of narrow boxes: by taps, across two lines an extremum of the one less another of the other, vector by vector.
ghost use Rattle.std.specs.Prelude.{◌≡◌, ℕ, ◌+◌, ◌-◌, ◌*◌, ◌<◌, ◌≤◌, ◌^◌, length, slice_index_or};
ghost use Rattle.mw_line_lent.specs.Boxes.{IsPutAt, IsSuited, wide_of};
ghost use Rattle.mw_line_lent.specs.Differences.{HasTapsLess, IsBestLess};

use crate::across::{Taps, best_of_taps, by_numbers};
use crate::boxes::Boxes;
use crate::extrema::LanedExtremum;
use crate::lanes_less::LanedLess;
use mw_line::pixel::Pixel;

/// Two lines, or some of each one behind another.
#[derive(Clone, Copy)]
pub(crate) struct Both<'a, P: Pixel> {
    pub uppers: &'a [P],
    pub lowers: &'a [P],
}

/// Writes at so many places the extremum of the taps in one line, less the other extremum of those in the other. The last vector
/// begins early enough to end with them.
#[inline(always)]
fn put_taps_less<P: LanedLess, U: LanedExtremum<P>, L: LanedExtremum<P>>(
    lines: Both<P>,
    taps: Taps,
    out: &mut [P],
    at: usize,
    n: usize,
)
    requires joined { taps.last ≤ taps.count * taps.step }
    requires near { (taps.count - 1) * taps.step ≤ taps.last }
    requires wide { P.WIDTH ≤ n }
    requires inside_upper { taps.from + n + taps.last ≤ length lines.uppers.now }
    requires inside_lower { taps.from + n + taps.last ≤ length lines.lowers.now }
    requires room { at + n ≤ length out.old }
    ensures put { IsPutAt at n out.old out.new }
    ensures made { HasTapsLess P.level U.merge lines.entry.uppers.now L.merge lines.entry.lowers.now taps n at out.new }
{
    let mut done = 0usize;
    'by_vector: while done < n {
        let from = done.min(n - P::WIDTH);
        let high = best_of_taps::<P, U>(lines.uppers, taps, from);
        let low = best_of_taps::<P, L>(lines.lowers, taps, from);
        let less = P::less(high, low);
        P::store(less, out, at + from);
        done = from + P::WIDTH;
    }
}

/// The same, where the compiler unrolls the loop over the taps of boxes of 3, 4, 5, 7 and 9 columns.
#[inline(never)]
fn put_across_less<P: LanedLess, U: LanedExtremum<P>, L: LanedExtremum<P>>(
    lines: Both<P>,
    taps: Taps,
    out: &mut [P],
    at: usize,
    n: usize,
)
    requires joined { taps.last ≤ taps.count * taps.step }
    requires near { (taps.count - 1) * taps.step ≤ taps.last }
    requires wide { P.WIDTH ≤ n }
    requires inside_upper { taps.from + n + taps.last ≤ length lines.uppers.now }
    requires inside_lower { taps.from + n + taps.last ≤ length lines.lowers.now }
    requires room { at + n ≤ length out.old }
    ensures put { IsPutAt at n out.old out.new }
    ensures made { HasTapsLess P.level U.merge lines.entry.uppers.now L.merge lines.entry.lowers.now taps n at out.new }
{
    match (taps.step, taps.count) {
        (1, 2) => put_taps_less::<P, U, L>(lines, by_numbers(taps, 1, 2), out, at, n),
        (1, 3) => put_taps_less::<P, U, L>(lines, by_numbers(taps, 1, 3), out, at, n),
        (1, 4) => put_taps_less::<P, U, L>(lines, by_numbers(taps, 1, 4), out, at, n),
        (1, 6) => put_taps_less::<P, U, L>(lines, by_numbers(taps, 1, 6), out, at, n),
        (1, 8) => put_taps_less::<P, U, L>(lines, by_numbers(taps, 1, 8), out, at, n),
        _ => put_taps_less::<P, U, L>(lines, taps, out, at, n),
    }
}

/// Writes the row of two lines.
fn put_row_less<P: LanedLess, U: LanedExtremum<P>, L: LanedExtremum<P>>(
    lines: Both<P>,
    from: usize,
    boxes: Boxes,
    out: &mut [P],
    at: usize,
)
    requires suited { IsSuited P.WIDTH boxes }
    requires inside_upper { from + wide_of boxes ≤ length lines.uppers.now }
    requires inside_lower { from + wide_of boxes ≤ length lines.lowers.now }
    requires room { at + boxes.width ≤ length out.old }
    ensures put { IsPutAt at boxes.width out.old out.new }
    ensures made { (i : ℕ) (d e : P) → i < boxes.width → IsBestLess P.level U.merge (λ j. slice_index_or lines.entry.uppers.now (from + j) d) L.merge (λ j. slice_index_or lines.entry.lowers.now (from + j) e) i (i + boxes.across) (slice_index_or out.new (at + i) d) }
{
    let taps = Taps {
        from,
        step: 1,
        count: boxes.across - 1,
        last: boxes.across - 1,
    };
    put_across_less::<P, U, L>(lines, taps, out, at, boxes.width);
}

/// Writes the rows of so many pairs of lines, one after another.
pub(crate) fn put_rows_less<P: LanedLess, U: LanedExtremum<P>, L: LanedExtremum<P>>(
    lines: Both<P>,
    count: usize,
    boxes: Boxes,
    out: &mut [P],
    at: usize,
)
    requires suited { IsSuited P.WIDTH boxes }
    requires some { 0 < count }
    requires uppers { count * wide_of boxes ≤ length lines.uppers.now }
    requires lowers { count * wide_of boxes ≤ length lines.lowers.now }
    requires room { at + count * boxes.width ≤ length out.old }
    ensures put { IsPutAt at (count * boxes.width) out.old out.new }
    ensures made { (r i : ℕ) (d e : P) → r < count → i < boxes.width → IsBestLess P.level U.merge (λ j. slice_index_or lines.entry.uppers.now (r * wide_of boxes + j) d) L.merge (λ j. slice_index_or lines.entry.lowers.now (r * wide_of boxes + j) e) i (i + boxes.across) (slice_index_or out.new (at + (r * boxes.width + i)) d) }
{
    let wide = boxes.width + (boxes.across - 1);
    for r in 0..count {
        put_row_less::<P, U, L>(lines, r * wide, boxes, out, at + r * boxes.width);
    }
}
