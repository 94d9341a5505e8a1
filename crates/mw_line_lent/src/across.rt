//! Extrema across lines: of places that stand equally far apart, vector by vector.
ghost use Rattle.std.specs.Prelude.{◌≡◌, ℕ, ◌+◌, ◌-◌, ◌*◌, ◌<◌, ◌≤◌, length, slice_index_or};
ghost use Rattle.mw_line_lent.specs.Bests.{IsBest};
ghost use Rattle.mw_line_lent.specs.Boxes.{IsPutAt};

use crate::extrema::LanedExtremum;
use crate::lanes::Laned;

/// The first `count` of the places that are `step` apart, from a place on, and the one that lies `last` behind the first.
#[derive(Clone, Copy)]
pub(crate) struct Taps {
    pub from: usize,
    pub step: usize,
    pub count: usize,
    pub last: usize,
}

/// The extremum of the taps at each of the places from `at` on. Where the line has windows of `step` values, these are windows of
/// `last` values more.
#[inline(always)]
pub(crate) fn best_of_taps<P: Laned, E: LanedExtremum<P>>(
    line: &[P],
    taps: Taps,
    at: usize,
) -> P::Vector
    requires joined { taps.last ≤ taps.count * taps.step }
    requires near { (taps.count - 1) * taps.step ≤ taps.last }
    requires inside { taps.from + at + taps.last + P.WIDTH ≤ length line.now }
    ensures { (value : ℕ → P) (i : ℕ) (d : P) → i < P.WIDTH → ((j : ℕ) → j ≤ taps.last → IsBest E.merge value (at + i + j) (at + i + j + taps.step) (slice_index_or line.now (taps.from + (at + i + j)) d)) → IsBest E.merge value (at + i) (at + i + (taps.last + taps.step)) (P.lane result i) }
{
    let from = taps.from + at;
    let mut best = P::load(line, from);
    for tap in 1..taps.count {
        best = E::merged(best, P::load(line, from + tap * taps.step));
    }
    E::merged(best, P::load(line, from + taps.last))
}

/// Writes the extrema of the taps at so many places of the line. The last vector begins early enough to end with them.
#[inline(always)]
fn put_taps<P: Laned, E: LanedExtremum<P>>(
    line: &[P],
    taps: Taps,
    out: &mut [P],
    at: usize,
    n: usize,
)
    requires joined { taps.last ≤ taps.count * taps.step }
    requires near { (taps.count - 1) * taps.step ≤ taps.last }
    requires wide { P.WIDTH ≤ n }
    requires inside { taps.from + n + taps.last ≤ length line.now }
    requires room { at + n ≤ length out.old }
    ensures put { IsPutAt at n out.old out.new }
    ensures made { (value : ℕ → P) (i : ℕ) (d : P) → i < n → ((j : ℕ) → j < n + taps.last → IsBest E.merge value j (j + taps.step) (slice_index_or line.now (taps.from + j) d)) → IsBest E.merge value i (i + (taps.last + taps.step)) (slice_index_or out.new (at + i) d) }
{
    let mut done = 0usize;
    'by_vector: while done < n {
        let from = done.min(n - P::WIDTH);
        let best = best_of_taps::<P, E>(line, taps, from);
        P::store(best, out, at + from);
        done = from + P::WIDTH;
    }
}

/// The same taps, with a step and a count that the compiler knows where they are called by numbers: it unrolls the loop over them.
#[inline(always)]
pub(crate) fn by_numbers(taps: Taps, step: usize, count: usize) -> Taps
    requires step { taps.step ≡ step }
    requires count { taps.count ≡ count }
    ensures { result ≡ taps }
{
    Taps {
        step,
        count,
        ..taps
    }
}

/// Writes the extrema of the taps at so many places of the line. The numbers are those of boxes of 3, 5, 7, 9, 13 to 16
/// and 33 to 64 columns.
#[inline(never)]
pub(crate) fn put_across<P: Laned, E: LanedExtremum<P>>(
    line: &[P],
    taps: Taps,
    out: &mut [P],
    at: usize,
    n: usize,
)
    requires joined { taps.last ≤ taps.count * taps.step }
    requires near { (taps.count - 1) * taps.step ≤ taps.last }
    requires wide { P.WIDTH ≤ n }
    requires inside { taps.from + n + taps.last ≤ length line.now }
    requires room { at + n ≤ length out.old }
    ensures put { IsPutAt at n out.old out.new }
    ensures made { (value : ℕ → P) (i : ℕ) (d : P) → i < n → ((j : ℕ) → j < n + taps.last → IsBest E.merge value j (j + taps.step) (slice_index_or line.now (taps.from + j) d)) → IsBest E.merge value i (i + (taps.last + taps.step)) (slice_index_or out.new (at + i) d) }
{
    match (taps.step, taps.count) {
        (1, 2) => put_taps::<P, E>(line, by_numbers(taps, 1, 2), out, at, n),
        (1, 3) => put_taps::<P, E>(line, by_numbers(taps, 1, 3), out, at, n),
        (1, 4) => put_taps::<P, E>(line, by_numbers(taps, 1, 4), out, at, n),
        (1, 6) => put_taps::<P, E>(line, by_numbers(taps, 1, 6), out, at, n),
        (1, 8) => put_taps::<P, E>(line, by_numbers(taps, 1, 8), out, at, n),
        (4, 3) => put_taps::<P, E>(line, by_numbers(taps, 4, 3), out, at, n),
        (16, 2) => put_taps::<P, E>(line, by_numbers(taps, 16, 2), out, at, n),
        (16, 3) => put_taps::<P, E>(line, by_numbers(taps, 16, 3), out, at, n),
        _ => put_taps::<P, E>(line, taps, out, at, n),
    }
}
