//! Extrema down columns: of rows that stand a stride behind one another, vector by vector.
ghost use Rattle.std.specs.Prelude.{◌≡◌, ℕ, ◌+◌, ◌-◌, ◌*◌, ◌<◌, ◌≤◌, length, slice_index_or};
ghost use Rattle.mw_line_lent.specs.Bests.{IsBest};
ghost use Rattle.mw_line_lent.specs.Boxes.{IsPutAt};

use crate::extrema::LanedExtremum;
use crate::lanes::Laned;
use mw_line::pixel::Pixel;

/// So many rows, from a place on, each `stride` behind the one before.
#[derive(Clone, Copy)]
pub(crate) struct Rows<'a, P: Pixel> {
    pub samples: &'a [P],
    pub from: usize,
    pub stride: usize,
    pub count: usize,
}

/// The same rows, with a count that the compiler knows where this is called with a number: it unrolls the loop over them.
#[inline(always)]
pub(crate) fn by_number<P: Pixel>(rows: Rows<P>, count: usize) -> Rows<P>
    requires { rows.count ≡ count }
    ensures { result ≡ rows.entry }
{
    Rows { count, ..rows }
}

/// The extremum of the neutral sample and all rows, from column `at` on.
#[inline(always)]
pub(crate) fn best_of_rows<P: Laned, E: LanedExtremum<P>>(
    rows: Rows<P>,
    at: usize,
    neutral: P,
) -> P::Vector
    requires some { 0 < rows.count }
    requires inside { rows.from + (rows.count - 1) * rows.stride + at + P.WIDTH ≤ length rows.samples.now }
    ensures { (i : ℕ) (d : P) → i < P.WIDTH → IsBest E.merge (λ j. E.merge neutral (slice_index_or rows.entry.samples.now (rows.entry.from + j * rows.entry.stride + (at + i)) d)) 0 rows.entry.count (P.lane result i) }
{
    let from = rows.from + at;
    let sample = P::all(neutral);
    let first = P::load(rows.samples, from);
    let start = E::merged(sample, first);
    let mut best = start;
    for row in 1..rows.count {
        let next = P::load(rows.samples, from + row * rows.stride);
        best = E::merged(best, next);
    }
    best
}

/// Writes the extrema of the neutral sample and all rows, of so many columns. The last vector begins early enough to end with
/// them.
#[inline(never)]
pub(crate) fn put_down<P: Laned, E: LanedExtremum<P>>(
    rows: Rows<P>,
    neutral: P,
    out: &mut [P],
    at: usize,
    n: usize,
)
    requires some { 0 < rows.count }
    requires wide { P.WIDTH ≤ n }
    requires inside { rows.from + (rows.count - 1) * rows.stride + n ≤ length rows.samples.now }
    requires room { at + n ≤ length out.old }
    ensures put { IsPutAt at n out.old out.new }
    ensures made { (i : ℕ) (d : P) → i < n → IsBest E.merge (λ j. E.merge neutral (slice_index_or rows.entry.samples.now (rows.entry.from + j * rows.entry.stride + i) d)) 0 rows.entry.count (slice_index_or out.new (at + i) d) }
{
    let mut done = 0usize;
    'by_vector: while done < n {
        let from = done.min(n - P::WIDTH);
        let best = best_of_rows::<P, E>(rows, from, neutral);
        P::store(best, out, at + from);
        done = from + P::WIDTH;
    }
}
