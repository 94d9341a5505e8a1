//! Blocks of two vectors: the cells at some places are merged into them while they stay in registers, and each is written once.
ghost use Rattle.std.specs.Prelude.{◌≡◌, ℕ, ◌+◌, ◌*◌, ◌<◌, ◌≤◌, length, slice_index_or};
ghost use Rattle.std.specs.List.{AllByRecursion};
ghost use Rattle.mw_line_lent.specs.Boxes.{IsPutAt};
ghost use Rattle.mw_offset_lent.specs.Places.{merged_at};

use mw_line_lent::{Laned, LanedExtremum};

/// Merges into two vectors the cells that stand `at` places after each of the places.
#[inline(always)]
pub(crate) fn merge_places<P: Laned, E: LanedExtremum<P>>(
    cells: &[P],
    places: &[usize],
    at: usize,
    best: (P::Vector, P::Vector),
) -> (P::Vector, P::Vector)
    requires { AllByRecursion (λ p. p + (at + 2 * P.WIDTH) ≤ length cells.now) places.now }
    ensures first { (i : ℕ) (d : P) → i < P.WIDTH → P.lane result.0 i ≡ merged_at E.merge cells.now d (at + i) (P.lane best.0 i) places.now }
    ensures second { (i : ℕ) (d : P) → i < P.WIDTH → P.lane result.1 i ≡ merged_at E.merge cells.now d (at + P.WIDTH + i) (P.lane best.1 i) places.now }
{
    let (mut first, mut second) = best;
    for place in places {
        let from = *place + at;
        first = E::merged(first, P::load(cells, from));
        second = E::merged(second, P::load(cells, from + P::WIDTH));
    }
    (first, second)
}

/// Writes two vectors behind one another.
#[inline(always)]
pub(crate) fn store_both<P: Laned>(both: (P::Vector, P::Vector), out: &mut [P], at: usize)
    requires { at + 2 * P.WIDTH ≤ length out.old }
    ensures put { IsPutAt at (2 * P.WIDTH) out.old out.new }
    ensures first { (i : ℕ) (d : P) → i < P.WIDTH → slice_index_or out.new (at + i) d ≡ P.lane both.0 i }
    ensures second { (i : ℕ) (d : P) → i < P.WIDTH → slice_index_or out.new (at + P.WIDTH + i) d ≡ P.lane both.1 i }
{
    let (first, second) = both;
    P::store(first, out, at);
    P::store(second, out, at + P::WIDTH);
}

/// Writes a block from a place on: the extrema of the neutral sample and the cells at the places, as seen `from` places on.
#[inline(always)]
pub(crate) fn put_block<P: Laned, E: LanedExtremum<P>>(
    cells: &[P],
    places: &[usize],
    from: usize,
    neutral: P,
    out: &mut [P],
    at: usize,
)
    requires inside { AllByRecursion (λ p. p + (from + 2 * P.WIDTH) ≤ length cells.now) places.now }
    requires room { at + 2 * P.WIDTH ≤ length out.old }
    ensures put { IsPutAt at (2 * P.WIDTH) out.old out.new }
    ensures made { (i : ℕ) → i < 2 * P.WIDTH → slice_index_or out.new (at + i) neutral ≡ merged_at E.merge cells.now neutral (from + i) neutral places.now }
{
    let start = P::all(neutral);
    let best = merge_places::<P, E>(cells, places, from, (start, start));
    store_both::<P>(best, out, at);
}

/// Writes one vector from a place on, in the same way.
#[inline(always)]
pub(crate) fn put_vector<P: Laned, E: LanedExtremum<P>>(
    cells: &[P],
    places: &[usize],
    from: usize,
    neutral: P,
    out: &mut [P],
    at: usize,
)
    requires inside { AllByRecursion (λ p. p + (from + P.WIDTH) ≤ length cells.now) places.now }
    requires room { at + P.WIDTH ≤ length out.old }
    ensures put { IsPutAt at P.WIDTH out.old out.new }
    ensures made { (i : ℕ) → i < P.WIDTH → slice_index_or out.new (at + i) neutral ≡ merged_at E.merge cells.now neutral (from + i) neutral places.now }
{
    let mut best = P::all(neutral);
    for place in places {
        best = E::merged(best, P::load(cells, *place + from));
    }
    P::store(best, out, at);
}
