//! Columns of two rows of results, four vectors at a time: each place is read for more of them, and where the compiler knows how
//! many places there are, it unrolls the loops over them.
ghost use Rattle.std.specs.Prelude.{◌≡◌, ℕ, ◌+◌, ◌-◌, ◌*◌, ◌<◌, ◌≤◌, length, slice_index_or};
ghost use Rattle.std.specs.List.{AllByRecursion};
ghost use Rattle.mw_line_lent.specs.Boxes.{IsPutAt, IsPutInRows};
ghost use Rattle.mw_offset_lent.specs.Places.{merged_at};
ghost use Rattle.mw_offset_lent.specs.Counts.{HasCounts};
ghost use Rattle.mw_offset_lent.specs.Splits.{IsSplit};

use crate::blocks::store_both;
use crate::pairs::{Split, Two};
use mw_line_lent::{Laned, LanedExtremum};

/// Four vectors behind one another.
#[derive(Clone, Copy)]
struct Four<V> {
    first: V,
    second: V,
    third: V,
    fourth: V,
}

/// Merges into four vectors the cells that stand `at` places after each of so many places, which are all.
#[inline(always)]
fn merge_four<P: Laned, E: LanedExtremum<P>>(
    cells: &[P],
    places: &[usize],
    count: usize,
    at: usize,
    best: Four<P::Vector>,
) -> Four<P::Vector>
    requires count { count ≡ length places.now }
    requires inside { AllByRecursion (λ p. p + (at + 4 * P.WIDTH) ≤ length cells.now) places.now }
    ensures first { (i : ℕ) (d : P) → i < P.WIDTH → P.lane result.first i ≡ merged_at E.merge cells.now d (at + i) (P.lane best.first i) places.now }
    ensures second { (i : ℕ) (d : P) → i < P.WIDTH → P.lane result.second i ≡ merged_at E.merge cells.now d (at + P.WIDTH + i) (P.lane best.second i) places.now }
    ensures third { (i : ℕ) (d : P) → i < P.WIDTH → P.lane result.third i ≡ merged_at E.merge cells.now d (at + 2 * P.WIDTH + i) (P.lane best.third i) places.now }
    ensures fourth { (i : ℕ) (d : P) → i < P.WIDTH → P.lane result.fourth i ≡ merged_at E.merge cells.now d (at + 2 * P.WIDTH + P.WIDTH + i) (P.lane best.fourth i) places.now }
{
    let Four {
        mut first,
        mut second,
        mut third,
        mut fourth,
    } = best;
    for i in 0..count {
        let from = places[i] + at;
        first = E::merged(first, P::load(cells, from));
        second = E::merged(second, P::load(cells, from + P::WIDTH));
        third = E::merged(third, P::load(cells, from + 2 * P::WIDTH));
        fourth = E::merged(fourth, P::load(cells, from + 3 * P::WIDTH));
    }
    Four {
        first,
        second,
        third,
        fourth,
    }
}

/// Writes four vectors behind one another.
#[inline(always)]
fn store_four<P: Laned>(four: Four<P::Vector>, out: &mut [P], at: usize)
    requires { at + 4 * P.WIDTH ≤ length out.old }
    ensures put { IsPutAt at (4 * P.WIDTH) out.old out.new }
    ensures first { (i : ℕ) (d : P) → i < P.WIDTH → slice_index_or out.new (at + i) d ≡ P.lane four.first i }
    ensures second { (i : ℕ) (d : P) → i < P.WIDTH → slice_index_or out.new (at + P.WIDTH + i) d ≡ P.lane four.second i }
    ensures third { (i : ℕ) (d : P) → i < P.WIDTH → slice_index_or out.new (at + 2 * P.WIDTH + i) d ≡ P.lane four.third i }
    ensures fourth { (i : ℕ) (d : P) → i < P.WIDTH → slice_index_or out.new (at + 2 * P.WIDTH + P.WIDTH + i) d ≡ P.lane four.fourth i }
{
    store_both::<P>((four.first, four.second), out, at);
    store_both::<P>((four.third, four.fourth), out, at + 2 * P::WIDTH);
}

/// A split, and how many places each of its lists has: numbers, where the compiler is to unroll the loops over them.
#[derive(Clone, Copy)]
struct Counted<'a> {
    split: Split<'a>,
    shared: usize,
    upper: usize,
    lower: usize,
}

/// Writes four vectors of each of two rows.
#[inline(always)]
fn put_wide_blocks<P: Laned, E: LanedExtremum<P>>(
    cells: &[P],
    counted: Counted,
    from: usize,
    neutral: P,
    out: &mut [P],
    two: Two,
)
    requires split { IsSplit P.WIDTH counted.split }
    requires counts { HasCounts counted }
    requires inside { AllByRecursion (λ p. p + (from + counted.split.ahead + 4 * P.WIDTH) ≤ length cells.now) counted.split.all.now }
    requires cells { from + counted.split.ahead + 4 * P.WIDTH ≤ length cells.now }
    requires apart { 4 * P.WIDTH ≤ two.apart }
    requires room { two.at + two.apart + 4 * P.WIDTH ≤ length out.old }
    ensures put { IsPutInRows 2 two.at (4 * P.WIDTH) two.apart out.old out.new }
    ensures made { (r i : ℕ) → r < 2 → i < 4 * P.WIDTH → slice_index_or out.new (two.at + r * two.apart + i) neutral ≡ merged_at E.merge cells.now neutral (from + r * counted.entry.split.ahead + i) neutral counted.entry.split.all.now }
{
    let split = counted.split;
    let sample = P::all(neutral);
    let start = Four {
        first: sample,
        second: sample,
        third: sample,
        fourth: sample,
    };
    let both = merge_four::<P, E>(cells, split.shared, counted.shared, from, start);
    let upper = merge_four::<P, E>(cells, split.upper, counted.upper, from, both);
    store_four::<P>(upper, out, two.at);
    let lower = merge_four::<P, E>(cells, split.lower, counted.lower, from + split.ahead, both);
    store_four::<P>(lower, out, two.at + two.apart);
}

/// Writes columns of two rows, four vectors at a time, as many as there are. Returns how many.
#[inline(always)]
fn put_wide_over<P: Laned, E: LanedExtremum<P>>(
    cells: &[P],
    counted: Counted,
    from: usize,
    neutral: P,
    out: &mut [P],
    two: Two,
) -> usize
    requires split { IsSplit P.WIDTH counted.split }
    requires counts { HasCounts counted }
    requires cells { from + counted.split.ahead + (counted.split.width - counted.split.left - counted.split.right) ≤ length cells.now }
    requires inside { AllByRecursion (λ p. p + (from + counted.split.ahead + (counted.split.width - counted.split.left - counted.split.right)) ≤ length cells.now) counted.split.all.now }
    requires apart { counted.split.width - counted.split.left - counted.split.right ≤ two.apart }
    requires room { two.at + two.apart + (counted.split.width - counted.split.left - counted.split.right) ≤ length out.old }
    ensures within { result ≤ counted.entry.split.width - counted.entry.split.left - counted.entry.split.right }
    ensures put { IsPutInRows 2 two.at (counted.entry.split.width - counted.entry.split.left - counted.entry.split.right) two.apart out.old out.new }
    ensures made { (r i : ℕ) → r < 2 → i < result → slice_index_or out.new (two.at + r * two.apart + i) neutral ≡ merged_at E.merge cells.now neutral (from + r * counted.entry.split.ahead + i) neutral counted.entry.split.all.now }
{
    let split = counted.split;
    let n = split.width - split.left - split.right;
    let mut done = 0usize;
    'by_block: while n - done >= 4 * P::WIDTH {
        let there = Two {
            at: two.at + done,
            apart: two.apart,
        };
        put_wide_blocks::<P, E>(cells, counted, from + done, neutral, out, there);
        done += 4 * P::WIDTH;
    }
    done
}

/// The counts of a split.
fn counted_of<'a>(split: Split<'a>) -> Counted<'a>
    ensures split { result.split ≡ split.entry }
    ensures counts { HasCounts result }
{
    Counted {
        split,
        shared: split.shared.len(),
        upper: split.upper.len(),
        lower: split.lower.len(),
    }
}

/// The counts of a split by numbers: of the places that two rows share, and of those that either has to itself.
#[inline(always)]
fn by_numbers<'a>(split: Split<'a>, shared: usize, own: usize) -> Counted<'a>
    requires shared { length split.shared.now ≡ shared }
    requires upper { length split.upper.now ≡ own }
    requires lower { length split.lower.now ≡ own }
    ensures split { result.split ≡ split.entry }
    ensures counts { HasCounts result }
{
    Counted {
        split,
        shared,
        upper: own,
        lower: own,
    }
}

/// Writes columns of two rows, four vectors at a time, as many as there are. Returns how many. The numbers are those of crosses
/// of 3 and 5, and of discs of 5 and 7.
#[inline(never)]
fn put_wide_by_numbers<P: Laned, E: LanedExtremum<P>>(
    cells: &[P],
    split: Split,
    from: usize,
    neutral: P,
    out: &mut [P],
    two: Two,
) -> usize
    requires split { IsSplit P.WIDTH split }
    requires cells { from + split.ahead + (split.width - split.left - split.right) ≤ length cells.now }
    requires inside { AllByRecursion (λ p. p + (from + split.ahead + (split.width - split.left - split.right)) ≤ length cells.now) split.all.now }
    requires apart { split.width - split.left - split.right ≤ two.apart }
    requires room { two.at + two.apart + (split.width - split.left - split.right) ≤ length out.old }
    ensures within { result ≤ split.entry.width - split.entry.left - split.entry.right }
    ensures put { IsPutInRows 2 two.at (split.entry.width - split.entry.left - split.entry.right) two.apart out.old out.new }
    ensures made { (r i : ℕ) → r < 2 → i < result → slice_index_or out.new (two.at + r * two.apart + i) neutral ≡ merged_at E.merge cells.now neutral (from + r * split.entry.ahead + i) neutral split.entry.all.now }
{
    match (split.shared.len(), split.upper.len(), split.lower.len()) {
        (2, 3, 3) => put_wide_over::<P, E>(cells, by_numbers(split, 2, 3), from, neutral, out, two),
        (4, 5, 5) => put_wide_over::<P, E>(cells, by_numbers(split, 4, 5), from, neutral, out, two),
        (8, 5, 5) => put_wide_over::<P, E>(cells, by_numbers(split, 8, 5), from, neutral, out, two),
        (22, 7, 7) => put_wide_over::<P, E>(
            cells,
            by_numbers(split, 22, 7),
            from,
            neutral,
            out,
            two,
        ),
        _ => put_wide_over::<P, E>(cells, counted_of(split), from, neutral, out, two),
    }
}

/// How many vectors a row of results has at least for that. In shorter ones the last blocks cost what the others gain.
const VECTORS: usize = 16;

/// Writes columns of two rows, four vectors at a time, as many as there are. Returns how many: none where the lower row is shifted,
/// since along slanted lines, which see many rows, two vectors at a time are merged sooner.
#[inline(always)]
pub(crate) fn put_wide<P: Laned, E: LanedExtremum<P>>(
    cells: &[P],
    split: Split,
    from: usize,
    neutral: P,
    out: &mut [P],
    two: Two,
) -> usize
    requires split { IsSplit P.WIDTH split }
    requires cells { from + split.ahead + (split.width - split.left - split.right) ≤ length cells.now }
    requires inside { AllByRecursion (λ p. p + (from + split.ahead + (split.width - split.left - split.right)) ≤ length cells.now) split.all.now }
    requires apart { split.width - split.left - split.right ≤ two.apart }
    requires room { two.at + two.apart + (split.width - split.left - split.right) ≤ length out.old }
    ensures within { result ≤ split.entry.width - split.entry.left - split.entry.right }
    ensures put { IsPutInRows 2 two.at (split.entry.width - split.entry.left - split.entry.right) two.apart out.old out.new }
    ensures made { (r i : ℕ) → r < 2 → i < result → slice_index_or out.new (two.at + r * two.apart + i) neutral ≡ merged_at E.merge cells.now neutral (from + r * split.entry.ahead + i) neutral split.entry.all.now }
{
    if split.ahead != split.wide || split.width < VECTORS * P::WIDTH {
        return 0;
    }
    put_wide_by_numbers::<P, E>(cells, split, from, neutral, out, two)
}
