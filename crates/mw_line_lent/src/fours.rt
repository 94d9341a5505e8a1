//! Extrema down columns of four rows of results at once, or of two. The rows that all of them have are merged once, and stay in
//! registers while the others are merged into them.
ghost use Rattle.std.specs.Prelude.{◌≡◌, ℕ, ◌+◌, ◌-◌, ◌*◌, ◌<◌, ◌≤◌, length, slice_index_or};
ghost use Rattle.mw_line_lent.specs.Bests.{IsBest};
ghost use Rattle.mw_line_lent.specs.Boxes.{IsPutInRows};

use crate::down::{Rows, best_of_rows, by_number};
use crate::extrema::LanedExtremum;
use crate::lanes::Laned;

/// Where lines are written: from a place on, each `wide` behind the one before.
#[derive(Clone, Copy)]
pub(crate) struct Lines {
    pub at: usize,
    pub wide: usize,
}

/// A vector of the extrema of these rows, and one of those of as many from the second one on.
#[inline(always)]
pub(crate) fn two_of_rows<P: Laned, E: LanedExtremum<P>>(
    rows: Rows<P>,
    from: usize,
    neutral: P,
) -> (P::Vector, P::Vector)
    requires some { 2 ≤ rows.count }
    requires inside { rows.from + rows.count * rows.stride + from + P.WIDTH ≤ length rows.samples.now }
    ensures first { (i : ℕ) (d : P) → i < P.WIDTH → IsBest E.merge (λ j. E.merge neutral (slice_index_or rows.entry.samples.now (rows.entry.from + j * rows.entry.stride + (from + i)) d)) 0 rows.entry.count (P.lane result.0 i) }
    ensures second { (i : ℕ) (d : P) → i < P.WIDTH → IsBest E.merge (λ j. E.merge neutral (slice_index_or rows.entry.samples.now (rows.entry.from + j * rows.entry.stride + (from + i)) d)) 1 (1 + rows.entry.count) (P.lane result.1 i) }
{
    let shared = Rows {
        samples: rows.samples,
        from: rows.from + rows.stride,
        stride: rows.stride,
        count: rows.count - 1,
    };
    let both = best_of_rows::<P, E>(shared, from, neutral);
    let first = rows.from + from;
    let upper = E::merged(both, P::load(rows.samples, first));
    let lower = E::merged(
        both,
        P::load(rows.samples, first + rows.count * rows.stride),
    );
    (upper, lower)
}

/// Writes a vector, and another one a line further on.
#[inline(always)]
pub(crate) fn store_two<P: Laned>(
    first: P::Vector,
    second: P::Vector,
    out: &mut [P],
    at: usize,
    wide: usize,
)
    requires room { at + wide + P.WIDTH ≤ length out.old }
    requires apart { P.WIDTH ≤ wide }
    ensures put { IsPutInRows 2 at P.WIDTH wide out.old out.new }
    ensures first { (i : ℕ) (d : P) → i < P.WIDTH → slice_index_or out.new (at + 0 * wide + i) d ≡ P.lane first i }
    ensures second { (i : ℕ) (d : P) → i < P.WIDTH → slice_index_or out.new (at + 1 * wide + i) d ≡ P.lane second i }
{
    P::store(first, out, at);
    P::store(second, out, at + wide);
}

/// Writes a vector of two lines: of these rows, and of as many from the second one on.
#[inline(always)]
fn put_two_at<P: Laned, E: LanedExtremum<P>>(
    rows: Rows<P>,
    from: usize,
    neutral: P,
    out: &mut [P],
    lines: Lines,
)
    requires some { 2 ≤ rows.count }
    requires inside { rows.from + rows.count * rows.stride + from + P.WIDTH ≤ length rows.samples.now }
    requires room { lines.at + lines.wide + from + P.WIDTH ≤ length out.old }
    requires apart { from + P.WIDTH ≤ lines.wide }
    ensures put { IsPutInRows 2 (lines.at + from) P.WIDTH lines.wide out.old out.new }
    ensures made { (r i : ℕ) (d : P) → r < 2 → i < P.WIDTH → IsBest E.merge (λ j. E.merge neutral (slice_index_or rows.entry.samples.now (rows.entry.from + j * rows.entry.stride + (from + i)) d)) r (r + rows.entry.count) (slice_index_or out.new (lines.at + from + r * lines.wide + i) d) }
{
    let (first, second) = two_of_rows::<P, E>(rows, from, neutral);
    store_two::<P>(first, second, out, lines.at + from, lines.wide);
}

/// Writes two lines of so many columns.
#[inline(always)]
fn put_two_over<P: Laned, E: LanedExtremum<P>>(
    rows: Rows<P>,
    neutral: P,
    out: &mut [P],
    lines: Lines,
    n: usize,
)
    requires some { 2 ≤ rows.count }
    requires wide { P.WIDTH ≤ n }
    requires inside { rows.from + rows.count * rows.stride + n ≤ length rows.samples.now }
    requires room { lines.at + lines.wide + n ≤ length out.old }
    requires apart { n ≤ lines.wide }
    ensures put { IsPutInRows 2 lines.at n lines.wide out.old out.new }
    ensures made { (r i : ℕ) (d : P) → r < 2 → i < n → IsBest E.merge (λ j. E.merge neutral (slice_index_or rows.entry.samples.now (rows.entry.from + j * rows.entry.stride + i) d)) r (r + rows.entry.count) (slice_index_or out.new (lines.at + r * lines.wide + i) d) }
{
    let mut done = 0usize;
    'by_vector: while done < n {
        let from = done.min(n - P::WIDTH);
        put_two_at::<P, E>(rows, from, neutral, out, lines);
        done = from + P::WIDTH;
    }
}

/// Writes two lines of so many columns. The number is that of boxes of 3 rows.
#[inline(never)]
pub(crate) fn put_two<P: Laned, E: LanedExtremum<P>>(
    rows: Rows<P>,
    neutral: P,
    out: &mut [P],
    lines: Lines,
    n: usize,
)
    requires some { 2 ≤ rows.count }
    requires wide { P.WIDTH ≤ n }
    requires inside { rows.from + rows.count * rows.stride + n ≤ length rows.samples.now }
    requires room { lines.at + lines.wide + n ≤ length out.old }
    requires apart { n ≤ lines.wide }
    ensures put { IsPutInRows 2 lines.at n lines.wide out.old out.new }
    ensures made { (r i : ℕ) (d : P) → r < 2 → i < n → IsBest E.merge (λ j. E.merge neutral (slice_index_or rows.entry.samples.now (rows.entry.from + j * rows.entry.stride + i) d)) r (r + rows.entry.count) (slice_index_or out.new (lines.at + r * lines.wide + i) d) }
{
    match rows.count {
        3 => put_two_over::<P, E>(by_number(rows, 3), neutral, out, lines, n),
        _ => put_two_over::<P, E>(rows, neutral, out, lines, n),
    }
}

/// Writes a vector of four lines: of these rows, and of as many from the second, the third and the fourth one on.
#[inline(always)]
pub(crate) fn put_four_at<P: Laned, E: LanedExtremum<P>>(
    rows: Rows<P>,
    from: usize,
    neutral: P,
    out: &mut [P],
    lines: Lines,
)
    requires some { 4 ≤ rows.count }
    requires inside { rows.from + (rows.count + 2) * rows.stride + from + P.WIDTH ≤ length rows.samples.now }
    requires room { lines.at + 3 * lines.wide + from + P.WIDTH ≤ length out.old }
    requires apart { from + P.WIDTH ≤ lines.wide }
    ensures put { IsPutInRows 4 (lines.at + from) P.WIDTH lines.wide out.old out.new }
    ensures made { (r i : ℕ) (d : P) → r < 4 → i < P.WIDTH → IsBest E.merge (λ j. E.merge neutral (slice_index_or rows.entry.samples.now (rows.entry.from + j * rows.entry.stride + (from + i)) d)) r (r + rows.entry.count) (slice_index_or out.new (lines.at + from + r * lines.wide + i) d) }
{
    let (stride, samples) = (rows.stride, rows.samples);
    let shared = Rows {
        samples,
        from: rows.from + 3 * stride,
        stride,
        count: rows.count - 3,
    };
    let all = best_of_rows::<P, E>(shared, from, neutral);
    let first = rows.from + from;
    let last = first + rows.count * stride;
    let at = lines.at + from;
    let third = E::merged(all, P::load(samples, first + 2 * stride));
    let second = E::merged(third, P::load(samples, first + stride));
    let one = P::load(samples, last);
    let two = E::merged(one, P::load(samples, last + stride));
    let three = E::merged(two, P::load(samples, last + 2 * stride));
    P::store(E::merged(second, P::load(samples, first)), out, at);
    P::store(E::merged(second, one), out, at + lines.wide);
    P::store(E::merged(third, two), out, at + 2 * lines.wide);
    P::store(E::merged(all, three), out, at + 3 * lines.wide);
}

/// Writes four lines of so many columns.
#[inline(always)]
fn put_four_over<P: Laned, E: LanedExtremum<P>>(
    rows: Rows<P>,
    neutral: P,
    out: &mut [P],
    lines: Lines,
    n: usize,
)
    requires some { 4 ≤ rows.count }
    requires wide { P.WIDTH ≤ n }
    requires inside { rows.from + (rows.count + 2) * rows.stride + n ≤ length rows.samples.now }
    requires room { lines.at + 3 * lines.wide + n ≤ length out.old }
    requires apart { n ≤ lines.wide }
    ensures put { IsPutInRows 4 lines.at n lines.wide out.old out.new }
    ensures made { (r i : ℕ) (d : P) → r < 4 → i < n → IsBest E.merge (λ j. E.merge neutral (slice_index_or rows.entry.samples.now (rows.entry.from + j * rows.entry.stride + i) d)) r (r + rows.entry.count) (slice_index_or out.new (lines.at + r * lines.wide + i) d) }
{
    let mut done = 0usize;
    'by_vector: while done < n {
        let from = done.min(n - P::WIDTH);
        put_four_at::<P, E>(rows, from, neutral, out, lines);
        done = from + P::WIDTH;
    }
}

/// Writes four lines of so many columns. The numbers are those of boxes of 5, 7 and 9 rows.
#[inline(never)]
pub(crate) fn put_four<P: Laned, E: LanedExtremum<P>>(
    rows: Rows<P>,
    neutral: P,
    out: &mut [P],
    lines: Lines,
    n: usize,
)
    requires some { 4 ≤ rows.count }
    requires wide { P.WIDTH ≤ n }
    requires inside { rows.from + (rows.count + 2) * rows.stride + n ≤ length rows.samples.now }
    requires room { lines.at + 3 * lines.wide + n ≤ length out.old }
    requires apart { n ≤ lines.wide }
    ensures put { IsPutInRows 4 lines.at n lines.wide out.old out.new }
    ensures made { (r i : ℕ) (d : P) → r < 4 → i < n → IsBest E.merge (λ j. E.merge neutral (slice_index_or rows.entry.samples.now (rows.entry.from + j * rows.entry.stride + i) d)) r (r + rows.entry.count) (slice_index_or out.new (lines.at + r * lines.wide + i) d) }
{
    match rows.count {
        5 => put_four_over::<P, E>(by_number(rows, 5), neutral, out, lines, n),
        7 => put_four_over::<P, E>(by_number(rows, 7), neutral, out, lines, n),
        9 => put_four_over::<P, E>(by_number(rows, 9), neutral, out, lines, n),
        _ => put_four_over::<P, E>(rows, neutral, out, lines, n),
    }
}
