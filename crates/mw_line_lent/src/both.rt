//! Two extrema down columns at once, of two rows of results or of four: rows that both look at are read once.
ghost use Rattle.std.specs.Prelude.{◌≡◌, ℕ, ◌+◌, ◌-◌, ◌*◌, ◌<◌, ◌≤◌, length, slice_index_or};
ghost use Rattle.mw_line_lent.specs.Bests.{IsBest};
ghost use Rattle.mw_line_lent.specs.Boxes.{IsPutInRows};

use crate::down::{Rows, by_number};
use crate::extrema::LanedExtremum;
use crate::fours::{Lines, put_four_at, store_two, two_of_rows};
use crate::lanes::Laned;
use mw_line::pixel::Pixel;

/// The samples that change none of the one extremum, and none of the other.
#[derive(Clone, Copy)]
pub struct Ends<P: Pixel> {
    pub bottom: P,
    pub top: P,
}

/// Writes a vector of two lines of each extremum: of these rows, and of as many from the second one on.
#[inline(always)]
fn put_two_both_at<P: Laned, U: LanedExtremum<P>, L: LanedExtremum<P>>(
    rows: Rows<P>,
    from: usize,
    ends: Ends<P>,
    uppers: &mut [P],
    lowers: &mut [P],
    lines: Lines,
)
    requires some { 2 ≤ rows.count }
    requires inside { rows.from + rows.count * rows.stride + from + P.WIDTH ≤ length rows.samples.now }
    requires upper_room { lines.at + lines.wide + from + P.WIDTH ≤ length uppers.old }
    requires lower_room { lines.at + lines.wide + from + P.WIDTH ≤ length lowers.old }
    requires apart { from + P.WIDTH ≤ lines.wide }
    ensures upper_put { IsPutInRows 2 (lines.at + from) P.WIDTH lines.wide uppers.old uppers.new }
    ensures lower_put { IsPutInRows 2 (lines.at + from) P.WIDTH lines.wide lowers.old lowers.new }
    ensures upper { (r i : ℕ) (d : P) → r < 2 → i < P.WIDTH → IsBest U.merge (λ j. U.merge ends.bottom (slice_index_or rows.entry.samples.now (rows.entry.from + j * rows.entry.stride + (from + i)) d)) r (r + rows.entry.count) (slice_index_or uppers.new (lines.at + from + r * lines.wide + i) d) }
    ensures lower { (r i : ℕ) (d : P) → r < 2 → i < P.WIDTH → IsBest L.merge (λ j. L.merge ends.top (slice_index_or rows.entry.samples.now (rows.entry.from + j * rows.entry.stride + (from + i)) d)) r (r + rows.entry.count) (slice_index_or lowers.new (lines.at + from + r * lines.wide + i) d) }
{
    let (first, second) = two_of_rows::<P, U>(rows, from, ends.bottom);
    let (third, fourth) = two_of_rows::<P, L>(rows, from, ends.top);
    let at = lines.at + from;
    store_two::<P>(first, second, uppers, at, lines.wide);
    store_two::<P>(third, fourth, lowers, at, lines.wide);
}

/// Writes two lines of each extremum, of so many columns.
#[inline(always)]
fn put_two_both_over<P: Laned, U: LanedExtremum<P>, L: LanedExtremum<P>>(
    rows: Rows<P>,
    ends: Ends<P>,
    uppers: &mut [P],
    lowers: &mut [P],
    lines: Lines,
    n: usize,
)
    requires some { 2 ≤ rows.count }
    requires wide { P.WIDTH ≤ n }
    requires inside { rows.from + rows.count * rows.stride + n ≤ length rows.samples.now }
    requires upper_room { lines.at + lines.wide + n ≤ length uppers.old }
    requires lower_room { lines.at + lines.wide + n ≤ length lowers.old }
    requires apart { n ≤ lines.wide }
    ensures upper_put { IsPutInRows 2 lines.at n lines.wide uppers.old uppers.new }
    ensures lower_put { IsPutInRows 2 lines.at n lines.wide lowers.old lowers.new }
    ensures upper { (r i : ℕ) (d : P) → r < 2 → i < n → IsBest U.merge (λ j. U.merge ends.bottom (slice_index_or rows.entry.samples.now (rows.entry.from + j * rows.entry.stride + i) d)) r (r + rows.entry.count) (slice_index_or uppers.new (lines.at + r * lines.wide + i) d) }
    ensures lower { (r i : ℕ) (d : P) → r < 2 → i < n → IsBest L.merge (λ j. L.merge ends.top (slice_index_or rows.entry.samples.now (rows.entry.from + j * rows.entry.stride + i) d)) r (r + rows.entry.count) (slice_index_or lowers.new (lines.at + r * lines.wide + i) d) }
{
    let mut done = 0usize;
    'by_vector: while done < n {
        let from = done.min(n - P::WIDTH);
        put_two_both_at::<P, U, L>(rows, from, ends, uppers, lowers, lines);
        done = from + P::WIDTH;
    }
}

/// Writes two lines of each extremum, of so many columns. The numbers are those of boxes of 3, 4 and 5 rows.
#[inline(never)]
pub(crate) fn put_two_both<P: Laned, U: LanedExtremum<P>, L: LanedExtremum<P>>(
    rows: Rows<P>,
    ends: Ends<P>,
    uppers: &mut [P],
    lowers: &mut [P],
    lines: Lines,
    n: usize,
)
    requires some { 2 ≤ rows.count }
    requires wide { P.WIDTH ≤ n }
    requires inside { rows.from + rows.count * rows.stride + n ≤ length rows.samples.now }
    requires upper_room { lines.at + lines.wide + n ≤ length uppers.old }
    requires lower_room { lines.at + lines.wide + n ≤ length lowers.old }
    requires apart { n ≤ lines.wide }
    ensures upper_put { IsPutInRows 2 lines.at n lines.wide uppers.old uppers.new }
    ensures lower_put { IsPutInRows 2 lines.at n lines.wide lowers.old lowers.new }
    ensures upper { (r i : ℕ) (d : P) → r < 2 → i < n → IsBest U.merge (λ j. U.merge ends.bottom (slice_index_or rows.entry.samples.now (rows.entry.from + j * rows.entry.stride + i) d)) r (r + rows.entry.count) (slice_index_or uppers.new (lines.at + r * lines.wide + i) d) }
    ensures lower { (r i : ℕ) (d : P) → r < 2 → i < n → IsBest L.merge (λ j. L.merge ends.top (slice_index_or rows.entry.samples.now (rows.entry.from + j * rows.entry.stride + i) d)) r (r + rows.entry.count) (slice_index_or lowers.new (lines.at + r * lines.wide + i) d) }
{
    match rows.count {
        3 => put_two_both_over::<P, U, L>(by_number(rows, 3), ends, uppers, lowers, lines, n),
        4 => put_two_both_over::<P, U, L>(by_number(rows, 4), ends, uppers, lowers, lines, n),
        5 => put_two_both_over::<P, U, L>(by_number(rows, 5), ends, uppers, lowers, lines, n),
        _ => put_two_both_over::<P, U, L>(rows, ends, uppers, lowers, lines, n),
    }
}

/// Writes four lines of each extremum, of so many columns.
#[inline(always)]
fn put_four_both_over<P: Laned, U: LanedExtremum<P>, L: LanedExtremum<P>>(
    rows: Rows<P>,
    ends: Ends<P>,
    uppers: &mut [P],
    lowers: &mut [P],
    lines: Lines,
    n: usize,
)
    requires some { 4 ≤ rows.count }
    requires wide { P.WIDTH ≤ n }
    requires inside { rows.from + (rows.count + 2) * rows.stride + n ≤ length rows.samples.now }
    requires upper_room { lines.at + 3 * lines.wide + n ≤ length uppers.old }
    requires lower_room { lines.at + 3 * lines.wide + n ≤ length lowers.old }
    requires apart { n ≤ lines.wide }
    ensures upper_put { IsPutInRows 4 lines.at n lines.wide uppers.old uppers.new }
    ensures lower_put { IsPutInRows 4 lines.at n lines.wide lowers.old lowers.new }
    ensures upper { (r i : ℕ) (d : P) → r < 4 → i < n → IsBest U.merge (λ j. U.merge ends.bottom (slice_index_or rows.entry.samples.now (rows.entry.from + j * rows.entry.stride + i) d)) r (r + rows.entry.count) (slice_index_or uppers.new (lines.at + r * lines.wide + i) d) }
    ensures lower { (r i : ℕ) (d : P) → r < 4 → i < n → IsBest L.merge (λ j. L.merge ends.top (slice_index_or rows.entry.samples.now (rows.entry.from + j * rows.entry.stride + i) d)) r (r + rows.entry.count) (slice_index_or lowers.new (lines.at + r * lines.wide + i) d) }
{
    let mut done = 0usize;
    'by_vector: while done < n {
        let from = done.min(n - P::WIDTH);
        put_four_at::<P, U>(rows, from, ends.bottom, uppers, lines);
        put_four_at::<P, L>(rows, from, ends.top, lowers, lines);
        done = from + P::WIDTH;
    }
}

/// Writes four lines of each extremum, of so many columns. The numbers are those of boxes of 7 and 9 rows.
#[inline(never)]
pub(crate) fn put_four_both<P: Laned, U: LanedExtremum<P>, L: LanedExtremum<P>>(
    rows: Rows<P>,
    ends: Ends<P>,
    uppers: &mut [P],
    lowers: &mut [P],
    lines: Lines,
    n: usize,
)
    requires some { 4 ≤ rows.count }
    requires wide { P.WIDTH ≤ n }
    requires inside { rows.from + (rows.count + 2) * rows.stride + n ≤ length rows.samples.now }
    requires upper_room { lines.at + 3 * lines.wide + n ≤ length uppers.old }
    requires lower_room { lines.at + 3 * lines.wide + n ≤ length lowers.old }
    requires apart { n ≤ lines.wide }
    ensures upper_put { IsPutInRows 4 lines.at n lines.wide uppers.old uppers.new }
    ensures lower_put { IsPutInRows 4 lines.at n lines.wide lowers.old lowers.new }
    ensures upper { (r i : ℕ) (d : P) → r < 4 → i < n → IsBest U.merge (λ j. U.merge ends.bottom (slice_index_or rows.entry.samples.now (rows.entry.from + j * rows.entry.stride + i) d)) r (r + rows.entry.count) (slice_index_or uppers.new (lines.at + r * lines.wide + i) d) }
    ensures lower { (r i : ℕ) (d : P) → r < 4 → i < n → IsBest L.merge (λ j. L.merge ends.top (slice_index_or rows.entry.samples.now (rows.entry.from + j * rows.entry.stride + i) d)) r (r + rows.entry.count) (slice_index_or lowers.new (lines.at + r * lines.wide + i) d) }
{
    match rows.count {
        7 => put_four_both_over::<P, U, L>(by_number(rows, 7), ends, uppers, lowers, lines, n),
        9 => put_four_both_over::<P, U, L>(by_number(rows, 9), ends, uppers, lowers, lines, n),
        _ => put_four_both_over::<P, U, L>(rows, ends, uppers, lowers, lines, n),
    }
}
