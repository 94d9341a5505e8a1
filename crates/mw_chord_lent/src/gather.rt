//! Rows of results: at each place the chords that make up the runs are merged, while a block of them stays in registers, and
//! each is written once.
ghost use Rattle.std.specs.Prelude.{◌≡◌, ℕ, ◌+◌, ◌-◌, ◌*◌, ◌<◌, ◌≤◌, length, slice_index_or};
ghost use Rattle.std.specs.List.{AllByRecursion};
ghost use Rattle.mw_line_lent.specs.Boxes.{IsPutAt, IsPutInRows};
ghost use Rattle.mw_chord_lent.specs.Placed.{gathered_at};

use mw_line_lent::{Laned, LanedExtremum};

/// Merges into two neutral vectors what stands `from` places after each of the places.
#[inline(always)]
fn merge_places<P: Laned, E: LanedExtremum<P>>(
    lists: &[P],
    places: &[usize],
    from: usize,
    neutral: P,
) -> (P::Vector, P::Vector)
    requires { AllByRecursion (λ p. p + (from + 2 * P.WIDTH) ≤ length lists.now) places.now }
    ensures first { (i : ℕ) → i < P.WIDTH → P.lane result.0 i ≡ gathered_at E.merge lists.now neutral (from + i) neutral places.now }
    ensures second { (i : ℕ) → i < P.WIDTH → P.lane result.1 i ≡ gathered_at E.merge lists.now neutral (from + P.WIDTH + i) neutral places.now }
{
    let start = P::all(neutral);
    let (mut first, mut second) = (start, start);
    for place in places {
        let at = *place + from;
        first = E::merged(first, P::load(lists, at));
        second = E::merged(second, P::load(lists, at + P::WIDTH));
    }
    (first, second)
}

/// Writes a block of two vectors.
#[inline(always)]
fn put_block<P: Laned, E: LanedExtremum<P>>(
    lists: &[P],
    places: &[usize],
    from: usize,
    neutral: P,
    out: &mut [P],
    at: usize,
)
    requires inside { AllByRecursion (λ p. p + (from + 2 * P.WIDTH) ≤ length lists.now) places.now }
    requires room { at + 2 * P.WIDTH ≤ length out.old }
    ensures put { IsPutAt at (2 * P.WIDTH) out.old out.new }
    ensures made { (i : ℕ) → i < 2 * P.WIDTH → slice_index_or out.new (at + i) neutral ≡ gathered_at E.merge lists.now neutral (from + i) neutral places.now }
{
    let (first, second) = merge_places::<P, E>(lists, places, from, neutral);
    P::store(first, out, at);
    P::store(second, out, at + P::WIDTH);
}

/// Rows of results: so many, of so many columns, from a place on, each so many places behind the one before. They are made of
/// rows of chords which are `wide`.
#[derive(Clone, Copy)]
pub(crate) struct Rows {
    pub at: usize,
    pub apart: usize,
    pub high: usize,
    pub width: usize,
    pub wide: usize,
}

/// Writes row r. The last block begins early enough to end with it.
#[inline(never)]
fn put_row<P: Laned, E: LanedExtremum<P>>(
    lists: &[P],
    places: &[usize],
    neutral: P,
    out: &mut [P],
    rows: Rows,
    r: usize,
)
    requires lanes { 2 * P.WIDTH ≤ rows.width }
    requires cells { r * rows.wide + rows.width ≤ length lists.now }
    requires inside { AllByRecursion (λ p. p + (r * rows.wide + rows.width) ≤ length lists.now) places.now }
    requires room { rows.at + r * rows.apart + rows.width ≤ length out.old }
    ensures put { IsPutAt (rows.at + r * rows.apart) rows.width out.old out.new }
    ensures made { (i : ℕ) → i < rows.width → slice_index_or out.new (rows.at + r * rows.apart + i) neutral ≡ gathered_at E.merge lists.now neutral (r * rows.wide + i) neutral places.now }
{
    let from = r * rows.wide;
    let at = rows.at + r * rows.apart;
    let n = rows.width;
    let mut done = 0usize;
    'by_block: while done < n {
        let column = done.min(n - 2 * P::WIDTH);
        put_block::<P, E>(lists, places, from + column, neutral, out, at + column);
        done = column + 2 * P::WIDTH;
    }
}

/// Writes the rows, one after another.
fn put_by_rows<P: Laned, E: LanedExtremum<P>>(
    lists: &[P],
    places: &[usize],
    neutral: P,
    out: &mut [P],
    rows: Rows,
)
    requires lanes { 2 * P.WIDTH ≤ rows.width }
    requires cells { (rows.high - 1) * rows.wide + rows.width ≤ length lists.now }
    requires inside { AllByRecursion (λ p. p + ((rows.high - 1) * rows.wide + rows.width) ≤ length lists.now) places.now }
    requires apart { rows.width ≤ rows.apart }
    requires room { rows.at + (rows.high - 1) * rows.apart + rows.width ≤ length out.old }
    ensures put { IsPutInRows rows.high rows.at rows.width rows.apart out.old out.new }
    ensures made { (r i : ℕ) → r < rows.high → i < rows.width → slice_index_or out.new (rows.at + r * rows.apart + i) neutral ≡ gathered_at E.merge lists.now neutral (r * rows.wide + i) neutral places.now }
{
    for r in 0..rows.high {
        put_row::<P, E>(lists, places, neutral, out, rows, r);
    }
}

/// Writes a block of columns, down all rows.
#[inline(never)]
fn put_column<P: Laned, E: LanedExtremum<P>>(
    lists: &[P],
    places: &[usize],
    neutral: P,
    out: &mut [P],
    rows: Rows,
    column: usize,
)
    requires column { column + 2 * P.WIDTH ≤ rows.width }
    requires cells { (rows.high - 1) * rows.wide + rows.width ≤ length lists.now }
    requires inside { AllByRecursion (λ p. p + ((rows.high - 1) * rows.wide + rows.width) ≤ length lists.now) places.now }
    requires apart { rows.width ≤ rows.apart }
    requires room { rows.at + (rows.high - 1) * rows.apart + rows.width ≤ length out.old }
    ensures put { IsPutInRows rows.high (rows.at + column) (2 * P.WIDTH) rows.apart out.old out.new }
    ensures made { (r i : ℕ) → r < rows.high → i < 2 * P.WIDTH → slice_index_or out.new (rows.at + column + r * rows.apart + i) neutral ≡ gathered_at E.merge lists.now neutral (r * rows.wide + (column + i)) neutral places.now }
{
    for r in 0..rows.high {
        let from = r * rows.wide + column;
        let at = rows.at + column + r * rows.apart;
        put_block::<P, E>(lists, places, from, neutral, out, at);
    }
}

/// Writes the rows, by blocks of columns. The last block begins early enough to end with them.
fn put_by_columns<P: Laned, E: LanedExtremum<P>>(
    lists: &[P],
    places: &[usize],
    neutral: P,
    out: &mut [P],
    rows: Rows,
)
    requires lanes { 2 * P.WIDTH ≤ rows.width }
    requires cells { (rows.high - 1) * rows.wide + rows.width ≤ length lists.now }
    requires inside { AllByRecursion (λ p. p + ((rows.high - 1) * rows.wide + rows.width) ≤ length lists.now) places.now }
    requires apart { rows.width ≤ rows.apart }
    requires room { rows.at + (rows.high - 1) * rows.apart + rows.width ≤ length out.old }
    ensures put { IsPutInRows rows.high rows.at rows.width rows.apart out.old out.new }
    ensures made { (r i : ℕ) → r < rows.high → i < rows.width → slice_index_or out.new (rows.at + r * rows.apart + i) neutral ≡ gathered_at E.merge lists.now neutral (r * rows.wide + i) neutral places.now }
{
    let n = rows.width;
    let mut done = 0usize;
    'by_block: while done < n {
        let column = done.min(n - 2 * P::WIDTH);
        put_column::<P, E>(lists, places, neutral, out, rows, column);
        done = column + 2 * P::WIDTH;
    }
}

/// From how many vectors on that a row of results is made of they are not in the nearest cache when the next row is.
const VECTORS: usize = 1024;

/// Writes the rows. Where a row is made of so much that it leaves the nearest cache, a block of columns is made of less.
pub(crate) fn put_rows<P: Laned, E: LanedExtremum<P>>(
    lists: &[P],
    places: &[usize],
    neutral: P,
    out: &mut [P],
    rows: Rows,
)
    requires lanes { 2 * P.WIDTH ≤ rows.width }
    requires cells { (rows.high - 1) * rows.wide + rows.width ≤ length lists.now }
    requires inside { AllByRecursion (λ p. p + ((rows.high - 1) * rows.wide + rows.width) ≤ length lists.now) places.now }
    requires apart { rows.width ≤ rows.apart }
    requires room { rows.at + (rows.high - 1) * rows.apart + rows.width ≤ length out.old }
    ensures put { IsPutInRows rows.high rows.at rows.width rows.apart out.old out.new }
    ensures made { (r i : ℕ) → r < rows.high → i < rows.width → slice_index_or out.new (rows.at + r * rows.apart + i) neutral ≡ gathered_at E.merge lists.now neutral (r * rows.wide + i) neutral places.now }
{
    if places.len().saturating_mul(rows.width) < VECTORS * P::WIDTH {
        put_by_rows::<P, E>(lists, places, neutral, out, rows);
    } else {
        put_by_columns::<P, E>(lists, places, neutral, out, rows);
    }
}
