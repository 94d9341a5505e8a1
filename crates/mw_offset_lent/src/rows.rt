//! Rows of results, by pairs, and the last one alone where their number is odd.
ghost use Rattle.std.specs.Prelude.{◌≡◌, ℕ, ◌+◌, ◌-◌, ◌*◌, ◌<◌, ◌≤◌, length, slice_index_or};
ghost use Rattle.std.specs.List.{AllByRecursion};
ghost use Rattle.mw_line_lent.specs.Boxes.{IsPutAt};
ghost use Rattle.mw_offset_lent.specs.Places.{merged_at};
ghost use Rattle.mw_offset_lent.specs.Splits.{IsSplit};

use crate::blocks::put_block;
use crate::pairs::{Split, put_pair};
use mw_line_lent::{Laned, LanedExtremum};

/// Writes one row of results. The last block begins early enough to end with it.
fn put_one<P: Laned, E: LanedExtremum<P>>(
    cells: &[P],
    split: Split,
    from: usize,
    neutral: P,
    out: &mut [P],
    at: usize,
)
    requires split { IsSplit P.WIDTH split }
    requires cells { from + split.width ≤ length cells.now }
    requires inside { AllByRecursion (λ p. p + (from + split.width) ≤ length cells.now) split.all.now }
    requires room { at + split.width ≤ length out.old }
    ensures put { IsPutAt at split.entry.width out.old out.new }
    ensures made { (i : ℕ) → i < split.entry.width → slice_index_or out.new (at + i) neutral ≡ merged_at E.merge cells.now neutral (from + i) neutral split.entry.all.now }
{
    let n = split.width;
    let mut done = 0usize;
    'by_block: while done < n {
        let column = done.min(n - 2 * P::WIDTH);
        put_block::<P, E>(cells, split.all, from + column, neutral, out, at + column);
        done = column + 2 * P::WIDTH;
    }
}

/// Rows of results: so many, from a place on.
#[derive(Clone, Copy)]
pub(crate) struct Rows {
    pub at: usize,
    pub high: usize,
}

/// Writes some of the rows from row y on: two, or the last one. Returns how many.
fn put_some<P: Laned, E: LanedExtremum<P>>(
    cells: &[P],
    split: Split,
    neutral: P,
    out: &mut [P],
    rows: Rows,
    y: usize,
) -> usize
    requires split { IsSplit P.WIDTH split }
    requires row { y < rows.high }
    requires cells { (rows.high - 1) * split.wide + split.width ≤ length cells.now }
    requires inside { AllByRecursion (λ p. p + ((rows.high - 1) * split.wide + split.width) ≤ length cells.now) split.all.now }
    requires room { rows.at + rows.high * split.width ≤ length out.old }
    ensures some { 0 < result }
    ensures within { y + result ≤ rows.high }
    ensures put { IsPutAt (rows.at + y * split.entry.width) (result * split.entry.width) out.old out.new }
    ensures made { (r i : ℕ) → r < result → i < split.entry.width → slice_index_or out.new (rows.at + y * split.entry.width + (r * split.entry.width + i)) neutral ≡ merged_at E.merge cells.now neutral ((y + r) * split.entry.wide + i) neutral split.entry.all.now }
{
    let from = y * split.wide;
    let at = rows.at + y * split.width;
    if rows.high - y < 2 {
        put_one::<P, E>(cells, split, from, neutral, out, at);
        return 1;
    }
    put_pair::<P, E>(cells, split, from, neutral, out, at);
    2
}

/// Writes the rows: at each of their places the extremum of the neutral sample and the cells at the places.
pub(crate) fn put_rows<P: Laned, E: LanedExtremum<P>>(
    cells: &[P],
    split: Split,
    neutral: P,
    out: &mut [P],
    rows: Rows,
)
    requires split { IsSplit P.WIDTH split }
    requires cells { (rows.high - 1) * split.wide + split.width ≤ length cells.now }
    requires inside { AllByRecursion (λ p. p + ((rows.high - 1) * split.wide + split.width) ≤ length cells.now) split.all.now }
    requires room { rows.at + rows.high * split.width ≤ length out.old }
    ensures put { IsPutAt rows.at (rows.high * split.entry.width) out.old out.new }
    ensures made { (r i : ℕ) → r < rows.high → i < split.entry.width → slice_index_or out.new (rows.at + (r * split.entry.width + i)) neutral ≡ merged_at E.merge cells.now neutral (r * split.entry.wide + i) neutral split.entry.all.now }
{
    let mut done = 0usize;
    'by_rows: while done < rows.high {
        let made = put_some::<P, E>(cells, split, neutral, out, rows, done);
        done += made;
    }
}
