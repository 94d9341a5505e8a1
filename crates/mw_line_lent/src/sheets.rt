//! Lines of a sheet that are merged with a row of samples, vector by vector. Each begins where the one before it ends.
ghost use Rattle.std.specs.Prelude.{◌≡◌, ℕ, ◌+◌, ◌-◌, ◌*◌, ◌<◌, ◌≤◌, length, slice_index_or};
ghost use Rattle.mw_line_lent.specs.Boxes.{IsPutAt};

use crate::extrema::LanedExtremum;
use crate::lanes::Laned;
use mw_line::pixel::Pixel;

/// Samples from a place on.
#[derive(Clone, Copy)]
pub(crate) struct Row<'a, P: Pixel> {
    pub samples: &'a [P],
    pub from: usize,
}

/// Writes a line of n samples: the extrema of the line behind it and a row. The last vector begins early enough to end with them.
#[inline(never)]
pub(crate) fn put_before<P: Laned, E: LanedExtremum<P>>(
    row: Row<P>,
    sheet: &mut [P],
    at: usize,
    n: usize,
)
    requires wide { P.WIDTH ≤ n }
    requires inside { row.from + n ≤ length row.samples.now }
    requires room { at + n + n ≤ length sheet.old }
    ensures put { IsPutAt at n sheet.old sheet.new }
    ensures made { (i : ℕ) (d : P) → i < n → slice_index_or sheet.new (at + i) d ≡ E.merge (slice_index_or sheet.old (at + n + i) d) (slice_index_or row.entry.samples.now (row.entry.from + i) d) }
{
    let mut done = 0usize;
    'by_vector: while done < n {
        let from = done.min(n - P::WIDTH);
        let last = P::load(sheet, at + n + from);
        let next = P::load(row.samples, row.from + from);
        let best = E::merged(last, next);
        P::store(best, sheet, at + from);
        done = from + P::WIDTH;
    }
}

/// Writes the extrema of the first and the third of three lines of n samples from a place on, and into the second those of the
/// first and a row.
#[inline(never)]
pub(crate) fn put_between<P: Laned, E: LanedExtremum<P>>(
    row: Row<P>,
    sheet: &mut [P],
    at: usize,
    n: usize,
    out: &mut [P],
    to: usize,
)
    requires wide { P.WIDTH ≤ n }
    requires inside { row.from + n ≤ length row.samples.now }
    requires room { at + n + n + n ≤ length sheet.old }
    requires line { to + n ≤ length out.old }
    ensures put { IsPutAt (at + n) n sheet.old sheet.new }
    ensures made { (i : ℕ) (d : P) → i < n → slice_index_or sheet.new (at + n + i) d ≡ E.merge (slice_index_or sheet.old (at + i) d) (slice_index_or row.entry.samples.now (row.entry.from + i) d) }
    ensures line_put { IsPutAt to n out.old out.new }
    ensures line { (i : ℕ) (d : P) → i < n → slice_index_or out.new (to + i) d ≡ E.merge (slice_index_or sheet.old (at + i) d) (slice_index_or sheet.old (at + n + n + i) d) }
{
    let mut done = 0usize;
    'by_vector: while done < n {
        let from = done.min(n - P::WIDTH);
        let head = P::load(sheet, at + from);
        let tail = P::load(sheet, at + n + n + from);
        let next = P::load(row.samples, row.from + from);
        let whole = E::merged(head, tail);
        let more = E::merged(head, next);
        P::store(whole, out, to + from);
        P::store(more, sheet, at + n + from);
        done = from + P::WIDTH;
    }
}
