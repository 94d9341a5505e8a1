//! Two rows of results at once. What both see is merged once, and then what either sees alone. The lower row is shifted beside
//! the upper one, so that rows of a slanted line see the same cells too.
ghost use Rattle.std.specs.Prelude.{◌≡◌, ◌⊎◌, ℕ, ◌+◌, ◌-◌, ◌*◌, ◌<◌, ◌≤◌, length, slice_index_or};
ghost use Rattle.std.specs.List.{AllByRecursion};
ghost use Rattle.mw_line_lent.specs.Boxes.{IsPutAt, IsPutInRows};
ghost use Rattle.mw_offset_lent.specs.Places.{merged_at};
ghost use Rattle.mw_offset_lent.specs.Splits.{IsSplit};

use crate::blocks::{merge_places, put_block, store_both};
use crate::wide::put_wide;
use mw_line_lent::{Laned, LanedExtremum};

/// Places of cells in rows of `wide`, for rows of `width` results: all of them, those that two rows share, and what is left of
/// the upper row's and of the lower row's. The lower row is `left` or `right` columns beside the upper one, so its cells lie
/// `ahead` places further on.
#[derive(Clone, Copy)]
pub(crate) struct Split<'a> {
    pub all: &'a [usize],
    pub shared: &'a [usize],
    pub upper: &'a [usize],
    pub lower: &'a [usize],
    pub ahead: usize,
    pub left: usize,
    pub right: usize,
    pub wide: usize,
    pub width: usize,
}

/// Where two rows of results are written: the second one so many places behind the first.
#[derive(Clone, Copy)]
pub(crate) struct Two {
    pub at: usize,
    pub apart: usize,
}

/// Writes a block of each of two rows.
#[inline(always)]
fn put_two_blocks<P: Laned, E: LanedExtremum<P>>(
    cells: &[P],
    split: Split,
    from: usize,
    neutral: P,
    out: &mut [P],
    two: Two,
)
    requires split { IsSplit P.WIDTH split }
    requires cells { from + split.ahead + 2 * P.WIDTH ≤ length cells.now }
    requires inside { AllByRecursion (λ p. p + (from + split.ahead + 2 * P.WIDTH) ≤ length cells.now) split.all.now }
    requires apart { 2 * P.WIDTH ≤ two.apart }
    requires room { two.at + two.apart + 2 * P.WIDTH ≤ length out.old }
    ensures put { IsPutInRows 2 two.at (2 * P.WIDTH) two.apart out.old out.new }
    ensures made { (r i : ℕ) → r < 2 → i < 2 * P.WIDTH → slice_index_or out.new (two.at + r * two.apart + i) neutral ≡ merged_at E.merge cells.now neutral (from + r * split.entry.ahead + i) neutral split.entry.all.now }
{
    let start = P::all(neutral);
    let both = merge_places::<P, E>(cells, split.shared, from, (start, start));
    let upper = merge_places::<P, E>(cells, split.upper, from, both);
    store_both::<P>(upper, out, two.at);
    let lower = merge_places::<P, E>(cells, split.lower, from + split.ahead, both);
    store_both::<P>(lower, out, two.at + two.apart);
}

/// Writes so many columns of two rows, four vectors at a time and then two. The last block begins early enough to end with them.
#[inline(never)]
fn put_columns<P: Laned, E: LanedExtremum<P>>(
    cells: &[P],
    split: Split,
    from: usize,
    neutral: P,
    out: &mut [P],
    two: Two,
)
    requires split { IsSplit P.WIDTH split }
    requires cells { from + split.ahead + (split.width - split.left - split.right) ≤ length cells.now }
    requires inside { AllByRecursion (λ p. p + (from + split.ahead + (split.width - split.left - split.right)) ≤ length cells.now) split.all.now }
    requires apart { split.width - split.left - split.right ≤ two.apart }
    requires room { two.at + two.apart + (split.width - split.left - split.right) ≤ length out.old }
    ensures put { IsPutInRows 2 two.at (split.entry.width - split.entry.left - split.entry.right) two.apart out.old out.new }
    ensures made { (r i : ℕ) → r < 2 → i < split.entry.width - split.entry.left - split.entry.right → slice_index_or out.new (two.at + r * two.apart + i) neutral ≡ merged_at E.merge cells.now neutral (from + r * split.entry.ahead + i) neutral split.entry.all.now }
{
    let n = split.width - split.left - split.right;
    let mut done = put_wide::<P, E>(cells, split, from, neutral, out, two);
    'by_block: while done < n {
        let column = done.min(n - 2 * P::WIDTH);
        let there = Two {
            at: two.at + column,
            apart: two.apart,
        };
        put_two_blocks::<P, E>(cells, split, from + column, neutral, out, there);
        done = column + 2 * P::WIDTH;
    }
}

/// Writes a block of the upper row and one of the lower row, from these columns on.
fn put_ends<P: Laned, E: LanedExtremum<P>>(
    cells: &[P],
    split: Split,
    from: usize,
    neutral: P,
    out: &mut [P],
    ends: Ends,
)
    requires cells { from + split.wide + split.width ≤ length cells.now }
    requires inside { AllByRecursion (λ p. p + (from + split.wide + split.width) ≤ length cells.now) split.all.now }
    requires upper { ends.upper + 2 * P.WIDTH ≤ split.width }
    requires lower { ends.lower + 2 * P.WIDTH ≤ split.width }
    requires room { ends.at + 2 * split.width ≤ length out.old }
    ensures put { IsPutAt ends.at (2 * split.entry.width) out.old out.new }
    ensures upper { (i : ℕ) → i < 2 * P.WIDTH → slice_index_or out.new (ends.at + (ends.upper + i)) neutral ≡ merged_at E.merge cells.now neutral (from + (ends.upper + i)) neutral split.entry.all.now }
    ensures lower { (i : ℕ) → i < 2 * P.WIDTH → slice_index_or out.new (ends.at + split.entry.width + (ends.lower + i)) neutral ≡ merged_at E.merge cells.now neutral (from + split.entry.wide + (ends.lower + i)) neutral split.entry.all.now }
    ensures kept { (i : ℕ) (d : P) → (i < ends.upper) ⊎ (ends.upper + 2 * P.WIDTH ≤ i) → (i < split.entry.width + ends.lower) ⊎ (split.entry.width + ends.lower + 2 * P.WIDTH ≤ i) → slice_index_or out.new (ends.at + i) d ≡ slice_index_or out.old (ends.at + i) d }
{
    put_block::<P, E>(
        cells,
        split.all,
        from + ends.upper,
        neutral,
        out,
        ends.at + ends.upper,
    );
    put_block::<P, E>(
        cells,
        split.all,
        from + split.wide + ends.lower,
        neutral,
        out,
        ends.at + split.width + ends.lower,
    );
}

/// Where two rows of results begin, and from which of their columns on a block is written.
#[derive(Clone, Copy)]
struct Ends {
    at: usize,
    upper: usize,
    lower: usize,
}

/// Writes two rows of results, of which the upper one sees the cells `from` places after each of the places.
pub(crate) fn put_pair<P: Laned, E: LanedExtremum<P>>(
    cells: &[P],
    split: Split,
    from: usize,
    neutral: P,
    out: &mut [P],
    at: usize,
)
    requires split { IsSplit P.WIDTH split }
    requires cells { from + split.wide + split.width ≤ length cells.now }
    requires inside { AllByRecursion (λ p. p + (from + split.wide + split.width) ≤ length cells.now) split.all.now }
    requires room { at + 2 * split.width ≤ length out.old }
    ensures put { IsPutAt at (2 * split.entry.width) out.old out.new }
    ensures made { (r i : ℕ) → r < 2 → i < split.entry.width → slice_index_or out.new (at + (r * split.entry.width + i)) neutral ≡ merged_at E.merge cells.now neutral (from + r * split.entry.wide + i) neutral split.entry.all.now }
{
    let (left, right, width) = (split.left, split.right, split.width);
    let two = Two {
        at: at + left,
        apart: width + right - left,
    };
    put_columns::<P, E>(cells, split, from + left, neutral, out, two);
    let last = width - 2 * P::WIDTH;
    if left > 0 {
        let ends = Ends {
            at,
            upper: 0,
            lower: last,
        };
        put_ends::<P, E>(cells, split, from, neutral, out, ends);
        return;
    }
    if right > 0 {
        let ends = Ends {
            at,
            upper: last,
            lower: 0,
        };
        put_ends::<P, E>(cells, split, from, neutral, out, ends);
        return;
    }
}
