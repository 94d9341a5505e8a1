//! Medians of nine by vectors of 32 bytes, for rows that stand in memory: three columns of three are put in order, and then the
//! highest of the lowest, the middle of the middle and the lowest of the highest (Smith 1996). Each column is put in order once for
//! the three squares that lie over it (Kolte, Smith and Su 1999).
//!
//! `mw_rank_medians` does the same by vectors of 16 bytes. A long row is read from memory while its medians are made, and what is
//! made between two loads should cost little: the build for AVX2 has half as many steps with these vectors. The build for SSE4
//! takes two registers for each, and loses nothing. Under 5 x 5 it would have too few registers.
ghost use Rattle.std.specs.Prelude.{◌≡◌, ℕ, ◌+◌, ◌*◌, ◌<◌, ◌≤◌, length, slice_index_or};
ghost use Rattle.mw_rank_medians.specs.Ahead.{IsAhead};
ghost use Rattle.mw_rank_medians.specs.Numbered.{below, IsNthLevel, middle};
ghost use Rattle.mw_rank_medians.specs.Columns.{column_below, block_below};
ghost use Rattle.mw_rank_medians.specs.Squares.{IsMedian};
ghost use Rattle.mw_rank_lent.specs.Sorted.{AreSorted, lanes_of_sorted};

use crate::broad::Broad;
use mw_rank_medians::{Sheet, medians_of_rows};

/// Three vectors, of which each lane is in rising order.
#[derive(Clone, Copy)]
struct Sorted<V> {
    low: V,
    middle: V,
    high: V,
}

/// Three vectors with each lane in rising order.
#[inline(always)]
fn sorted_of<P: Broad>(a: P::Wide, b: P::Wide, c: P::Wide) -> Sorted<P::Wide>
    ensures { (i : ℕ) (count : ℕ → ℕ) → ((t : ℕ) → count t ≡ below (P.wide_lane a i) t + below (P.wide_lane b i) t + below (P.wide_lane c i) t) → AreSorted count (lanes_of_sorted P.wide_lane result i) }
{
    let first = P::lower_wide(a, b);
    let second = P::higher_wide(a, b);
    let middle = P::lower_wide(second, c);
    Sorted {
        low: P::lower_wide(first, middle),
        middle: P::higher_wide(first, middle),
        high: P::higher_wide(second, c),
    }
}

/// The middle one of three in each lane.
#[inline(always)]
fn middle_of<P: Broad>(a: P::Wide, b: P::Wide, c: P::Wide) -> P::Wide
    ensures { (i : ℕ) → P.wide_lane result i ≡ middle (P.wide_lane a i) (P.wide_lane b i) (P.wide_lane c i) }
{
    let low = P::lower_wide(a, b);
    let high = P::higher_wide(a, b);
    P::higher_wide(low, P::lower_wide(high, c))
}

/// The median of three columns of three in each lane.
#[inline(always)]
fn median_of<P: Broad>(a: Sorted<P::Wide>, b: Sorted<P::Wide>, c: Sorted<P::Wide>) -> P::Wide
    ensures { (i : ℕ) (f g h : ℕ → ℕ) → AreSorted f (lanes_of_sorted P.wide_lane a i) → AreSorted g (lanes_of_sorted P.wide_lane b i) → AreSorted h (lanes_of_sorted P.wide_lane c i) → IsNthLevel (λ t. f t + g t + h t) 5 (P.wide_lane result i) }
{
    let low = P::higher_wide(P::higher_wide(a.low, b.low), c.low);
    let middle = middle_of::<P>(a.middle, b.middle, c.middle);
    let high = P::lower_wide(P::lower_wide(a.high, b.high), c.high);
    middle_of::<P>(low, middle, high)
}

/// Columns in order, one further on.
#[inline(always)]
fn sorted_one_on<P: Broad>(here: Sorted<P::Wide>, next: Sorted<P::Wide>) -> Sorted<P::Wide>
    ensures { IsAhead (lanes_of_sorted P.wide_lane) P.BREADTH 1 here next result }
{
    Sorted {
        low: P::one_on(here.low, next.low),
        middle: P::one_on(here.middle, next.middle),
        high: P::one_on(here.high, next.high),
    }
}

/// Columns in order, two further on.
#[inline(always)]
fn sorted_two_on<P: Broad>(here: Sorted<P::Wide>, next: Sorted<P::Wide>) -> Sorted<P::Wide>
    ensures { IsAhead (lanes_of_sorted P.wide_lane) P.BREADTH 2 here next result }
{
    Sorted {
        low: P::two_on(here.low, next.low),
        middle: P::two_on(here.middle, next.middle),
        high: P::two_on(here.high, next.high),
    }
}

/// The samples of three rows in rising order, column by column.
#[inline(always)]
fn sorted_at<P: Broad>(sheet: Sheet<P>, at: usize) -> Sorted<P::Wide>
    requires { sheet.from + 2 * sheet.stride + at + P.BREADTH ≤ length sheet.samples.now }
    ensures { (i : ℕ) → i < P.BREADTH → AreSorted (column_below P.level P.TOP sheet.entry.samples.now sheet.entry.from sheet.entry.stride 3 (at + i)) (lanes_of_sorted P.wide_lane result i) }
{
    let first = sheet.from + at;
    let second = first + sheet.stride;
    sorted_of::<P>(
        P::load_wide(sheet.samples, first),
        P::load_wide(sheet.samples, second),
        P::load_wide(sheet.samples, second + sheet.stride),
    )
}

/// The first medians of nine samples each, as far as a whole vector follows theirs. Each column is put in order once. Returns
/// how many there are.
fn put_first<P: Broad>(out: &mut [P], sheet: Sheet<P>) -> usize
    requires wide { P.BREADTH ≤ length out.old }
    requires inside { sheet.from + 2 * sheet.stride + length out.old + 2 ≤ length sheet.samples.now }
    ensures size { length out.new ≡ length out.old }
    ensures part { result ≤ length out.old }
    ensures rest { length out.old < result + 2 * P.BREADTH }
    ensures medians { (i : ℕ) → i < result → IsNthLevel (block_below P.level P.TOP sheet.entry.samples.now sheet.entry.from sheet.entry.stride 3 i) 5 (P.level (slice_index_or out.new i P.TOP)) }
{
    let width = P::BREADTH;
    let mut done = 0usize;
    let mut here = sorted_at(sheet, 0);
    'by_vector: while out.len() - done >= 2 * width {
        let next = sorted_at(sheet, done + width);
        let middle = sorted_one_on::<P>(here, next);
        let right = sorted_two_on::<P>(here, next);
        let medians = median_of::<P>(here, middle, right);
        P::store_wide(medians, out, done);
        here = next;
        done += width;
    }
    done
}

/// The medians of nine samples each. The last vector begins early enough to end with them. Within its callers its addresses
/// would be computed anew for each vector.
#[inline(never)]
fn put_nine<P: Broad>(out: &mut [P], sheet: Sheet<P>)
    requires wide { P.BREADTH ≤ length out.old }
    requires inside { sheet.from + 2 * sheet.stride + length out.old + 2 ≤ length sheet.samples.now }
    ensures size { length out.new ≡ length out.old }
    ensures medians { (i : ℕ) → i < length out.old → IsNthLevel (block_below P.level P.TOP sheet.entry.samples.now sheet.entry.from sheet.entry.stride 3 i) 5 (P.level (slice_index_or out.new i P.TOP)) }
{
    let mut done = put_first(out, sheet);
    'by_vector: while done < out.len() {
        let from = done.min(out.len() - P::BREADTH);
        let left = sorted_at(sheet, from);
        let middle = sorted_at(sheet, from + 1);
        let right = sorted_at(sheet, from + 2);
        let medians = median_of::<P>(left, middle, right);
        P::store_wide(medians, out, from);
        done = from + P::BREADTH;
    }
}

/// The medians under squares of that side.
pub(crate) fn medians_of_row<P: Broad>(out: &mut [P], sheet: Sheet<P>, side: u32, k: u32)
    requires wide { P.WIDTH ≤ length out.old }
    requires inside { sheet.from + side * sheet.stride + length out.old + side ≤ length sheet.samples.now + sheet.stride + 1 }
    requires median { IsMedian side k }
    ensures size { length out.new ≡ length out.old }
    ensures medians { (i : ℕ) → i < length out.old → IsNthLevel (block_below P.level P.TOP sheet.entry.samples.now sheet.entry.from sheet.entry.stride side i) k (P.level (slice_index_or out.new i P.TOP)) }
{
    if side == 3 && out.len() >= P::BREADTH {
        put_nine(out, sheet);
    } else {
        medians_of_rows(out, sheet, side, k);
    }
}
