//! Medians of a row of results. As far as whole vectors follow, each column is put in order once, and the squares that begin in
//! the lanes of a vector take the rest of their columns from the next ones. The last squares put columns of their own in order.
//! A long row is made in pieces, of which each is copied into the result while the processor begins with the next.
ghost use Rattle.std.specs.Prelude.{◌≡◌, ℕ, ◌+◌, ◌*◌, ◌<◌, ◌≤◌, length, slice_index_or, OnOk};
ghost use Rattle.mw_rank_medians.specs.Numbered.{lanes_of_three, lanes_of_five, AreThree, AreFive, IsNthLevel};
ghost use Rattle.mw_rank_medians.specs.Columns.{column_below, block_below, GainsMedians};
ghost use Rattle.mw_rank_medians.specs.Squares.{IsMedian};

use crate::Vectored;
use crate::ahead::{
    five_four_ahead, five_one_ahead, ten_two_ahead, three_one_ahead, three_two_ahead,
};
use crate::five::{Five, five_in_order, five_merged, median_of_tens};
use crate::nine::{Three, median_of_nine, three_in_order};
use mw_model::NoMemory;
use mw_rank::pixel::Pixel;

/// Samples in rows of one length, from a place on.
#[derive(Clone, Copy)]
pub struct Sheet<'a, P: Pixel> {
    pub samples: &'a [P],
    pub from: usize,
    pub stride: usize,
}

/// The samples of three rows in rising order, column by column.
#[inline(always)]
fn columns_of_three<P: Vectored>(sheet: Sheet<P>, at: usize) -> Three<P::Vector>
    requires { sheet.from + 2 * sheet.stride + at + P.WIDTH ≤ length sheet.samples.now }
    ensures { (i : ℕ) → i < P.WIDTH → AreThree (column_below P.level P.TOP sheet.entry.samples.now sheet.entry.from sheet.entry.stride 3 (at + i)) (lanes_of_three P.lane result i) }
{
    let first = sheet.from + at;
    let second = first + sheet.stride;
    three_in_order::<P>(
        P::load(sheet.samples, first),
        P::load(sheet.samples, second),
        P::load(sheet.samples, second + sheet.stride),
    )
}

/// The first medians of nine samples each, as far as a whole vector follows theirs. Each column is put in order once. Returns
/// how many there are.
fn first_of_nine<P: Vectored>(out: &mut [P], sheet: Sheet<P>) -> usize
    requires wide { P.WIDTH ≤ length out.old }
    requires inside { sheet.from + 2 * sheet.stride + length out.old + 2 ≤ length sheet.samples.now }
    ensures size { length out.new ≡ length out.old }
    ensures part { result ≤ length out.old }
    ensures rest { length out.old < result + 2 * P.WIDTH }
    ensures medians { (i : ℕ) → i < result → IsNthLevel (block_below P.level P.TOP sheet.entry.samples.now sheet.entry.from sheet.entry.stride 3 i) 5 (P.level (slice_index_or out.new i P.TOP)) }
{
    let width = P::WIDTH;
    let mut done = 0usize;
    let mut here = columns_of_three(sheet, 0);
    'by_vector: while out.len() - done >= 2 * width {
        let next = columns_of_three(sheet, done + width);
        let middle = three_one_ahead::<P>(here, next);
        let right = three_two_ahead::<P>(here, next);
        let medians = median_of_nine::<P>(here, middle, right);
        P::store(medians, out, done);
        here = next;
        done += width;
    }
    done
}

/// The medians of nine samples each. The last vector begins early enough to end with them. Within its callers its addresses
/// would be computed anew for each vector.
#[inline(never)]
fn medians_of_nine<P: Vectored>(out: &mut [P], sheet: Sheet<P>)
    requires wide { P.WIDTH ≤ length out.old }
    requires inside { sheet.from + 2 * sheet.stride + length out.old + 2 ≤ length sheet.samples.now }
    ensures size { length out.new ≡ length out.old }
    ensures medians { (i : ℕ) → i < length out.old → IsNthLevel (block_below P.level P.TOP sheet.entry.samples.now sheet.entry.from sheet.entry.stride 3 i) 5 (P.level (slice_index_or out.new i P.TOP)) }
{
    let mut done = first_of_nine(out, sheet);
    'by_vector: while done < out.len() {
        let from = done.min(out.len() - P::WIDTH);
        let left = columns_of_three(sheet, from);
        let middle = columns_of_three(sheet, from + 1);
        let right = columns_of_three(sheet, from + 2);
        let medians = median_of_nine::<P>(left, middle, right);
        P::store(medians, out, from);
        done = from + P::WIDTH;
    }
}

/// The samples of five rows in rising order, column by column.
#[inline(always)]
fn columns_of_five<P: Vectored>(sheet: Sheet<P>, at: usize) -> Five<P::Vector>
    requires { sheet.from + 4 * sheet.stride + at + P.WIDTH ≤ length sheet.samples.now }
    ensures { (i : ℕ) → i < P.WIDTH → AreFive (column_below P.level P.TOP sheet.entry.samples.now sheet.entry.from sheet.entry.stride 5 (at + i)) (lanes_of_five P.lane result i) }
{
    let first = sheet.from + at;
    let second = first + sheet.stride;
    let third = second + sheet.stride;
    let fourth = third + sheet.stride;
    five_in_order::<P>(
        P::load(sheet.samples, first),
        P::load(sheet.samples, second),
        P::load(sheet.samples, third),
        P::load(sheet.samples, fourth),
        P::load(sheet.samples, fourth + sheet.stride),
    )
}

/// The first medians of 25 samples each, as far as two whole vectors follow theirs. Each column is put in order once, and each
/// pair of neighbours is merged once. Returns how many there are.
fn first_of_25<P: Vectored>(out: &mut [P], sheet: Sheet<P>) -> usize
    requires inside { sheet.from + 4 * sheet.stride + length out.old + 4 ≤ length sheet.samples.now }
    ensures size { length out.new ≡ length out.old }
    ensures part { result ≤ length out.old }
    ensures rest { length out.old < result + 3 * P.WIDTH }
    ensures medians { (i : ℕ) → i < result → IsNthLevel (block_below P.level P.TOP sheet.entry.samples.now sheet.entry.from sheet.entry.stride 5 i) 13 (P.level (slice_index_or out.new i P.TOP)) }
{
    let width = P::WIDTH;
    if out.len() < 3 * width {
        return 0;
    }
    let mut done = 0usize;
    let mut here = columns_of_five(sheet, 0);
    let mut next = columns_of_five(sheet, width);
    let second = five_one_ahead::<P>(here, next);
    let mut left = five_merged::<P>(here, second);
    'by_vector: while out.len() - done >= 3 * width {
        let last = columns_of_five(sheet, done + 2 * width);
        let beside = five_one_ahead::<P>(next, last);
        let following = five_merged::<P>(next, beside);
        let right = ten_two_ahead::<P>(left, following);
        let fifth = five_four_ahead::<P>(here, next);
        let medians = median_of_tens::<P>(left, right, fifth);
        P::store(medians, out, done);
        here = next;
        next = last;
        left = following;
        done += width;
    }
    done
}

/// The medians of 25 samples each; not inlined, as those of nine.
#[inline(never)]
fn medians_of_25<P: Vectored>(out: &mut [P], sheet: Sheet<P>)
    requires wide { P.WIDTH ≤ length out.old }
    requires inside { sheet.from + 4 * sheet.stride + length out.old + 4 ≤ length sheet.samples.now }
    ensures size { length out.new ≡ length out.old }
    ensures medians { (i : ℕ) → i < length out.old → IsNthLevel (block_below P.level P.TOP sheet.entry.samples.now sheet.entry.from sheet.entry.stride 5 i) 13 (P.level (slice_index_or out.new i P.TOP)) }
{
    let mut done = first_of_25(out, sheet);
    'by_vector: while done < out.len() {
        let from = done.min(out.len() - P::WIDTH);
        let first = columns_of_five(sheet, from);
        let second = columns_of_five(sheet, from + 1);
        let third = columns_of_five(sheet, from + 2);
        let fourth = columns_of_five(sheet, from + 3);
        let fifth = columns_of_five(sheet, from + 4);
        let left = five_merged::<P>(first, second);
        let right = five_merged::<P>(third, fourth);
        let medians = median_of_tens::<P>(left, right, fifth);
        P::store(medians, out, from);
        done = from + P::WIDTH;
    }
}

/// The medians under squares of that side.
pub fn medians_of_rows<P: Vectored>(out: &mut [P], sheet: Sheet<P>, side: u32, k: u32)
    requires wide { P.WIDTH ≤ length out.old }
    requires inside { sheet.from + side * sheet.stride + length out.old + side ≤ length sheet.samples.now + sheet.stride + 1 }
    requires median { IsMedian side k }
    ensures size { length out.new ≡ length out.old }
    ensures medians { (i : ℕ) → i < length out.old → IsNthLevel (block_below P.level P.TOP sheet.entry.samples.now sheet.entry.from sheet.entry.stride side i) k (P.level (slice_index_or out.new i P.TOP)) }
{
    if side == 3 {
        medians_of_nine(out, sheet);
    } else {
        medians_of_25(out, sheet);
    }
}

/// Adds the first medians of a row, a piece at a time. The last piece begins early enough to end with them.
pub(crate) fn push_medians<P: Vectored>(
    out: &mut Vec<P>,
    piece: &mut [P],
    sheet: Sheet<P>,
    side: u32,
    k: u32,
    count: usize,
) -> Result<(), NoMemory>
    requires wide { P.WIDTH ≤ length piece.old }
    requires part { length piece.old ≤ count }
    requires inside { sheet.from + side * sheet.stride + count + side ≤ length sheet.samples.now + sheet.stride + 1 }
    requires median { IsMedian side k }
    ensures medians { OnOk result (GainsMedians P.level P.TOP sheet.entry.samples.now sheet.entry.from sheet.entry.stride side k count out.old.items out.new.items) }
    ensures size { OnOk result (length piece.new ≡ length piece.old) }
{
    let mut done = 0usize;
    'by_piece: while done < count {
        let from = done.min(count - piece.len());
        let part = Sheet {
            from: sheet.from + from,
            ..sheet
        };
        medians_of_rows(piece, part, side, k);
        out.extend_from_slice(&piece[done - from..])?;
        done = from + piece.len();
    }
    Ok(())
}
