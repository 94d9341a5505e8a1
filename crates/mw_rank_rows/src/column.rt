//! Samples of a column enter eight lanes, or leave them.
ghost use Rattle.std.specs.Prelude.{◌≡◌, ℕ, ◌+◌, ◌*◌, ◌<◌, ◌≤◌, length, nat_lt, cond, slice_index_or};
ghost use Rattle.mw_rank_counts.specs.Counting.{AllUnder};
ghost use Rattle.mw_rank_rows.specs.Columns.{sheet_count};
ghost use Rattle.mw_rank_rows.specs.Lanes.{CountsEnter, CountsLeave};

use crate::search::Front;
use crate::vectors::{lanes_at, lanes_if, minus, plus, put_lanes};
use mw_rank_counts::pixel::Pixel;
use std::simd::Simd;

/// Samples of rows of so many places, and the marks of the lanes that see each row, those of the next row one place on.
#[derive(Clone, Copy)]
pub(crate) struct Sheet<'a, P: Pixel> {
    pub samples: &'a [P],
    pub width: usize,
    pub rows: usize,
    pub marks: &'a [u16],
}

/// Counts a sample of that level in the lanes that are marked; gives how many are below the front then.
#[inline(always)]
fn enter_one(counts: &mut [u16], front: Front, s: usize, marks: Simd<u16, 8>) -> Simd<u16, 8>
    requires room { s * 8 + 8 ≤ length counts.old }
    requires below { length front.below ≡ 8 }
    requires marks { length marks ≡ 8 }
    ensures size { length counts.new ≡ length counts.old }
    ensures lanes { length result ≡ 8 }
    ensures counts { CountsEnter (λ levels. s < levels) (λ v j. slice_index_or marks j 0 * cond (nat_lt s v) 1 0) front counts.old counts.new result }
{
    put_lanes(counts, s * 8, plus(lanes_at(counts, s * 8), marks));
    plus(front.below, lanes_if(s < front.level, marks))
}

/// Takes back a sample of that level in the lanes that are marked; gives how many are below the front then.
#[inline(always)]
fn leave_one(counts: &mut [u16], front: Front, s: usize, marks: Simd<u16, 8>) -> Simd<u16, 8>
    requires room { s * 8 + 8 ≤ length counts.old }
    requires below { length front.below ≡ 8 }
    requires marks { length marks ≡ 8 }
    ensures size { length counts.new ≡ length counts.old }
    ensures lanes { length result ≡ 8 }
    ensures counts { CountsLeave (λ levels. s < levels) (λ v j. slice_index_or marks j 0 * cond (nat_lt s v) 1 0) front counts.old counts.new result }
{
    put_lanes(counts, s * 8, minus(lanes_at(counts, s * 8), marks));
    minus(front.below, lanes_if(s < front.level, marks))
}

/// Counts the samples of a column; gives how many of each lane are below the front then.
pub(crate) fn enter_column<P: Pixel>(
    counts: &mut [u16],
    front: Front,
    sheet: Sheet<P>,
    at: usize,
) -> Simd<u16, 8>
    requires inside { (i : ℕ) → i < sheet.rows → i * sheet.width + at < length sheet.samples.now }
    requires marks { sheet.rows + 7 ≤ length sheet.marks.now }
    requires levels { (levels : ℕ) × (length counts.old ≡ levels * 8) × AllUnder P.level P.TOP sheet.samples.now levels }
    requires below { length front.below ≡ 8 }
    ensures size { length counts.new ≡ length counts.old }
    ensures lanes { length result ≡ 8 }
    ensures counts { CountsEnter (AllUnder P.level P.TOP sheet.entry.samples.now) (sheet_count P.level P.TOP sheet.entry at) front counts.old counts.new result }
{
    let mut below = front.below;
    for i in 0..sheet.rows {
        let s = sheet.samples[i * sheet.width + at].value() as usize;
        let marks = lanes_at(sheet.marks, i);
        below = enter_one(counts, Front { below, ..front }, s, marks);
    }
    below
}

/// Takes back the samples of a column; gives how many of each lane are below the front then.
pub(crate) fn leave_column<P: Pixel>(
    counts: &mut [u16],
    front: Front,
    sheet: Sheet<P>,
    at: usize,
) -> Simd<u16, 8>
    requires inside { (i : ℕ) → i < sheet.rows → i * sheet.width + at < length sheet.samples.now }
    requires marks { sheet.rows + 7 ≤ length sheet.marks.now }
    requires levels { (levels : ℕ) × (length counts.old ≡ levels * 8) × AllUnder P.level P.TOP sheet.samples.now levels }
    requires below { length front.below ≡ 8 }
    ensures size { length counts.new ≡ length counts.old }
    ensures lanes { length result ≡ 8 }
    ensures counts { CountsLeave (AllUnder P.level P.TOP sheet.entry.samples.now) (sheet_count P.level P.TOP sheet.entry at) front counts.old counts.new result }
{
    let mut below = front.below;
    for i in 0..sheet.rows {
        let s = sheet.samples[i * sheet.width + at].value() as usize;
        let marks = lanes_at(sheet.marks, i);
        below = leave_one(counts, Front { below, ..front }, s, marks);
    }
    below
}
