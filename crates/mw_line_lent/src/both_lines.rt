//! Lines of two extrema: what the boxes of a row of results have in each column, with neutral samples beside what the place has.
ghost use Rattle.std.specs.Prelude.{◌≡◌, ℕ, ◌+◌, ◌-◌, ◌*◌, ◌<◌, ◌≤◌, ◌^◌, pos, negsuc, ◌+ℤ◌, ◌≤ℤ◌, length, slice_index_or, IsTrue};
ghost use Rattle.mw_model.specs.declared.limits.TheConstants.{FAR_LIMIT};
ghost use Rattle.mw_line_lent.specs.Parts.{IsOverlap};
ghost use Rattle.mw_line_lent.specs.Boxes.{HasLines, IsBlank, IsSuited, wide_of};

use crate::both::{Ends, put_four_both, put_two_both};
use crate::boxes::{Boxes, part_of};
use crate::down::Rows;
use crate::extrema::LanedExtremum;
use crate::fours::Lines;
use crate::lanes::Laned;
use crate::lines::put_line;
use mw_tile_lent::Lent;

/// Boxes of so many rows are made sooner by four lines at once than by two.
const BY_FOUR_LINES: usize = 6;

/// Writes four lines of each extremum from row y of the boxes on, where the place has all of their rows. Says whether it did.
fn put_four_both_lines<P: Laned, U: LanedExtremum<P>, L: LanedExtremum<P>>(
    lent: &Lent<P>,
    boxes: Boxes,
    y: usize,
    ends: Ends<P>,
    uppers: &mut [P],
    lowers: &mut [P],
) -> bool
    requires suited { IsSuited P.WIDTH boxes }
    requires part { IsOverlap boxes.column (wide_of boxes) lent.now.place.width boxes.part }
    requires upper_blank { IsBlank ends.bottom boxes uppers.old }
    requires lower_blank { IsBlank ends.top boxes lowers.old }
    requires row { y < boxes.height }
    requires low { boxes.height < 2 ^ 32 }
    requires near { negsuc FAR_LIMIT ≤ℤ boxes.row }
    requires far { boxes.row ≤ℤ pos FAR_LIMIT }
    ensures within { IsTrue result → y + 4 ≤ boxes.height }
    ensures upper_blank { IsBlank ends.bottom boxes uppers.new }
    ensures lower_blank { IsBlank ends.top boxes lowers.new }
    ensures upper { IsTrue result → HasLines U.merge ends.bottom lent.now boxes y 4 uppers.new }
    ensures lower { IsTrue result → HasLines L.merge ends.top lent.now boxes y 4 lowers.new }
{
    let place = lent.place();
    let all = boxes.down + 3;
    let seen = part_of(boxes.row + y as i64, all, place.height);
    let few = boxes.down < BY_FOUR_LINES || boxes.height - y < 4;
    if few || seen.behind > 0 || seen.count < all {
        return false;
    }
    let part = boxes.part;
    let stride = place.width as usize;
    let rows = Rows {
        samples: lent.samples(),
        from: seen.ahead * stride + part.ahead,
        stride,
        count: boxes.down,
    };
    let wide = boxes.width + (boxes.across - 1);
    let target = Lines {
        at: part.behind,
        wide,
    };
    put_four_both::<P, U, L>(rows, ends, uppers, lowers, target, part.count);
    true
}

/// Writes two lines of each extremum from row y of the boxes on, where the place has all of their rows. Says whether it did.
fn put_two_both_lines<P: Laned, U: LanedExtremum<P>, L: LanedExtremum<P>>(
    lent: &Lent<P>,
    boxes: Boxes,
    y: usize,
    ends: Ends<P>,
    uppers: &mut [P],
    lowers: &mut [P],
) -> bool
    requires suited { IsSuited P.WIDTH boxes }
    requires part { IsOverlap boxes.column (wide_of boxes) lent.now.place.width boxes.part }
    requires upper_blank { IsBlank ends.bottom boxes uppers.old }
    requires lower_blank { IsBlank ends.top boxes lowers.old }
    requires row { y < boxes.height }
    requires low { boxes.height < 2 ^ 32 }
    requires near { negsuc FAR_LIMIT ≤ℤ boxes.row }
    requires far { boxes.row ≤ℤ pos FAR_LIMIT }
    ensures within { IsTrue result → y + 2 ≤ boxes.height }
    ensures upper_blank { IsBlank ends.bottom boxes uppers.new }
    ensures lower_blank { IsBlank ends.top boxes lowers.new }
    ensures upper { IsTrue result → HasLines U.merge ends.bottom lent.now boxes y 2 uppers.new }
    ensures lower { IsTrue result → HasLines L.merge ends.top lent.now boxes y 2 lowers.new }
{
    let place = lent.place();
    let all = boxes.down + 1;
    let seen = part_of(boxes.row + y as i64, all, place.height);
    if boxes.down < 2 || boxes.height - y < 2 || seen.behind > 0 || seen.count < all {
        return false;
    }
    let part = boxes.part;
    let stride = place.width as usize;
    let rows = Rows {
        samples: lent.samples(),
        from: seen.ahead * stride + part.ahead,
        stride,
        count: boxes.down,
    };
    let wide = boxes.width + (boxes.across - 1);
    let target = Lines {
        at: part.behind,
        wide,
    };
    put_two_both::<P, U, L>(rows, ends, uppers, lowers, target, part.count);
    true
}

/// Writes the lines of each extremum of some rows of the boxes from row y on, at least of one. Returns how many.
pub(crate) fn put_both_lines<P: Laned, U: LanedExtremum<P>, L: LanedExtremum<P>>(
    lent: &Lent<P>,
    boxes: Boxes,
    y: usize,
    ends: Ends<P>,
    uppers: &mut [P],
    lowers: &mut [P],
) -> usize
    requires suited { IsSuited P.WIDTH boxes }
    requires part { IsOverlap boxes.column (wide_of boxes) lent.now.place.width boxes.part }
    requires upper_blank { IsBlank ends.bottom boxes uppers.old }
    requires lower_blank { IsBlank ends.top boxes lowers.old }
    requires row { y < boxes.height }
    requires low { boxes.height < 2 ^ 32 }
    requires near { negsuc FAR_LIMIT ≤ℤ boxes.row }
    requires far { boxes.row ≤ℤ pos FAR_LIMIT }
    ensures some { 0 < result }
    ensures few { result ≤ 4 }
    ensures within { y + result ≤ boxes.height }
    ensures upper_blank { IsBlank ends.bottom boxes uppers.new }
    ensures lower_blank { IsBlank ends.top boxes lowers.new }
    ensures upper { HasLines U.merge ends.bottom lent.now boxes y result uppers.new }
    ensures lower { HasLines L.merge ends.top lent.now boxes y result lowers.new }
{
    if put_four_both_lines::<P, U, L>(lent, boxes, y, ends, uppers, lowers) {
        return 4;
    }
    if put_two_both_lines::<P, U, L>(lent, boxes, y, ends, uppers, lowers) {
        return 2;
    }
    put_line::<P, U>(lent, boxes, y, ends.bottom, uppers);
    put_line::<P, L>(lent, boxes, y, ends.top, lowers);
    1
}
