//! Lines: what the boxes of a row of results have in each column, with neutral samples beside what the place has.
ghost use Rattle.std.specs.Prelude.{◌≡◌, ℕ, ◌+◌, ◌-◌, ◌*◌, ◌<◌, ◌≤◌, ◌^◌, pos, negsuc, ◌+ℤ◌, ◌≤ℤ◌, length, slice_index_or, IsTrue};
ghost use Rattle.mw_model.specs.declared.limits.TheConstants.{FAR_LIMIT};
ghost use Rattle.mw_line_lent.specs.Parts.{IsOverlap};
ghost use Rattle.mw_line_lent.specs.Boxes.{HasLine, HasLines, IsBlank, IsSuited, IsPutAt, wide_of};

use crate::boxes::{Boxes, part_of};
use crate::down::{Rows, put_down};
use crate::extrema::LanedExtremum;
use crate::fours::{Lines, put_four, put_two};
use crate::lanes::Laned;
use mw_line::pixel::Pixel;
use mw_tile_lent::Lent;

/// Fills so many places from one on.
pub(crate) fn fill<P: Pixel>(out: &mut [P], at: usize, n: usize, neutral: P)
    requires { at + n ≤ length out.old }
    ensures put { IsPutAt at n out.old out.new }
    ensures made { (i : ℕ) (d : P) → i < n → slice_index_or out.new (at + i) d ≡ neutral }
{
    for i in 0..n {
        out[at + i] = neutral;
    }
}

/// Writes the line of row y of the boxes, which may have rows that the place has not.
pub(crate) fn put_line<P: Laned, E: LanedExtremum<P>>(
    lent: &Lent<P>,
    boxes: Boxes,
    y: usize,
    neutral: P,
    lines: &mut [P],
)
    requires suited { IsSuited P.WIDTH boxes }
    requires part { IsOverlap boxes.column (wide_of boxes) lent.now.place.width boxes.part }
    requires blank { IsBlank neutral boxes lines.old }
    requires row { y < boxes.height }
    requires low { boxes.height < 2 ^ 32 }
    requires near { negsuc FAR_LIMIT ≤ℤ boxes.row }
    requires far { boxes.row ≤ℤ pos FAR_LIMIT }
    ensures blank { IsBlank neutral boxes lines.new }
    ensures line { HasLine E.merge neutral lent.now boxes y 0 lines.new }
{
    let place = lent.place();
    let seen = part_of(boxes.row + y as i64, boxes.down, place.height);
    let part = boxes.part;
    if seen.count == 0 {
        fill(lines, part.behind, part.count, neutral);
        return;
    }
    let stride = place.width as usize;
    let rows = Rows {
        samples: lent.samples(),
        from: seen.ahead * stride + part.ahead,
        stride,
        count: seen.count,
    };
    put_down::<P, E>(rows, neutral, lines, part.behind, part.count);
}

/// Writes four lines from row y of the boxes on, where the place has all of their rows. Says whether it did.
fn put_four_lines<P: Laned, E: LanedExtremum<P>>(
    lent: &Lent<P>,
    boxes: Boxes,
    y: usize,
    neutral: P,
    lines: &mut [P],
) -> bool
    requires suited { IsSuited P.WIDTH boxes }
    requires part { IsOverlap boxes.column (wide_of boxes) lent.now.place.width boxes.part }
    requires blank { IsBlank neutral boxes lines.old }
    requires row { y < boxes.height }
    requires low { boxes.height < 2 ^ 32 }
    requires near { negsuc FAR_LIMIT ≤ℤ boxes.row }
    requires far { boxes.row ≤ℤ pos FAR_LIMIT }
    ensures within { IsTrue result → y + 4 ≤ boxes.height }
    ensures blank { IsBlank neutral boxes lines.new }
    ensures lines { IsTrue result → HasLines E.merge neutral lent.now boxes y 4 lines.new }
{
    let place = lent.place();
    let all = boxes.down + 3;
    let seen = part_of(boxes.row + y as i64, all, place.height);
    if boxes.down < 4 || boxes.height - y < 4 || seen.behind > 0 || seen.count < all {
        return false;
    }
    let part = boxes.part;
    let stride = place.width as usize;
    let rows = Rows {
        samples: lent.samples(),
        from: seen.ahead * stride + part.ahead,
        stride,
        count: boxes.down,
    };
    let wide = boxes.width + (boxes.across - 1);
    let target = Lines {
        at: part.behind,
        wide,
    };
    put_four::<P, E>(rows, neutral, lines, target, part.count);
    true
}

/// Writes two lines from row y of the boxes on, where the place has all of their rows. Says whether it did.
fn put_two_lines<P: Laned, E: LanedExtremum<P>>(
    lent: &Lent<P>,
    boxes: Boxes,
    y: usize,
    neutral: P,
    lines: &mut [P],
) -> bool
    requires suited { IsSuited P.WIDTH boxes }
    requires part { IsOverlap boxes.column (wide_of boxes) lent.now.place.width boxes.part }
    requires blank { IsBlank neutral boxes lines.old }
    requires row { y < boxes.height }
    requires low { boxes.height < 2 ^ 32 }
    requires near { negsuc FAR_LIMIT ≤ℤ boxes.row }
    requires far { boxes.row ≤ℤ pos FAR_LIMIT }
    ensures within { IsTrue result → y + 2 ≤ boxes.height }
    ensures blank { IsBlank neutral boxes lines.new }
    ensures lines { IsTrue result → HasLines E.merge neutral lent.now boxes y 2 lines.new }
{
    let place = lent.place();
    let all = boxes.down + 1;
    let seen = part_of(boxes.row + y as i64, all, place.height);
    if boxes.down < 2 || boxes.height - y < 2 || seen.behind > 0 || seen.count < all {
        return false;
    }
    let part = boxes.part;
    let stride = place.width as usize;
    let rows = Rows {
        samples: lent.samples(),
        from: seen.ahead * stride + part.ahead,
        stride,
        count: boxes.down,
    };
    let wide = boxes.width + (boxes.across - 1);
    let target = Lines {
        at: part.behind,
        wide,
    };
    put_two::<P, E>(rows, neutral, lines, target, part.count);
    true
}

/// Writes the lines of some rows of the boxes from row y on, at least of one. Returns how many.
pub(crate) fn put_lines<P: Laned, E: LanedExtremum<P>>(
    lent: &Lent<P>,
    boxes: Boxes,
    y: usize,
    neutral: P,
    lines: &mut [P],
) -> usize
    requires suited { IsSuited P.WIDTH boxes }
    requires part { IsOverlap boxes.column (wide_of boxes) lent.now.place.width boxes.part }
    requires blank { IsBlank neutral boxes lines.old }
    requires row { y < boxes.height }
    requires low { boxes.height < 2 ^ 32 }
    requires near { negsuc FAR_LIMIT ≤ℤ boxes.row }
    requires far { boxes.row ≤ℤ pos FAR_LIMIT }
    ensures some { 0 < result }
    ensures few { result ≤ 4 }
    ensures within { y + result ≤ boxes.height }
    ensures blank { IsBlank neutral boxes lines.new }
    ensures lines { HasLines E.merge neutral lent.now boxes y result lines.new }
{
    if put_four_lines::<P, E>(lent, boxes, y, neutral, lines) {
        return 4;
    }
    if put_two_lines::<P, E>(lent, boxes, y, neutral, lines) {
        return 2;
    }
    put_line::<P, E>(lent, boxes, y, neutral, lines);
    1
}
