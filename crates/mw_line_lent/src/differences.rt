//! One extremum of a tile less another, in one pass: lines of both are made together and stay in the cache, and what is written
//! across them is the difference.
ghost use Rattle.std.specs.Prelude.{◌≡◌, ℕ, ◌+◌, ◌-◌, ◌*◌, ◌<◌, ◌≤◌, ◌^◌, pos, negsuc, ◌-ℤ◌, ◌<ℤ◌, ◌≤ℤ◌, length, IfErr, IfOk, false, true};
ghost use Rattle.mw_model.specs.declared.limits.TheConstants.{FAR_LIMIT};
ghost use Rattle.mw_model.specs.Rectangles.{box_offsets};
ghost use Rattle.mw_model.specs.Rasters.{raster};
ghost use Rattle.mw_model.specs.Windows.{seen_at};
ghost use Rattle.mw_line_lent.specs.Parts.{IsOverlap};
ghost use Rattle.mw_line_lent.specs.Boxes.{IsBlank, IsSuited, wide_of};
ghost use Rattle.mw_line_lent.specs.Differences.{HasDifferences, IsSlidingDifference};
ghost use Rattle.mw_line_lent.specs.Near.{IsAround, StandsInside};

use crate::both::Ends;
use crate::both_lines::put_both_lines;
use crate::boxes::{Boxes, boxes_of, is_suited};
use crate::extrema::LanedExtremum;
use crate::lanes_less::LanedLess;
use crate::less::{Both, put_rows_less};
use mw_line::pixel::copies;
use mw_model::{NoMemory, OffsetBox};
use mw_tile_lent::{Lent, Rect};
use std::alloc::Global;

/// Writes all rows, some at a time. There is room for four lines of each extremum.
fn put_all<P: LanedLess, U: LanedExtremum<P>, L: LanedExtremum<P>>(
    lent: &Lent<P>,
    boxes: Boxes,
    ends: Ends<P>,
    uppers: &mut [P],
    lowers: &mut [P],
    out: &mut [P],
)
    requires suited { IsSuited P.WIDTH boxes }
    requires part { IsOverlap boxes.column (wide_of boxes) lent.now.place.width boxes.part }
    requires upper_blank { IsBlank ends.bottom boxes uppers.old }
    requires lower_blank { IsBlank ends.top boxes lowers.old }
    requires low { boxes.height < 2 ^ 32 }
    requires near { negsuc FAR_LIMIT ≤ℤ boxes.row }
    requires far { boxes.row ≤ℤ pos FAR_LIMIT }
    requires room { length out.old ≡ boxes.height * boxes.width }
    ensures size { length out.new ≡ length out.old }
    ensures made { HasDifferences P.level U.merge ends.bottom L.merge ends.top lent.now boxes boxes.height out.new }
{
    let mut done = 0usize;
    'by_rows: while done < boxes.height {
        let made = put_both_lines::<P, U, L>(lent, boxes, done, ends, uppers, lowers);
        let lines = Both { uppers, lowers };
        put_rows_less::<P, U, L>(lines, made, boxes, out, done * boxes.width);
        done += made;
    }
}

/// Writes all rows, for which it wants memory first.
fn put_boxes<P: LanedLess, U: LanedExtremum<P>, L: LanedExtremum<P>>(
    alloc: Global,
    lent: &Lent<P>,
    boxes: Boxes,
    ends: Ends<P>,
    out: &mut [P],
) -> Result<(), NoMemory>
    requires suited { IsSuited P.WIDTH boxes }
    requires part { IsOverlap boxes.column (wide_of boxes) lent.now.place.width boxes.part }
    requires wide { boxes.width < 2 ^ 32 }
    requires low { boxes.height < 2 ^ 32 }
    requires near { negsuc FAR_LIMIT ≤ℤ boxes.row }
    requires far { boxes.row ≤ℤ pos FAR_LIMIT }
    requires room { length out.old ≡ boxes.height * boxes.width }
    ensures size { length out.new ≡ length out.old }
    ensures made { IfOk result (λ _. HasDifferences P.level U.merge ends.bottom L.merge ends.top lent.now boxes boxes.height out.new) }
    ensures kept { IfErr result (λ _. out.new ≡ out.old) }
{
    let wide = boxes.width + (boxes.across - 1);
    let mut uppers = copies(alloc, 4 * wide, ends.bottom)?;
    let mut lowers = copies(alloc, 4 * wide, ends.top)?;
    put_all::<P, U, L>(
        lent,
        boxes,
        ends,
        uppers.as_mut_slice(),
        lowers.as_mut_slice(),
        out,
    );
    Ok(())
}

/// Higher boxes are made sooner by blocks of rows, one extremum after the other.
const LOW: usize = 18;

/// And wider ones by windows of several places.
const NARROW: usize = 9;

/// Writes at each place of the tile the one extremum of its neutral sample and what is lent under the box, less the other extremum of
/// its own neutral sample and the same, stopping at 0, where the box has at most 18 rows and 9 columns of what is lent, and both have
/// vectors of columns. Says whether it did: where not, it writes nothing. It may want memory (`NoMemory`), but only before it
/// writes.
pub fn differences_into<P: LanedLess, U: LanedExtremum<P>, L: LanedExtremum<P>>(
    alloc: Global,
    lent: &Lent<P>,
    offsets: OffsetBox,
    ends: Ends<P>,
    tile: Rect,
    out: &mut [P],
) -> Result<bool, NoMemory>
    requires { length out.old ≡ tile.height * tile.width }
    ensures over_window { IfOk result (λ done. done ≡ true → IsSlidingDifference P.level U.merge ends.bottom L.merge ends.top (seen_at lent.now) (box_offsets offsets) tile (raster tile.width tile.height out.new)) }
    ensures near { IfOk result (λ done. IsAround offsets → StandsInside lent.now.place tile → (offsets.y1 -ℤ offsets.y0) <ℤ pos 18 → (offsets.x1 -ℤ offsets.x0) <ℤ pos 9 → done ≡ true) }
    ensures left_out { IfOk result (λ done. done ≡ false → out.new ≡ out.old) }
    ensures kept { IfErr result (λ _. out.new ≡ out.old) }
{
    let boxes = boxes_of(lent.place(), offsets, tile);
    if boxes.down > LOW {
        return Ok(false);
    }
    if boxes.across > NARROW {
        return Ok(false);
    }
    if !is_suited::<P>(boxes) {
        return Ok(false);
    }
    put_boxes::<P, U, L>(alloc, lent, boxes, ends, out)?;
    Ok(true)
}
