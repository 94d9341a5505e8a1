//! Extrema of a tile, where they can be made without a copy of any row.
ghost use Rattle.std.specs.Prelude.{◌≡◌, ℕ, ◌+◌, ◌-◌, ◌*◌, ◌<◌, ◌≤◌, ◌^◌, pos, negsuc, ◌≤ℤ◌, length, IfErr, IfOk, IsTrue, false, true};
ghost use Rattle.mw_model.specs.declared.limits.TheConstants.{FAR_LIMIT};
ghost use Rattle.mw_model.specs.Rectangles.{box_offsets};
ghost use Rattle.mw_model.specs.Rasters.{Raster, raster, cell_at};
ghost use Rattle.mw_model.specs.Windows.{seen_at};
ghost use Rattle.mw_line.specs.mw_tile.Windows.{IsWindow};
ghost use Rattle.mw_line.specs.Extrema.{IsSlidingExtremum};
ghost use Rattle.mw_line_lent.specs.Parts.{IsOverlap};
ghost use Rattle.mw_line_lent.specs.Boxes.{HasBoxes, IsBlank, IsSuited, wide_of};
ghost use Rattle.mw_line_lent.specs.Near.{IsAround, StandsInside};
ghost use Rattle.mw_line_lent.specs.Sheets.{AreTall, IsSheet};

use crate::boxes::{Boxes, LONGEST, boxes_of, is_suited};
use crate::extrema::LanedExtremum;
use crate::lanes::Laned;
use crate::lines::{fill, put_lines};
use crate::rows::put_rows;
use crate::tall::{Tall, put_tall};
use mw_line::pixel::copies;
use mw_model::{NoMemory, OffsetBox};
use mw_tile_lent::{Lent, Rect};
use std::alloc::Global;

/// Writes all rows, some at a time. There is room for four lines, and twice for what is made of one.
fn put_all<P: Laned, E: LanedExtremum<P>>(
    lent: &Lent<P>,
    boxes: Boxes,
    neutral: P,
    lines: &mut [P],
    spare: &mut [P],
    out: &mut [P],
)
    requires suited { IsSuited P.WIDTH boxes }
    requires part { IsOverlap boxes.column (wide_of boxes) lent.now.place.width boxes.part }
    requires blank { IsBlank neutral boxes lines.old }
    requires spare { length spare.old ≡ 2 * wide_of boxes }
    requires low { boxes.height < 2 ^ 32 }
    requires near { negsuc FAR_LIMIT ≤ℤ boxes.row }
    requires far { boxes.row ≤ℤ pos FAR_LIMIT }
    requires room { length out.old ≡ boxes.height * boxes.width }
    ensures size { length out.new ≡ length out.old }
    ensures made { HasBoxes E.merge neutral lent.now boxes boxes.height out.new }
{
    let mut done = 0usize;
    'by_rows: while done < boxes.height {
        let made = put_lines::<P, E>(lent, boxes, done, neutral, lines);
        put_rows::<P, E>(lines, made, boxes, spare, out, done * boxes.width);
        done += made;
    }
}

/// Makes those places of four lines neutral for which the place has no columns. Each line is written in all others.
fn begin_lines<P: Laned>(boxes: Boxes, neutral: P, lines: &mut [P])
    requires suited { IsSuited P.WIDTH boxes }
    requires wide { boxes.width < 2 ^ 32 }
    requires part { boxes.part.behind + boxes.part.count ≤ wide_of boxes }
    requires size { length lines.old ≡ 4 * wide_of boxes }
    ensures { IsBlank neutral boxes lines.new }
{
    let wide = boxes.width + (boxes.across - 1);
    let behind = boxes.part.behind;
    let end = behind + boxes.part.count;
    for r in 0..4usize {
        let at = r * wide;
        fill(lines, at, behind, neutral);
        fill(lines, at + end, wide - end, neutral);
    }
}

/// Writes all rows, with room for six lines.
fn put_with_room<P: Laned, E: LanedExtremum<P>>(
    lent: &Lent<P>,
    boxes: Boxes,
    neutral: P,
    room: &mut [P],
    out: &mut [P],
)
    requires suited { IsSuited P.WIDTH boxes }
    requires part { IsOverlap boxes.column (wide_of boxes) lent.now.place.width boxes.part }
    requires wide { boxes.width < 2 ^ 32 }
    requires low { boxes.height < 2 ^ 32 }
    requires near { negsuc FAR_LIMIT ≤ℤ boxes.row }
    requires far { boxes.row ≤ℤ pos FAR_LIMIT }
    requires lines { 6 * wide_of boxes ≤ length room.old }
    requires room { length out.old ≡ boxes.height * boxes.width }
    ensures lines { length room.new ≡ length room.old }
    ensures size { length out.new ≡ length out.old }
    ensures made { HasBoxes E.merge neutral lent.now boxes boxes.height out.new }
{
    let wide = boxes.width + (boxes.across - 1);
    let (lines, rest) = room.split_at_mut(4 * wide);
    let (spare, _others) = rest.split_at_mut(2 * wide);
    begin_lines(boxes, neutral, lines);
    put_all::<P, E>(lent, boxes, neutral, lines, spare, out);
}

/// Writes all rows, for which it wants memory first.
fn put_boxes<P: Laned, E: LanedExtremum<P>>(
    alloc: Global,
    lent: &Lent<P>,
    boxes: Boxes,
    neutral: P,
    out: &mut [P],
) -> Result<(), NoMemory>
    requires suited { IsSuited P.WIDTH boxes }
    requires part { IsOverlap boxes.column (wide_of boxes) lent.now.place.width boxes.part }
    requires wide { boxes.width < 2 ^ 32 }
    requires low { boxes.height < 2 ^ 32 }
    requires near { negsuc FAR_LIMIT ≤ℤ boxes.row }
    requires far { boxes.row ≤ℤ pos FAR_LIMIT }
    requires room { length out.old ≡ boxes.height * boxes.width }
    ensures size { length out.new ≡ length out.old }
    ensures made { IfOk result (λ _. HasBoxes E.merge neutral lent.now boxes boxes.height out.new) }
    ensures kept { IfErr result (λ _. out.new ≡ out.old) }
{
    if is_tall::<P>(boxes) {
        return put_tall_boxes::<P, E>(alloc, lent, boxes, neutral, out);
    }
    let wide = boxes.width + (boxes.across - 1);
    let mut room = copies(alloc, 6 * wide, neutral)?;
    put_with_room::<P, E>(lent, boxes, neutral, room.as_mut_slice(), out);
    Ok(())
}

/// Writes all rows of tall boxes, with a neutral line, a sheet of such lines, and room for six lines.
fn put_tall_with_room<'a, P: Laned, E: LanedExtremum<P>>(
    lent: &Lent<'a, P>,
    boxes: Boxes,
    neutral: P,
    blank: &'a [P],
    sheet: &mut [P],
    room: &mut [P],
    out: &mut [P],
)
    requires tall { AreTall P.WIDTH lent.now.place.width boxes neutral blank.now }
    requires wide { boxes.width < 2 ^ 32 }
    requires sheet { IsSheet neutral boxes sheet.old }
    requires lines { 6 * wide_of boxes ≤ length room.old }
    requires room { length out.old ≡ boxes.height * boxes.width }
    ensures sheet { length sheet.new ≡ length sheet.old }
    ensures lines { length room.new ≡ length room.old }
    ensures size { length out.new ≡ length out.old }
    ensures made { HasBoxes E.merge neutral lent.now boxes boxes.height out.new }
{
    let wide = boxes.width + (boxes.across - 1);
    let four = 4 * wide;
    let (lines, rest) = room.split_at_mut(four);
    let (spare, _others) = rest.split_at_mut(2 * wide);
    begin_lines(boxes, neutral, lines);
    let tall = Tall { boxes, blank };
    put_tall::<P, E>(lent, tall, neutral, sheet, lines, spare, out);
}

/// Makes the first and the last line of a sheet neutral.
fn begin_sheet<P: Laned>(boxes: Boxes, neutral: P, sheet: &mut [P])
    requires narrow { boxes.part.count < 2 ^ 34 }
    requires low { boxes.down ≤ 256 }
    requires size { length sheet.old ≡ (boxes.down + 3) * boxes.part.count }
    ensures { IsSheet neutral boxes sheet.new }
{
    let count = boxes.part.count;
    fill(sheet, 0, count, neutral);
    fill(sheet, (boxes.down + 2) * count, count, neutral);
}

/// Writes all rows of tall boxes, with a sheet, and room for a neutral line and six lines.
fn put_tall_beside<P: Laned, E: LanedExtremum<P>>(
    lent: &Lent<P>,
    boxes: Boxes,
    neutral: P,
    sheet: &mut [P],
    room: &mut [P],
    out: &mut [P],
)
    requires suited { IsSuited P.WIDTH boxes }
    requires part { IsOverlap boxes.column (wide_of boxes) lent.now.place.width boxes.part }
    requires wide { boxes.width < 2 ^ 32 }
    requires low { boxes.height < 2 ^ 32 }
    requires near { negsuc FAR_LIMIT ≤ℤ boxes.row }
    requires far { boxes.row ≤ℤ pos FAR_LIMIT }
    requires sheet { IsSheet neutral boxes sheet.old }
    requires lines { boxes.part.count + 6 * wide_of boxes ≤ length room.old }
    requires room { length out.old ≡ boxes.height * boxes.width }
    ensures sheet { length sheet.new ≡ length sheet.old }
    ensures lines { length room.new ≡ length room.old }
    ensures size { length out.new ≡ length out.old }
    ensures made { HasBoxes E.merge neutral lent.now boxes boxes.height out.new }
{
    let count = boxes.part.count;
    let (line, rest) = room.split_at_mut(count);
    fill(line, 0, count, neutral);
    put_tall_with_room::<P, E>(lent, boxes, neutral, line, sheet, rest, out);
}

/// Writes all rows of tall boxes, with room for a sheet, a neutral line and six lines.
fn put_tall_in_room<P: Laned, E: LanedExtremum<P>>(
    lent: &Lent<P>,
    boxes: Boxes,
    neutral: P,
    room: &mut [P],
    out: &mut [P],
)
    requires suited { IsSuited P.WIDTH boxes }
    requires part { IsOverlap boxes.column (wide_of boxes) lent.now.place.width boxes.part }
    requires wide { boxes.width < 2 ^ 32 }
    requires low { boxes.height < 2 ^ 32 }
    requires near { negsuc FAR_LIMIT ≤ℤ boxes.row }
    requires far { boxes.row ≤ℤ pos FAR_LIMIT }
    requires lines { (boxes.down + 3) * boxes.part.count + (boxes.part.count + 6 * wide_of boxes) ≤ length room.old }
    requires room { length out.old ≡ boxes.height * boxes.width }
    ensures lines { length room.new ≡ length room.old }
    ensures size { length out.new ≡ length out.old }
    ensures made { HasBoxes E.merge neutral lent.now boxes boxes.height out.new }
{
    let (sheet, rest) = room.split_at_mut((boxes.down + 3) * boxes.part.count);
    begin_sheet(boxes, neutral, sheet);
    put_tall_beside::<P, E>(lent, boxes, neutral, sheet, rest, out);
}

/// Writes all rows of tall boxes, for which it wants memory first.
fn put_tall_boxes<P: Laned, E: LanedExtremum<P>>(
    alloc: Global,
    lent: &Lent<P>,
    boxes: Boxes,
    neutral: P,
    out: &mut [P],
) -> Result<(), NoMemory>
    requires suited { IsSuited P.WIDTH boxes }
    requires part { IsOverlap boxes.column (wide_of boxes) lent.now.place.width boxes.part }
    requires wide { boxes.width < 2 ^ 32 }
    requires low { boxes.height < 2 ^ 32 }
    requires near { negsuc FAR_LIMIT ≤ℤ boxes.row }
    requires far { boxes.row ≤ℤ pos FAR_LIMIT }
    requires room { length out.old ≡ boxes.height * boxes.width }
    ensures size { length out.new ≡ length out.old }
    ensures made { IfOk result (λ _. HasBoxes E.merge neutral lent.now boxes boxes.height out.new) }
    ensures kept { IfErr result (λ _. out.new ≡ out.old) }
{
    let count = boxes.part.count;
    let wide = boxes.width + (boxes.across - 1);
    let mut sheet = copies(alloc, (boxes.down + 3) * count, neutral)?;
    let mut room = copies(alloc, 6 * wide, neutral)?;
    let line = copies(alloc, count, neutral)?;
    put_tall_with_room::<P, E>(
        lent,
        boxes,
        neutral,
        line.as_slice(),
        sheet.as_mut_slice(),
        room.as_mut_slice(),
        out,
    );
    Ok(())
}

/// Lower boxes are made sooner by four lines at once.
const LOW: usize = 18;

/// No more vectors have a sheet and some ten lines beside it. The widest images have as many under the tallest boxes.
const SHEET: usize = 139264;

/// Whether boxes are made sooner by blocks of rows: tall ones, in so many rows that tails serve most lines of a block.
fn is_tall<P: Laned>(boxes: Boxes) -> bool
    requires suited { IsSuited P.WIDTH boxes }
    requires low { boxes.height < 2 ^ 32 }
{
    let vectors = boxes.part.count / P::WIDTH;
    boxes.down > LOW && boxes.height >= boxes.down / 2 && vectors < SHEET / (boxes.down + 10)
}

/// Writes at each place of the tile the extremum of the neutral sample and what is lent under the box, where both have vectors of
/// columns and no side of the box has more than 256 places. Says whether it did: where not, it writes nothing. Where what is lent
/// has all that the frame has under the box, this is the extremum over the frame. It may want memory (`NoMemory`), but only before
/// it writes.
pub fn boxes_into<P: Laned, E: LanedExtremum<P>>(
    alloc: Global,
    lent: &Lent<P>,
    offsets: OffsetBox,
    neutral: P,
    tile: Rect,
    out: &mut [P],
) -> Result<bool, NoMemory>
    requires { length out.old ≡ tile.height * tile.width }
    ensures over_window { IfOk result (λ done. done ≡ true → IsSlidingExtremum E.merge neutral (seen_at lent.now) (box_offsets offsets) tile (raster tile.width tile.height out.new)) }
    ensures over_frame { IfOk result (λ done. done ≡ true → (f : Raster P) → IsWindow lent.now f (box_offsets offsets) tile → IsSlidingExtremum E.merge neutral (cell_at f) (box_offsets offsets) tile (raster tile.width tile.height out.new)) }
    ensures near { IfOk result (λ done. IsAround offsets → StandsInside lent.now.place tile → done ≡ true) }
    ensures left_out { IfOk result (λ done. done ≡ false → out.new ≡ out.old) }
    ensures kept { IfErr result (λ _. out.new ≡ out.old) }
{
    let boxes = boxes_of(lent.place(), offsets, tile);
    if !is_suited::<P>(boxes) {
        return Ok(false);
    }
    put_boxes::<P, E>(alloc, lent, boxes, neutral, out)?;
    Ok(true)
}

/// Of room beside six lines so many rows of a tile are made use of under a tall box, which then takes three merges a line.
pub fn rows_of_sheet(offsets: OffsetBox) -> u32
    ensures { result ≤ 260 }
{
    let rows = i64::from(offsets.y1) - i64::from(offsets.y0) + 1;
    if rows <= LOW as i64 || rows > LONGEST as i64 {
        return 0;
    }
    rows as u32 + 4
}

/// Whether there is room for a sheet and a neutral line beside six lines.
fn has_sheet(boxes: Boxes, room: usize) -> bool
    requires across { boxes.across ≤ 256 }
    requires down { boxes.down ≤ 256 }
    requires wide { boxes.width < 2 ^ 32 }
    requires part { boxes.part.count < 2 ^ 34 }
    ensures { IsTrue result → (boxes.down + 3) * boxes.part.count + (boxes.part.count + 6 * wide_of boxes) ≤ room }
{
    let count = boxes.part.count;
    let wide = boxes.width + boxes.across.saturating_sub(1);
    (boxes.down + 3) * count + (count + 6 * wide) <= room
}

/// Writes all rows, by a sheet where there is room for one and the boxes are tall, with room for six lines at least.
fn put_in_room<P: Laned, E: LanedExtremum<P>>(
    lent: &Lent<P>,
    boxes: Boxes,
    neutral: P,
    room: &mut [P],
    out: &mut [P],
)
    requires suited { IsSuited P.WIDTH boxes }
    requires part { IsOverlap boxes.column (wide_of boxes) lent.now.place.width boxes.part }
    requires wide { boxes.width < 2 ^ 32 }
    requires low { boxes.height < 2 ^ 32 }
    requires near { negsuc FAR_LIMIT ≤ℤ boxes.row }
    requires far { boxes.row ≤ℤ pos FAR_LIMIT }
    requires lines { 6 * wide_of boxes ≤ length room.old }
    requires room { length out.old ≡ boxes.height * boxes.width }
    ensures lines { length room.new ≡ length room.old }
    ensures size { length out.new ≡ length out.old }
    ensures made { HasBoxes E.merge neutral lent.now boxes boxes.height out.new }
{
    if is_tall::<P>(boxes) && has_sheet(boxes, room.len()) {
        put_tall_in_room::<P, E>(lent, boxes, neutral, room, out);
        return;
    }
    put_with_room::<P, E>(lent, boxes, neutral, room, out);
}

/// The same for a box that has the place it is put on and a tile that stands in what is lent, with room for lines in the place of
/// memory: six of as many places as a row has and a box may have more, and a sheet under a tall box where there is more room.
pub fn boxes_with_room<P: Laned, E: LanedExtremum<P>>(
    lent: &Lent<P>,
    offsets: OffsetBox,
    neutral: P,
    tile: Rect,
    room: &mut [P],
    out: &mut [P],
)
    requires around { IsAround offsets }
    requires stands { StandsInside lent.now.place tile }
    requires lines { 6 * (tile.width + 255) ≤ length room.old }
    requires room { length out.old ≡ tile.height * tile.width }
    ensures lines { length room.new ≡ length room.old }
    ensures size { length out.new ≡ length out.old }
    ensures over_window { IsSlidingExtremum E.merge neutral (seen_at lent.now) (box_offsets offsets) tile (raster tile.width tile.height out.new) }
    ensures over_frame { (f : Raster P) → IsWindow lent.now f (box_offsets offsets) tile → IsSlidingExtremum E.merge neutral (cell_at f) (box_offsets offsets) tile (raster tile.width tile.height out.new) }
{
    let boxes = boxes_of(lent.place(), offsets, tile);
    put_in_room::<P, E>(lent, boxes, neutral, room, out);
}
