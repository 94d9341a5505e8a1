//! The extremum over a rectangle, by rows and by columns. Each doubles: a row is merged with itself, shifted by as many
//! places as each sample stands for, so a side of k places takes about log2(k) merges of vector code. The two passes of
//! van Herk (1992) and Gil and Werman (1993), which `line` has, take one sample after another.
ghost use Rattle.std.specs.Prelude.{◌≡◌, ℕ, ◌+◌, ◌-◌, ◌*◌, ◌<◌, ◌≤◌, ◌^◌, pos, negsuc, ◌+ℤ◌, ◌≤ℤ◌, length, slice_index_or, replicate, vec_len, All, IfOk};
ghost use Rattle.mw_model.specs.declared.limits.TheConstants.{FAR_LIMIT};
ghost use Rattle.mw_model.specs.Rectangles.{box_offsets};
ghost use Rattle.mw_model.specs.Rasters.{Raster, cell_at};
ghost use Rattle.mw_model.specs.Windows.{seen_at};
ghost use Rattle.mw_tile.specs.Windows.{IsWindow};
ghost use Rattle.mw_lane.specs.Shifted.{merge_at};
ghost use Rattle.mw_line.specs.Cells.{window_cell, merged_cell};
ghost use Rattle.mw_line.specs.Extrema.{over, IsSlidingExtremum};
ghost use Rattle.mw_line.specs.Slides.{HoldsBoxExtrema};

use crate::columns::grow;
use crate::doubling::slide_by;
use crate::in_cache::{boxes_in_cache, is_cheaper_as_list};
use crate::sides::{first_seen, seen_across, seen_down};
use crate::slides::Slide;
use crate::window_rows::combine_window_row;
use mw_model::{NoMemory, OffsetBox, Rect};
use mw_tile::Window;
use mw_tile::pixel::{Extremum, Grey, Plane, copies};
use std::alloc::Global;

/// Leaves at each of the first places of the line the extremum of `across` places of that row of the window.
fn slide_row<P: Grey, E: Extremum<P>>(
    window: &Window<P>,
    slide: Slide,
    row: i64,
    blank: &[P],
    line: &mut [P],
)
    requires some { (0 < slide.across) × (0 < slide.width) }
    requires within { slide.width + (slide.across - 1) ≤ length blank.now }
    requires paired { length line.old ≡ length blank.now }
    ensures { (x : ℕ) (d : P) → x < slide.width → slice_index_or line.new x d ≡ over E.merge (λ i. merge_at E.merge (slice_index_or blank.now (x + i) d) (window_cell window.now (slide.column +ℤ pos (x + i)) row)) 0 (slide.across - 1) }
{
    let wide = slide.width + (slide.across - 1);
    line.copy_from_slice(blank);
    combine_window_row::<P, E>(window, slide.column, row, line);
    slide_by::<P, E>(line, wide, 1, slide.across);
}

/// The rows before they are cut to the height: as many more as there are places downwards after the first.
fn slide_rows<P: Grey, E: Extremum<P>>(
    alloc: Global,
    window: &Window<P>,
    slide: Slide,
    blank: &[P],
    line: &mut [P],
) -> Result<Vec<P>, NoMemory>
    requires some { (0 < slide.across) × (0 < slide.down) }
    requires room { slide.width + (slide.across - 1) ≤ length blank.now }
    requires wide { (0 < slide.width) × (slide.width < 2 ^ 32) }
    requires paired { length line.old ≡ length blank.now }
    requires few { slide.height + (slide.down - 1) ≤ FAR_LIMIT }
    requires near { slide.row ≤ℤ pos FAR_LIMIT }
    ensures size { IfOk result (λ v. vec_len v ≡ (slide.height + (slide.down - 1)) * slide.width) }
    ensures cells { IfOk result (λ v. (n : P) → blank.now ≡ replicate (length blank.now) n → (x y : ℕ) → x < slide.width → y < slide.height → slice_index_or v.items (y * slide.width + x) n ≡ over E.merge (λ j. over E.merge (λ i. merged_cell E.merge n window.now slide.column slide.row (x + i) j) 0 (slide.across - 1)) y (slide.down - 1)) }
{
    let width = slide.width;
    let high = slide.height + (slide.down - 1);
    let mut rows = Vec::with_capacity(alloc, high.saturating_mul(width))?;
    for y in 0..high {
        slide_row::<P, E>(window, slide, slide.row + y as i64, blank, line);
        rows.extend_from_slice(&line[..width])?;
        grow::<P, E>(rows.as_mut_slice(), width, y, slide.down);
    }
    Ok(rows)
}

/// The rows, made one after another.
fn boxes_by_rows<P: Grey, E: Extremum<P>>(
    alloc: Global,
    window: &Window<P>,
    slide: Slide,
    neutral: P,
) -> Result<Vec<P>, NoMemory>
    requires some { (0 < slide.across) × (0 < slide.down) × (0 < slide.width) × (0 < slide.height) }
    requires narrow { (slide.width < 2 ^ 32) × (slide.across ≤ 2 ^ 34) }
    requires low { (slide.height < 2 ^ 32) × (slide.down ≤ 2 ^ 34) }
    requires near { slide.row ≤ℤ pos FAR_LIMIT }
    ensures size { IfOk result (λ v. vec_len v ≡ slide.height * slide.width) }
    ensures cells { IfOk result (λ v. HoldsBoxExtrema E.merge neutral window.now slide v.items) }
{
    let padded = slide.width + (slide.across - 1) + 63;
    let blank = copies(alloc, padded, neutral)?;
    let mut line = copies(alloc, padded, neutral)?;
    let mut rows = slide_rows::<P, E>(alloc, window, slide, blank.as_slice(), line.as_mut_slice())?;
    rows.truncate(slide.height * slide.width);
    Ok(rows)
}

/// The rows, over a window that goes on with neutral samples.
fn boxes<P: Grey, E: Extremum<P>>(
    alloc: Global,
    window: &Window<P>,
    slide: Slide,
    neutral: P,
) -> Result<Vec<P>, NoMemory>
    requires some { (0 < slide.across) × (0 < slide.down) × (0 < slide.width) × (0 < slide.height) }
    requires narrow { (slide.width < 2 ^ 32) × (slide.across ≤ 2 ^ 34) }
    requires low { (slide.height < 2 ^ 32) × (slide.down ≤ 2 ^ 34) }
    requires near { slide.row ≤ℤ pos FAR_LIMIT }
    ensures size { IfOk result (λ v. vec_len v ≡ slide.height * slide.width) }
    ensures cells { IfOk result (λ v. HoldsBoxExtrema E.merge neutral window.now slide v.items) }
{
    if is_cheaper_as_list::<P>(slide) {
        return boxes_in_cache::<P, E>(alloc, window, slide, neutral);
    }
    boxes_by_rows::<P, E>(alloc, window, slide, neutral)
}

/// The extremum of the neutral sample and what the window has under the box, at each place of the tile. Where the window
/// has all that the frame has there, this is the extremum over the frame. No sample is over the greatest of the neutral one
/// and those of the window. It may want memory (`NoMemory`).
pub fn rectangle<P: Grey, E: Extremum<P>>(
    alloc: Global,
    window: &Window<P>,
    offsets: OffsetBox,
    neutral: P,
    tile: Rect,
) -> Result<Plane<P>, NoMemory>
    ensures over_window { IfOk result (λ r. IsSlidingExtremum E.merge neutral (seen_at window.now) (box_offsets offsets) tile r) }
    ensures over_frame { IfOk result (λ r. (f : Raster P) → IsWindow window.now f (box_offsets offsets) tile → IsSlidingExtremum E.merge neutral (cell_at f) (box_offsets offsets) tile r) }
    ensures small { (most : ℕ) → P.level neutral ≤ most → All (λ s. P.level s ≤ most) window.now.cells → IfOk result (λ r. All (λ s. P.level s ≤ most) r.cells) }
{
    let place = window.place();
    let across = seen_across(offsets, tile, place);
    let down = seen_down(offsets, tile, place);
    if across.count == 0 || down.count == 0 || tile.width == 0 || tile.height == 0 {
        return Plane::filled(alloc, tile.width, tile.height, neutral);
    }
    let column = first_seen(tile.x, offsets.x0, across.skipped, place.x);
    let row = first_seen(tile.y, offsets.y0, down.skipped, place.y);
    let slide = Slide {
        column,
        row,
        across: across.count,
        down: down.count,
        width: tile.width as usize,
        height: tile.height as usize,
    };
    let samples = boxes::<P, E>(alloc, window, slide, neutral)?;
    Ok(Plane::new(tile.width, tile.height, samples))
}
