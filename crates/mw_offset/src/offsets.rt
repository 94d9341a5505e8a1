//! The extremum over a list of offsets: by horizontal runs, or, where these lie too far apart to be laid out around the
//! tile, one row of the tile after another and in it one offset after another, each as a row of the window that is merged
//! by vector code, shifted. What lies outside the window is no sample.
ghost use Rattle.std.specs.Prelude.{◌≡◌, ℕ, ◌+◌, ◌*◌, ◌<◌, ◌≤◌, pos, negsuc, ◌+ℤ◌, ◌-ℤ◌, ◌≤ℤ◌, length, slice_index_or, fold, vec_len, All, IfOk, IsTrue};
ghost use Rattle.std.specs.List.{AllByRecursion};
ghost use Rattle.mw_model.specs.declared.limits.TheConstants.{FAR_LIMIT};
ghost use Rattle.mw_model.specs.Rectangles.{nonnegative};
ghost use Rattle.mw_model.specs.Rasters.{Raster, cell_at, seen_under};
ghost use Rattle.mw_model.specs.Windows.{seen_at};
ghost use Rattle.mw_line.specs.mw_tile.Windows.{IsWindow};
ghost use Rattle.mw_line.specs.mw_lane.Shifted.{merge_at};
ghost use Rattle.mw_line.specs.Extrema.{IsSlidingExtremum};
ghost use Rattle.mw_element_runs.specs.Runs.{AreEitherWay, IsRun};
ghost use Rattle.mw_offset.specs.Tiles.{HoldsExtrema};

use crate::strips::extremum_by_strips;
use mw_element_runs::{
    Extent, Run, columns_after, extent_of, place_of, rows_after, runs_either_way,
};
use mw_line::combine_window_row;
use mw_line::pixel::{Extremum, Grey, Plane, copies};
use mw_line::tile::Window;
use mw_model::{NoMemory, Offset, Rect};
use std::alloc::Global;

/// Merges into each sample of a row of the frame, from `column` on, the sample at an offset from there.
fn combine_offset<P: Grey, E: Extremum<P>>(
    window: &Window<P>,
    offset: Offset,
    column: u64,
    row: u64,
    out: &mut [P],
)
    requires near { column ≤ FAR_LIMIT }
    requires high { row ≤ FAR_LIMIT }
    ensures { (x : ℕ) (d : P) → x < length out.old → slice_index_or out.new x d ≡ merge_at E.merge (slice_index_or out.old x d) (seen_at window.now (pos (column + x) +ℤ offset.dx) (pos row +ℤ offset.dy)) }
{
    let place = window.place();
    let from_column = place_of(column, offset.dx, place.x);
    let from_row = place_of(row, offset.dy, place.y);
    combine_window_row::<P, E>(window, from_column, from_row, out);
}

/// Merges into each sample of a row of the frame, from `column` on, what is seen under the element there.
fn combine_offsets<P: Grey, E: Extremum<P>>(
    window: &Window<P>,
    offsets: &[Offset],
    column: u64,
    row: u64,
    out: &mut [P],
)
    requires near { column ≤ FAR_LIMIT }
    requires high { row ≤ FAR_LIMIT }
    ensures { (x : ℕ) (d : P) → x < length out.old → slice_index_or out.new x d ≡ fold E.merge (slice_index_or out.old x d) (seen_under (seen_at window.now) offsets.now (column + x) row) }
{
    for offset in offsets {
        combine_offset::<P, E>(window, *offset, column, row, out);
    }
}

/// Merges into each sample of the tile what is seen under the element there.
fn combine_tile<P: Grey, E: Extremum<P>>(
    window: &Window<P>,
    offsets: &[Offset],
    tile: Rect,
    out: &mut [P],
)
    requires { length out.old ≡ tile.height * tile.width }
    ensures { (x y : ℕ) (d : P) → x < tile.width → y < tile.height → slice_index_or out.new (y * tile.width + x) d ≡ fold E.merge (slice_index_or out.old (y * tile.width + x) d) (seen_under (seen_at window.now) offsets.now (tile.x + x) (tile.y + y)) }
{
    let width = tile.width as usize;
    for y in 0..tile.height {
        let start = y as usize * width;
        combine_offsets::<P, E>(
            window,
            offsets,
            u64::from(tile.x),
            u64::from(tile.y) + u64::from(y),
            &mut out[start..start + width],
        );
    }
}

/// Whether the columns and rows of an element are few enough to be laid out around a tile: at most 1024 each.
fn is_near(extent: Extent) -> bool
    ensures { IsTrue result → (extent.left ≤ℤ extent.right) × (extent.top ≤ℤ extent.bottom) × (nonnegative (extent.bottom -ℤ extent.top) ≤ 1023) }
{
    if extent.right < extent.left || extent.bottom < extent.top {
        return false;
    }
    if columns_after(extent) >= 1024 || rows_after(extent) >= 1024 {
        return false;
    }
    true
}

/// The samples of the tile, one offset after another.
fn extremum_by_offsets<P: Grey, E: Extremum<P>>(
    alloc: Global,
    window: &Window<P>,
    offsets: &[Offset],
    neutral: P,
    tile: Rect,
) -> Result<Vec<P>, NoMemory>
    ensures size { IfOk result (λ v. vec_len v ≡ tile.height * tile.width) }
    ensures cells { IfOk result (λ v. HoldsExtrema E.merge neutral (seen_at window.now) offsets.now tile v.items) }
{
    let mut samples = copies(alloc, tile.height as usize * tile.width as usize, neutral)?;
    combine_tile::<P, E>(window, offsets, tile, samples.as_mut_slice());
    Ok(samples)
}

/// The samples of the tile, by horizontal runs where these can be laid out around it.
fn extremum_samples<P: Grey, E: Extremum<P>>(
    alloc: Global,
    window: &Window<P>,
    offsets: &[Offset],
    runs: &[Run],
    neutral: P,
    tile: Rect,
) -> Result<Vec<P>, NoMemory>
    requires either { AreEitherWay offsets.now runs.now }
    requires runs { AllByRecursion IsRun runs.now }
    ensures size { IfOk result (λ v. vec_len v ≡ tile.height * tile.width) }
    ensures cells { IfOk result (λ v. HoldsExtrema E.merge neutral (seen_at window.now) offsets.now tile v.items) }
{
    if tile.width > 0 && tile.height > 0 {
        if let Some(extent) = extent_of(runs) {
            if is_near(extent) && tile.y <= u32::MAX - tile.height {
                let samples = extremum_by_strips::<P, E>(
                    alloc, window, runs, extent, neutral, tile,
                )?;
                return Ok(samples);
            }
        }
    }
    let samples = extremum_by_offsets::<P, E>(alloc, window, offsets, neutral, tile)?;
    Ok(samples)
}

/// The extremum of the neutral sample and what the window has under the element, at each place of the tile, by runs that have
/// the offsets in their order or in the opposite one. Where the window has all that the frame has there, this is the
/// extremum over the frame. No sample is over the greatest of the neutral one and those of the window. It may want memory
/// (`NoMemory`).
pub fn extremum_of_runs<P: Grey, E: Extremum<P>>(
    alloc: Global,
    window: &Window<P>,
    offsets: &[Offset],
    runs: &[Run],
    neutral: P,
    tile: Rect,
) -> Result<Plane<P>, NoMemory>
    requires either { AreEitherWay offsets.now runs.now }
    requires runs { AllByRecursion IsRun runs.now }
    ensures over_window { IfOk result (λ r. IsSlidingExtremum E.merge neutral (seen_at window.now) offsets.now tile r) }
    ensures over_frame { IfOk result (λ r. (f : Raster P) → IsWindow window.now f offsets.now tile → IsSlidingExtremum E.merge neutral (cell_at f) offsets.now tile r) }
    ensures small { (most : ℕ) → P.level neutral ≤ most → All (λ s. P.level s ≤ most) window.now.cells → IfOk result (λ r. All (λ s. P.level s ≤ most) r.cells) }
{
    let samples = extremum_samples::<P, E>(alloc, window, offsets, runs, neutral, tile)?;
    Ok(Plane::new(tile.width, tile.height, samples))
}

/// What `extremum_of_runs` makes, where the offsets have to be cut into runs first.
pub fn extremum<P: Grey, E: Extremum<P>>(
    alloc: Global,
    window: &Window<P>,
    offsets: &[Offset],
    neutral: P,
    tile: Rect,
) -> Result<Plane<P>, NoMemory>
    ensures over_window { IfOk result (λ r. IsSlidingExtremum E.merge neutral (seen_at window.now) offsets.now tile r) }
    ensures over_frame { IfOk result (λ r. (f : Raster P) → IsWindow window.now f offsets.now tile → IsSlidingExtremum E.merge neutral (cell_at f) offsets.now tile r) }
    ensures small { (most : ℕ) → P.level neutral ≤ most → All (λ s. P.level s ≤ most) window.now.cells → IfOk result (λ r. All (λ s. P.level s ≤ most) r.cells) }
{
    let runs = runs_either_way(alloc, offsets)?;
    extremum_of_runs::<P, E>(alloc, window, offsets, runs.as_slice(), neutral, tile)
}
