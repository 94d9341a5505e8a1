//! Extrema of sets over any list of offsets: by horizontal runs, or, where these lie too far apart to be laid out around
//! the tile, one offset after another, each as the set's words shifted against those of the tile. What lies outside the
//! window is no pixel.
ghost use Rattle.std.specs.Prelude.{◌≡◌, ℕ, ◌+◌, ◌*◌, ◌<◌, ◌≤◌, ◌^◌, pos, negsuc, ◌+ℤ◌, ◌-ℤ◌, ◌≤ℤ◌, length, fold, IfOk, IsTrue};
ghost use Rattle.std.specs.List.{AllByRecursion};
ghost use Rattle.mw_model.specs.declared.limits.TheConstants.{FAR_LIMIT};
ghost use Rattle.mw_model.specs.Rasters.{Raster, cell_at, seen_under};
ghost use Rattle.mw_model.specs.Windows.{seen_at};
ghost use Rattle.mw_offset.specs.mw_tile.Windows.{IsWindow};
ghost use Rattle.mw_offset.specs.mw_line.Extrema.{IsSlidingExtremum};
ghost use Rattle.mw_offset.specs.mw_element_runs.Runs.{AreEitherWay, IsRun};
ghost use Rattle.mw_offset.specs.mw_pixel_words.Packed.{bit_of, IsPacked};
ghost use Rattle.mw_bits.specs.Tiles.{WordsHoldExtrema};

use crate::WordExtremum;
use crate::by_runs::{extremum_by_runs, is_near};
use crate::held::plane_of;
use crate::spread::spread_rows;
use crate::uniform::settled;
use mw_model::{NoMemory, Offset, Rect};
use mw_offset::pixel::{Bit, Plane};
use mw_offset::run::{Run, extent_of, place_of, runs_either_way};
use mw_offset::tile::Window;
use mw_offset::words::{Words, repeated, stride, trimmed};
use std::alloc::Global;

/// Merges into each bit of the tile's rows what is seen under the element there.
fn combine_offsets<E: WordExtremum>(
    set: &Window<Bit>,
    offsets: &[Offset],
    tile: Rect,
    stride: usize,
    out: &mut [u64],
)
    requires size { length out.old ≡ tile.height * stride }
    requires few { stride ≤ FAR_LIMIT }
    ensures { (x y : ℕ) → x < 64 * stride → y < tile.height → bit_of out.new (y * (64 * stride) + x) ≡ fold E.merge (bit_of out.old (y * (64 * stride) + x)) (seen_under (seen_at set.now) offsets.now (tile.x + x) (tile.y + y)) }
{
    let place = set.place();
    for offset in offsets {
        let column = place_of(u64::from(tile.x), offset.dx, place.x);
        let row = place_of(u64::from(tile.y), offset.dy, place.y);
        spread_rows::<E>(set, column, row, stride, tile.height as usize, out);
    }
}

/// The words of the tile, one offset after another.
fn extremum_by_offsets<E: WordExtremum>(
    alloc: Global,
    set: &Window<Bit>,
    offsets: &[Offset],
    tile: Rect,
) -> Result<Vec<u64>, NoMemory>
    ensures packed { IfOk result (λ v. IsPacked tile.width tile.height v.items) }
    ensures cells { IfOk result (λ v. WordsHoldExtrema E.merge (E.neutral_of 1) (seen_at set.now) offsets.now tile v.items) }
{
    let stride = stride(tile.width);
    let mut cells = repeated(alloc, tile.height as usize * stride, E::neutral_word())?;
    combine_offsets::<E>(set, offsets, tile, stride, cells.as_mut_slice());
    let made = trimmed(alloc, cells.as_slice(), stride, tile.width, tile.height)?;
    Ok(made)
}

/// Whether the tile has places, and few enough to lay out an element around it.
fn has_layout(tile: Rect) -> bool
    ensures { IsTrue result → (0 < tile.width) × (0 < tile.height) × (tile.width ≤ 2 ^ 31) × (tile.height ≤ 2 ^ 31) }
{
    tile.width > 0 && tile.height > 0 && tile.width <= 2147483648 && tile.height <= 2147483648
}

/// The words of the tile, by horizontal runs where these can be laid out around it.
fn extremum_words<E: WordExtremum>(
    alloc: Global,
    set: &Window<Bit>,
    offsets: &[Offset],
    runs: &[Run],
    tile: Rect,
) -> Result<Vec<u64>, NoMemory>
    requires either { AreEitherWay offsets.now runs.now }
    requires runs { AllByRecursion IsRun runs.now }
    ensures packed { IfOk result (λ v. IsPacked tile.width tile.height v.items) }
    ensures cells { IfOk result (λ v. WordsHoldExtrema E.merge (E.neutral_of 1) (seen_at set.now) offsets.now tile v.items) }
{
    if has_layout(tile) {
        if let Some(extent) = extent_of(runs) {
            if is_near(extent) {
                let made = extremum_by_runs::<E>(alloc, set, runs, extent, tile)?;
                return Ok(made);
            }
        }
    }
    let made = extremum_by_offsets::<E>(alloc, set, offsets, tile)?;
    Ok(made)
}

/// The extremum of a neutral pixel and what the set has under the element, at each place of the tile, by runs that have the
/// offsets in their order or in the opposite one: the erosion for `Min`, the dilation for `Max`. Where the window has all
/// that the frame has there, this is the extremum over the frame.
pub fn extremum_of_runs<E: WordExtremum>(
    alloc: Global,
    set: &Window<Bit>,
    offsets: &[Offset],
    runs: &[Run],
    tile: Rect,
) -> Result<Plane<Bit>, NoMemory>
    requires either { AreEitherWay offsets.now runs.now }
    requires runs { AllByRecursion IsRun runs.now }
    ensures over_window { IfOk result (IsSlidingExtremum E.merge (E.neutral_of 1) (seen_at set.now) offsets.now tile) }
    ensures over_frame { IfOk result (λ r. (f : Raster ℕ) → IsWindow set.now f offsets.now tile → IsSlidingExtremum E.merge (E.neutral_of 1) (cell_at f) offsets.now tile r) }
{
    if let Some(pixel) = settled::<E>(set, offsets, runs, tile) {
        let uniform = Words::filled(alloc, tile.width, tile.height, pixel)?;
        return Ok(Plane::of_words(uniform));
    }
    let words = extremum_words::<E>(alloc, set, offsets, runs, tile)?;
    Ok(plane_of(tile.width, tile.height, words))
}

/// What `extremum_of_runs` makes, where the offsets have to be cut into runs first.
pub fn extremum<E: WordExtremum>(
    alloc: Global,
    set: &Window<Bit>,
    offsets: &[Offset],
    tile: Rect,
) -> Result<Plane<Bit>, NoMemory>
    ensures over_window { IfOk result (IsSlidingExtremum E.merge (E.neutral_of 1) (seen_at set.now) offsets.now tile) }
    ensures over_frame { IfOk result (λ r. (f : Raster ℕ) → IsWindow set.now f offsets.now tile → IsSlidingExtremum E.merge (E.neutral_of 1) (cell_at f) offsets.now tile r) }
{
    let runs = runs_either_way(alloc, offsets)?;
    extremum_of_runs::<E>(alloc, set, offsets, runs.as_slice(), tile)
}
