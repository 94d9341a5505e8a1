//! Erosions, dilations and ranks of windows.

ghost use Rattle.std.specs.Prelude.{IfOk};
ghost use Rattle.mw_model.specs.Rectangles.{box_offsets};
ghost use Rattle.mw_model.specs.PlanSteps.{ranked};
ghost use Rattle.mw_model.specs.Rasters.{seen_under};
ghost use Rattle.mw_model.specs.Windows.{seen_at};
ghost use Rattle.mw_step_task.specs.Products.{HoldsImage, tile_drawn};

use crate::extrema::LevelExtremum;
use crate::kinds::of_samples;
use crate::ranked::rank_of_levels;
use crate::ranks::rank_of_set;
use crate::sliding::{set_under_element, under_box, under_element};
use mw_model::{NoMemory, OffsetBox, Rect};
use mw_rank_bits::bits;
use mw_step_task::TileResult;
use mw_step_task::element::Element;
use mw_step_task::tile::AnyWindow;
use std::alloc::Global;

/// At each place of the tile the extremum of the samples under the element.
pub(crate) fn slide<E: LevelExtremum>(
    alloc: Global,
    window: &AnyWindow,
    element: &Element,
    tile: Rect,
) -> Result<TileResult, NoMemory>
    ensures { IfOk result (HoldsImage (tile_drawn window.now.kind window.now.maxval tile (λ x y. E.of_seen window.now.maxval (seen_under (seen_at window.now.view) element.now.offsets x y)))) }
{
    of_samples!(
        alloc,
        window,
        |set| set_under_element::<E>(alloc, set, element, tile),
        |samples, maxval| under_element::<_, E>(alloc, samples, element, maxval, tile)
    )
}

/// At each place of the tile the extremum of the samples under the box.
pub(crate) fn slide_box<E: LevelExtremum>(
    alloc: Global,
    window: &AnyWindow,
    offsets: OffsetBox,
    tile: Rect,
) -> Result<TileResult, NoMemory>
    ensures { IfOk result (HoldsImage (tile_drawn window.now.kind window.now.maxval tile (λ x y. E.of_seen window.now.maxval (seen_under (seen_at window.now.view) (box_offsets offsets) x y)))) }
{
    of_samples!(
        alloc,
        window,
        |set| bits::rectangle::<E>(alloc, set, offsets, tile),
        |samples, maxval| under_box::<_, E>(alloc, samples, offsets, maxval, tile)
    )
}

/// At each place of the tile, of the samples under the element in rising order, number `k`, or the last of fewer.
pub(crate) fn rank_filter(
    alloc: Global,
    window: &AnyWindow,
    element: &Element,
    k: u32,
    tile: Rect,
) -> Result<TileResult, NoMemory>
    ensures { IfOk result (HoldsImage (tile_drawn window.now.kind window.now.maxval tile (λ x y. ranked k (seen_under (seen_at window.now.view) element.now.offsets x y)))) }
{
    let offsets = element.offsets();
    of_samples!(
        alloc,
        window,
        |set| rank_of_set(alloc, set, offsets, k, tile),
        |samples, maxval| rank_of_levels(alloc, samples, offsets, k, tile)
    )
}
