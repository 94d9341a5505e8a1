//! Of `mw_line` and `mw_offset`.

ghost use Rattle.std.specs.Prelude.{◌≡◌, ℕ, ◌≤◌, All, IfOk};
ghost use Rattle.mw_model.specs.Rectangles.{box_offsets};
ghost use Rattle.mw_model.specs.Rasters.{Raster, cell_at};
ghost use Rattle.mw_model.specs.Windows.{seen_at};
ghost use Rattle.mw_tile.specs.Windows.{IsWindow};
ghost use Rattle.mw_line.specs.Extrema.{IsSlidingExtremum};

use mw_model::{NoMemory, Offset, OffsetBox, Rect};
use mw_tile::Window;
use mw_tile::pixel::{Extremum, Grey, Plane};
use std::alloc::Global;

/// `mw_line::rectangle`.
pub fn rectangle<P: Grey, E: Extremum<P>>(
    alloc: Global,
    window: &Window<P>,
    offsets: OffsetBox,
    neutral: P,
    tile: Rect,
) -> Result<Plane<P>, NoMemory>
    ensures over_window { IfOk result (λ r. IsSlidingExtremum E.merge neutral (seen_at window.now) (box_offsets offsets) tile r) }
    ensures over_frame { IfOk result (λ r. (f : Raster P) → IsWindow window.now f (box_offsets offsets) tile → IsSlidingExtremum E.merge neutral (cell_at f) (box_offsets offsets) tile r) }
    ensures small { (most : ℕ) → P.level neutral ≤ most → All (λ s. P.level s ≤ most) window.now.cells → IfOk result (λ r. All (λ s. P.level s ≤ most) r.cells) }
{
    mw_line::rectangle::<P, E>(alloc, window, offsets, neutral, tile)
}

/// `mw_offset::extremum`.
pub fn extremum<P: Grey, E: Extremum<P>>(
    alloc: Global,
    window: &Window<P>,
    offsets: &[Offset],
    neutral: P,
    tile: Rect,
) -> Result<Plane<P>, NoMemory>
    ensures over_window { IfOk result (λ r. IsSlidingExtremum E.merge neutral (seen_at window.now) offsets.now tile r) }
    ensures over_frame { IfOk result (λ r. (f : Raster P) → IsWindow window.now f offsets.now tile → IsSlidingExtremum E.merge neutral (cell_at f) offsets.now tile r) }
    ensures small { (most : ℕ) → P.level neutral ≤ most → All (λ s. P.level s ≤ most) window.now.cells → IfOk result (λ r. All (λ s. P.level s ≤ most) r.cells) }
{
    mw_offset::extremum::<P, E>(alloc, window, offsets, neutral, tile)
}
