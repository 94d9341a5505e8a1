//! What windows are for.

ghost use Rattle.std.specs.Prelude.{◌≡◌, ℕ, ◌+◌, ◌<◌};
ghost use Rattle.mw_model.specs.declared.offsets.Rect.{Rect};
ghost use Rattle.mw_model.specs.Rectangles.{grown, WithinReach};
ghost use Rattle.mw_tile.specs.Windows.{IsCut, IsWindow};
ghost use Rattle.mw_grid.specs.Grids.{tile_at};
ghost use Rattle.mw_model.specs.Pictures.{Picture, IsPicture};
ghost use Rattle.mw_model.specs.Flat.{under};
ghost use Rattle.mw_model.specs.Rasters.{Raster, cell_at, seen_under};
ghost use Rattle.mw_model.specs.Windows.{seen_at};
ghost use Rattle.mw_pixel.specs.Images.{raster_of};

use crate::{AnyWindow, Window};
use mw_grid::Grid;
use mw_model::{Offset, Reach};
use mw_pixel::Planar;

/// At each place of the tile a window shows under the element what the whole frame has there.
pub fn window_shows_frame<P: Planar>(window: &Window<P>, element: &[Offset])
    ensures { (f : Raster P) (tile : Rect) → IsWindow window.now f element.now tile → (x y : ℕ) → x < tile.width → y < tile.height → seen_under (seen_at window.now) element.now (tile.x + x) (tile.y + y) ≡ seen_under (cell_at f) element.now (tile.x + x) (tile.y + y) }
{
    // for their ranges
    let _place = window.place();
    let _size = element.len();
}

/// At each place of the tile a window shows under the element what stands there in the whole image.
pub fn window_shows_picture(window: &AnyWindow, element: &[Offset])
    ensures { (f : Picture) (tile : Rect) → IsPicture f → IsWindow window.now.view (raster_of f) element.now tile → (x y : ℕ) → x < tile.width → y < tile.height → seen_under (seen_at window.now.view) element.now (tile.x + x) (tile.y + y) ≡ under f element.now (tile.x + x) (tile.y + y) }
{
    // for their ranges
    let _place = window.place();
    let _size = element.len();
}

/// What was cut at a tile that is grown by the reach is a window for that tile.
pub fn cut_is_window<P: Planar>(
    window: &Window<P>,
    grid: Grid,
    i: u32,
    reach: Reach,
    element: &[Offset],
)
    requires place { window.now.place ≡ grown grid.width grid.height reach (tile_at grid i) }
    requires reach { WithinReach reach element.now }
    ensures { (f : Raster P) → f.width ≡ grid.width → f.height ≡ grid.height → IsCut window.now f → IsWindow window.now f element.now (tile_at grid i) }
{
    // for their ranges
    let _place = window.place();
    let _width = grid.width();
    let _left = reach.left;
    let _i = i;
    let _size = element.len();
}
