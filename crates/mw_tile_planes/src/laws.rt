//! Why a step's plane may be made tile by tile. Each function is a law, and does nothing.

ghost use Rattle.std.specs.Prelude.{◌≡◌, List, false};
ghost use Rattle.mw_model.specs.Pictures.{IsPicture, Picture};
ghost use Rattle.mw_model.specs.Plans.{is_sum, plane_of};
ghost use Rattle.mw_model.specs.PlanSteps.{PlanStep};
ghost use Rattle.mw_tile_planes.specs.Tiles.{AreMade, IsPlaneOf, Tiled};

use crate::TiledPlane;
use mw_grid::Grid;

/// Tiles that are each what a step makes there of the whole planes of its sources are parts of the step's plane.
pub fn tiles_are_plane(grid: Grid)
    ensures { (p : Tiled) (s : PlanStep) (sources : List Picture) → p.tiling ≡ grid → is_sum s ≡ false → (plane_of s sources grid.width grid.height).kind ≡ p.kind → (plane_of s sources grid.width grid.height).maxval ≡ p.maxval → AreMade s sources p → IsPlaneOf p (plane_of s sources grid.width grid.height) }
{
    let _width = grid.width();
    let _height = grid.height();
    let _side = grid.side();
}

/// A plane is a part of some image, whatever tiles are placed.
pub fn plane_is_of_an_image(plane: &TiledPlane)
    ensures { (f : Picture) × IsPlaneOf plane.now f × IsPicture f }
{
    plane.sound();
}
