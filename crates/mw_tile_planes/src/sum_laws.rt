//! Why the sum of a step's plane may be made tile by tile. The function is a law, and does nothing.

ghost use Rattle.std.specs.Prelude.{◌≡◌, [], ◌∷◌, sum};
ghost use Rattle.mw_model.specs.Pictures.{IsPicture, Picture};
ghost use Rattle.mw_model.specs.PlanSteps.{Sum};
ghost use Rattle.mw_tile_planes.specs.Tiles.{AllPlaced, AreMade, Tiled};
ghost use Rattle.mw_tile_planes.specs.Sums.{number_in};

use mw_grid::Grid;

/// Where every tile has its number, and each is what a Sum step makes there of an image, the numbers add up to that of the
/// image.
pub fn tile_sums_are_sum_of_plane(grid: Grid)
    ensures { (p : Tiled) (f : Picture) → p.tiling ≡ grid → AllPlaced p → AreMade Sum (f ∷ []) p → IsPicture f → f.width ≡ grid.width → f.height ≡ grid.height → number_in p ≡ sum f.samples }
{
    let _width = grid.width();
    let _height = grid.height();
    let _side = grid.side();
}
