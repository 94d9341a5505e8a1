//! Of `mw_grid`.

ghost use Rattle.std.specs.Prelude.{◌≡◌, ◌<◌};
ghost use Rattle.mw_model.specs.Rectangles.{IsWithin};
ghost use Rattle.mw_grid.specs.Grids.{tile_at, tile_count};

use mw_grid::Grid;
use mw_model::Rect;

/// `mw_grid::Grid::rect`.
pub fn rect(grid: Grid, i: u32) -> Rect
    requires { i < tile_count grid }
    ensures value { result ≡ tile_at grid i }
    ensures within { IsWithin result grid.width grid.height }
{
    grid.rect(i)
}
