//! Tiles of a plane, by their numbers and places.

ghost use Rattle.std.specs.Prelude.{◌+◌, ◌*◌, ◌<◌, IfSome, IsSome};
ghost use Rattle.mw_model.specs.Rasters.{Raster};
ghost use Rattle.mw_model.specs.Rectangles.{Holds};
ghost use Rattle.mw_grid.specs.Grids.{tile_at, tile_count};
ghost use Rattle.mw_tile_pieces.specs.mw_tile.Windows.{IsCut};
ghost use Rattle.mw_tile_pieces.specs.mw_tile.Cuts.{view_of};
ghost use Rattle.mw_tile_slots.specs.Tiles.{cells_of, tile_cells, HasSides, ShowsTiles, HasSidesOf};

use crate::placed::Placed;
use mw_grid::Grid;
use mw_model::Rect;
use mw_tile_pieces::pixel::Planar;

/// The number of the tile that has column x of row y.
pub(crate) fn tile_number(grid: Grid, x: u32, y: u32) -> u32
    requires across { x < grid.width }
    requires down { y < grid.height }
    ensures within { result < tile_count grid }
    ensures holds { Holds (tile_at grid result) x y }
{
    let _count = grid.len();
    let (side, columns) = (grid.side(), grid.columns());
    y / side * columns + x / side
}

/// The tile that the rectangle is, if it is one, and placed.
pub(crate) fn whole_tile<P: Planar>(
    grid: Grid,
    tiles: &[Option<Placed<P>>],
    rect: Rect,
) -> Option<&Placed<P>>
    requires { HasSides grid tiles.now }
    ensures stands { IfSome result (λ t. HasSidesOf rect t.now) }
    ensures value { IfSome result (λ t. (f : Raster P) → ShowsTiles grid (cells_of tiles.now) f → IsCut (view_of grid.width grid.height rect t.now.cells) f) }
{
    if rect.x >= grid.width() || rect.y >= grid.height() {
        return None;
    }
    let i = tile_number(grid, rect.x, rect.y);
    if grid.rect(i) != rect {
        return None;
    }
    match &tiles[i as usize] {
        Some(placed) => Some(placed),
        None => None,
    }
}

/// The tile of a number.
pub(crate) fn tile_of<P: Planar>(grid: Grid, tiles: &[Option<Placed<P>>], i: u32) -> &Placed<P>
    requires sides { HasSides grid tiles.now }
    requires within { i < tile_count grid }
    requires placed { IsSome (tile_cells (cells_of tiles.now) i) }
    ensures stands { HasSidesOf (tile_at grid i) result.now }
    ensures value { (f : Raster P) → ShowsTiles grid (cells_of tiles.now) f → IsCut (view_of grid.width grid.height (tile_at grid i) result.now.cells) f }
{
    match &tiles[i as usize] {
        Some(placed) => placed,
        None => unreachable!(),
    }
}
