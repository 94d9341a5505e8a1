//! What tiles and their windows are for.

ghost use Rattle.mw_model.specs.Rectangles.{grown, IsWithin, WithinReach, CoverOnce};
ghost use Rattle.mw_grid.specs.Rectangles.{ReachesAll};
ghost use Rattle.mw_grid.specs.Grids.{tile_count, tile_at, tiles_of};
ghost use Rattle.std.specs.Prelude.{◌<◌};

use crate::Grid;
use mw_model::{Offset, Reach};

/// The tiles lie in the frame, and each of its pixels is in exactly one of them.
pub fn tiles_cover_once(grid: Grid)
    ensures { CoverOnce (tiles_of grid) grid.width grid.height }
{
    // for their ranges
    let _width = grid.width();
    let _height = grid.height();
    let _side = grid.side();
}

/// A tile's window has each place of the frame to which the element leads from the tile.
pub fn window_reaches(grid: Grid, i: u32, reach: Reach, element: &[Offset])
    requires tile { i < tile_count grid }
    requires reach { WithinReach reach element.now }
    ensures reaches { ReachesAll (grown grid.width grid.height reach (tile_at grid i)) grid.width grid.height element.now (tile_at grid i) }
    ensures within { IsWithin (grown grid.width grid.height reach (tile_at grid i)) grid.width grid.height }
{
    // for their ranges
    let _width = grid.width();
    let _height = grid.height();
    let _side = grid.side();
    let _size = element.len();
}
