//! The samples of a row of a plane, put together from its tiles.

ghost use Rattle.std.specs.Prelude.{◌≡◌, ◌<◌};
ghost use Rattle.mw_tile_slots.specs.Rows.{HasFirstOfRow};
ghost use Rattle.mw_tile_slots.specs.Tiles.{cells_of, HasAlong, HasSides};

use crate::parts::tile_of;
use crate::placed::Placed;
use mw_grid::Grid;
use mw_tile_pieces::pixel::{Planar, Plane};

/// Writes row y of the frame over the only row of a plane, tile by tile: those that have it follow one another.
pub(crate) fn copy_row<P: Planar>(
    grid: Grid,
    tiles: &[Option<Placed<P>>],
    y: u32,
    out: &mut Plane<P>,
)
    requires sides { HasSides grid tiles.now }
    requires down { y < grid.height }
    requires placed { HasAlong grid (cells_of tiles.now) 0 y grid.width }
    requires width { out.old.width ≡ grid.width }
    requires height { out.old.height ≡ 1 }
    ensures { HasFirstOfRow grid (cells_of tiles.now) y grid.width out.new }
{
    // for the number of its samples, and what holds of every grid
    let _size = out.height();
    let (width, _height) = (grid.width(), grid.height());
    let (side, columns) = (grid.side(), grid.columns());
    let (first, within) = (y / side * columns, y % side);
    for column in 0..columns {
        let tile = tile_of(grid, tiles, first + column).plane();
        let at = column * side;
        out.copy_run(at, 0, tile, 0, within, side.min(width - at));
    }
}
