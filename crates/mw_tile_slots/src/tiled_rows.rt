//! Whole planes, read row by row. A row goes over that of a plane of one row, so that reading one asks for no memory.

use crate::placed::Placed;
use crate::rows::copy_row;
use mw_grid::Grid;
use mw_tile_pieces::pixel::{Planar, Plane};
use std::marker::Model;

/// The tiles of a frame, all of them placed.
#[derive(Drop)]
pub struct TiledRows<'a, P: Planar> {
    grid: Grid,
    tiles: &'a [Option<Placed<P>>],
}

impl<'a, P: Planar> Model for TiledRows<'a, P> {
    ghost use Rattle.mw_tile_slots.specs.Tiles.{cells_of, HasSides};
    ghost use Rattle.mw_tile_slots.specs.Rows.{EachPlaced, TileCells};

    ghost Value = { TileCells P };

    ghost view = { λ r. record { tiling = r.grid; tiles = cells_of r.tiles.now } };

    ghost invariant = { λ r. HasSides r.grid r.tiles.now × EachPlaced r.grid (cells_of r.tiles.now) };
}

impl<'a, P: Planar> TiledRows<'a, P> {
    ghost use Rattle.std.specs.Prelude.{◌≡◌, ◌*◌, ◌<◌, ◌≤◌, take, drop, length};
    ghost use Rattle.mw_model.specs.declared.limits.TheConstants.{SIDE_LIMIT};
    ghost use Rattle.mw_model.specs.Rasters.{Raster};
    ghost use Rattle.mw_tile_slots.specs.Tiles.{cells_of, HasSides};
    ghost use Rattle.mw_tile_slots.specs.Rows.{AreCutFrom, EachPlaced};

    /// These tiles, of which none is missing.
    pub fn of(grid: Grid, tiles: &'a [Option<Placed<P>>]) -> TiledRows<'a, P>
        requires sides { HasSides grid tiles.now }
        requires placed { EachPlaced grid (cells_of tiles.now) }
        ensures { result ≡ record { tiling = grid; tiles = cells_of tiles.now } }
    {
        TiledRows { grid, tiles }
    }

    /// The columns of the frame.
    pub fn width(&self) -> u32
        ensures value { result ≡ self.now.tiling.width }
        ensures small { result ≤ SIDE_LIMIT }
    {
        self.grid.width()
    }

    /// The rows of the frame.
    pub fn height(&self) -> u32
        ensures value { result ≡ self.now.tiling.height }
        ensures small { result ≤ SIDE_LIMIT }
    {
        self.grid.height()
    }

    /// Writes the samples of row y over those of a plane of one row.
    pub fn read(&self, y: u32, row: &mut Plane<P>)
        requires down { y < self.now.tiling.height }
        requires width { row.old.width ≡ self.now.tiling.width }
        requires height { row.old.height ≡ 1 }
        ensures value { (f : Raster P) → AreCutFrom f self.now → row.new.cells ≡ take f.width (drop (y * f.width) f.cells) }
        ensures width { row.new.width ≡ self.now.tiling.width }
        ensures height { row.new.height ≡ 1 }
        ensures count { length row.new.cells ≡ self.now.tiling.width }
    {
        copy_row(self.grid, self.tiles, y, row)
    }
}
