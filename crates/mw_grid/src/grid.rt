//! A frame that is cut into squares, and the windows that a step reads.

ghost use Rattle.std.specs.Prelude.{◌↔◌, IsTrue};
ghost use Rattle.mw_model.specs.declared.limits.TheConstants.{SIDE_LIMIT};
ghost use Rattle.mw_grid.specs.Grids.{IsTileSide};

use crate::rectangles::grown;
use mw_model::{Reach, Rect, TILE_SIDE_LIMIT, TILE_SIDE_UNIT};
use std::marker::Model;

/// A frame with the sides of an image, cut into squares of one side.
#[derive(Clone, Copy)]
pub struct Grid {
    width: u32,
    height: u32,
    side: u32,
    /// The tiles in a row and in a column, so that no look at a tile divides for them.
    columns: u32,
    rows: u32,
}

impl Model for Grid {
    ghost use Rattle.std.specs.Prelude.{◌≡◌};
    ghost use Rattle.mw_grid.specs.Grids.{Tiling, tiling, IsTiling, columns_of, rows_of};

    ghost Value = { Tiling };

    ghost view = { λ a. tiling a.width a.height a.side };

    ghost invariant = { λ a. IsTiling (tiling a.width a.height a.side) × (columns_of (tiling a.width a.height a.side) ≡ a.columns) × (rows_of (tiling a.width a.height a.side) ≡ a.rows) };

    ghost inverse = { λ g. record { width = g.width; height = g.height; side = g.side; columns = columns_of g; rows = rows_of g } };

    ghost inverse_ok = { λ a h i. record { width = a.width; height = a.height; side = a.side; columns = h.1 i; rows = h.2 i } };
}

/// Whether tiles may have this side: a multiple of the least one, and no more than the greatest.
pub fn side_ok(side: u32) -> bool
    ensures { IsTrue result ↔ IsTileSide side }
{
    side >= TILE_SIDE_UNIT && side <= TILE_SIDE_LIMIT && side % TILE_SIDE_UNIT == 0
}

impl Grid {
    ghost use Rattle.std.specs.Prelude.{◌≡◌, ◌+◌, ◌<◌, ◌≤◌};
    ghost use Rattle.mw_model.specs.Rectangles.{grown, IsWithin};
    ghost use Rattle.mw_grid.specs.Grids.{columns_of, rows_of, tile_count, tile_at, tiling};

    /// The tiles of a frame of so many columns and rows, squares of this side in pixels.
    pub fn new(width: u32, height: u32, side: u32) -> Grid
        requires width { (1 ≤ width) × (width ≤ SIDE_LIMIT) }
        requires height { (1 ≤ height) × (height ≤ SIDE_LIMIT) }
        requires side { IsTileSide side }
        ensures { result ≡ tiling width height side }
    {
        Grid {
            width,
            height,
            side,
            columns: (width - 1) / side + 1,
            rows: (height - 1) / side + 1,
        }
    }

    /// The columns of the frame.
    pub fn width(self) -> u32
        ensures value { result ≡ self.width }
        ensures some { 1 ≤ result }
        ensures small { result ≤ SIDE_LIMIT }
    {
        self.width
    }

    /// The rows of the frame.
    pub fn height(self) -> u32
        ensures value { result ≡ self.height }
        ensures some { 1 ≤ result }
        ensures small { result ≤ SIDE_LIMIT }
    {
        self.height
    }

    /// The side of a tile, in pixels.
    pub fn side(self) -> u32
        ensures value { result ≡ self.side }
        ensures some { TILE_SIDE_UNIT ≤ result }
        ensures small { result ≤ TILE_SIDE_LIMIT }
    {
        self.side
    }

    /// The number of tiles in a row.
    pub fn columns(self) -> u32
        ensures value { result ≡ columns_of self }
        ensures some { 1 ≤ result }
        ensures small { result ≤ 128 }
    {
        self.columns
    }

    /// The number of tiles in a column.
    pub fn rows(self) -> u32
        ensures value { result ≡ rows_of self }
        ensures some { 1 ≤ result }
        ensures small { result ≤ 128 }
    {
        self.rows
    }

    /// The number of tiles.
    pub fn len(self) -> u32
        ensures value { result ≡ tile_count self }
        ensures some { 1 ≤ result }
        ensures small { result ≤ 16384 }
    {
        self.rows() * self.columns()
    }

    /// The tile of a number; tiles are counted by rows.
    pub fn rect(self, i: u32) -> Rect
        requires { i < tile_count self }
        ensures value { result ≡ tile_at self i }
        ensures within { IsWithin result self.width self.height }
    {
        let columns = self.columns();
        let x = i % columns * self.side;
        let y = i / columns * self.side;
        Rect {
            x,
            y,
            width: self.side.min(self.width - x),
            height: self.side.min(self.height - y),
        }
    }

    /// The tile grown by the reach and cut to the frame.
    pub fn window(self, i: u32, reach: Reach) -> Rect
        requires { i < tile_count self }
        ensures value { result ≡ grown self.width self.height reach (tile_at self i) }
        ensures within { IsWithin result self.width self.height }
    {
        grown(self.rect(i), reach, self.width, self.height)
    }
}
