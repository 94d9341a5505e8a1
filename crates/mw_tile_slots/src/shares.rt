//! Rectangles of a plane as the tiles that they meet, each with one more owner. No sample is copied.

ghost use Rattle.std.specs.Prelude.{◌≡◌, ◌+◌, ◌-◌, ◌/◌, ◌<◌, ◌≤◌, IfOk};
ghost use Rattle.mw_model.specs.declared.limits.TheConstants.{SIDE_LIMIT};
ghost use Rattle.mw_model.specs.Rectangles.{IsWithin};
ghost use Rattle.mw_model.specs.Rasters.{Raster};
ghost use Rattle.mw_grid.specs.Grids.{tile_count};
ghost use Rattle.mw_tile_pieces.specs.Patches.{ShowsFrame};
ghost use Rattle.mw_tile_slots.specs.Tiles.{cells_of, HasAll, HasSides, ShowsTiles};
ghost use Rattle.mw_tile_slots.specs.Shares.{AddsTiles, AreTilesMet};

use crate::placed::Placed;
use mw_grid::Grid;
use mw_model::{NoMemory, Rect};
use mw_tile_pieces::pixel::Planar;
use mw_tile_pieces::{Piece, Pieces};
use std::alloc::Global;

/// Adds a tile, if it is placed.
fn push_tile<P: Planar>(
    grid: Grid,
    tiles: &[Option<Placed<P>>],
    i: u32,
    pieces: &mut Vec<Piece<P>>,
) -> Result<(), NoMemory>
    requires within { i < tile_count grid }
    requires sides { HasSides grid tiles.now }
    ensures { IfOk result (λ _. AddsTiles grid (cells_of tiles.now) i (i + 1) pieces.old.items pieces.new.items) }
{
    match &tiles[i as usize] {
        Some(placed) => {
            let place = grid.rect(i);
            let plane = placed.owner()?;
            let piece = Piece::new(place, plane);
            pieces.push(piece)?;
            Ok(())
        }
        None => Ok(()),
    }
}

/// Adds the tiles of the numbers from `first` up to `end`, those that are placed.
fn push_tiles<P: Planar>(
    grid: Grid,
    tiles: &[Option<Placed<P>>],
    first: u32,
    end: u32,
    pieces: &mut Vec<Piece<P>>,
) -> Result<(), NoMemory>
    requires order { first ≤ end }
    requires within { end ≤ tile_count grid }
    requires sides { HasSides grid tiles.now }
    ensures { IfOk result (λ _. AddsTiles grid (cells_of tiles.now) first end pieces.old.items pieces.new.items) }
{
    for i in first..end {
        push_tile(grid, tiles, i, pieces)?;
    }
    Ok(())
}

/// The end of the pieces of a line that some places meet.
fn end_of(side: u32, at: u32, count: u32) -> u32
    requires some { 1 ≤ count }
    requires least { 1 ≤ side }
    requires fits { at + count ≤ SIDE_LIMIT }
    ensures { result ≡ (at + count - 1) / side + 1 }
{
    (at + count - 1) / side + 1
}

/// The tiles that a rectangle meets, those that are placed.
fn tiles_met<P: Planar>(
    alloc: Global,
    grid: Grid,
    tiles: &[Option<Placed<P>>],
    rect: Rect,
) -> Result<Vec<Piece<P>>, NoMemory>
    requires sides { HasSides grid tiles.now }
    requires some { (1 ≤ rect.width) × (1 ≤ rect.height) }
    requires within { IsWithin rect grid.width grid.height }
    ensures { IfOk result (λ v. AreTilesMet grid (cells_of tiles.now) rect v.items) }
{
    let (_width, _height, side) = (grid.width(), grid.height(), grid.side());
    let (columns, _rows, _count) = (grid.columns(), grid.rows(), grid.len());
    let left = rect.x / side;
    let right = end_of(side, rect.x, rect.width);
    let top = rect.y / side;
    let bottom = end_of(side, rect.y, rect.height);
    let high = bottom - top;
    let wide = right - left;
    let mut pieces = Vec::with_capacity(alloc, high as usize * wide as usize)?;
    for row in top..bottom {
        let first = row * columns;
        let from = first + left;
        let to = first + right;
        push_tiles(grid, tiles, from, to, &mut pieces)?;
    }
    Ok(pieces)
}

/// The window of a rectangle whose tiles are placed, as those tiles.
pub fn pieces_of<P: Planar>(
    alloc: Global,
    grid: Grid,
    tiles: &[Option<Placed<P>>],
    rect: Rect,
) -> Result<Pieces<P>, NoMemory>
    requires sides { HasSides grid tiles.now }
    requires some { (1 ≤ rect.width) × (1 ≤ rect.height) }
    requires within { IsWithin rect grid.width grid.height }
    requires placed { HasAll grid (cells_of tiles.now) rect }
    ensures place { IfOk result (λ r. r.place ≡ rect) }
    ensures shows { IfOk result (λ r. (f : Raster P) → ShowsTiles grid (cells_of tiles.now) f → ShowsFrame f r) }
{
    let (width, height, _side) = (grid.width(), grid.height(), grid.side());
    let pieces = tiles_met(alloc, grid, tiles, rect)?;
    Ok(Pieces::new(width, height, rect, pieces))
}
