//! Whether a window in pieces is what the tiles have in its rectangle. Where a piece is the size of a tile and in its place,
//! it is compared with that tile row by row; another is compared row part by row part.

ghost use Rattle.std.specs.Prelude.{◌↔◌, ◌+◌, ◌<◌, ◌≤◌, IsTrue};
ghost use Rattle.mw_model.specs.Rectangles.{IsWithin};
ghost use Rattle.mw_model.specs.Rasters.{Raster};
ghost use Rattle.mw_tile_pieces.specs.Patches.{frame_value, IsPatchOf, ShowsFrame, ShowsIn};
ghost use Rattle.mw_tile_slots.specs.Tiles.{cells_of, HasAll, HasAlong, HasSides, ShowsRun, ShowsTiles};

use crate::parts::{tile_number, tile_of, whole_tile};
use crate::placed::Placed;
use mw_grid::Grid;
use mw_model::Rect;
use mw_tile_pieces::pixel::Planar;
use mw_tile_pieces::{Piece, Pieces, overlap};

/// Whether the window is one of the tiles' frame, and shows what the tiles have there.
pub fn are_tiles<P: Planar>(grid: Grid, tiles: &[Option<Placed<P>>], window: &Pieces<P>) -> bool
    requires sides { HasSides grid tiles.now }
    requires within { IsWithin window.now.place grid.width grid.height }
    requires placed { HasAll grid (cells_of tiles.now) window.now.place }
    ensures { (f : Raster P) → ShowsTiles grid (cells_of tiles.now) f → IsTrue result ↔ ShowsFrame f window.now }
{
    let (place, pieces) = (window.place(), window.pieces());
    if window.frame_width() != grid.width() {
        return false;
    }
    if window.frame_height() != grid.height() {
        return false;
    }
    for piece in pieces {
        if !is_piece(grid, tiles, place, piece) {
            return false;
        }
    }
    true
}

/// Whether the piece has in the rectangle what the tiles have there.
fn is_piece<P: Planar>(
    grid: Grid,
    tiles: &[Option<Placed<P>>],
    place: Rect,
    piece: &Piece<P>,
) -> bool
    requires sides { HasSides grid tiles.now }
    requires within { IsWithin place grid.width grid.height }
    requires placed { HasAll grid (cells_of tiles.now) place }
    requires patch { IsPatchOf grid.width grid.height piece.now }
    ensures { (f : Raster P) → ShowsTiles grid (cells_of tiles.now) f → IsTrue result ↔ ShowsIn place (frame_value f) piece.now }
{
    // for their ranges
    let (_width, _height) = (grid.width(), grid.height());
    let at = piece.place();
    match whole_tile(grid, tiles, at) {
        Some(tile) => piece.agrees(place, at, tile.plane()),
        None => has_rows(grid, tiles, place, piece),
    }
}

/// Whether the piece shows row by row what the tiles have, where no tile stands in the piece's place.
fn has_rows<P: Planar>(
    grid: Grid,
    tiles: &[Option<Placed<P>>],
    place: Rect,
    piece: &Piece<P>,
) -> bool
    requires sides { HasSides grid tiles.now }
    requires within { IsWithin place grid.width grid.height }
    requires placed { HasAll grid (cells_of tiles.now) place }
    requires patch { IsPatchOf grid.width grid.height piece.now }
    ensures { (f : Raster P) → ShowsTiles grid (cells_of tiles.now) f → IsTrue result ↔ ShowsIn place (frame_value f) piece.now }
{
    // for their ranges
    let (_width, _height) = (grid.width(), grid.height());
    let here = overlap(place, piece.place());
    if here.width == 0 {
        return true;
    }
    for y in here.y..here.y + here.height {
        if !is_row(grid, tiles, piece, here.x, y, here.width) {
            return false;
        }
    }
    true
}

/// Whether so many samples of row y of the piece from column x on are those of the tiles.
fn is_row<P: Planar>(
    grid: Grid,
    tiles: &[Option<Placed<P>>],
    piece: &Piece<P>,
    x: u32,
    y: u32,
    count: u32,
) -> bool
    requires sides { HasSides grid tiles.now }
    requires across { x + count ≤ grid.width }
    requires down { y < grid.height }
    requires placed { HasAlong grid (cells_of tiles.now) x y (x + count) }
    requires left { piece.now.place.x ≤ x }
    requires right { x + count ≤ piece.now.place.x + piece.now.place.width }
    requires top { piece.now.place.y ≤ y }
    requires bottom { y < piece.now.place.y + piece.now.place.height }
    ensures { (f : Raster P) → ShowsTiles grid (cells_of tiles.now) f → IsTrue result ↔ ShowsRun f piece.now x y count }
{
    // for their ranges
    let (_width, _height) = (grid.width(), grid.height());
    let (own, stands) = (piece.plane(), piece.place());
    let end = x + count;
    let mut at = x;
    'parts: while at < end {
        let i = tile_number(grid, at, y);
        let (tile, place) = (tile_of(grid, tiles, i).plane(), grid.rect(i));
        let stop = end.min(place.x + place.width);
        let (row, held) = (y - stands.y, y - place.y);
        if !own.same_run(at - stands.x, row, tile, at - place.x, held, stop - at) {
            return false;
        }
        at = stop;
    }
    true
}
