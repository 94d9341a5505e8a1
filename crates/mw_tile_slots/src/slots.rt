//! The places of a grid, each with its tile once that is placed.

ghost use Rattle.std.specs.Prelude.{◌≡◌, ◌<◌, None, IfOk, IfSome, option_map, replicate, slice_set};
ghost use Rattle.mw_grid.specs.Grids.{tile_at, tile_count};
ghost use Rattle.mw_tile_slots.specs.Tiles.{cells_in_raster, cells_of, HasSides, HasSidesOf};

use crate::placed::Placed;
use mw_grid::Grid;
use mw_model::NoMemory;
use mw_tile_pieces::pixel::Planar;
use std::alloc::Global;

/// So many places without a tile.
pub fn no_tiles<P: Planar>(alloc: Global, count: usize) -> Result<Vec<Option<Placed<P>>>, NoMemory>
    ensures { IfOk result (λ v. v.items ≡ replicate count None) }
{
    let mut tiles = Vec::with_capacity(alloc, count)?;
    for _ in 0..count {
        tiles.push(None)?;
    }
    Ok(tiles)
}

/// Writes a tile, or that there is none, over what stands in a place.
pub fn put<P: Planar>(grid: Grid, tiles: &mut [Option<Placed<P>>], i: u32, tile: Option<Placed<P>>)
    requires within { i < tile_count grid }
    requires sides { HasSides grid tiles.old }
    requires fits { IfSome tile (HasSidesOf (tile_at grid i)) }
    ensures sides { HasSides grid tiles.new }
    ensures value { cells_of tiles.new ≡ slice_set (cells_of tiles.old) i (option_map cells_in_raster tile) }
{
    tiles[i as usize] = tile;
}

/// One more owner of each tile, in the same places.
pub fn share_tiles<P: Planar>(
    alloc: Global,
    tiles: &[Option<Placed<P>>],
) -> Result<Vec<Option<Placed<P>>>, NoMemory>
    ensures { IfOk result (λ v. v.items ≡ tiles.now) }
{
    let mut shared = Vec::with_capacity(alloc, tiles.len())?;
    for tile in tiles {
        shared.push(share_tile(tile)?)?;
    }
    Ok(shared)
}

/// One more owner of a tile, if it is placed.
fn share_tile<P: Planar>(tile: &Option<Placed<P>>) -> Result<Option<Placed<P>>, NoMemory>
    ensures { IfOk result (λ t. t ≡ tile.now) }
{
    match tile {
        Some(placed) => Ok(Some(Placed::new(placed.owner()?))),
        None => Ok(None),
    }
}
