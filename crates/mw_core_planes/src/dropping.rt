//! Tiles that are dropped once no unfinished task reads them.

ghost use Rattle.std.specs.Prelude.{◌≡◌, ◌≢◌, ℕ, ◌+◌, ◌*◌, ◌/◌, ◌%◌, ◌<◌, ◌≤◌, ◌&&◌, not, true, nat_eq, length};
ghost use Rattle.std.specs.List.{list_any};
ghost use Rattle.mw_grid.specs.Blocks.{IsBlock, in_block, sees};
ghost use Rattle.mw_grid.specs.Counts.{in_range};
ghost use Rattle.mw_grid.specs.Grids.{tile_count};
ghost use Rattle.mw_ready.specs.Boards.{is_source, step_reads};
ghost use Rattle.mw_core_planes.specs.StepPlanes.{shown, form, place_at, is_read, Swept, SweptAll};

use crate::step_planes::StepPlane;
use mw_grid::{Block, Grid};
use mw_ready::{Need, Ready};
use mw_tile_planes::TiledPlane;

/// Drops the tiles from one number to another that no unfinished task reads.
fn drop_row(plane: &mut TiledPlane, ready: &Ready, step: u32, from: u32, to: u32)
    requires step { step < length ready.now.board.needs }
    requires grid { plane.old.tiling ≡ ready.now.board.grid }
    requires ordered { from ≤ to }
    requires fits { to ≤ tile_count ready.now.board.grid }
    ensures { Swept (λ v. in_range from to v && not (is_read ready.now.board step v)) plane.old plane.new }
{
    for tile in from..to {
        if !ready.is_read(step, tile) {
            plane.drop_tile(tile);
        }
    }
}

/// Drops the tiles of a block that no unfinished task reads.
fn drop_block(plane: &mut TiledPlane, ready: &Ready, grid: Grid, step: u32, block: Block)
    requires step { step < length ready.now.board.needs }
    requires board { grid ≡ ready.now.board.grid }
    requires grid { plane.old.tiling ≡ grid }
    requires block { IsBlock grid block }
    ensures { Swept (λ v. in_block grid block v && not (is_read ready.now.board step v)) plane.old plane.new }
{
    let columns = grid.columns();
    let _rows = grid.rows();
    for row in block.top..block.bottom {
        let first = row * columns;
        drop_row(plane, ready, step, first + block.left, first + block.right);
    }
}

/// Drops a block of tiles of the plane of a step, if it is open.
fn drop_in_step(places: &mut [StepPlane], ready: &Ready, grid: Grid, step: u32, block: Block)
    requires step { step < length ready.now.board.needs }
    requires within { step < length places.old }
    requires plane { form (place_at places.old step) ≢ 2 }
    requires board { grid ≡ ready.now.board.grid }
    requires grid { (shown grid (place_at places.old step)).tiling ≡ grid }
    requires block { IsBlock grid block }
    ensures { SweptAll grid (λ k v. nat_eq step k && (in_block grid block v && not (is_read ready.now.board k v))) places.old places.new }
{
    if let StepPlane::Plane(plane) = &mut places[step as usize] {
        drop_block(plane, ready, grid, step, block);
    }
}

/// Drops a block of tiles of the plane of a source, if that is a step.
fn drop_in_source(
    places: &mut [StepPlane],
    ready: &Ready,
    grid: Grid,
    source: Option<u32>,
    block: Block,
)
    requires step { (k : ℕ) → is_source k source ≡ true → (k < length ready.now.board.needs) × (k < length places.old) × (form (place_at places.old k) ≢ 2) }
    requires board { grid ≡ ready.now.board.grid }
    requires grids { (k : ℕ) → (shown grid (place_at places.old k)).tiling ≡ grid }
    requires block { IsBlock grid block }
    ensures { SweptAll grid (λ k v. is_source k source && (in_block grid block v && not (is_read ready.now.board k v))) places.old places.new }
{
    if let Some(step) = source {
        drop_in_step(places, ready, grid, step, block);
    }
}

/// Drops a block of tiles of the plane of each source that is a step.
fn drop_in_sources(
    places: &mut [StepPlane],
    ready: &Ready,
    grid: Grid,
    sources: &[Option<u32>],
    block: Block,
)
    requires steps { (k : ℕ) → list_any (is_source k) sources.now ≡ true → (k < length ready.now.board.needs) × (k < length places.old) × (form (place_at places.old k) ≢ 2) }
    requires board { grid ≡ ready.now.board.grid }
    requires grids { (k : ℕ) → (shown grid (place_at places.old k)).tiling ≡ grid }
    requires block { IsBlock grid block }
    ensures { SweptAll grid (λ k v. list_any (is_source k) sources.now && (in_block grid block v && not (is_read ready.now.board k v))) places.old places.new }
{
    for i in 0..sources.len() {
        drop_in_source(places, ready, grid, sources[i], block);
    }
}

/// Drops what a task with this need for this tile read, where no unfinished task reads it.
pub fn drop_read(places: &mut [StepPlane], ready: &Ready, grid: Grid, need: Need, tile: u32)
    requires tile { tile < tile_count grid }
    requires board { grid ≡ ready.now.board.grid }
    requires size { length ready.now.board.needs ≡ length places.old }
    requires steps { (k : ℕ) → step_reads need k ≡ true → (k < length places.old) × (form (place_at places.old k) ≢ 2) }
    requires grids { (k : ℕ) → (shown grid (place_at places.old k)).tiling ≡ grid }
    requires counts { (k : ℕ) → length (shown grid (place_at places.old k)).tiles ≡ tile_count grid }
    ensures { SweptAll grid (λ k v. step_reads need k && sees grid need.reach tile v && not (is_read ready.now.board k v)) places.old places.new }
{
    let block = Block::met_by(grid, tile, need.reach);
    drop_in_sources(places, ready, grid, &need.steps, block);
}
