//! The tasks that wait for a tile are told that it is finished.

ghost use Rattle.std.specs.Prelude.{◌≡◌, ◌+◌, ◌*◌, ◌<◌, ◌≤◌, ◌^◌, length};
ghost use Rattle.mw_grid.specs.Counts.{in_range};
ghost use Rattle.mw_grid.specs.Grids.{columns_of, rows_of, tile_count};
ghost use Rattle.mw_grid.specs.Blocks.{in_block};
ghost use Rattle.mw_ready.specs.Counters.{Lowers, AreWaiting, SameTiles};
ghost use Rattle.mw_ready.specs.Kept.{is_near};

use mw_grid::{Block, Grid};
use mw_model::Reach;
use mw_ready_queue::Queue;

/// One thing less for each task of a row.
fn release_row(queue: &mut Queue, from: u32, to: u32)
    requires ordered { from ≤ to }
    requires fits { to ≤ length queue.old.waiting }
    requires waiting { AreWaiting (in_range from to) queue.old }
    ensures same { SameTiles queue.old queue.new }
    ensures lowers { Lowers (in_range from to) queue.old.waiting queue.new.waiting }
{
    for task in from..to {
        queue.settle(task);
    }
}

/// One thing less for each task of a block.
fn release_block(queue: &mut Queue, grid: Grid, block: Block)
    requires ordered { (block.top ≤ block.bottom) × (block.left ≤ block.right) }
    requires across { block.right ≤ columns_of grid }
    requires fits { block.bottom * columns_of grid ≤ length queue.old.waiting }
    requires small { length queue.old.waiting < 2 ^ 31 }
    requires waiting { AreWaiting (in_block grid block) queue.old }
    ensures same { SameTiles queue.old queue.new }
    ensures lowers { Lowers (in_block grid block) queue.old.waiting queue.new.waiting }
{
    let columns = grid.columns();
    for row in block.top..block.bottom {
        release_row(
            queue,
            row * columns + block.left,
            row * columns + block.right,
        );
    }
}

/// One thing less for each task of a step whose window meets a tile.
pub(crate) fn release_tiles(queue: &mut Queue, grid: Grid, reach: Reach, step: u32, tile: u32)
    requires tile { tile < tile_count grid }
    requires fits { (step * rows_of grid + rows_of grid) * columns_of grid ≤ length queue.old.waiting }
    requires small { length queue.old.waiting < 2 ^ 31 }
    requires waiting { AreWaiting (is_near grid reach step tile) queue.old }
    ensures same { SameTiles queue.old queue.new }
    ensures lowers { Lowers (is_near grid reach step tile) queue.old.waiting queue.new.waiting }
{
    let block = Block::meeting(grid, tile, reach);
    release_block(queue, grid, block.at_step(grid, step));
}
