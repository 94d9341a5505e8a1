//! The readers of a tile, step by step.

ghost use Rattle.std.specs.Prelude.{◌≡◌, ℕ, ◌*◌, ◌<◌, ◌≤◌, ◌^◌, length};
ghost use Rattle.mw_grid.specs.Grids.{tile_count};
ghost use Rattle.mw_ready.specs.Boards.{reads_tile};
ghost use Rattle.mw_ready.specs.Counters.{Lowers, AreWaiting, SameTiles};
ghost use Rattle.mw_ready.specs.Links.{Linked};

use crate::links::{Link, first_reader, next_reader};
use crate::need::{Need, does_read};
use crate::release::release_tiles;
use mw_grid::Grid;
use mw_ready_queue::Queue;

/// One thing less for each task that reads this tile of this step.
pub(crate) fn release_readers(
    queue: &mut Queue,
    needs: &[Need],
    links: &[Link],
    grid: Grid,
    step: u32,
    tile: u32,
)
    requires step { step < length needs.now }
    requires tile { tile < tile_count grid }
    requires size { length queue.old.waiting ≡ length needs.now * tile_count grid }
    requires small { length queue.old.waiting < 2 ^ 31 }
    requires steps { length needs.now ≤ 65535 }
    requires linked { Linked needs.now links.now 0 }
    requires waiting { AreWaiting (λ t. reads_tile needs.now grid t step tile) queue.old }
    ensures same { SameTiles queue.old queue.new }
    ensures lowers { Lowers (λ t. reads_tile needs.now grid t step tile) queue.old.waiting queue.new.waiting }
{
    let mut reader = first_reader(links, Some(step));
    while (reader as usize) < needs.len() {
        let need = needs[reader as usize];
        if does_read(need, step) {
            release_tiles(queue, grid, need.reach, reader, tile);
        }
        reader = next_reader(links, needs, reader, step);
    }
}
