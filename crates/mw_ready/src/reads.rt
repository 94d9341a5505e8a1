//! How many unfinished tasks read what each task makes.

ghost use Rattle.std.specs.Prelude.{◌≡◌, ℕ, ◌+◌, ◌*◌, ◌%◌, ◌<◌, ◌≤◌, ◌^◌, ◌&&◌, nat_eq, length, slice_index, vec_len, IfOk};
ghost use Rattle.mw_grid.specs.Counts.{bit, in_range};
ghost use Rattle.mw_grid.specs.Grids.{columns_of, rows_of, tile_count};
ghost use Rattle.mw_grid.specs.Blocks.{IsBlock, in_block};
ghost use Rattle.mw_ready.specs.Boards.{is_source, step_on_grid, step_reads};
ghost use Rattle.mw_ready.specs.Counters.{Lowers, Raises, NoneIsZero};
ghost use Rattle.mw_ready.specs.Kept.{reader_count, seen_by, takes};
ghost use Rattle.mw_ready.specs.Spans.{AreSpans, tiles_spanned};

use crate::need::{Need, sources};
use crate::spans::{Spans, raise_step};
use mw_grid::{Block, Grid};
use mw_model::NoMemory;
use std::alloc::Global;

/// For each task of a source of a step, as many readers more as its tile has by the spans, where the source is one of so
/// many steps.
fn raise_source(counts: &mut [u32], grid: Grid, spans: &Spans, steps: u32, source: Option<u32>)
    requires size { length counts.old ≡ steps * tile_count grid }
    requires small { length counts.old < 2 ^ 31 }
    requires low { (row : ℕ) → row < rows_of grid → slice_index spans.now.down row ≤ 128 }
    requires fits { (u : ℕ) → u < length counts.old → slice_index counts.old u + tiles_spanned grid spans.now (u % tile_count grid) < 2 ^ 32 }
    ensures { Raises (λ u. bit (is_source (step_on_grid grid u) source) * tiles_spanned grid spans.now (u % tile_count grid)) counts.old counts.new }
{
    if let Some(step) = source {
        if step < steps {
            raise_step(counts, grid, spans, step, 1);
        }
    }
}

/// The readers that the tasks of a step with this need are for others, by the spans of the tiles whose windows meet a tile.
fn raise_sources(counts: &mut [u32], grid: Grid, spans: &Spans, need: Need, steps: u32)
    requires size { length counts.old ≡ steps * tile_count grid }
    requires small { length counts.old < 2 ^ 31 }
    requires spans { AreSpans grid spans.now (seen_by grid need.reach) }
    requires fits { (u : ℕ) → u < length counts.old → slice_index counts.old u + 3 * tile_count grid < 2 ^ 32 }
    ensures { Raises (λ u. bit (step_reads need (step_on_grid grid u)) * seen_by grid need.reach (u % tile_count grid)) counts.old counts.new }
{
    let (first, second, third) = sources(need);
    raise_source(counts, grid, spans, steps, first);
    raise_source(counts, grid, spans, steps, second);
    raise_source(counts, grid, spans, steps, third);
}

/// For each task, how many others read it.
pub(crate) fn first_readers(alloc: Global, needs: &[Need], grid: Grid) -> Result<Vec<u32>, NoMemory>
    requires { length needs.now ≤ 65535 }
    ensures size { IfOk result (λ v. vec_len v ≡ length needs.now * tile_count grid) }
    ensures each { IfOk result (λ v. (u : ℕ) → u < vec_len v → slice_index v.items u ≡ reader_count needs.now grid (length needs.now * tile_count grid) u) }
{
    let steps = needs.len();
    let mut counts = vec![in alloc; 0; steps * grid.len() as usize]?;
    let mut spans = Spans::none();
    for k in 0..steps {
        let need = needs[k];
        spans.set_meeting(grid, need.reach);
        raise_sources(&mut counts, grid, &spans, need, steps as u32);
    }
    Ok(counts)
}

/// One less for each task of a row.
fn lower_row(counts: &mut [u32], from: u32, to: u32)
    requires ordered { from ≤ to }
    requires fits { to ≤ length counts.old }
    requires some { NoneIsZero (in_range from to) counts.old }
    ensures { Lowers (in_range from to) counts.old counts.new }
{
    for task in from..to {
        counts[task as usize] -= 1;
    }
}

/// One less for each task of a block.
fn lower_block(counts: &mut [u32], grid: Grid, block: Block)
    requires ordered { (block.top ≤ block.bottom) × (block.left ≤ block.right) }
    requires across { block.right ≤ columns_of grid }
    requires fits { block.bottom * columns_of grid ≤ length counts.old }
    requires small { length counts.old < 2 ^ 31 }
    requires some { NoneIsZero (in_block grid block) counts.old }
    ensures { Lowers (in_block grid block) counts.old counts.new }
{
    let columns = grid.columns();
    for row in block.top..block.bottom {
        lower_row(
            counts,
            row * columns + block.left,
            row * columns + block.right,
        );
    }
}

/// One less for each task of a source whose tile lies in the block, where the source is one of so many steps.
fn lower_source(counts: &mut [u32], grid: Grid, block: Block, steps: u32, source: Option<u32>)
    requires within { IsBlock grid block }
    requires size { length counts.old ≡ steps * tile_count grid }
    requires small { length counts.old < 2 ^ 31 }
    requires some { NoneIsZero (λ u. is_source (step_on_grid grid u) source && in_block grid block (u % tile_count grid)) counts.old }
    ensures { Lowers (λ u. is_source (step_on_grid grid u) source && in_block grid block (u % tile_count grid)) counts.old counts.new }
{
    if let Some(step) = source {
        if step < steps {
            lower_block(counts, grid, block.at_step(grid, step));
        }
    }
}

/// One reader less for each task that one with this need and tile reads.
pub(crate) fn lower_sources(counts: &mut [u32], grid: Grid, need: Need, steps: u32, tile: u32)
    requires tile { tile < tile_count grid }
    requires size { length counts.old ≡ steps * tile_count grid }
    requires small { length counts.old < 2 ^ 31 }
    requires some { NoneIsZero (takes need grid tile) counts.old }
    ensures { Lowers (takes need grid tile) counts.old counts.new }
{
    let block = Block::met_by(grid, tile, need.reach);
    let (first, second, third) = sources(need);
    lower_source(counts, grid, block, steps, first);
    lower_source(counts, grid, block, steps, second);
    lower_source(counts, grid, block, steps, third);
}
