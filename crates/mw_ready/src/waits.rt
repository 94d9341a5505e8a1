//! For how many others each task waits before anything is finished.

ghost use Rattle.std.specs.Prelude.{◌≡◌, ℕ, ◌+◌, ◌*◌, ◌<◌, ◌≤◌, ◌^◌, length, slice_index, vec_len, IfOk};
ghost use Rattle.mw_grid.specs.Grids.{tile_count};
ghost use Rattle.mw_ready.specs.Boards.{is_source, step_reads};
ghost use Rattle.mw_grid.specs.Counts.{count_below};
ghost use Rattle.mw_ready.specs.Kept.{read_count};

use crate::need::{Need, sources};
use crate::spans::{Spans, raise_step};
use mw_grid::Grid;
use mw_model::NoMemory;
use std::alloc::Global;

/// How many of so many steps this source is: one or none.
fn is_step(source: Option<u32>, steps: u32) -> u32
    ensures value { result ≡ count_below (λ s. is_source s source) steps }
    ensures few { result ≤ 1 }
{
    match source {
        Some(step) => u32::from(step < steps),
        None => 0,
    }
}

/// How many of so many steps are read.
fn steps_read(need: Need, steps: u32) -> u32
    ensures value { result ≡ count_below (step_reads need) steps }
    ensures most { result ≤ steps }
{
    let (first, second, third) = sources(need);
    is_step(first, steps) + is_step(second, steps) + is_step(third, steps)
}

/// For each task, how many others it reads.
pub(crate) fn first_waits(alloc: Global, needs: &[Need], grid: Grid) -> Result<Vec<u32>, NoMemory>
    requires { length needs.now ≤ 65535 }
    ensures size { IfOk result (λ v. vec_len v ≡ length needs.now * tile_count grid) }
    ensures each { IfOk result (λ v. (t : ℕ) → t < vec_len v → slice_index v.items t ≡ read_count needs.now grid (length needs.now * tile_count grid) t) }
{
    let steps = needs.len() as u32;
    let mut waits = vec![in alloc; 0; needs.len() * grid.len() as usize]?;
    let mut spans = Spans::none();
    for k in 0..needs.len() {
        let need = needs[k];
        spans.set_met_by(grid, need.reach);
        raise_step(&mut waits, grid, &spans, k as u32, steps_read(need, steps));
    }
    Ok(waits)
}
