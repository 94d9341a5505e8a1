//! An element's offsets as places of rows of bits.
ghost use Rattle.std.specs.Prelude.{◌≡◌, ℕ, ◌+◌, ◌-◌, ◌*◌, ◌<◌, ◌≤◌, ◌^◌, length, map, IfOk, ◌-ℤ◌, ◌≤ℤ◌};
ghost use Rattle.std.specs.List.{AllByRecursion};
ghost use Rattle.mw_model.specs.Rectangles.{nonnegative};
ghost use Rattle.mw_bits.specs.mw_element_runs.Runs.{start_of, RunIsInside};
ghost use Rattle.mw_bits.specs.Layouts.{ExtentIsNear};
ghost use Rattle.mw_rank_bits.specs.Elements.{single_run};
ghost use Rattle.mw_rank_bits.specs.Walks.{AreMoves};

use crate::costs::Load;
use crate::counter::sums_of;
use crate::moves::{Changes, Sheet, changes_of};
use mw_bits::run::{Extent, Run, columns_after, rows_after, start_of_run};
use mw_model::{NoMemory, Offset};
use std::alloc::Global;

/// Places in rows of bits: those that an element sees, and how they change one row further down.
#[derive(Drop)]
pub(crate) struct Moves {
    pub seen: Vec<usize>,
    pub changes: Changes,
}

/// Each offset as a run of its own.
pub(crate) fn single_runs(alloc: Global, offsets: &[Offset]) -> Result<Vec<Run>, NoMemory>
    ensures { IfOk result (λ v. v.items ≡ map single_run offsets.now) }
{
    let mut runs = Vec::with_capacity(alloc, offsets.len())?;
    for i in 0..offsets.len() {
        let offset = offsets[i];
        runs.push(Run {
            dx: offset.dx,
            dy: offset.dy,
            count: 1,
        })?;
    }
    Ok(runs)
}

/// Where the runs begin in rows of so many places, the first of which is that of the extent.
fn places_of(
    alloc: Global,
    runs: &[Run],
    extent: Extent,
    wide: usize,
) -> Result<Vec<usize>, NoMemory>
    requires inside { AllByRecursion (RunIsInside extent) runs.now }
    requires near { ExtentIsNear extent }
    requires narrow { wide ≤ 2 ^ 40 }
    ensures { IfOk result (λ v. v.items ≡ map (start_of extent wide) runs.now) }
{
    let mut places = Vec::with_capacity(alloc, runs.len())?;
    for i in 0..runs.len() {
        places.push(start_of_run(runs[i], extent, wide))?;
    }
    Ok(places)
}

/// The places of runs of one offset in rows of so many bits, and how they change.
pub(crate) fn moves_of(
    alloc: Global,
    runs: &[Run],
    extent: Extent,
    wide: usize,
) -> Result<Moves, NoMemory>
    requires inside { AllByRecursion (RunIsInside extent) runs.now }
    requires near { ExtentIsNear extent }
    requires narrow { wide ≤ 2 ^ 40 }
    ensures seen { IfOk result (λ m. m.seen.items ≡ map (start_of extent wide) runs.now) }
    ensures moves { IfOk result (λ m. AreMoves wide m.seen.items m.changes.entered.items m.changes.left.items) }
    ensures entered { IfOk result (λ m. AllByRecursion (λ (s : ℕ). s < (nonnegative (extent.bottom -ℤ extent.top) + 1) * wide + (nonnegative (extent.right -ℤ extent.left) + 1)) m.changes.entered.items) }
    ensures left { IfOk result (λ m. AllByRecursion (λ (s : ℕ). s < (nonnegative (extent.bottom -ℤ extent.top) + 1) * wide + (nonnegative (extent.right -ℤ extent.left) + 1)) m.changes.left.items) }
{
    let columns = columns_after(extent) + 1;
    let rows = rows_after(extent) + 1;
    let seen = places_of(alloc, runs, extent, wide)?;
    let places = places_of(alloc, runs, extent, columns)?;
    let changes = changes_of(
        alloc,
        places.as_slice(),
        Sheet {
            rows,
            columns,
            wide,
        },
    )?;
    Ok(Moves { seen, changes })
}

/// How many runs the offsets are: each that does not continue the one before it begins one.
fn count_of_runs(offsets: &[Run]) -> u64 {
    let mut count = 0u64;
    let mut row = 0i32;
    let mut next = i32::MIN;
    for offset in offsets {
        let column = i32::from(offset.dx);
        if i32::from(offset.dy) != row || column != next {
            count = count.saturating_add(1);
        }
        row = i32::from(offset.dy);
        next = column + 1;
    }
    count
}

/// What the time of ranks depends on at best, under an element of which each offset is a run: where no column has a gap.
pub(crate) fn least_load(offsets: &[Run], extent: Extent, digits: usize) -> Load
    requires across { extent.left ≤ℤ extent.right }
    requires down { extent.top ≤ℤ extent.bottom }
{
    let columns = columns_after(extent) + 1;
    let ends = columns.min(offsets.len());
    Load {
        offsets: offsets.len() as u64,
        runs: count_of_runs(offsets),
        rows: rows_after(extent) as u64 + 1,
        columns: columns as u64,
        changes: ends.saturating_mul(2) as u64,
        sums: sums_of(ends).saturating_mul(2) as u64,
        digits: digits as u64,
    }
}

/// What the time of ranks depends on.
pub(crate) fn load_of(moves: &Moves, least: Load) -> Load {
    let entered = moves.changes.entered.len();
    let left = moves.changes.left.len();
    Load {
        changes: entered.saturating_add(left) as u64,
        sums: sums_of(entered).saturating_add(sums_of(left)) as u64,
        ..least
    }
}
