//! Tasks of plans, as they are handed out: the numbers, the tile, the step, and the windows that it reads.

ghost use Rattle.std.specs.Prelude.{◌≡◌, ◌<◌, length, slice_index, IfOk, OnErr};
ghost use Rattle.mw_model.specs.Values.{image_of, value_at};
ghost use Rattle.mw_model.specs.Tasks.{ready_tasks};
ghost use Rattle.mw_grid.specs.Grids.{tile_count};
ghost use Rattle.mw_core_laws.specs.mw_core_progress.ProgressView.{number_of};
ghost use Rattle.mw_core_laws.specs.Works.{IsReadyOrRuns};
ghost use Rattle.mw_core_tasks.specs.SourceWindows.{IsTaskOrNone, Takes};

use crate::reading::{Reading, windows};
use mw_core_laws::task::Work;
use mw_core_laws::{PlanProgress, Store};
use mw_model::{NoMemory, TaskId};
use std::alloc::Global;

/// The task of these numbers; None where it has no windows that fit its step.
pub(crate) fn task(
    alloc: Global,
    store: &Store,
    image: u32,
    progress: &PlanProgress,
    id: TaskId,
) -> Result<Option<Work>, NoMemory>
    requires image { image < length store.now.table.names }
    requires step { id.step < length progress.now.progress.plan }
    requires tile { id.tile < tile_count progress.now.tiling }
    requires runs { IsReadyOrRuns progress.now.progress (number_of progress.now.progress id.step id.tile) }
    ensures { IfOk result (IsTaskOrNone (image_of (value_at store.now.kept image)) id.ticket progress.now (number_of progress.now.progress id.step id.tile)) }
{
    // Its tiles are placed, as a fact of the work.
    mw_core_laws::true_tasks();
    let _whole = progress.remaining();
    let planned = progress.step(id.step);
    let grid = progress.grid();
    let rect = grid.rect(id.tile);
    let place = grid.window(id.tile, planned.step.reach());
    let reading = Reading { image, place };
    let Some(windows) = windows(alloc, store, progress, reading, planned.sources)? else {
        return Ok(None);
    };
    Ok(Work::new(id, rect, planned.step.share()?, windows))
}

/// Starts the ready task of this place; None, and nothing started, where it has no windows that fit its step.
pub fn begin(
    alloc: Global,
    store: &Store,
    image: u32,
    t: u32,
    progress: &mut PlanProgress,
    place: u32,
) -> Result<Option<Work>, NoMemory>
    requires image { image < length store.now.table.names }
    requires place { place < ready_tasks progress.old.progress }
    ensures taken { IfOk result (Takes (image_of (value_at store.now.kept image)) t progress.old (slice_index progress.old.order place) progress.new) }
    ensures same { OnErr result (progress.new ≡ progress.old) }
{
    let _whole = progress.remaining();
    let (step, tile) = progress.task_at(place);
    let id = TaskId {
        ticket: t,
        step,
        tile,
    };
    let Some(task) = task(alloc, store, image, progress, id)? else {
        return Ok(None);
    };
    progress.start(alloc, place)?;
    Ok(Some(task))
}
