//! What a task reads: a window of each source, off the image that is kept of its command's input and the tiles that are
//! kept of its plan's steps.

ghost use Rattle.std.specs.Prelude.{◌≡◌, ◌<◌, ◌≤◌, ◌++◌, ◌∷◌, [], length, option_map, IfOk, IfSome, IsTrue, Some, true};
ghost use Rattle.std.specs.List.{AllByRecursion};
ghost use Rattle.mw_model.specs.Pictures.{Picture};
ghost use Rattle.mw_model.specs.Rectangles.{IsWithin};
ghost use Rattle.mw_model.specs.Values.{image_of, value_at};
ghost use Rattle.mw_core_laws.specs.mw_plan.Seen.{source, sources};
ghost use Rattle.mw_core_laws.specs.mw_step_task.Sources.{HasFrame};
ghost use Rattle.mw_core_laws.specs.mw_step_task.WindowTasks.{IsBounded};
ghost use Rattle.mw_core_laws.specs.mw_tile.Windows.{window_of};
ghost use Rattle.mw_core_tasks.specs.SourceWindows.{AreWindowsOf, CanRead, CanReadAll, IsSource, IsWindowOf};

use mw_core_laws::plan::{Source, Sources};
use mw_core_laws::task::SharedWindow;
use mw_core_laws::{PlanProgress, Store};
use mw_model::{NoMemory, Rect};
use std::alloc::Global;

/// Where a task reads: the ticket of the image among the inputs of its command, and the rectangle of the frame.
#[derive(Clone, Copy)]
pub(crate) struct Reading {
    pub(crate) image: u32,
    pub(crate) place: Rect,
}

/// Whether the image that is kept of the ticket has the frame of the work.
pub(crate) fn has_frame(store: &Store, progress: &PlanProgress, image: u32) -> bool
    requires { image < length store.now.table.names }
    ensures frame { IsTrue result → IfSome (image_of (value_at store.now.kept image)) (HasFrame progress.now.tiling.width progress.now.tiling.height) }
    ensures some { (f : Picture) → image_of (value_at store.now.kept image) ≡ Some f → HasFrame progress.now.tiling.width progress.now.tiling.height f → IsTrue result }
{
    let grid = progress.grid();
    match store.image_shape(image) {
        Some(shape) => shape.width == grid.width() && shape.height == grid.height(),
        None => true,
    }
}

/// The window of a source; None where no such image is kept.
fn window(
    alloc: Global,
    store: &Store,
    progress: &PlanProgress,
    reading: Reading,
    from: Source,
) -> Result<Option<SharedWindow>, NoMemory>
    requires image { reading.image < length store.now.table.names }
    requires some { (1 ≤ reading.place.width) × (1 ≤ reading.place.height) }
    requires within { IsWithin reading.place progress.now.tiling.width progress.now.tiling.height }
    requires there { CanRead progress.now reading.place (source from) }
    ensures window { IfOk result (IsWindowOf (image_of (value_at store.now.kept reading.image)) progress.now reading.place (source from)) }
    ensures bounded { IfOk result (λ w. IfSome w IsBounded) }
{
    match from {
        Source::Input(_) => {
            if !has_frame(store, progress, reading.image) {
                return Ok(None);
            }
            let _picture = store.image_shape(reading.image);
            store.window(alloc, reading.image, reading.place)
        }
        Source::Step(step) => {
            let window = progress.window(alloc, u32::from(step), reading.place)?;
            Ok(Some(window))
        }
    }
}

/// Adds the window of a source to others. Says whether it was there.
fn add(
    alloc: Global,
    store: &Store,
    progress: &PlanProgress,
    reading: Reading,
    from: Source,
    found: &mut Vec<SharedWindow>,
) -> Result<bool, NoMemory>
    requires image { reading.image < length store.now.table.names }
    requires some { (1 ≤ reading.place.width) × (1 ≤ reading.place.height) }
    requires within { IsWithin reading.place progress.now.tiling.width progress.now.tiling.height }
    requires there { CanRead progress.now reading.place (source from) }
    ensures bounded { IfOk result (λ added. AllByRecursion IsBounded found.old.items → AllByRecursion IsBounded found.new.items) }
    ensures added { IfOk result (λ added. (f : Picture) → IsSource (image_of (value_at store.now.kept reading.image)) progress.now (source from) f → (added ≡ true) × (found.new.items ≡ found.old.items ++ window_of reading.place f ∷ [])) }
{
    let Some(window) = window(alloc, store, progress, reading, from)? else {
        return Ok(false);
    };
    found.push(window)?;
    Ok(true)
}

/// The windows of all sources, in order; None where no such image is kept.
pub(crate) fn windows(
    alloc: Global,
    store: &Store,
    progress: &PlanProgress,
    reading: Reading,
    from: Sources,
) -> Result<Option<Vec<SharedWindow>>, NoMemory>
    requires image { reading.image < length store.now.table.names }
    requires some { (1 ≤ reading.place.width) × (1 ≤ reading.place.height) }
    requires within { IsWithin reading.place progress.now.tiling.width progress.now.tiling.height }
    requires there { CanReadAll progress.now reading.place (sources from) }
    ensures bounded { IfOk result (λ ws. IfSome (option_map (λ v. v.items) ws) (AllByRecursion IsBounded)) }
    ensures windows { IfOk result (λ ws. AreWindowsOf (image_of (value_at store.now.kept reading.image)) progress.now reading.place (sources from) (option_map (λ v. v.items) ws)) }
{
    let mut found = Vec::with_capacity(alloc, from.len())?;
    let complete = match from {
        Sources::Nothing => true,
        Sources::One(a) => add(alloc, store, progress, reading, a, &mut found)?,
        Sources::Two(a, b) => {
            add(alloc, store, progress, reading, a, &mut found)?
                && add(alloc, store, progress, reading, b, &mut found)?
        }
        Sources::Three(a, b, c) => {
            add(alloc, store, progress, reading, a, &mut found)?
                && add(alloc, store, progress, reading, b, &mut found)?
                && add(alloc, store, progress, reading, c, &mut found)?
        }
    };
    if complete { Ok(Some(found)) } else { Ok(None) }
}
