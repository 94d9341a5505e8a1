//! Whether a result is that of a running task.

ghost use Rattle.std.specs.Prelude.{◌≡◌, ◌<◌, ◌≤◌, ◌↔◌, length, map, IsTrue, List, Option, slice_index_or};
ghost use Rattle.std.specs.List.{AllByRecursion};
ghost use Rattle.mw_model.specs.Pictures.{Picture};
ghost use Rattle.mw_model.specs.Rectangles.{IsWithin};
ghost use Rattle.mw_model.specs.Values.{image_of, value_at};
ghost use Rattle.mw_core_laws.specs.mw_plan.Seen.{source, sources};
ghost use Rattle.mw_core_laws.specs.mw_step_task.WindowTasks.{IsBounded};
ghost use Rattle.mw_core_laws.specs.mw_tile.Windows.{window_of};
ghost use Rattle.mw_core_laws.specs.mw_core_planes.Levels.{level_of_source, levels, no_level};
ghost use Rattle.mw_core_tasks.specs.SourceWindows.{AreSources, CanRead, CanReadAll, IsOfWork, IsSource};
ghost use Rattle.mw_core_tasks.specs.Results.{AreShown, HasLevel, IsFitOf, IsFoundOf, IsOfRunning, IsResultOf, WindowIsShown, level_of_window};

use crate::reading::{Reading, has_frame};
use mw_core_laws::plan::{Source, Sources};
use mw_core_laws::task::{SharedWindow, TileDone};
use mw_core_laws::{PlanProgress, Store};
use mw_model::{Kind, Rect};

/// Whether the image that is kept of the ticket, if one is, has the level that the work reads.
fn has_level(store: &Store, progress: &PlanProgress, image: u32) -> bool
    requires { image < length store.now.table.names }
    ensures { IsTrue result ↔ HasLevel (image_of (value_at store.now.kept image)) progress.now }
{
    let (kind, maxval) = progress.input();
    match store.image_shape(image) {
        Some(shape) => shape.kind == kind && shape.maxval == maxval,
        None => true,
    }
}

/// Whether the window is that of the source.
fn is_window(
    store: &Store,
    progress: &PlanProgress,
    reading: Reading,
    from: Source,
    window: &SharedWindow,
) -> bool
    requires image { reading.image < length store.now.table.names }
    requires some { (1 ≤ reading.place.width) × (1 ≤ reading.place.height) }
    requires within { IsWithin reading.place progress.now.tiling.width progress.now.tiling.height }
    requires there { CanRead progress.now reading.place (source from) }
    ensures shown { IsTrue result → WindowIsShown (image_of (value_at store.now.kept reading.image)) progress.now reading.place (source from) window.now }
    ensures all { (f : Picture) → IsSource (image_of (value_at store.now.kept reading.image)) progress.now (source from) f → HasLevel (image_of (value_at store.now.kept reading.image)) progress.now → window.now ≡ window_of reading.place f → IsTrue result }
{
    // What is known of the work, for the levels of its planes.
    let _whole = progress.remaining();
    match from {
        Source::Input(_) => {
            if !has_frame(store, progress, reading.image) {
                return false;
            }
            if !has_level(store, progress, reading.image) {
                return false;
            }
            let _picture = store.image_shape(reading.image);
            store.matches(reading.image, reading.place, window)
        }
        Source::Step(step) => progress.matches(u32::from(step), reading.place, window),
    }
}

/// Whether the windows are those of the sources, in order.
fn are_windows(
    store: &Store,
    progress: &PlanProgress,
    reading: Reading,
    from: Sources,
    windows: &[SharedWindow],
) -> bool
    requires image { reading.image < length store.now.table.names }
    requires some { (1 ≤ reading.place.width) × (1 ≤ reading.place.height) }
    requires within { IsWithin reading.place progress.now.tiling.width progress.now.tiling.height }
    requires there { CanReadAll progress.now reading.place (sources from) }
    ensures shown { IsTrue result → AreShown (image_of (value_at store.now.kept reading.image)) progress.now reading.place (sources from) windows.now }
    ensures all { (fs : List Picture) → AreSources (image_of (value_at store.now.kept reading.image)) progress.now (sources from) fs → HasLevel (image_of (value_at store.now.kept reading.image)) progress.now → windows.now ≡ map (window_of reading.place) fs → IsTrue result }
{
    match (from, windows) {
        (Sources::Nothing, []) => true,
        (Sources::One(a), [v]) => is_window(store, progress, reading, a, v),
        (Sources::Two(a, b), [v, w]) => {
            is_window(store, progress, reading, a, v) && is_window(store, progress, reading, b, w)
        }
        (Sources::Three(a, b, c), [v, w, x]) => {
            is_window(store, progress, reading, a, v)
                && is_window(store, progress, reading, b, w)
                && is_window(store, progress, reading, c, x)
        }
        _ => false,
    }
}

/// The kind and maxval of a source.
fn level_read(progress: &PlanProgress, from: Source) -> (Kind, u16)
    requires { IsOfWork progress.now (source from) }
    ensures kind { result.0 ≡ (level_of_source progress.now.input (levels progress.now.progress.plan progress.now.input) (source from)).kind }
    ensures maxval { result.1 ≡ (level_of_source progress.now.input (levels progress.now.progress.plan progress.now.input) (source from)).maxval }
{
    // What is known of the work, for the levels of its planes.
    let _whole = progress.remaining();
    match from {
        Source::Input(_) => progress.input(),
        Source::Step(step) => progress.level(u32::from(step)),
    }
}

/// Whether the window has the kind and maxval of the source.
fn is_at_level(progress: &PlanProgress, from: Source, window: &SharedWindow) -> bool
    requires { IsOfWork progress.now (source from) }
    ensures { IsTrue result ↔ (level_of_window window.now ≡ level_of_source progress.now.input (levels progress.now.progress.plan progress.now.input) (source from)) }
{
    let (kind, maxval) = level_read(progress, from);
    window.kind() == kind && window.maxval() == maxval
}

/// Whether the windows are as many as the sources, and the first has the kind and maxval of the first source.
fn has_first_level(progress: &PlanProgress, from: Sources, windows: &[SharedWindow]) -> bool
    requires { AllByRecursion (IsOfWork progress.now) (sources from) }
    ensures first { IsTrue result → slice_index_or (map level_of_window windows.now) 0 no_level ≡ slice_index_or (map (level_of_source progress.now.input (levels progress.now.progress.plan progress.now.input)) (sources from)) 0 no_level }
    ensures all { map level_of_window windows.now ≡ map (level_of_source progress.now.input (levels progress.now.progress.plan progress.now.input)) (sources from) → IsTrue result }
{
    match (from, windows) {
        (Sources::Nothing, []) => true,
        (Sources::One(a), [v]) => is_at_level(progress, a, v),
        (Sources::Two(a, _), [v, _]) => is_at_level(progress, a, v),
        (Sources::Three(a, _, _), [v, _, _]) => is_at_level(progress, a, v),
        _ => false,
    }
}

/// Whether the result is that of this rectangle.
fn is_made_at(done: &TileDone, rect: Rect) -> bool
    ensures { IsTrue result ↔ (done.now.rect ≡ rect) }
{
    done.rect() == rect
}

/// Whether a result bears the numbers of a running task of the work, and its step and its rectangle.
fn is_of_running(progress: &PlanProgress, done: &TileDone) -> bool
    ensures is { IsTrue result → IsOfRunning progress.now done.now }
    ensures all { IsOfRunning progress.now done.now → IsTrue result }
{
    let _whole = progress.remaining();
    let id = done.task();
    if !progress.is_running(id.step, id.tile) {
        return false;
    }
    let planned = progress.step(id.step);
    let grid = progress.grid();
    if !is_made_at(done, grid.rect(id.tile)) {
        return false;
    }
    done.step().same(&planned.step)
}

/// Whether a result is that of a running task of the work, made from what is kept of its sources. No memory is asked for.
pub fn is_result(store: &Store, image: u32, progress: &PlanProgress, done: &TileDone) -> bool
    requires image { image < length store.now.table.names }
    ensures result { IsTrue result → IsResultOf (image_of (value_at store.now.kept image)) progress.now done.now }
    ensures all { IsFoundOf (image_of (value_at store.now.kept image)) progress.now done.now → IsTrue result }
{
    // Its tiles are placed, as a fact of the work.
    mw_core_laws::true_tasks();
    let _whole = progress.remaining();
    if !is_of_running(progress, done) {
        return false;
    }
    let id = done.task();
    let planned = progress.step(id.step);
    let grid = progress.grid();
    let place = grid.window(id.tile, planned.step.reach());
    let reading = Reading { image, place };
    are_windows(store, progress, reading, planned.sources, done.windows())
}

/// Whether a result on bounded windows is that of a running task of the work but for what its windows show: the samples
/// are not looked at.
pub fn is_fit(progress: &PlanProgress, done: &TileDone) -> bool
    requires { AllByRecursion IsBounded done.now.windows }
    ensures result { IsTrue result → IsFitOf progress.now done.now }
    ensures all { (image : Option Picture) → IsFoundOf image progress.now done.now → IsTrue result }
{
    let _whole = progress.remaining();
    if !is_of_running(progress, done) {
        return false;
    }
    let id = done.task();
    let planned = progress.step(id.step);
    has_first_level(progress, planned.sources, done.windows())
}
