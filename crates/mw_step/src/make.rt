//! Running a task: what each step makes of its windows.

ghost use Rattle.std.specs.Prelude.{◌≡◌, ◌<◌, IfOk, IfErr};
ghost use Rattle.mw_step_task.specs.WindowTasks.{source_count, window_at, IsRead, KindsFit};
ghost use Rattle.mw_step_task.specs.Products.{IsMade};

use crate::flat::{rank_filter, slide, slide_box};
use crate::marks::{mark, mark_last};
use crate::pairs::{merge, minus};
use crate::singles::{at_least, blank, equal, invert, sum_up};
use mw_model::NoMemory;
use mw_step_task::pieces::SharedWindow;
use mw_step_task::pixel::{Max, Min};
use mw_step_task::tile::AnyWindow;
use mw_step_task::{Step, TaskRefused, TileDone, TileResult, Work};
use std::alloc::Global;

/// The window of a source of the task, among its windows.
fn source<'a>(work: &Work, windows: &'a [AnyWindow], k: usize) -> &'a AnyWindow
    requires number { k < source_count work.now.step }
    requires windows { windows.now ≡ work.now.windows }
    ensures window { result.now ≡ window_at work.now.windows k }
    ensures read { IsRead work.now.step work.now.rect (window_at work.now.windows 0).view.frame_width (window_at work.now.windows 0).view.frame_height result.now }
    ensures kinds { KindsFit work.now.step work.now.windows }
{
    // for the windows that fit the step
    let _fits = work.windows();
    &windows[k]
}

/// The window of the source of this number, as the pieces that it is made of.
fn in_pieces(work: &Work, k: usize) -> &SharedWindow
    requires { k < source_count work.now.step }
    ensures { result.now ≡ window_at work.now.windows k }
{
    &work.windows()[k]
}

/// Makes what the step makes of the windows in the tile. Refused where memory is.
pub fn run(alloc: Global, work: Work) -> Result<TileDone, TaskRefused>
    ensures done { IfOk result (λ d. d ≡ work) }
    ensures refused { IfErr result (λ r. r.task ≡ work.task) }
{
    match compute(alloc, &work) {
        Ok(made) => Ok(TileDone::new(work, made)),
        Err(NoMemory) => Err(TaskRefused::new(work)),
    }
}

/// The windows of the work, put together in order.
fn put_together(alloc: Global, work: &Work) -> Result<Vec<AnyWindow>, NoMemory>
    ensures { IfOk result (λ v. v.items ≡ work.now.windows) }
{
    let windows = work.windows();
    let mut joined = Vec::with_capacity(alloc, windows.len())?;
    for window in windows {
        joined.push(mw_step_task::pieces::assemble(alloc, window)?)?;
    }
    Ok(joined)
}

/// Puts the windows together, and makes of them what the step makes in the tile. The task stays with who has it.
pub fn compute(alloc: Global, work: &Work) -> Result<TileResult, NoMemory>
    ensures { IfOk result (IsMade work.now) }
{
    let windows = put_together(alloc, work)?;
    made_of(alloc, work, &windows)
}

/// What the step makes of the windows in the tile.
fn made_of(alloc: Global, work: &Work, windows: &[AnyWindow]) -> Result<TileResult, NoMemory>
    requires { windows.now ≡ work.now.windows }
    ensures { IfOk result (IsMade work.now) }
{
    let tile = work.rect();
    match work.step() {
        Step::Erode(element) => slide::<Min>(alloc, source(work, windows, 0), element, tile),
        Step::Dilate(element) => slide::<Max>(alloc, source(work, windows, 0), element, tile),
        Step::ErodeBox(sides) => slide_box::<Min>(alloc, source(work, windows, 0), *sides, tile),
        Step::DilateBox(sides) => slide_box::<Max>(alloc, source(work, windows, 0), *sides, tile),
        Step::Rank(element, k) => rank_filter(alloc, source(work, windows, 0), element, *k, tile),
        Step::Minus => minus(alloc, source(work, windows, 0), source(work, windows, 1)),
        Step::AtLeast(k) => at_least(alloc, *k, source(work, windows, 0)),
        Step::Invert => invert(alloc, source(work, windows, 0)),
        Step::Meet => merge::<Min>(alloc, source(work, windows, 0), source(work, windows, 1)),
        Step::Join => merge::<Max>(alloc, source(work, windows, 0), source(work, windows, 1)),
        Step::Blank(maxval) => {
            // for the windows that fit the step
            let _fits = work.windows();
            blank(alloc, *maxval, tile)
        }
        Step::Mark(v) => mark(
            alloc,
            *v,
            in_pieces(work, 0),
            source(work, windows, 0),
            source(work, windows, 1),
            source(work, windows, 2),
        ),
        Step::MarkLast(v) => mark_last(
            alloc,
            *v,
            in_pieces(work, 0),
            source(work, windows, 0),
            source(work, windows, 1),
        ),
        Step::Equal(v) => equal(alloc, *v, source(work, windows, 0)),
        Step::Sum => Ok(TileResult::Number(sum_up(source(work, windows, 0)))),
    }
}
