//! What one step makes of whole planes.

ghost use Rattle.std.specs.Prelude.{◌≡◌, [], ◌∷◌, false, true, IfOk};
ghost use Rattle.mw_model.specs.Plans.{is_sum, plane_of};
ghost use Rattle.mw_plan.specs.Seen.{planned};
ghost use Rattle.mw_step_task.specs.WindowTasks.{made_of_windows};
ghost use Rattle.mw_c_direct.specs.Kept.{IsReady, IsWholeTask, sources_kept};
ghost use Rattle.mw_c_direct.specs.Products.{IsProduct};

use crate::seeing::windows;
use mw_grid::whole_frame;
use mw_model::{NoMemory, TaskId};
use mw_pixel::Image;
use mw_plan::PlannedStep;
use mw_step_task::{TileDone, TileResult, Work};
use std::alloc::Global;

/// A task wants numbers, which nobody looks at here.
const TASK: TaskId = TaskId {
    ticket: 0,
    step: 0,
    tile: 0,
};

/// The plane of a step, or the number that it sums up to.
#[derive(Drop)]
pub(crate) enum Product {
    Plane(Image),
    Number(u64),
}

/// The step, done for the whole frame.
fn done(
    alloc: Global,
    step: &PlannedStep,
    image: &Image,
    planes: &[Option<Image>],
) -> Result<TileDone, NoMemory>
    requires { IsReady image.now planes.now (planned step.now) }
    ensures { IfOk result (IsWholeTask image.now planes.now (planned step.now)) }
{
    let frame = whole_frame(image.width(), image.height());
    let windows = windows(alloc, step.sources, image, planes)?;
    match Work::new(TASK, frame, step.step.share()?, windows) {
        Some(work) => match mw_step::run(alloc, work) {
            Ok(done) => Ok(done),
            Err(_refused) => Err(NoMemory),
        },
        None => unreachable!(),
    }
}

/// The number that was made.
fn number(done: TileDone) -> u64
    requires { is_sum done.step ≡ true }
    ensures { made_of_windows done.step done.windows done.rect ≡ result ∷ [] }
{
    match done.into_made() {
        TileResult::Number(n) => n,
        _ => unreachable!(),
    }
}

/// What the step makes of its sources.
pub(crate) fn made(
    alloc: Global,
    step: &PlannedStep,
    image: &Image,
    planes: &[Option<Image>],
) -> Result<Product, NoMemory>
    requires { IsReady image.now planes.now (planned step.now) }
    ensures { IfOk result (IsProduct (planned step.now).step (plane_of (planned step.now).step (sources_kept image.now planes.now (planned step.now)) image.now.width image.now.height)) }
{
    let done = done(alloc, step, image, planes)?;
    if step.step.is_sum() {
        Ok(Product::Number(number(done)))
    } else {
        Ok(Product::Plane(done.into_image()))
    }
}
