//! Places of a wave.

ghost use Rattle.std.specs.Prelude.{IfOk};
ghost use Rattle.std.specs.List.{AllZip};
ghost use Rattle.mw_step.specs.mw_step_task.Products.{IsMade};
ghost use Rattle.mw_core_waves.specs.Jobs.{AreMadeHands, IsAnswered, IsAnswerTo};

use crate::Crew;
use crate::shared::Hands;
use mw_model::NoMemory;
use mw_step::task::{TaskRefused, TileDone, TileResult, Work};
use std::alloc::Global;
use std::thread::Threads;
use std::{mem, thread};

/// A place of a wave: a task that was taken from the core, or its answer. `Nothing` stands there while a task is run.
#[derive(Drop)]
pub enum WaveTask {
    Waits(Work),
    Ran(Result<TileDone, TaskRefused>),
    Nothing,
}

/// The answer to a task of which this was made.
fn answer(work: Work, tile: Result<TileResult, NoMemory>) -> Result<TileDone, TaskRefused>
    requires { IfOk tile (IsMade work) }
    ensures { IsAnswerTo work result }
{
    match tile {
        Ok(made) => Ok(TileDone::new(work, made)),
        Err(NoMemory) => Err(TaskRefused::new(work)),
    }
}

impl WaveTask {
    ghost use Rattle.mw_core_waves.specs.Jobs.{IsAnswered, IsMadeFor};

    /// Runs the task that waits here, or refuses it where it is not wanted, and keeps its answer in its place.
    fn run(&mut self, alloc: Global, is_wanted: bool)
        ensures { IsAnswered self.old self.new }
    {
        *self = match mem::replace(self, WaveTask::Nothing) {
            WaveTask::Waits(work) if is_wanted => WaveTask::Ran(mw_step::run(alloc, work)),
            WaveTask::Waits(work) => WaveTask::Ran(Err(TaskRefused::new(work))),
            other => other,
        };
    }

    /// Keeps the answer to the task that waits here, of which this was made.
    pub(crate) fn keep(&mut self, tile: Result<TileResult, NoMemory>)
        requires { IsMadeFor self.old tile }
        ensures { IsAnswered self.old self.new }
    {
        *self = match mem::replace(self, WaveTask::Nothing) {
            WaveTask::Waits(work) => WaveTask::Ran(answer(work, tile)),
            other => other,
        };
    }
}

/// Runs the tasks that wait yet in their places, one after another, or refuses them where they are not wanted.
fn run_rest<T: Threads + Sync>(crew: Crew<T>, is_wanted: bool, jobs: &mut [WaveTask])
    ensures { AllZip IsAnswered jobs.old jobs.new }
{
    let alloc = crew.alloc;
    thread::for_each_mut(
        crew.rt,
        jobs,
        1,
        &move |_place: usize, job: &mut WaveTask|
            ensures { IsAnswered job.old job.new }
        { job.run(alloc, is_wanted) },
    );
}

/// Answers all tasks in their places by what was made of them. What was lost for want of memory is run here, and what is not
/// wanted is refused.
fn answer_all<T: Threads + Sync>(
    crew: Crew<T>,
    is_wanted: bool,
    hands: Hands,
    jobs: &mut [WaveTask],
)
    requires { AreMadeHands jobs.old hands }
    ensures { AllZip IsAnswered jobs.old jobs.new }
{
    hands.put(jobs);
    run_rest(crew, is_wanted, jobs);
}

/// The wave with all tasks answered in their places; where they are not wanted, by a refusal.
pub(crate) fn answered<T: Threads + Sync>(
    crew: Crew<T>,
    is_wanted: bool,
    hands: Hands,
    mut jobs: Vec<WaveTask>,
) -> Vec<WaveTask>
    requires { AreMadeHands jobs.items hands }
    ensures { AllZip IsAnswered jobs.items result.items }
{
    answer_all(crew, is_wanted, hands, jobs.as_mut_slice());
    jobs
}
