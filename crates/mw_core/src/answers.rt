//! What the events on tasks answer.

use mw_core_refusals::task::Work;

/// The answer to a worker that asks for a task.
#[derive(Drop)]
pub enum Started {
    Work(Work),
    /// The task's memory was refused, and its ticket is killed.
    Refused(u32),
    /// No task is ready.
    Idle,
}

/// The answer to a result.
#[derive(Clone, Copy, PartialEq, Eq, Debug)]
pub enum Finish {
    /// The result is kept, and other tasks of its ticket are not finished.
    Placed,
    /// This was the last task of the ticket, which is done.
    Settled(u32),
    /// The ticket is not pending any more.
    Late,
    /// No running task has this result.
    Stranger,
}

/// The answer to a task that found no memory.
#[derive(Clone, Copy, PartialEq, Eq, Debug)]
pub enum Refusal {
    Killed(u32),
    /// The ticket is not pending any more.
    Late,
    /// The task is not running.
    Stranger,
}
