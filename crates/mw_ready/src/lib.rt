//! Which tasks of a plan on a grid are ready. A task is one tile of one step; nothing here knows of pixels or of what
//! a step computes.
//!
//! ```text
//! let mut ready = Ready::new(alloc, needs, grid)?;
//! while ready.remaining() > 0 {
//!     let (step, tile) = ready.start(0);
//!     // compute the tile of the step, here or elsewhere; others may be started meanwhile
//!     ready.finish(step, tile);
//! }
//! ```
//!
//! Each task has a counter of the unfinished tasks that it reads. A finished tile lowers the counters of its readers
//! alone, and a task whose counter comes to zero joins the list of its step. Which steps read a step is made out once, so
//! no task costs a walk over the plan. A second counter has the number of the unfinished tasks that read the task, so that
//! its tile can be dropped with the last of them. Besides its needs a board takes twelve bytes a task and forty a step.
#![tactic(auto)]

mod laws;
mod links;
mod need;
mod readers;
mod reads;
mod ready;
mod release;
mod spans;
mod waits;

pub use laws::tasks_are_those_of_work;
pub use mw_grid::Grid;
pub use mw_model::{NoMemory, Reach};
pub use need::Need;
pub use ready::Ready;
