//! Runs tasks: what each step makes of its windows, by the kernels.
//!
//! ```text
//! let work = Work::new(task, tile, step, windows)?;    // None where the windows are not those of the step
//! let done = mw_step::run(alloc, work)?;               // Err only where memory is refused
//! let made = mw_step::compute(alloc, &work)?;          // what run makes, where the work is shared
//! ```
#![tactic(auto)]

mod extrema;
mod flat;
mod kinds;
mod make;
mod marks;
mod painting;
mod pairs;
mod pointwise;
mod ranked;
mod ranks;
mod sharing;
mod singles;
mod sliding;
mod thresholds;

pub use make::{compute, run};

// What lower crates offer, for the crates above.
pub mod task {
    pub use mw_step_task::{TaskRefused, TileDone, TileResult, Work};
}
