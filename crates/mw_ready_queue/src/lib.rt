//! Tasks that wait for others, counted, and for each step the list of those that wait for none.
//!
//! ```text
//! let mut queue = Queue::new(alloc, steps, tiles, waiting)?;   // for how many others each task waits
//! let (step, tile) = queue.take(0);                            // an open task is started
//! queue.settle(task);                                          // one thing less that a task waits for
//! ```
//!
//! Tasks are numbered step by step, in each step by tiles. A task is open where it was not started and waits for nothing.
#![tactic(auto)]

mod queue;

pub use mw_model::NoMemory;
pub use queue::Queue;
