//! The machine's core: one event at a time.
//!
//! Each call is one event. For every state of the machine of one thread that the core stands for, the answer is that
//! machine's, and the core then stands for the state after the step. `events::serve_all` says so of any list of events.
//! No call waits, computes a task or copies the samples of a plane:
//! windows own the tiles that they are. A command of any operation becomes a plan of steps, and each step has one task
//! for each tile; a task is ready once the tiles under its windows are done.
//!
//! ```text
//! let mut core = Core::new(alloc, 128)?;
//! core.load(f, Ok(image))?;                           // Reply::Accepted(0)
//! core.element(b, Ok(element))?;                      // Reply::Accepted(1)
//! core.run(e, Op::Flat(FlatOp::Opening(f, b)))?;      // Reply::Accepted(2)
//! while let Started::Work(work) = core.start(0) {
//!     let done = mw_step::run(alloc, work);           // without the lock
//!     core.finish(done.ok()?);                        // Finish::Placed, and at last Finish::Settled(2)
//! }
//! ```
#![tactic(auto)]

mod answers;
mod bytes;
mod calls;
mod costs;
pub mod events;
mod fetch;
mod machine;
mod readers;
mod ready;
mod tasks;

pub use answers::{Finish, Refusal, Started};
pub use bytes::bytes_of_element;
pub use machine::Core;
pub use mw_core_ledger::{Fetched, FetchedValue};
pub use mw_model::NoMemory;

// What lower crates offer, for the crates above.
pub mod element {
    pub use mw_core_refusals::element::Element;
}

pub mod pixel {
    pub use mw_core_refusals::pixel::Image;
}

pub mod task {
    pub use mw_core_refusals::task::{TaskRefused, TileDone, Work};
}
