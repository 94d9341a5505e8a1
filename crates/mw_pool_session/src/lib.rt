//! Sessions served at a board, each with a pass of its own: by `mw_wire::run_session`, as scripts are.
//!
//! ```text
//! let mut pass = board.pass();
//! let end = serve(&rt, alloc, &mut source, &mut sink, &board, &mut pass)?;
//! ```
#![tactic(auto)]

mod counter;
mod laws;
mod session;

pub use laws::{ended_is_served, stopped_is_served};
pub use mw_model::End;
pub use mw_pool::{Board, Core, Gate, Naming, NewRoll, Pass, work};
pub use session::serve;

// What lower crates offer, for the crates above.
pub mod wire {
    pub use mw_session_fetch::wire::{Sink, Source, end_by, send};
}
