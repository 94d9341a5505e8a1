//! Passes, which keep a receipt of each call of a core, and the audit of passes against its log.
//!
//! ```text
//! let mut pass = Pass::new(alloc);
//! pass.load(&mut core, f, Ok(image))?;                              // Reply::Accepted(0), and a receipt of it
//! pass.status(&mut core, f)?;                                       // Reply::Done(0, ..), and a receipt of that
//! audit(&core, &[pass]);                                            // the pass covers the log
//! ```
//!
//! They stand apart from the board, so that wrong bodies of them are tried over little.
#![tactic(auto)]

mod auditing;
mod blocks;
mod pass;
mod same;
mod stretches;

pub use auditing::audit;
pub use mw_core::{Core, Fetched, FetchedValue, Finish, NoMemory, Refusal, Started};
pub use pass::Pass;

// What lower crates offer, for the crates above.
pub mod element {
    pub use mw_core::element::Element;
}

pub mod pixel {
    pub use mw_core::pixel::Image;
}

pub mod task {
    pub use mw_core::task::{TaskRefused, TileDone, Work};
}
