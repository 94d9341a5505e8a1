//! A batch: one script from a reader to a writer, on a core of its own.
//!
//! ```
//! let crew = Crew { alloc, rt: &rt, workers: 1 };
//! let mut source = Source::new(rt.stdin());
//! let mut sink = Sink::new(rt.stdout());
//! let status = batch(crew, &mut source, &mut sink, &mut faults, 128); // `strict_batch`: 3 where a reply was a refusal
//! // `watched_batch`: as long as its results are wanted
//! ```
#![tactic(auto)]

mod script;
mod told;

pub use mw_session::{Crew, Pick};
pub use script::{batch, strict_batch, watched_batch};
