//! Sets as rows of words: 64 pixels a word, the leftmost in the lowest bit. Contracts see the samples 0 and 1.
//!
//! ```text
//! let mut set = Words::filled(alloc, 640, 480, false)?;
//! set.copy_run(0, 0, &other, 63, 7, 100);              // 100 pixels of row 7 of the other, from its column 63 on
//! let unchanged = set.same_run(0, 0, &other, 63, 7, 100);
//! ```
#![tactic(auto)]

mod comparing;
mod copying;
mod shifting;
mod trimming;
mod words;

pub use copying::blended;
pub use mw_model::NoMemory;
pub use shifting::funnel;
pub use trimming::trimmed;
pub use words::{Words, repeated, stride};
