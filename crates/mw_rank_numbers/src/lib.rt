//! Levels of a part of a window, numbered in their order: a rank of the numbers is the number of the rank, as a numbering
//! never turns an order. So a rank of 16 bits runs over as many numbers as there are levels nearby, which are few.
//!
//! ```text
//! let Numbered { numbers, levels } = numbers_of(alloc, &window, part)?;
//! // rank the numbers, and then
//! push_levels(&mut out, &levels, &ranks)?;
//! ```
#![tactic(auto)]

mod level_set;
mod numbering;

pub use mw_model::NoMemory;
pub use numbering::{Numbered, Part, numbers_of, push_levels};
