//! Numbers by place with their sum, and the place that a position falls to.
//!
//! ```text
//! let mut sums = Sums::new(alloc);
//! sums.push(3)?;
//! sums.push(0)?;
//! sums.push(2)?;
//! sums.total();  // 5
//! sums.find(2);  // (0, 2): the last of the three positions of place 0
//! sums.find(3);  // (2, 0): the first position of place 2, since place 1 has none
//! ```
//!
//! The numbers are the leaves of a binary tree, each of whose nodes is the sum of the two below it. So a number is
//! changed, and a place found, on one way between root and leaf. A tree that is full is laid out anew with twice the
//! room; nothing but that asks for memory.
#![tactic(auto)]

mod sums;
mod tree;

pub use mw_model::NoMemory;
pub use sums::Sums;
