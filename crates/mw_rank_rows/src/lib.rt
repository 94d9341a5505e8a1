//! The rank filter under rectangles, eight rows at a time: as a moving histogram (Huang, Yang and Tang 1979), but each
//! level has eight counters, one for each of eight rows of results, as a sample that enters or leaves one of them mostly
//! does so of the rows beside it in the same step. Where that does not pay, the rank filter of `mw_rank_counts`.
//!
//! ```text
//! let median = rank_by_rows(alloc, &window, offsets, (offsets.len() as u32 + 1) / 2, tile)?;
//! ```
#![tactic(auto)]

mod bands;
mod blocks;
mod column;
mod group;
mod lanes;
mod marks;
mod rectangle;
mod rest;
mod rows;
mod search;
mod slide;
mod vectors;

pub use mw_model::NoMemory;
pub use mw_rank_counts::Counted;
pub use rows::rank_by_rows;
