//! The rank filter by a moving histogram, after Huang, Yang and Tang (1979).
//!
//! ```text
//! let median = rank(alloc, &window, offsets, (offsets.len() as u32 + 1) / 2, tile)?;
//! ```
#![tactic(auto)]

mod ends;
mod histogram;
mod laws;
mod moving;
mod runs;
mod seen;

pub use laws::ranks_are_rank_filter;
pub use moving::{rank, sample_of};
pub use mw_model::NoMemory;
pub use seen::row_in;

// What lower crates offer, for the crates above.
pub mod pixel {
    pub use mw_tile::pixel::{Grey, Pixel, Plane, copies};
}

pub mod run {
    pub use mw_element_runs::{Run, place_of, runs_of};
}

pub mod tile {
    pub use mw_tile::Window;
}
