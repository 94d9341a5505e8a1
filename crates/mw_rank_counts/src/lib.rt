//! The rank filter by counting, bit by bit, after Ataman, Aatre and Wong (1980), or by the moving histogram of `mw_rank`
//! where that is quicker. `costs` has what each way takes.
//!
//! ```text
//! let median = rank_by_counts(alloc, &window, offsets, (offsets.len() as u32 + 1) / 2, tile)?;
//! ```
#![tactic(auto)]

mod costs;
mod counted;
mod counted_16;
mod counted_8;
mod counting;
mod inner_columns;
mod search;
mod squeezed;

pub use costs::{Block, Limits, Load, Way, limits_by_numbers, load_of, quickest};
pub use counted::Counted;
pub use counting::rank_by_counts;
pub use mw_model::NoMemory;
pub use search::bits_in;
pub use squeezed::Bytes;

// What lower crates offer, for the crates above.
pub mod pixel {
    pub use mw_rank::pixel::{Grey, Pixel, Plane, copies};
}

pub mod rank {
    pub use mw_rank::{rank, sample_of};
}

pub mod run {
    pub use mw_rank::run::{Run, place_of, runs_of};
}

pub mod tile {
    pub use mw_rank::tile::Window;
}
