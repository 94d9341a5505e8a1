//! Medians under squares of 3 x 3 and 5 x 5 offsets, by networks of exchanges (Batcher 1968; Smith 1996 for nine samples): a
//! fixed list of pairs, each put in order, so that no step depends on a sample. All lanes of a vector go through it at once,
//! and a column that is in order serves all squares that lie over it (Kolte, Smith and Su 1999).
//!
//! ```text
//! if let Some(medians) = median_of_grey(alloc, &window, offsets, 5, tile)? { .. }
//! ```
#![tactic(auto)]

mod ahead;
mod cut;
mod filled;
mod five;
mod nine;
mod rows;
mod square;
mod tiles;
mod vectors;
mod vectors_16;
mod vectors_8;

pub use mw_model::NoMemory;
pub use rows::{Sheet, medians_of_rows};
pub use square::square_of;
pub use tiles::median_of_grey;
pub use vectors::Vectored;

// What lower crates offer, for the crates above.
pub mod pixel {
    pub use mw_rank::pixel::{Grey, Pixel, copies};
}
