//! Ranks of sets, counted 64 pixels a word.
//!
//! ```text
//! match rank_by_words(alloc, &set, element.offsets(), k, tile)? {
//!     Some(ranks) => ..                                // the ranks of the tile
//!     None => ..                                       // it does not pay: another way has to be taken
//! }
//! ```
#![tactic(auto)]

mod adding;
mod costs;
mod counter;
mod element;
mod lanes;
mod moves;
mod tiles;
mod walk;

pub use mw_model::NoMemory;
pub use tiles::rank_by_words;

// What lower crates offer, for the crates above.
pub mod bits {
    pub use mw_bits::{
        WordExtremum, as_levels, at_least, count, extremum_of_runs, invert, is_blank, is_within,
        join, level_set, meet, minus, rectangle, row_of, threshold,
    };
}

pub mod lane {
    pub use mw_bits::lane::{Lanes, LevelBlocks, combine_rows, subtract_rows};
}

pub mod line {
    pub use mw_bits::line::rectangle;
}

pub mod offset {
    pub use mw_bits::offset::extremum_of_runs;
}
