//! Rows of pixels as words, 64 pixels a word, the leftmost in the lowest bit: packed and unpacked, shifted, merged, slid, cut
//! to a width and counted. Nothing here knows of windows or of sets; those stand in `mw_bits`.
//!
//! ```text
//! let mut words = repeated(alloc, stride(width) + 1, E::neutral_word())?;
//! pack_row(row, words.as_mut_slice());
//! combine_ahead::<Min>(words.as_mut_slice(), 3);      // each pixel with the one three further on
//! ```
#![tactic(auto)]

mod counting;
mod doubling;
mod extremes;
mod margins;
mod merging;
mod packing;
mod padding;
mod shifting;
mod unpacking;

pub use counting::count_bits;
pub use doubling::slide_words;
pub use extremes::WordExtremum;
pub use margins::copy_rows;
pub use merging::{Both, Either, Less, PairOfWords, flip_words, merge_words};
pub use mw_model::NoMemory;
pub use packing::pack_row;
pub use padding::combine_row;
pub use shifting::{combine_ahead, combine_both, combine_from};
pub use unpacking::unpack_row;

// What lower crates offer, for the crates above.
pub mod pixel {
    pub use mw_line::pixel::{Max, Min};
}
