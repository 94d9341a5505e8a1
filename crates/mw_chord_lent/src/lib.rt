//! Erosion's minimum and dilation's maximum under elements of long runs, of rows that stand in a caller's array, written into the
//! caller's rows. Lists of chords of 1, 2, 4 .. samples are made of the rows, each of the one before it, and a run is the first and the
//! last chord of the longest list that is not longer than it (Urbach and Wilkinson 2008); of a length that many runs have there is a
//! list as well, so that each of these is one chord. A tile goes by blocks, so that all lists of a block stay in the second cache.
//!
//! `mw_c_lent` calls it for runs that are too long for `mw_offset_lent`. Whether a tile or an element is worth it is decided here, and
//! changes no sample.
//!
//! ```text
//! let mut room = Room::new(alloc);
//! if chords_into::<u8, Min>(&mut room, &lent, element.offsets(), maxval, tile, &mut out)? { .. }
//! ```
#![tactic(auto)]

mod blocks;
mod chords;
mod gather;
mod grow;
mod layout;
mod plan;
mod tiles;

pub use mw_line_lent::{Laned, LanedExtremum, Max, Min, Room};
pub use mw_model::{NoMemory, Offset};
pub use mw_tile_lent::{Lent, Rect};
pub use tiles::chords_into;
