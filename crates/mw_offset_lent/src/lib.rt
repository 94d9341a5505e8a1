//! Erosion's minimum and dilation's maximum under any few offsets, of rows that stand in a caller's array, written into the
//! caller's rows. Some rows at a time are laid out with neutral samples beside, above and below them, so that each offset is a
//! place among these cells, whatever the pixel. Two rows of results are made at once, the lower one shifted so that both see as
//! many of the same cells as can be: these are merged once, and stay in registers while the others are merged into them.
//!
//! Under a low element that copy of all rows takes as long as a good part of the merging. There an offset is a place among the
//! caller's samples too, and rows are read where they stand. Those at the top and the bottom, and a vector at either edge, are
//! made of cells that are laid out.
//!
//! ```text
//! let mut room = Room::new(alloc);
//! if offsets_into::<u8, Min>(&mut room, &lent, element.offsets(), maxval, tile, &mut out)? { .. }
//! ```
#![tactic(auto)]

mod blocks;
mod edge_cells;
mod edges;
mod in_place;
mod layout;
mod pairs;
mod parts;
mod places;
mod quick;
mod rows;
mod samples;
mod shares;
mod shifts;
mod strips;
mod tiles;
mod wide;
mod work;

pub use mw_line_lent::{Laned, LanedExtremum, Max, Min, Room};
pub use mw_model::{NoMemory, Offset};
pub use mw_tile_lent::{Lent, Rect};
pub use quick::is_quick;
pub use tiles::offsets_into;
