//! Erosion's minimum and dilation's maximum under boxes of rows that stand in a caller's array, written into the caller's rows.
//! First down: the rows that a box has are merged where they stand, some rows of results at once, into a line with neutral
//! samples beside it; of tall boxes each row is merged twice, by blocks of rows. Then across: a line is merged with itself,
//! shifted, by taps for narrow boxes and else by windows of 4, 16 and 64 places, whose last merge writes the caller's row. So no
//! row is copied. Rows above and below the frame are left out, since the neutral sample is merged once.
//!
//! ```text
//! if boxes_into::<u8, Min>(alloc, &lent, offsets, maxval, tile, &mut out)? { .. }
//! // the same with room that was asked for before, which is never refused
//! boxes_with_room::<u8, Max>(&strip, offsets, 0, tile, &mut room, &mut out);
//! // the greatest less the least under the same boxes of few rows and columns, in one pass
//! let ends = Ends { bottom: 0, top: maxval };
//! if differences_into::<u8, Max, Min>(alloc, &lent, offsets, ends, tile, &mut out)? { .. }
//! ```
#![tactic(auto)]

mod across;
mod both;
mod both_lines;
mod boxes;
mod differences;
mod down;
mod extrema;
mod fours;
mod lanes;
mod lanes_16;
mod lanes_8;
mod lanes_less;
mod less;
mod lines;
mod room;
mod rows;
mod sheets;
mod tall;
mod tiles;

pub use both::Ends;
pub use differences::differences_into;
pub use extrema::LanedExtremum;
pub use lanes::Laned;
pub use lanes_less::LanedLess;
pub use mw_line::pixel::{Max, Min, copies};
pub use mw_model::{NoMemory, OffsetBox};
pub use mw_tile_lent::{Lent, Rect};
pub use room::Room;
pub use tiles::{boxes_into, boxes_with_room, rows_of_sheet};
