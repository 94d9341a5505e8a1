//! Medians under squares of 3 x 3 and 5 x 5 offsets of rows that stand in a caller's array, written into the caller's rows: by the
//! networks of `mw_rank_medians`, which read and write where the samples stand, so that no row is copied. Under 3 x 3 a row that has a
//! vector of 32 bytes between its sides goes by such vectors (`nine`). The first and the last rows of a frame, where the square goes
//! beyond it, are not made here. Columns at the sides are: some of them are copied as lines, with the greatest level beside the
//! frame, and the squares along them are made by vectors too. `mw_c_lent` calls it, for what C calls.
//!
//! ```text
//! if medians_into(alloc, &lent, offsets, 5, tile, &mut out)? { .. }
//! ```
#![tactic(auto)]

mod blocks;
mod broad;
mod broad_16;
mod broad_8;
mod columns;
mod medians;
mod nine;
mod rows;
mod sides;
mod squares;

pub use broad::Broad;
pub use medians::medians_into;
pub use mw_model::NoMemory;
pub use mw_rank_medians::Vectored;
pub use mw_tile_lent::{Lent, Rect};
