//! Rectangles of a frame, the tiles that cover it, and what a step reads for a tile. No pixels are needed here.
//!
//! ```text
//! let grid = Grid::new(frame_width, frame_height, 128);
//! for i in 0..grid.len() {
//!     let read = grid.window(i, reach);
//!     // grid.rect(i) can be computed from the samples in read
//! }
//! ```
#![tactic(auto)]

mod blocks;
mod grid;
mod laws;
mod rectangles;

pub use blocks::Block;
pub use grid::{Grid, side_ok};
pub use laws::{tiles_cover_once, window_reaches};
pub use mw_model::{Offset, Reach, Rect};
pub use rectangles::{grown, is_within, whole_frame};
