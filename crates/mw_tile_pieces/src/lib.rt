//! Windows that are held as the pieces of planes that they are made of, and put together. What a task reads leaves the core's
//! lock as such a window: making one copies no sample, since each piece is one more owner of its plane. The worker that computes
//! from it puts it together, outside the lock. What a piece has of the window is copied as one block of rows, whose places are
//! counted up and not searched for. Narrow blocks, which stand at the sides of a tile, go column by column.
//!
//! `mw_tile_planes` makes these windows of tiles, and `mw_store`, `mw_c_direct` and `mw_c_layers` of images and of rows. `mw_step_task` holds
//! them, and `mw_step` puts them together. Nothing here writes to a plane that it shares, or knows of tasks.
//!
//! ```text
//! let window = SharedWindow::of_image(alloc, &image, place)?;    // no sample is copied
//! let samples = mw_tile_pieces::assemble(alloc, &window)?;          // an AnyWindow, with samples in a row
//! ```
#![tactic(auto)]

mod bits;
mod blocks;
mod compared;
mod image_windows;
mod levels;
mod overlaps;
mod piece;
mod pieces;
mod shared;
mod uniform;
mod whole_windows;

pub use mw_model::{NoMemory, Rect};
pub use overlaps::overlap;
pub use piece::Piece;
pub use pieces::Pieces;
pub use shared::{PiecesView, SharedWindow};
pub use whole_windows::assemble;

// What lower crates offer, for the crates above.
pub mod pixel {
    pub use mw_tile::pixel::{Extremum, Grey, Max, Min, Pixel, Planar, Plane};
}

pub mod tile {
    pub use mw_tile::{AnyWindow, Window, WindowView, paste};
}
