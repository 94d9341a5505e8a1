//! The windows of samples that the tiles of a frame are computed from. What the server's tasks read is handed to them in
//! pieces, which `mw_tile_pieces` makes such a window of.
//!
//! ```text
//! let grid = mw_grid::Grid::new(frame_width, frame_height, 128);
//! for i in 0..grid.len() {
//!     let window = Window::cut(alloc, &plane, grid.window(i, reach))?;
//!     // compute the samples of the tile from the window, and put them in their place:
//!     paste(&mut out, grid.rect(i), &samples);
//! }
//! ```
#![tactic(auto)]

mod any;
mod cuts;
mod laws;
mod window;

pub use any::{AnyWindow, WindowView};
pub use cuts::{cut, paste};
pub use laws::{cut_is_window, window_shows_frame, window_shows_picture};
pub use mw_model::{NoMemory, Offset, Reach, Rect};
pub use window::Window;

// What lower crates offer, for the crates above.
pub mod pixel {
    pub use mw_pixel::{
        Bit, Extremum, Grey, Image, Max, Min, Pixel, Planar, Plane, SharedView, View, Words, copies,
    };
}

pub mod words {
    pub use mw_pixel::words::{Words, blended, funnel, repeated, stride, trimmed};
}
