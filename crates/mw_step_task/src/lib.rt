//! A task of a plan: a step, a tile, and the windows that the step reads for the tile; and what is made of them.
//!
//! ```text
//! let work = Work::new(task, tile, step, windows)?;    // None where the windows are not those of the step
//! let done = TileDone::new(work, made);                // only of what the step means on those windows
//! let image = done.into_image();
//! ```
#![tactic(auto)]

mod done;
mod laws;
mod offsets;
mod reads;
mod step;
mod tile_result;
mod work;

pub use done::{TaskRefused, TileDone};
pub use laws::{
    cut_windows_are_bounded, cut_windows_fit, made_is_bounded, planes_are_operators,
    tile_of_windows_is_tile_of_planes, whole_tile_is_plane,
};
pub use mw_element::Element;
pub use mw_model::{NoMemory, Offset, OffsetBox, Reach, Rect, TaskId};
pub use mw_tile_pieces::SharedWindow;
pub use step::Step;
pub use tile_result::TileResult;
pub use work::Work;

// What lower crates offer, for the crates above.
pub mod element {
    pub use mw_element::Element;
}

pub mod pieces {
    pub use mw_tile_pieces::{Pieces, PiecesView, SharedWindow, assemble};
}

pub mod pixel {
    pub use mw_element::pixel::{Bit, Image, Plane};
    pub use mw_tile_pieces::pixel::{Extremum, Grey, Max, Min, Pixel, Planar};
}

pub mod tile {
    pub use mw_tile_pieces::tile::{AnyWindow, Window, WindowView};
}
