//! The plane of a step as a grid of tiles, some of which may be missing.
//!
//! ```text
//! let mut plane = TiledPlane::new(alloc, Kind::Grey, 255, grid)?;
//! plane.place(0, Tile::Grey8(samples, 255));
//! // once each tile that meets the rectangle is placed:
//! let window = plane.shared(alloc, rect)?;            // no sample is copied
//! let unchanged = plane.matches(rect, &window);
//! plane.drop_tile(0);
//! ```
//!
//! And the numbers of a Sum step, made tile by tile, which add up to the number of the whole image:
//!
//! ```text
//! let mut sums = TileSums::new(alloc, Kind::Grey, 255, grid)?;
//! sums.place(0, sum_of_the_first_tile);
//! // once each tile is placed:
//! let sum = sums.total();
//! ```
#![tactic(auto)]

mod laws;
mod plane;
mod shown;
mod sum_laws;
mod sums;
mod tile;
mod tiles_view;

pub use laws::{plane_is_of_an_image, tiles_are_plane};
pub use mw_grid::Grid;
pub use mw_model::{Kind, NoMemory, Rect};
pub use mw_tile_slots::TiledRows;
pub use plane::TiledPlane;
pub use shown::WholePlane;
pub use sum_laws::tile_sums_are_sum_of_plane;
pub use sums::TileSums;
pub use tile::Tile;
pub use tiles_view::TilesView;

// What lower crates offer, for the crates above.
pub mod element {
    pub use mw_step_task::element::Element;
}

pub mod pieces {
    pub use mw_step_task::pieces::SharedWindow;
}

pub mod pixel {
    pub use mw_step_task::pixel::{Bit, Image, Plane};
}

pub mod task {
    pub use mw_step_task::{SharedWindow, TaskRefused, TileDone, Work};
}
