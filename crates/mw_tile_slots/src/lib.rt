//! The tiles of a frame, with samples of one type: each in its place, and some of them missing.
//!
//! ```text
//! let mut tiles = no_tiles(alloc, grid.len() as usize)?;
//! put(grid, &mut tiles, 0, Some(Placed::new(plane)));
//! // once each tile that meets the rectangle is placed:
//! let window = pieces_of(alloc, grid, &tiles, rect)?;     // no sample is copied
//! let unchanged = are_tiles(grid, &tiles, &window);
//! // once every tile is placed:
//! TiledRows::of(grid, &tiles).read(y, &mut row);
//! ```
#![tactic(auto)]

mod equal;
mod parts;
mod placed;
mod rows;
mod shares;
mod slots;
mod tiled_rows;

pub use equal::are_tiles;
pub use mw_grid::Grid;
pub use mw_model::{NoMemory, Rect};
pub use placed::Placed;
pub use shares::pieces_of;
pub use slots::{no_tiles, put, share_tiles};
pub use tiled_rows::TiledRows;
