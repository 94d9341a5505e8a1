//! Geodesic operators (Soille; Vincent; Serra): reconstruction and what follows from it, the components of a set with
//! their labels and areas, and distances. `specs` has the definitions, `laws` and `examples` what holds of them. The
//! programs are plain ones, whose contracts are the definitions: tests compare fast bodies with them, and what C calls takes
//! them for elements that have no kernel. There is none for regions, area openings and closings of grey images, and
//! distances. The kernels stand in the crates whose names begin as this one's. No command of a session has these operators.
//! The crate knows of images and elements alone, and of no tile, window or machine.
//!
//! What makes an image takes the allocator first, then the image, and last the element that tells what hangs together:
//!
//! ```text
//! let rebuilt = mw_geodesic::reconstruction(alloc, &marker, &mask, &around)?;
//! ```
#![tactic(auto)]

mod canvas;
mod drawings;
pub mod examples;
mod extrema;
mod flood;
mod labels;
pub mod laws;
mod neighbours;
mod openings;
mod reconstructions;
mod symmetry;

pub use extrema::{h_maxima, h_minima, regional_maxima, regional_minima};
pub use flood::reconstruction;
pub use labels::{Labels, areas, labelled};
pub use neighbours::Neighbours;
pub use openings::area_opening_of_set;
pub use reconstructions::{
    border_cleared, closing_by_reconstruction, holes_filled, opening_by_reconstruction,
    reconstruction_by_erosion,
};
pub use symmetry::is_symmetric;
