//! What reconstruction of grey images by erosion, and from markers of the image itself, makes: filled holes, cleared borders,
//! domes that are cut off, basins that are filled up, and regional extrema (Soille, Morphological Image Analysis, 2003,
//! chapter 6; Vincent, Morphological Grayscale Reconstruction in Image Analysis, 1993).
//!
//! All of it is reconstruction by dilation, by `mw_geodesic_levels`. What goes by erosion is the complement of what goes by
//! dilation of the complement, so holes are filled by what clears borders, and minima are found by what finds maxima. The rest
//! are passes over the samples in place, one loop each, of which LLVM makes vectors. What has a verb
//! for its name works in the memory of the image that it is given: beside that it asks for one plane at most, and for what
//! `mw_geodesic_levels` takes.
//!
//! ```text
//! let filled = holes_filled(alloc, &image, maxval, Neighbours::Eight)?;
//! let domes = regional_maxima(alloc, &image, Neighbours::Eight)?;      // the set of the plateaus that have no higher neighbour
//! ```
#![tactic(auto)]

mod border;
mod extrema;
mod marks;
mod passes;
mod planes;
mod reconstructions;

pub use extrema::{fill_basins, find_minima, h_maxima, h_minima, regional_maxima, regional_minima};
pub use mw_geodesic_levels::Neighbours;
pub use mw_model::NoMemory;
pub use reconstructions::{
    border_cleared, fill_holes, holes_filled, reconstruct_by_erosion, reconstruction_by_erosion,
};
