//! Operators on sets that keep whole components, or leave them out: reconstruction, filled holes, the cleared border and
//! area openings. Their contracts are the definitions of `mw_geodesic`, under the four and the eight neighbours.
//!
//! ```text
//! let rebuilt = reconstruction_of_set(alloc, &marker, &mask, Neighbours::Eight)?;
//! write_large_components(alloc, set, Neighbours::Four, 20, &mut out)?;          // those of 20 pixels and more, a byte for each pixel
//! ```
//!
//! The set is cut to runs with the numbers of their components, held as spans (`mw_geodesic_runs`). Each number that is asked
//! for is marked, and then the runs whose numbers have the mark are written into an empty plane, 64 pixels at a time. So beside
//! what the spans take there is a byte for each component, and for holes two planes more. An area opening is written to an array,
//! and takes four for each component and no plane, since it writes over the numbers of the runs whether they stay.
#![tactic(auto)]

mod border;
mod flipping;
mod keeping;
mod large;
mod marks;
mod reconstruction;
mod showing;

pub use border::{border_cleared_of_set, holes_filled_of_set};
pub use large::write_large_components;
pub use mw_geodesic_runs::Neighbours;
pub use mw_model::NoMemory;
pub use reconstruction::reconstruction_of_set;
