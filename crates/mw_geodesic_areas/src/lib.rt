//! Area openings and closings of grey images (Vincent, Grayscale area openings and closings, their efficient implementation
//! and applications, 1993) by union-find over the levels (Meijster and Wilkinson, A comparison of algorithms for connected
//! set openings and closings, 2002).
//!
//! Places are taken by falling levels. Each class of places that hang together has a root with its size, until it is large:
//! then the root gets the level that is taken, and the class never changes again. So a class that touches one with a level
//! is not joined to it, but gets the level itself. At the end each place has the level of its root.
//!
//! ```text
//! let opened = area_opening(alloc, &image, Neighbours::Eight, 100)?;
//! let closed = area_closing(alloc, &image, 255, Neighbours::Eight, 100)?;
//! ```
//!
//! For any other element that is symmetric there are `plain_area_opening` and `plain_area_closing`, level by level.
//!
//! An image has fewer than 2^32 places, as all of a session have. Beside the result 8 bytes a pixel are
//! asked for, and 4 for each level of the type; `area_closing` asks for one more image. The places of one level are a list, from
//! the last to the first, so that none are sorted; in it the link of a place that was taken makes room for a size.
//! `open_areas` and `close_areas` write to an array of the caller.
#![tactic(auto)]

mod chains;
mod classes;
mod forest;
mod opening;
mod plain;
mod taking;

pub use mw_geodesic::Neighbours;
pub use mw_model::NoMemory;
pub use opening::{area_closing, area_opening, close_areas, open_areas};
pub use plain::{plain_area_closing, plain_area_opening};
