//! What is made of one image in levels of grey, from array to array, as a library that other crates can stand on: filled holes,
//! cleared borders, domes that are cut off, basins that are filled up, regional extrema, and area openings and closings. Each
//! function answers 0 where the caller's array has what the operator's definition makes, and else the number of a refusal, and
//! that array is as it was. Nothing is required of a caller: every function tests its arguments.
//!
//! It stands on `mw_c_geodesic`, of which it has the elements, the plain images and the answers. The kernels are those of
//! `mw_geodesic_grey` and `mw_geodesic_areas`, for the four and the eight neighbours in whatever bitmap; any other element
//! goes to the plain programs.
//!
//! ```text
//! // five samples up to 9 with the hole in their middle filled, by the neighbours to the left and to the right
//! let answer = fill_u8(alloc, 5, 1, 9, &[4, 7, 2, 6, 0], &[1, 0, 1], 3, 1, 1, 0, &mut out);
//! ```
#![tactic(auto)]

mod area_calls;
mod areas;
mod calls;
mod changing;
mod extrema;
mod images;

pub use area_calls::{area_u8, area_u16};
pub use calls::{clear_border_u8, clear_border_u16, fill_u8, fill_u16};
pub use extrema::{extrema_h_u8, extrema_h_u16, extrema_regional_u8, extrema_regional_u16};
