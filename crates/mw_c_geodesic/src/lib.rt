//! Geodesic operators on arrays of the caller, as a library that other crates can stand on: reconstruction, filled holes and
//! cleared borders of sets, the components of a set, what is told of each, and distances. Each function answers 0 where the
//! caller's array has what the operator's definition makes, and else the number of a refusal, and that array is as it was.
//! Nothing is required of a caller: every function tests its arguments.
//!
//! It stands beside `mw_c_calls`, in whose words its contracts speak, and apart from the functions that C calls, each of
//! which is one call of the function of its name here. An element that covers the four or the eight neighbours, with its
//! origin or without it and in whatever bitmap, goes to the kernels of `mw_geodesic_labels`, `mw_geodesic_kept` and
//! `mw_geodesic_levels`, since elements that cover alike make the same; any other goes to the plain programs of `mw_geodesic`.
//! What is made of one image in levels of grey stands above it, in `mw_c_geodesic_levels`.
//!
//! ```text
//! // the labels of the components of a row, by the neighbours to the left and to the right
//! let answer = label_set(alloc, 5, 1, &[1, 0, 1, 1, 0], &[1, 0, 1], 3, 1, 1, 0, &mut out, &mut components);
//! ```
#![tactic(auto)]

mod alike;
mod answers;
mod area;
mod changing;
mod component_calls;
mod distance_calls;
mod distances;
mod elements;
mod faults;
mod images;
mod label_calls;
mod labelling;
mod measuring;
mod rebuild;
mod rebuild_calls;
mod rebuild_faults;
mod rebuilding;
mod refusals;
mod region_calls;
mod region_rows;
mod regions;
mod set_calls;
mod sides;
mod told_regions;
mod turning;

pub use alike::neighbours_in;
pub use answers::{answer, answer_bytes, answer_words};
pub use changing::{Change, changed_plainly};
pub use component_calls::components_set;
pub use distance_calls::distance_set;
pub use elements::element;
pub use faults::{refused, room_fault};
pub use images::{bits, image_made, plain};
pub use label_calls::label_set;
pub use rebuild_calls::{reconstruct_set, reconstruct_u8, reconstruct_u16};
pub use refusals::Refusal;
pub use region_calls::regions_set;
pub use set_calls::{area_set, clear_border_set, fill_set};
