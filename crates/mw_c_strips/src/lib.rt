//! Flat operators from a caller's array into a caller's array, by strips of rows: what a strip reads and what is made of it
//! stay in the cache, and neither image is copied whole. An operator of two steps takes some rows of levels between them, of a set a
//! frame of words of 64 pixels; a frame of levels only where it is small, or where the element has so many rows that strips would
//! take more. An operator of a single step makes any rows of its result alone.
//!
//! `mw_c_forms` tells what a plan makes, `mw_c_layers` makes the strips, and `mw_c_places` those for which memory is refused, place by
//! place; here frames are cut into strips, and these written. Kernels of rows that stand (`mw_c_lent`) come first where there are some, for
//! all rows at once, or of a difference strip by strip.
//!
//! ```text
//! let f = ArrayImage::Grey8(Grey8 { samples: &bytes, width: 640, height: 480, maxval: 255 });
//! write_plan(alloc, &plan, f, &mut out)?;      // what the plan makes of it stands
//! // rows 100 to 199 of it, as one of several threads makes them
//! write_plan_rows(alloc, &plan, f, 100, &mut out[64000..128000])?;
//! ```
#![tactic(auto)]

mod applying;
mod applying_rows;
mod by_pixel;
mod cuts;
mod gathering;
mod placing;
mod room;
mod samples;
mod writing;

pub use applying::write_plan;
pub use applying_rows::write_plan_rows;
pub use mw_c_arrays::{ArrayImage, Grey8, Grey16, Set};
pub use mw_model::NoMemory;
pub use mw_plan::Plan;
pub use room::are_rows;
pub use samples::Sample;
