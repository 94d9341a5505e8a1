//! Elements as horizontal runs of offsets, and how runs lie around a tile, for kernels over any layout of samples.
//!
//! ```text
//! let runs = runs_of(alloc, element.offsets())?;
//! let extent = extent_of(runs.as_slice());
//! ```
#![tactic(auto)]

mod layout;
mod offset_places;
mod runs;
mod sizes;

pub use layout::{columns_after, first_column, first_row, rows_after, start_of_run};
pub use mw_model::NoMemory;
pub use offset_places::place_of;
pub use runs::{Extent, Run, extent_of, runs_either_way, runs_of};
pub use sizes::{Sizes, counts_of};
