//! Labels of a set, and what is told of its components, of their runs (`mw_geodesic_runs`). Their contracts are the definitions
//! of `mw_geodesic`, under the four and the eight neighbours. What is told of each component is what the definition by
//! reconstructions of points says (`laws`).
//!
//! ```text
//! let Labelled { count, labels } = labels_of(alloc, &set, Neighbours::Eight)?;
//! let count = write_regions(alloc, &set, Neighbours::Eight, &mut rows)?;      // row k tells of the places with label k + 1
//! ```
//!
//! Beside the result there are the runs as spans, their numbers, and two rows of runs while they are searched. Nothing else is
//! asked for, and nothing is written before.
#![tactic(auto)]

mod areas;
mod labels;
pub mod laws;
mod measured;
mod overwriting;
mod painting;
mod regions;
mod rows;

pub use areas::areas_of;
pub use labels::{Labelled, labels_of, write_labels};
pub use measured::label_and_measure;
pub use mw_geodesic_runs::{Neighbours, NoMemory};
pub use overwriting::overwrite;
pub use regions::{Region, write_regions};
pub use rows::{NUMBERS, put_row};
