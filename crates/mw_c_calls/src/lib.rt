//! What C calls, as a library that other crates can stand on: the operators on arrays of the caller, each with its answer. Each
//! function answers 0 where the caller's array has what the operator's definition makes, and else the number of a refusal,
//! and that array is as it was. Nothing is required of a caller: every function tests its arguments.
//!
//! It stands apart from the functions that C calls, each of which is one call of the function of its name here. Those are
//! linked into a static library, which no crate can stand on, so no test could call them; tests call these. The public
//! functions have more than six arguments, as C has them; all others stay below.
//!
//! ```text
//! // an erosion of five samples up to 9 by a bar of three pixels, whose origin is in its middle
//! let answer = flat_u8(alloc, 0, 0, 5, 1, 9, &samples, &[1, 1, 1], 3, 1, 1, 0, &mut out);
//! ```
#![tactic(auto)]

mod answers;
mod calls;
mod elements;
mod flat;
mod flat_rows;
mod hits;
mod making;
mod numbered;
mod operations;
mod plans;
mod residues;
mod row_calls;
mod spectra;
mod thresholds;
mod writing;

pub use flat::{flat_set, flat_u8, flat_u16};
pub use flat_rows::{flat_rows_set, flat_rows_u8, flat_rows_u16};
pub use hits::{hit_or_miss_set, hit_or_miss_u8, hit_or_miss_u16};
pub use numbered::version;
pub use residues::{restore_u8, restore_u16, skeleton};
pub use spectra::{spectrum_set, spectrum_u8, spectrum_u16};
pub use thresholds::{threshold_u8, threshold_u16};
