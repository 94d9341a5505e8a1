//! What C calls: the operators on arrays of the caller. Each function answers 0 where the caller's array has what the operator's
//! definition makes, and else the number of a refusal, and that array is as it was. Nothing is required of C but that
//! pointers and lengths are those of arrays, and that the array for the result overlaps none of the others: every function
//! tests the rest. Each is one call of the function of its name in `mw_c_calls`, `mw_c_geodesic` or `mw_c_geodesic_levels`:
//! no crate can stand on a static library, so the tests call those. The functions have more than six arguments, since C
//! has no slices. `include/morphd.h` tells C of them.
//!
//! ```text
//! // an erosion of five samples up to 9 by a bar of three pixels, whose origin is in its middle
//! int answer = morphd_flat_u8(MORPHD_ERODE, 0, 5, 1, 9, samples, 5, ones, 3, 3, 1, 1, 0, out, 5);
//! ```
#![tactic(auto)]

mod areas;
mod components;
mod distances;
mod flat;
mod flat_rows;
mod hits;
mod labels;
mod levels;
mod reconstructions;
mod regions;
mod residues;
mod sets;
mod spectra;
mod thresholds;
mod version;
