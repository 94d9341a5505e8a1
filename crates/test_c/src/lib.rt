//! Tests of what C calls and of what that stands on: each function by a worked example and beside the reference, at full size,
//! in frames of several strips, and with what a call may be refused behind its arrays (`beside_reference`, `sizes`, `refusals`
//! and so on); operations on whole images (`direct_..`); what hangs together, and its kernels (`geodesic_..`). The contracts say
//! what is made and in which order faults are told. That it is made wherever there is memory, no contract says: a body that wants
//! memory from some size on would fail a test here.
//!
//! ```text
//! rt test     // in this folder; then `make memory` refuses each allocation of `direct_memory` and `geodesic_memory` in turn
//! ```
#![tactic(auto)]

#[cfg(test)]
mod beside_reference;
#[cfg(test)]
mod bytes;
#[cfg(test)]
mod called;
#[cfg(test)]
mod direct_faults;
#[cfg(test)]
mod direct_given;
#[cfg(test)]
mod direct_memory;
#[cfg(test)]
mod direct_operations;
#[cfg(test)]
mod direct_reference;
#[cfg(test)]
mod faulty;
#[cfg(test)]
mod geodesic_area_calls;
#[cfg(test)]
mod geodesic_areas;
#[cfg(test)]
mod geodesic_calls;
#[cfg(test)]
mod geodesic_derived;
#[cfg(test)]
mod geodesic_distances;
#[cfg(test)]
mod geodesic_full_size;
#[cfg(test)]
mod geodesic_given;
#[cfg(test)]
mod geodesic_kept;
#[cfg(test)]
mod geodesic_labels;
#[cfg(test)]
mod geodesic_levels;
#[cfg(test)]
mod geodesic_memory;
#[cfg(test)]
mod given;
#[cfg(test)]
mod images;
#[cfg(test)]
mod large;
#[cfg(test)]
mod made;
#[cfg(test)]
mod pixels;
#[cfg(test)]
mod reference_ways;
#[cfg(test)]
mod refusals;
#[cfg(test)]
mod scenes;
#[cfg(test)]
mod sizes;
#[cfg(test)]
mod wide_sizes;
#[cfg(test)]
mod words;
#[cfg(test)]
mod worked;
