//! What C calls, by the type of samples.

use crate::given::Call;
use mw_pixel::Pixel;
use std::alloc::Global;

/// Samples that stand in arrays of the caller. Each call writes into the last array, and gives its answer.
pub(crate) trait Called: Pixel {
    /// What arrays hold before a call: no test wants that everywhere.
    fn mark() -> Self;

    /// Of flat operators, of their rows, and of hits and misses.
    fn image(alloc: Global, call: Call<'_>, f: &[Self], out: &mut [Self]) -> i32;

    /// Of thresholds, skeletons and restorations.
    fn set(alloc: Global, call: Call<'_>, f: &[Self], out: &mut [u8]) -> i32;

    /// Of spectra.
    fn volumes(alloc: Global, call: Call<'_>, f: &[Self], out: &mut [u64]) -> i32;
}
