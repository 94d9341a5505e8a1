//! Samples that are read, merged and written in vectors of 32 bytes: two registers of SSE4 and one of AVX2, so that what four
//! rows of results need stays in registers.
ghost use Rattle.std.specs.Prelude.{◌≡◌, ℕ, ◌+◌, ◌<◌, ◌≤◌, length, slice_index_or};

use mw_line::pixel::Grey;

/// Samples in vectors.
pub trait Laned: Grey {
    /// A vector of samples.
    type Vector: Copy;

    ghost lane: { Self.Vector → ℕ → Self };

    ghost WIDTH: { ℕ };

    /// How many samples a vector has.
    const WIDTH: usize;

    /// The samples from that place on.
    fn load(samples: &[Self], at: usize) -> Self::Vector
        requires { at + WIDTH ≤ length samples.now }
        ensures { (i : ℕ) (d : Self) → i < WIDTH → lane result i ≡ slice_index_or samples.now (at + i) d };

    /// Writes the samples from that place on.
    fn store(vector: Self::Vector, out: &mut [Self], at: usize)
        requires { at + WIDTH ≤ length out.old }
        ensures size { length out.new ≡ length out.old }
        ensures put { (i : ℕ) (d : Self) → i < WIDTH → slice_index_or out.new (at + i) d ≡ lane vector i }
        ensures before { (p : ℕ) (d : Self) → p < at → slice_index_or out.new p d ≡ slice_index_or out.old p d }
        ensures behind { (p : ℕ) (d : Self) → at + WIDTH ≤ p → slice_index_or out.new p d ≡ slice_index_or out.old p d };

    /// The sample in each lane.
    fn all(sample: Self) -> Self::Vector
        ensures { (i : ℕ) → i < WIDTH → lane result i ≡ sample };

    ghost has_lanes: { 0 < WIDTH };

    ghost is_narrow: { WIDTH ≤ 32 };
}
