//! What a network needs of a type of samples: vectors of them, the lower and the higher of each pair of lanes, and vectors
//! that begin some lanes further on.
ghost use Rattle.std.specs.Prelude.{◌≡◌, ℕ, ◌+◌, ◌<◌, ◌≤◌, min, max, length, slice_index_or};
ghost use Rattle.mw_rank_medians.specs.Ahead.{IsAhead};

use mw_rank::pixel::Grey;

/// Samples that are sorted in vectors of 16 bytes.
pub trait Vectored: Grey {
    /// A vector of samples.
    type Vector: Copy;

    ghost lane: { Self.Vector → ℕ → ℕ };

    ghost WIDTH: { ℕ };

    /// How many samples a vector has.
    const WIDTH: usize;

    /// The samples from that place on.
    fn load(samples: &[Self], at: usize) -> Self::Vector
        requires { at + WIDTH ≤ length samples.now }
        ensures { (i : ℕ) → i < WIDTH → lane result i ≡ Self.level (slice_index_or samples.now (at + i) Self.TOP) };

    /// Writes the samples from that place on.
    fn store(vector: Self::Vector, out: &mut [Self], at: usize)
        requires { at + WIDTH ≤ length out.old }
        ensures put { (i : ℕ) → i < WIDTH → Self.level (slice_index_or out.new (at + i) Self.TOP) ≡ lane vector i }
        ensures before { (p : ℕ) → p < at → slice_index_or out.new p Self.TOP ≡ slice_index_or out.old p Self.TOP }
        ensures size { length out.new ≡ length out.old };

    /// The lower of each pair of lanes.
    fn lower(a: Self::Vector, b: Self::Vector) -> Self::Vector
        ensures { (i : ℕ) → lane result i ≡ min (lane a i) (lane b i) };

    /// The higher of each pair of lanes.
    fn higher(a: Self::Vector, b: Self::Vector) -> Self::Vector
        ensures { (i : ℕ) → lane result i ≡ max (lane a i) (lane b i) };

    /// The vector that begins one lane further on, where the next one goes on behind this one.
    fn one_ahead(here: Self::Vector, next: Self::Vector) -> Self::Vector
        ensures { IsAhead lane WIDTH 1 here next result };

    /// The vector that begins two lanes further on.
    fn two_ahead(here: Self::Vector, next: Self::Vector) -> Self::Vector
        ensures { IsAhead lane WIDTH 2 here next result };

    /// The vector that begins four lanes further on.
    fn four_ahead(here: Self::Vector, next: Self::Vector) -> Self::Vector
        ensures { IsAhead lane WIDTH 4 here next result };

    ghost is_wide: { 4 ≤ WIDTH };

    ghost is_narrow: { WIDTH ≤ 16 };
}
