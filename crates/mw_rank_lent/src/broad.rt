//! What the network for nine samples (Smith 1996) needs of a type of samples, by vectors of 32 bytes: the build for AVX2 has each in
//! one register, and the build for SSE4 in two.
ghost use Rattle.std.specs.Prelude.{◌≡◌, ℕ, ◌+◌, ◌<◌, ◌≤◌, min, max, length, slice_index_or};
ghost use Rattle.mw_rank_medians.specs.Ahead.{IsAhead};

use mw_rank_medians::Vectored;

/// Samples that are sorted in vectors of 32 bytes too.
pub trait Broad: Vectored {
    /// A vector of samples.
    type Wide: Copy;

    ghost wide_lane: { Self.Wide → ℕ → ℕ };

    ghost BREADTH: { ℕ };

    /// How many samples a vector has.
    const BREADTH: usize;

    /// The samples from that place on.
    fn load_wide(samples: &[Self], at: usize) -> Self::Wide
        requires { at + BREADTH ≤ length samples.now }
        ensures { (i : ℕ) → i < BREADTH → wide_lane result i ≡ Self.level (slice_index_or samples.now (at + i) Self.TOP) };

    /// Writes the samples from that place on.
    fn store_wide(vector: Self::Wide, out: &mut [Self], at: usize)
        requires { at + BREADTH ≤ length out.old }
        ensures put { (i : ℕ) → i < BREADTH → Self.level (slice_index_or out.new (at + i) Self.TOP) ≡ wide_lane vector i }
        ensures before { (p : ℕ) → p < at → slice_index_or out.new p Self.TOP ≡ slice_index_or out.old p Self.TOP }
        ensures size { length out.new ≡ length out.old };

    /// The lower of each pair of lanes.
    fn lower_wide(a: Self::Wide, b: Self::Wide) -> Self::Wide
        ensures { (i : ℕ) → wide_lane result i ≡ min (wide_lane a i) (wide_lane b i) };

    /// The higher of each pair of lanes.
    fn higher_wide(a: Self::Wide, b: Self::Wide) -> Self::Wide
        ensures { (i : ℕ) → wide_lane result i ≡ max (wide_lane a i) (wide_lane b i) };

    /// The vector that begins one lane further on, where the next one goes on behind this one.
    fn one_on(here: Self::Wide, next: Self::Wide) -> Self::Wide
        ensures { IsAhead wide_lane BREADTH 1 here next result };

    /// The vector that begins two lanes further on.
    fn two_on(here: Self::Wide, next: Self::Wide) -> Self::Wide
        ensures { IsAhead wide_lane BREADTH 2 here next result };

    ghost is_broad: { 2 ≤ BREADTH };

    ghost is_bounded: { BREADTH ≤ 32 };
}
