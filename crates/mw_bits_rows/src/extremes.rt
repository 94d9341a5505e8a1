//! Extrema of 64 pairs of pixels at once: AND is the lesser of two bits, OR the greater.
ghost use Rattle.std.specs.Prelude.{◌≡◌, ℕ, ◌<◌};
ghost use Rattle.std.specs.Int.{bit_at};

use mw_line::pixel::{Bit, Extremum, Max, Min};

/// An extremum of sets that is taken word by word.
pub trait WordExtremum: Extremum<Bit> {
    /// The extremum of each of 64 pairs of pixels.
    fn combine_words(a: u64, b: u64) -> u64
        ensures { (i : ℕ) → i < 64 → bit_at result i ≡ Self.merge (bit_at a i) (bit_at b i) };

    /// 64 pixels that change no other: all of the set for `Min`, none for `Max`.
    fn neutral_word() -> u64
        ensures { (i : ℕ) → i < 64 → bit_at result i ≡ Self.neutral_of 1 };
}

impl WordExtremum for Max {
    #[inline(always)]
    fn combine_words(a: u64, b: u64) -> u64 {
        a | b
    }

    #[inline(always)]
    fn neutral_word() -> u64 {
        0
    }
}

impl WordExtremum for Min {
    #[inline(always)]
    fn combine_words(a: u64, b: u64) -> u64 {
        a & b
    }

    #[inline(always)]
    fn neutral_word() -> u64 {
        u64::MAX
    }
}
