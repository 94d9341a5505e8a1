//! What the kernels need of a type of samples, one at a time and 64 at a time.
ghost use Rattle.std.specs.Prelude.{◌≡◌, ℕ, ◌-◌, nat_le, if◌then◌else◌, length, map};
ghost use lib.Lanes.{zip2};

use mw_pixel::{Bit, Pixel};

/// Samples that can be subtracted and cut at a level. The block methods are loops over single samples unless a type has
/// vector code for them.
pub trait Lanes: Pixel {
    ghost difference: { Self → Self → Self };

    /// The first sample less the second, or 0 where the second is greater.
    fn subtract(a: Self, b: Self) -> Self
        ensures { result ≡ difference a b };

    /// The difference of each of 64 pairs, in place.
    fn subtract_block(acc: &mut [Self], other: &[Self])
        requires whole { length acc.old ≡ 64 }
        requires paired { length other.now ≡ 64 }
        ensures { acc.new ≡ zip2 difference acc.old other.now }
    {
        for i in 0..acc.len() {
            acc[i] = Self::subtract(acc[i], other[i]);
        }
    }

    /// Puts those of 64 places into the set whose sample is `k` or more.
    fn threshold_block(src: &[Self], k: u16, out: &mut [Bit])
        requires whole { length src.now ≡ 64 }
        requires paired { length out.old ≡ 64 }
        ensures { out.new ≡ map (λ s. if nat_le k (Self.level s) then 1 else 0) src.now }
    {
        for i in 0..src.len() {
            out[i] = Bit::new(src[i].value() >= k);
        }
    }

    ghost level_of_difference: { (a b : Self) → Self.level (difference a b) ≡ Self.level a - Self.level b };
}
