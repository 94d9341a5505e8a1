//! Extrema of samples: of two, and of 64 pairs at once.

ghost use Rattle.std.specs.Prelude.{◌≡◌, ℕ, ◌≤◌, length};
ghost use lib.Lanes.{zip2};

use crate::Pixel;

/// The lesser or the greater of two samples.
pub trait Extremum<P: Pixel> {
    ghost merge: { P → P → P };

    ghost neutral_of: { P → P };

    fn combine(a: P, b: P) -> P
        ensures { result ≡ merge a b };

    /// The sample that changes none of an image with this maxval: the maxval for `Min`, 0 for `Max`.
    fn neutral(maxval: P) -> P
        ensures { result ≡ neutral_of maxval };

    /// The extremum of each of 64 pairs, in place.
    fn combine_block(acc: &mut [P], other: &[P])
        requires whole { length acc.old ≡ 64 }
        requires paired { length other.now ≡ 64 }
        ensures { acc.new ≡ zip2 merge acc.old other.now }
    {
        for i in 0..acc.len() {
            acc[i] = Self::combine(acc[i], other[i]);
        }
    }

    ghost commutes: { (a b : P) → merge a b ≡ merge b a };

    ghost associates: { (a b c : P) → merge (merge a b) c ≡ merge a (merge b c) };

    ghost is_idempotent: { (a : P) → merge a a ≡ a };

    ghost neutral_changes_none: { (m s : P) → P.level s ≤ P.level m → merge (neutral_of m) s ≡ s };

    ghost stays_within: { (a b : P) (most : ℕ) → P.level a ≤ most → P.level b ≤ most → P.level (merge a b) ≤ most };
}
