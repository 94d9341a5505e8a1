//! The difference of two rows.
ghost use Rattle.std.specs.Prelude.{◌≡◌, ℕ, ◌-◌, length, map};
ghost use lib.Lanes.{zip2};

use super::Lanes;

/// Each sample less the other row's sample at its place, stopping at 0, in place.
pub fn subtract_rows<P: Lanes>(acc: &mut [P], other: &[P])
    requires { length acc.old ≡ length other.now }
    ensures rows { acc.new ≡ zip2 P.difference acc.old other.now }
    ensures levels { map P.level acc.new ≡ zip2 (λ (m n : ℕ). m - n) (map P.level acc.old) (map P.level other.now) }
{
    let mut at = 0usize;
    'by_block: while acc.len() - at >= 64 {
        P::subtract_block(&mut acc[at..at + 64], &other[at..at + 64]);
        at += 64;
    }
    'by_one: while at < acc.len() {
        acc[at] = P::subtract(acc[at], other[at]);
        at += 1;
    }
}
