//! The extremum of two rows.
ghost use Rattle.std.specs.Prelude.{◌≡◌, ℕ, length};
ghost use lib.Lanes.{zip2};

use mw_pixel::{Extremum, Pixel};

/// The extremum of each pair of samples, in place.
pub fn combine_rows<P: Pixel, E: Extremum<P>>(acc: &mut [P], other: &[P])
    requires { length acc.old ≡ length other.now }
    ensures { acc.new ≡ zip2 E.merge acc.old other.now }
{
    let mut at = 0usize;
    'by_block: while acc.len() - at >= 64 {
        E::combine_block(&mut acc[at..at + 64], &other[at..at + 64]);
        at += 64;
    }
    'by_one: while at < acc.len() {
        acc[at] = E::combine(acc[at], other[at]);
        at += 1;
    }
}
