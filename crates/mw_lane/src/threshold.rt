//! The set of the samples from a level on.
ghost use Rattle.std.specs.Prelude.{◌≡◌, ℕ, nat_le, if◌then◌else◌, length, map};

use super::Lanes;
use mw_pixel::Bit;

/// Puts those places into the set whose sample is `k` or more.
pub fn threshold_row<P: Lanes>(src: &[P], k: u16, out: &mut [Bit])
    requires { length out.old ≡ length src.now }
    ensures { out.new ≡ map (λ s. if nat_le k (P.level s) then 1 else 0) src.now }
{
    let mut at = 0usize;
    'by_block: while src.len() - at >= 64 {
        P::threshold_block(&src[at..at + 64], k, &mut out[at..at + 64]);
        at += 64;
    }
    'by_one: while at < src.len() {
        out[at] = Bit::new(src[at].value() >= k);
        at += 1;
    }
}
