//! Rows of 16-bit samples.
ghost use Rattle.std.specs.Prelude.{◌≡◌, ℕ, ◌-◌, nat_le, if◌then◌else◌, length, map};
ghost use lib.Lanes.{zip2};

use super::Lanes;
use mw_pixel::Bit;
use std::simd::Simd;
use std::simd::prelude::*;

/// The first sample of each pair less the second, stopping at 0.
#[inline(always)]
fn differences(a: &[u16], b: &[u16]) -> Simd<u16, 64>
    requires first { length a.now ≡ 64 }
    requires second { length b.now ≡ 64 }
    ensures { result ≡ zip2 (λ (x y : ℕ). x - y) a.now b.now }
{
    let first = Simd::<u16, 64>::from_slice(a);
    let second = Simd::<u16, 64>::from_slice(b);
    first.simd_max(second) - second
}

/// 1 for each of 64 samples that is `k` or more, else 0.
#[inline(always)]
fn marks(samples: &[u16], k: u16) -> [u16; 64]
    requires { length samples.now ≡ 64 }
    ensures { result ≡ map (λ s. if nat_le k s then 1 else 0) samples.now }
{
    let levels = Simd::<u16, 64>::from_slice(samples);
    levels
        .simd_ge(Simd::<u16, 64>::splat(k))
        .select(Simd::<u16, 64>::splat(1), Simd::<u16, 64>::splat(0))
        .to_array()
}

impl Lanes for u16 {
    ghost use Rattle.std.specs.Prelude.{◌-◌};
    ghost use Rattle.std.proofs.Common.{refl};

    ghost difference = { λ a b. a - b };

    ghost level_of_difference = { λ a b. refl };

    #[inline(always)]
    fn subtract(a: u16, b: u16) -> u16 {
        a.saturating_sub(b)
    }

    #[inline(always)]
    fn subtract_block(acc: &mut [u16], other: &[u16]) {
        differences(acc, other).copy_to_slice(acc);
    }

    #[inline(always)]
    fn threshold_block(src: &[u16], k: u16, out: &mut [Bit]) {
        let marks = marks(src, k);
        for i in 0..64 {
            out[i] = Bit::new(marks[i] != 0);
        }
    }
}
