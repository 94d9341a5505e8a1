//! Vectors of 16 samples of 16 bits.
ghost use Rattle.std.specs.Prelude.{◌≡◌, ℕ, ◌+◌, ◌<◌, ◌≤◌, length, slice_index_or};

use super::Laned;
use std::simd::Simd;
use std::simd::prelude::*;

/// 16 samples of 16 bits.
#[derive(Clone, Copy)]
pub struct Lanes16 {
    pub lanes: Simd<u16, 16>,
    pub ghost whole: { length lanes ≡ 16 },
}

impl Laned for u16 {
    type Vector = Lanes16;

    ghost use Rattle.std.specs.Prelude.{slice_index_or};
    ghost use Rattle.std.proofs.Common.{arith};

    ghost lane = { λ v i. slice_index_or v.lanes i 0 };

    ghost WIDTH = { 16 };

    const WIDTH: usize = 16;

    ghost has_lanes = { Prim.omega arith };

    ghost is_narrow = { Prim.omega arith };

    #[inline(always)]
    fn load(samples: &[u16], at: usize) -> Lanes16 {
        Lanes16 {
            lanes: Simd::<u16, 16>::from_slice(&samples[at..at + 16]),
        }
    }

    #[inline(always)]
    fn store(vector: Lanes16, out: &mut [u16], at: usize) {
        vector.lanes.copy_to_slice(&mut out[at..at + 16]);
    }

    #[inline(always)]
    fn all(sample: u16) -> Lanes16 {
        Lanes16 {
            lanes: Simd::<u16, 16>::splat(sample),
        }
    }
}
