//! Vectors of 32 samples of 8 bits.
ghost use Rattle.std.specs.Prelude.{◌≡◌, ℕ, ◌+◌, ◌<◌, ◌≤◌, length, slice_index_or};

use super::Laned;
use std::simd::Simd;
use std::simd::prelude::*;

/// 32 samples of 8 bits.
#[derive(Clone, Copy)]
pub struct Lanes8 {
    pub lanes: Simd<u8, 32>,
    pub ghost whole: { length lanes ≡ 32 },
}

impl Laned for u8 {
    type Vector = Lanes8;

    ghost use Rattle.std.specs.Prelude.{slice_index_or};
    ghost use Rattle.std.proofs.Common.{arith};

    ghost lane = { λ v i. slice_index_or v.lanes i 0 };

    ghost WIDTH = { 32 };

    const WIDTH: usize = 32;

    ghost has_lanes = { Prim.omega arith };

    ghost is_narrow = { Prim.omega arith };

    #[inline(always)]
    fn load(samples: &[u8], at: usize) -> Lanes8 {
        Lanes8 {
            lanes: Simd::<u8, 32>::from_slice(&samples[at..at + 32]),
        }
    }

    #[inline(always)]
    fn store(vector: Lanes8, out: &mut [u8], at: usize) {
        vector.lanes.copy_to_slice(&mut out[at..at + 32]);
    }

    #[inline(always)]
    fn all(sample: u8) -> Lanes8 {
        Lanes8 {
            lanes: Simd::<u8, 32>::splat(sample),
        }
    }
}
