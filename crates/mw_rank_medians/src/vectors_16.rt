//! Vectors of 8 samples of 16 bits.
ghost use Rattle.std.specs.Prelude.{◌≡◌, ℕ, ◌+◌, ◌<◌, ◌≤◌, min, max, length, slice_index_or};

use super::Vectored;
use std::simd::Simd;
use std::simd::prelude::*;

/// 8 samples of 16 bits.
#[derive(Clone, Copy)]
pub struct Lanes16 {
    pub lanes: Simd<u16, 8>,
    pub ghost whole: { length lanes ≡ 8 },
}

impl Vectored for u16 {
    type Vector = Lanes16;

    ghost use Rattle.std.specs.Prelude.{slice_index_or};
    ghost use Rattle.std.proofs.Common.{arith};

    ghost lane = { λ v i. slice_index_or v.lanes i 0 };

    ghost WIDTH = { 8 };

    const WIDTH: usize = 8;

    ghost is_wide = { Prim.omega arith };

    ghost is_narrow = { Prim.omega arith };

    #[inline(always)]
    fn load(samples: &[u16], at: usize) -> Lanes16 {
        Lanes16 {
            lanes: Simd::<u16, 8>::from_slice(&samples[at..at + 8]),
        }
    }

    #[inline(always)]
    fn store(vector: Lanes16, out: &mut [u16], at: usize) {
        vector.lanes.copy_to_slice(&mut out[at..at + 8]);
    }

    #[inline(always)]
    fn lower(a: Lanes16, b: Lanes16) -> Lanes16 {
        Lanes16 {
            lanes: a.lanes.simd_min(b.lanes),
        }
    }

    #[inline(always)]
    fn higher(a: Lanes16, b: Lanes16) -> Lanes16 {
        Lanes16 {
            lanes: a.lanes.simd_max(b.lanes),
        }
    }

    #[inline(always)]
    fn one_ahead(here: Lanes16, next: Lanes16) -> Lanes16 {
        Lanes16 {
            lanes: here.lanes.shuffle(next.lanes, [1, 2, 3, 4, 5, 6, 7, 8]),
        }
    }

    #[inline(always)]
    fn two_ahead(here: Lanes16, next: Lanes16) -> Lanes16 {
        Lanes16 {
            lanes: here.lanes.shuffle(next.lanes, [2, 3, 4, 5, 6, 7, 8, 9]),
        }
    }

    #[inline(always)]
    fn four_ahead(here: Lanes16, next: Lanes16) -> Lanes16 {
        Lanes16 {
            lanes: here.lanes.shuffle(next.lanes, [4, 5, 6, 7, 8, 9, 10, 11]),
        }
    }
}
