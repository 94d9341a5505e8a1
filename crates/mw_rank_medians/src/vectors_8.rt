//! Vectors of 16 samples of 8 bits.
ghost use Rattle.std.specs.Prelude.{◌≡◌, ℕ, ◌+◌, ◌<◌, ◌≤◌, min, max, length, slice_index_or};

use super::Vectored;
use std::simd::Simd;
use std::simd::prelude::*;

/// 16 samples of 8 bits.
#[derive(Clone, Copy)]
pub struct Lanes8 {
    pub lanes: Simd<u8, 16>,
    pub ghost whole: { length lanes ≡ 16 },
}

impl Vectored for u8 {
    type Vector = Lanes8;

    ghost use Rattle.std.specs.Prelude.{slice_index_or};
    ghost use Rattle.std.proofs.Common.{arith};

    ghost lane = { λ v i. slice_index_or v.lanes i 0 };

    ghost WIDTH = { 16 };

    const WIDTH: usize = 16;

    ghost is_wide = { Prim.omega arith };

    ghost is_narrow = { Prim.omega arith };

    #[inline(always)]
    fn load(samples: &[u8], at: usize) -> Lanes8 {
        Lanes8 {
            lanes: Simd::<u8, 16>::from_slice(&samples[at..at + 16]),
        }
    }

    #[inline(always)]
    fn store(vector: Lanes8, out: &mut [u8], at: usize) {
        vector.lanes.copy_to_slice(&mut out[at..at + 16]);
    }

    #[inline(always)]
    fn lower(a: Lanes8, b: Lanes8) -> Lanes8 {
        Lanes8 {
            lanes: a.lanes.simd_min(b.lanes),
        }
    }

    #[inline(always)]
    fn higher(a: Lanes8, b: Lanes8) -> Lanes8 {
        Lanes8 {
            lanes: a.lanes.simd_max(b.lanes),
        }
    }

    #[inline(always)]
    fn one_ahead(here: Lanes8, next: Lanes8) -> Lanes8 {
        Lanes8 {
            lanes: here.lanes.shuffle(
                next.lanes,
                [1, 2, 3, 4, 5, 6, 7, 8, 9, 10, 11, 12, 13, 14, 15, 16],
            ),
        }
    }

    #[inline(always)]
    fn two_ahead(here: Lanes8, next: Lanes8) -> Lanes8 {
        Lanes8 {
            lanes: here.lanes.shuffle(
                next.lanes,
                [2, 3, 4, 5, 6, 7, 8, 9, 10, 11, 12, 13, 14, 15, 16, 17],
            ),
        }
    }

    #[inline(always)]
    fn four_ahead(here: Lanes8, next: Lanes8) -> Lanes8 {
        Lanes8 {
            lanes: here.lanes.shuffle(
                next.lanes,
                [4, 5, 6, 7, 8, 9, 10, 11, 12, 13, 14, 15, 16, 17, 18, 19],
            ),
        }
    }
}
