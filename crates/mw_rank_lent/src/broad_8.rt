//! Vectors of 32 samples of 8 bits.
ghost use Rattle.std.specs.Prelude.{◌≡◌, ℕ, ◌+◌, ◌<◌, ◌≤◌, min, max, length, slice_index_or};

use super::Broad;
use std::simd::Simd;
use std::simd::prelude::*;

/// 32 samples of 8 bits.
#[derive(Clone, Copy)]
pub struct Wide8 {
    pub lanes: Simd<u8, 32>,
    pub ghost whole: { length lanes ≡ 32 },
}

impl Broad for u8 {
    type Wide = Wide8;

    ghost use Rattle.std.specs.Prelude.{slice_index_or};
    ghost use Rattle.std.proofs.Common.{arith};

    ghost wide_lane = { λ v i. slice_index_or v.lanes i 0 };

    ghost BREADTH = { 32 };

    const BREADTH: usize = 32;

    ghost is_broad = { Prim.omega arith };

    ghost is_bounded = { Prim.omega arith };

    #[inline(always)]
    fn load_wide(samples: &[u8], at: usize) -> Wide8 {
        Wide8 {
            lanes: Simd::<u8, 32>::from_slice(&samples[at..at + 32]),
        }
    }

    #[inline(always)]
    fn store_wide(vector: Wide8, out: &mut [u8], at: usize) {
        vector.lanes.copy_to_slice(&mut out[at..at + 32]);
    }

    #[inline(always)]
    fn lower_wide(a: Wide8, b: Wide8) -> Wide8 {
        Wide8 {
            lanes: a.lanes.simd_min(b.lanes),
        }
    }

    #[inline(always)]
    fn higher_wide(a: Wide8, b: Wide8) -> Wide8 {
        Wide8 {
            lanes: a.lanes.simd_max(b.lanes),
        }
    }

    #[inline(always)]
    fn one_on(here: Wide8, next: Wide8) -> Wide8 {
        Wide8 {
            lanes: here.lanes.shuffle(
                next.lanes,
                [
                    1, 2, 3, 4, 5, 6, 7, 8, 9, 10, 11, 12, 13, 14, 15, 16, 17, 18, 19, 20, 21, 22,
                    23, 24, 25, 26, 27, 28, 29, 30, 31, 32,
                ],
            ),
        }
    }

    #[inline(always)]
    fn two_on(here: Wide8, next: Wide8) -> Wide8 {
        Wide8 {
            lanes: here.lanes.shuffle(
                next.lanes,
                [
                    2, 3, 4, 5, 6, 7, 8, 9, 10, 11, 12, 13, 14, 15, 16, 17, 18, 19, 20, 21, 22, 23,
                    24, 25, 26, 27, 28, 29, 30, 31, 32, 33,
                ],
            ),
        }
    }
}
