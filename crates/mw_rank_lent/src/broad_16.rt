//! Vectors of 16 samples of 16 bits.
ghost use Rattle.std.specs.Prelude.{◌≡◌, ℕ, ◌+◌, ◌<◌, ◌≤◌, min, max, length, slice_index_or};

use super::Broad;
use std::simd::Simd;
use std::simd::prelude::*;

/// 16 samples of 16 bits.
#[derive(Clone, Copy)]
pub struct Wide16 {
    pub lanes: Simd<u16, 16>,
    pub ghost whole: { length lanes ≡ 16 },
}

impl Broad for u16 {
    type Wide = Wide16;

    ghost use Rattle.std.specs.Prelude.{slice_index_or};
    ghost use Rattle.std.proofs.Common.{arith};

    ghost wide_lane = { λ v i. slice_index_or v.lanes i 0 };

    ghost BREADTH = { 16 };

    const BREADTH: usize = 16;

    ghost is_broad = { Prim.omega arith };

    ghost is_bounded = { Prim.omega arith };

    #[inline(always)]
    fn load_wide(samples: &[u16], at: usize) -> Wide16 {
        Wide16 {
            lanes: Simd::<u16, 16>::from_slice(&samples[at..at + 16]),
        }
    }

    #[inline(always)]
    fn store_wide(vector: Wide16, out: &mut [u16], at: usize) {
        vector.lanes.copy_to_slice(&mut out[at..at + 16]);
    }

    #[inline(always)]
    fn lower_wide(a: Wide16, b: Wide16) -> Wide16 {
        Wide16 {
            lanes: a.lanes.simd_min(b.lanes),
        }
    }

    #[inline(always)]
    fn higher_wide(a: Wide16, b: Wide16) -> Wide16 {
        Wide16 {
            lanes: a.lanes.simd_max(b.lanes),
        }
    }

    #[inline(always)]
    fn one_on(here: Wide16, next: Wide16) -> Wide16 {
        Wide16 {
            lanes: here.lanes.shuffle(
                next.lanes,
                [1, 2, 3, 4, 5, 6, 7, 8, 9, 10, 11, 12, 13, 14, 15, 16],
            ),
        }
    }

    #[inline(always)]
    fn two_on(here: Wide16, next: Wide16) -> Wide16 {
        Wide16 {
            lanes: here.lanes.shuffle(
                next.lanes,
                [2, 3, 4, 5, 6, 7, 8, 9, 10, 11, 12, 13, 14, 15, 16, 17],
            ),
        }
    }
}
