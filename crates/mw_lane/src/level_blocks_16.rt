//! Blocks of 16-bit samples.
ghost use Rattle.std.specs.Prelude.{◌≡◌, ℕ, ◌<◌, ◌^◌, ◌==◌, nat_le, if◌then◌else◌, length, map, slice_index, sum_by};
ghost use Rattle.std.specs.Int.{bit_at};

use super::LevelBlocks;
use std::simd::Simd;
use std::simd::prelude::*;

impl LevelBlocks for u16 {
    #[inline(always)]
    fn at_least(block: &[u16], k: u32) -> u64 {
        if k > 65535 {
            return 0;
        }
        Simd::<u16, 64>::from_slice(block)
            .simd_ge(Simd::<u16, 64>::splat(k as u16))
            .to_bitmask()
    }

    #[inline(always)]
    fn equal(block: &[u16], v: u32) -> u64 {
        if v > 65535 {
            return 0;
        }
        Simd::<u16, 64>::from_slice(block)
            .simd_eq(Simd::<u16, 64>::splat(v as u16))
            .to_bitmask()
    }

    #[inline(always)]
    fn sum(block: &[u16]) -> u64 {
        let levels = Simd::<u16, 64>::from_slice(block).cast::<u32>();
        u64::from(levels.strict_reduce_sum())
    }
}
