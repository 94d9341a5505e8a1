//! Blocks of bytes.
ghost use Rattle.std.specs.Prelude.{◌≡◌, ℕ, ◌<◌, ◌^◌, ◌==◌, nat_le, if◌then◌else◌, length, map, slice_index, sum_by};
ghost use Rattle.std.specs.Int.{bit_at};

use super::LevelBlocks;
use std::simd::Simd;
use std::simd::prelude::*;

impl LevelBlocks for u8 {
    #[inline(always)]
    fn at_least(block: &[u8], k: u32) -> u64 {
        if k > 255 {
            return 0;
        }
        Simd::<u8, 64>::from_slice(block)
            .simd_ge(Simd::<u8, 64>::splat(k as u8))
            .to_bitmask()
    }

    #[inline(always)]
    fn equal(block: &[u8], v: u32) -> u64 {
        if v > 255 {
            return 0;
        }
        Simd::<u8, 64>::from_slice(block)
            .simd_eq(Simd::<u8, 64>::splat(v as u8))
            .to_bitmask()
    }

    #[inline(always)]
    fn sum(block: &[u8]) -> u64 {
        let levels = Simd::<u8, 64>::from_slice(block).cast::<u16>();
        u64::from(levels.strict_reduce_sum())
    }
}
