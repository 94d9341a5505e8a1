//! The greater of two samples. Blocks of bytes and words go by SIMD.

ghost use Rattle.std.specs.Prelude.{◌≡◌, max};

use crate::{Bit, Extremum};
use std::simd::Simd;
use std::simd::prelude::*;

/// The greater of two samples.
pub struct Max;

impl Extremum<u8> for Max {
    ghost use Rattle.std.specs.Prelude.{max};
    ghost use Rattle.std.proofs.Common.{arith};

    ghost merge = { max };

    ghost neutral_of = { λ m. 0 };

    ghost commutes = { λ a b. Prim.omega arith };

    ghost associates = { λ a b c. Prim.omega arith };

    ghost is_idempotent = { λ a. Prim.omega arith };

    ghost neutral_changes_none = { λ m s h. Prim.omega arith };

    ghost stays_within = { λ a b most p q. Prim.omega arith };

    #[inline(always)]
    fn combine(a: u8, b: u8) -> u8 {
        a.max(b)
    }

    #[inline(always)]
    fn neutral(_maxval: u8) -> u8 {
        0
    }

    #[inline(always)]
    fn combine_block(acc: &mut [u8], other: &[u8]) {
        let a = Simd::<u8, 64>::from_slice(acc);
        let b = Simd::<u8, 64>::from_slice(other);
        a.simd_max(b).copy_to_slice(acc);
    }
}

impl Extremum<u16> for Max {
    ghost use Rattle.std.specs.Prelude.{max};
    ghost use Rattle.std.proofs.Common.{arith};

    ghost merge = { max };

    ghost neutral_of = { λ m. 0 };

    ghost commutes = { λ a b. Prim.omega arith };

    ghost associates = { λ a b c. Prim.omega arith };

    ghost is_idempotent = { λ a. Prim.omega arith };

    ghost neutral_changes_none = { λ m s h. Prim.omega arith };

    ghost stays_within = { λ a b most p q. Prim.omega arith };

    #[inline(always)]
    fn combine(a: u16, b: u16) -> u16 {
        a.max(b)
    }

    #[inline(always)]
    fn neutral(_maxval: u16) -> u16 {
        0
    }

    #[inline(always)]
    fn combine_block(acc: &mut [u16], other: &[u16]) {
        let a = Simd::<u16, 64>::from_slice(acc);
        let b = Simd::<u16, 64>::from_slice(other);
        a.simd_max(b).copy_to_slice(acc);
    }
}

impl Extremum<Bit> for Max {
    ghost use Rattle.std.specs.Prelude.{max};
    ghost use Rattle.std.proofs.Common.{arith};

    ghost merge = { max };

    ghost neutral_of = { λ m. 0 };

    ghost commutes = { λ a b. Prim.omega arith };

    ghost associates = { λ a b c. Prim.omega arith };

    ghost is_idempotent = { λ a. Prim.omega arith };

    ghost neutral_changes_none = { λ m s h. Prim.omega arith };

    ghost stays_within = { λ a b most p q. Prim.omega arith };

    #[inline(always)]
    fn combine(a: Bit, b: Bit) -> Bit {
        Bit::new(a.is_set() || b.is_set())
    }

    #[inline(always)]
    fn neutral(_maxval: Bit) -> Bit {
        Bit::new(false)
    }
}
