//! Vectors of samples less others, lane by lane.
ghost use Rattle.std.specs.Prelude.{◌≡◌, ℕ, ◌-◌, ◌<◌, length, slice_index_or};

use crate::lanes::Laned;
use crate::lanes_8::Lanes8;
use crate::lanes_16::Lanes16;
use std::simd::Simd;
use std::simd::prelude::*;

/// Samples whose vectors are subtracted.
pub trait LanedLess: Laned {
    /// Each lane less the other's, stopping at 0.
    fn less(a: Self::Vector, b: Self::Vector) -> Self::Vector
        ensures { (i : ℕ) → i < Self.WIDTH → Self.level (Self.lane result i) ≡ Self.level (Self.lane a i) - Self.level (Self.lane b i) };
}

/// The first of each pair less the second, stopping at 0.
#[inline(always)]
fn differences_8(a: Simd<u8, 32>, b: Simd<u8, 32>) -> Simd<u8, 32>
    requires first { length a ≡ 32 }
    requires second { length b ≡ 32 }
    ensures whole { length result ≡ 32 }
    ensures lanes { (i : ℕ) → i < 32 → slice_index_or result i 0 ≡ slice_index_or a i 0 - slice_index_or b i 0 }
{
    a.simd_max(b) - b
}

impl LanedLess for u8 {
    #[inline(always)]
    fn less(a: Lanes8, b: Lanes8) -> Lanes8 {
        Lanes8 {
            lanes: differences_8(a.lanes, b.lanes),
        }
    }
}

/// The first of each pair less the second, stopping at 0.
#[inline(always)]
fn differences_16(a: Simd<u16, 16>, b: Simd<u16, 16>) -> Simd<u16, 16>
    requires first { length a ≡ 16 }
    requires second { length b ≡ 16 }
    ensures whole { length result ≡ 16 }
    ensures lanes { (i : ℕ) → i < 16 → slice_index_or result i 0 ≡ slice_index_or a i 0 - slice_index_or b i 0 }
{
    a.simd_max(b) - b
}

impl LanedLess for u16 {
    #[inline(always)]
    fn less(a: Lanes16, b: Lanes16) -> Lanes16 {
        Lanes16 {
            lanes: differences_16(a.lanes, b.lanes),
        }
    }
}
