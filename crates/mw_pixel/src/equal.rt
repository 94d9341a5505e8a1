//! Whether two rows of samples are equal, by 64 samples at a time.

ghost use Rattle.std.specs.Prelude.{◌≡◌, ◌↔◌, IsTrue, length};

use crate::Pixel;
use std::simd::Simd;
use std::simd::prelude::*;

/// Samples that are compared one at a time, and 64 at a time.
pub trait Blocks: Pixel {
    /// Whether the samples are one.
    fn is_same(a: Self, b: Self) -> bool
        ensures { IsTrue result ↔ (a ≡ b) };

    /// Whether 64 pairs are equal.
    fn equal_block(a: &[Self], b: &[Self]) -> bool
        requires whole { length a.now ≡ 64 }
        requires paired { length b.now ≡ 64 }
        ensures { IsTrue result ↔ (a.now ≡ b.now) };
}

impl Blocks for u8 {
    #[inline(always)]
    fn is_same(a: u8, b: u8) -> bool {
        a == b
    }

    #[inline(always)]
    fn equal_block(a: &[u8], b: &[u8]) -> bool {
        let first = Simd::<u8, 64>::from_slice(a);
        let second = Simd::<u8, 64>::from_slice(b);
        first.simd_ne(second).to_bitmask() == 0
    }
}

impl Blocks for u16 {
    #[inline(always)]
    fn is_same(a: u16, b: u16) -> bool {
        a == b
    }

    #[inline(always)]
    fn equal_block(a: &[u16], b: &[u16]) -> bool {
        let first = Simd::<u16, 64>::from_slice(a);
        let second = Simd::<u16, 64>::from_slice(b);
        first.simd_ne(second).to_bitmask() == 0
    }
}

/// Whether the rows have one length and the same sample at each place.
pub fn equal_rows<P: Blocks>(a: &[P], b: &[P]) -> bool
    ensures { IsTrue result ↔ (a.now ≡ b.now) }
{
    if a.len() != b.len() {
        return false;
    }
    let mut at = 0usize;
    'by_block: while a.len() - at >= 64 {
        if !P::equal_block(&a[at..at + 64], &b[at..at + 64]) {
            return false;
        }
        at += 64;
    }
    'by_one: while at < a.len() {
        if !P::is_same(a[at], b[at]) {
            return false;
        }
        at += 1;
    }
    true
}
