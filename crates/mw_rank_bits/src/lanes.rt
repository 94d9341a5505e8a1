//! 128 bits side by side: two words of a row of bits, as one vector.
ghost use Rattle.std.specs.Prelude.{◌≡◌, ◌⊎◌, ℕ, Bool, cond, ◌+◌, ◌-◌, ◌*◌, ◌/◌, ◌%◌, ◌<◌, ◌≤◌, length};
ghost use Rattle.mw_bits.specs.mw_pixel_words.Packed.{bit_of};

use std::simd::Simd;
use std::simd::prelude::*;

/// Two words.
#[derive(Clone, Copy)]
pub(crate) struct Lanes {
    pub words: Simd<u64, 2>,
    pub ghost whole: { length words ≡ 2 },
}

/// All bits, or none.
#[inline(always)]
pub(crate) fn all_or_none(all: bool) -> Lanes
    ensures { (q : ℕ) → q < 128 → bit_of result.words q ≡ cond all 1 0 }
{
    let word = if all { u64::MAX } else { 0 };
    Lanes {
        words: Simd::<u64, 2>::splat(word),
    }
}

/// The words from that one on.
#[inline(always)]
pub(crate) fn load(words: &[u64], at: usize) -> Lanes
    requires { at + 2 ≤ length words.now }
    ensures { (q : ℕ) → q < 128 → bit_of result.words q ≡ bit_of words.now (64 * at + q) }
{
    Lanes {
        words: Simd::<u64, 2>::from_slice(&words[at..at + 2]),
    }
}

/// Writes the words from that one on.
#[inline(always)]
pub(crate) fn store(lanes: Lanes, out: &mut [u64], at: usize)
    requires { at + 2 ≤ length out.old }
    ensures put { (q : ℕ) → q < 128 → bit_of out.new (64 * at + q) ≡ bit_of lanes.words q }
    ensures others { (p : ℕ) → (p < 64 * at) ⊎ (64 * at + 128 ≤ p) → bit_of out.new p ≡ bit_of out.old p }
{
    lanes.words.copy_to_slice(&mut out[at..at + 2]);
}

/// The bits from that bit of that word on.
#[inline(always)]
pub(crate) fn ahead(words: &[u64], at: usize, shift: u32) -> Lanes
    requires room { at + 3 ≤ length words.now }
    requires small { shift < 64 }
    ensures { (q : ℕ) → q < 128 → bit_of result.words q ≡ bit_of words.now (64 * at + shift + q) }
{
    let low = Simd::<u64, 2>::from_slice(&words[at..at + 2]);
    let high = Simd::<u64, 2>::from_slice(&words[at + 1..at + 3]);
    let right = Simd::<u64, 2>::splat(shift as u64);
    let one = Simd::<u64, 2>::splat(1);
    let left = Simd::<u64, 2>::splat((63 - shift) as u64);
    Lanes {
        words: (low >> right) | ((high << one) << left),
    }
}

/// Each bit turned round.
#[inline(always)]
pub(crate) fn turned(a: Lanes) -> Lanes
    ensures { (q : ℕ) → q < 128 → bit_of result.words q ≡ 1 - bit_of a.words q }
{
    Lanes {
        words: a.words ^ Simd::<u64, 2>::splat(u64::MAX),
    }
}

/// The lower digit of the sum of three bits.
#[inline(always)]
pub(crate) fn parity(a: Lanes, b: Lanes, c: Lanes) -> Lanes
    ensures { (q : ℕ) → q < 128 → bit_of result.words q ≡ (bit_of a.words q + bit_of b.words q + bit_of c.words q) % 2 }
{
    Lanes {
        words: a.words ^ b.words ^ c.words,
    }
}

/// The higher digit of the sum of three bits.
#[inline(always)]
pub(crate) fn majority(a: Lanes, b: Lanes, c: Lanes) -> Lanes
    ensures { (q : ℕ) → q < 128 → bit_of result.words q ≡ (bit_of a.words q + bit_of b.words q + bit_of c.words q) / 2 }
{
    Lanes {
        words: (a.words & b.words) | ((a.words ^ b.words) & c.words),
    }
}
