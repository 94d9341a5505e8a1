//! Words that lie at any place of a row of bits: place p of some words is bit p % 64 of word p / 64.
ghost use Rattle.std.specs.Prelude.{◌≡◌, ℕ, ◌+◌, ◌-◌, ◌<◌, ◌≤◌, slice_index};
ghost use Rattle.std.specs.Int.{bit_at};
ghost use Rattle.mw_pixel_words.specs.Packed.{bit_of};

/// The 64 bits from bit `shift` of the lower word on.
#[inline(always)]
pub fn funnel(low: u64, high: u64, shift: u32) -> u64
    requires { shift < 64 }
    ensures below { (i : ℕ) → shift + i < 64 → bit_at result i ≡ bit_at low (shift + i) }
    ensures above { (i : ℕ) → i < 64 → 64 ≤ shift + i → bit_at result i ≡ bit_at high (shift + i - 64) }
{
    (low >> shift) | ((high << 1) << (63 - shift))
}

/// The word at a place; behind the last word there are words of 0.
#[inline(always)]
fn word_at(words: &[u64], k: usize) -> u64
    ensures { result ≡ slice_index words.now k }
{
    if k < words.len() { words[k] } else { 0 }
}

/// The 64 bits from a place on; behind the last word there are bits of 0.
#[inline(always)]
pub(crate) fn bits_from(words: &[u64], place: usize) -> u64
    ensures { (i : ℕ) → i < 64 → bit_at result i ≡ bit_of words.now (place + i) }
{
    let first = place / 64;
    let low = word_at(words, first);
    let high = word_at(words, first + 1);
    funnel(low, high, (place % 64) as u32)
}
