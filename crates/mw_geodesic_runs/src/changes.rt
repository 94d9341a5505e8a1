//! Where a row changes from 0 to 1 and back: the bits of its words that are not as the one before. The lowest of them is found
//! and taken away, one after the other, so that what lies between two changes costs nothing.

ghost use Rattle.std.specs.Prelude.{◌≡◌, ℕ, ◌+◌, ◌*◌, ◌/◌, ◌%◌, ◌<◌, ◌≤◌, ◌^◌, length};
ghost use Rattle.std.specs.Int.{bit_at};
ghost use Rattle.mw_pixel.specs.mw_pixel_words.Packed.{bit_of};
ghost use Rattle.mw_geodesic_runs.specs.Runs.{left_of};
ghost use Rattle.mw_geodesic_runs.specs.Changes.{change_at, IsLowestOne, HasBitsAbove, AreChangesBehind, IsNextChange};

use crate::runs::last_bit;

/// The bit before a word of a row; before the first one it is 0.
#[inline(always)]
fn bit_before(words: &[u64], k: usize) -> u64
    requires { k < length words.now }
    ensures { result ≡ left_of (bit_of words.now) (64 * k) }
{
    if k == 0 {
        return 0;
    }
    last_bit(words[k - 1])
}

/// The bits of a word that are not as the one before, in a row behind a word that ends with this bit.
#[inline(always)]
fn change_bits(word: u64, last: u64) -> u64
    requires { last < 2 }
    ensures first { bit_at result 0 ≡ (bit_at word 0 + last) % 2 }
    ensures others { (i : ℕ) → i + 1 < 64 → bit_at result (i + 1) ≡ (bit_at word (i + 1) + bit_at word i) % 2 }
{
    word ^ ((word << 1) | last)
}

/// The changes of a word of a row.
#[inline(always)]
fn changes_of(words: &[u64], k: usize) -> u64
    requires { k < length words.now }
    ensures { (i : ℕ) → i < 64 → bit_at result i ≡ change_at (bit_of words.now) (64 * k + i) }
{
    change_bits(words[k], bit_before(words, k))
}

/// The lowest bit of a word.
#[inline(always)]
fn lowest_one(bits: u64) -> u32
    requires { 0 < bits }
    ensures within { result < 64 }
    ensures lowest { IsLowestOne bits result }
{
    bits.trailing_zeros()
}

/// The bits of a word without the lowest one.
#[inline(always)]
fn without_lowest(bits: u64) -> u64
    requires { 0 < bits }
    ensures { (t : ℕ) → IsLowestOne bits t → HasBitsAbove bits t result }
{
    bits & (bits - 1)
}

/// The changes of its word behind the first place of a row that is set.
#[inline(always)]
pub(crate) fn changes_behind(words: &[u64], at: usize) -> u64
    requires few { length words.now < 2 ^ 32 }
    requires within { at ≤ 64 * length words.now }
    requires zeros { (x : ℕ) → x < at → bit_of words.now x ≡ 0 }
    requires one { at < 64 * length words.now → bit_of words.now at ≡ 1 }
    ensures { AreChangesBehind words.now at (at / 64) result }
{
    let k = at / 64;
    if k >= words.len() {
        return 0;
    }
    without_lowest(changes_of(words, k))
}

/// The next change behind a place, of whose word the changes behind it are left. Then those behind that one are.
#[inline(always)]
pub(crate) fn next_change(words: &[u64], at: usize, left: &mut u64) -> usize
    requires few { length words.now < 2 ^ 32 }
    requires within { at ≤ 64 * length words.now }
    requires left { AreChangesBehind words.now at (at / 64) left.old }
    ensures next { IsNextChange words.now at result }
    ensures left { AreChangesBehind words.now result (result / 64) left.new }
{
    let mut k = at / 64;
    let mut bits = *left;
    'zeros: while bits == 0 {
        k += 1;
        if k >= words.len() {
            *left = 0;
            return 64 * words.len();
        }
        bits = changes_of(words, k);
    }
    *left = without_lowest(bits);
    64 * k + lowest_one(bits) as usize
}
