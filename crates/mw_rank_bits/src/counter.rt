//! Counters of 128 places, each a number in binary digits: one plane of 128 bits for each digit, so that one step counts for all
//! places at once. Bits are first added up by carry-save adders (Wallace 1964), seven to a number of three digits, as Harley and
//! Seal count the bits of many words (Warren, Hacker's Delight, 2nd edition, section 5-1).
ghost use Rattle.std.specs.Prelude.{◌≡◌, ◌⊎◌, ℕ, ◌+◌, ◌-◌, ◌*◌, ◌/◌, ◌%◌, ◌^◌, ◌<◌, ◌≤◌, length, slice_index};
ghost use Rattle.mw_bits.specs.mw_pixel_words.Packed.{bit_of};
ghost use Rattle.mw_rank_bits.specs.Numbers.{bits_at, three_digits, HasAdded};

use crate::adding::{ThreeDigits, sum_at_one, sum_at_seven, sum_at_three};
use crate::lanes::{Lanes, all_or_none, load, majority, parity, store, turned};

/// Which way counters go.
pub(crate) trait Way {
    ghost seen: { ℕ → ℕ };

    /// What is carried to the next digit.
    fn carried(digit: Lanes, other: Lanes, carry: Lanes) -> Lanes
        ensures { (q : ℕ) → q < 128 → bit_of result.words q ≡ (seen (bit_of digit.words q) + bit_of other.words q + bit_of carry.words q) / 2 };

    ghost law: { (a n : ℕ) → a < 2 → n ≤ 2 → seen ((a + n) % 2) + 2 * ((seen a + n) / 2) ≡ seen a + n };
}

/// Bits are counted.
pub(crate) struct More;

/// Bits are taken back: a digit is seen as what it lacks of 1.
pub(crate) struct Fewer;

impl Way for More {
    ghost use Rattle.std.proofs.Common.{arith};

    ghost seen = { λ (a : ℕ). a };

    #[inline(always)]
    fn carried(digit: Lanes, other: Lanes, carry: Lanes) -> Lanes {
        majority(digit, other, carry)
    }

    ghost law = { λ a n small few. Prim.omega arith };
}

impl Way for Fewer {
    ghost use Rattle.std.proofs.Common.{arith};

    ghost seen = { λ (a : ℕ). 1 - a };

    #[inline(always)]
    fn carried(digit: Lanes, other: Lanes, carry: Lanes) -> Lanes {
        majority(turned(digit), other, carry)
    }

    ghost law = { λ a n small few. Prim.omega arith };
}

/// Adds a digit, and what is carried, to those of a plane; gives what is carried on.
#[inline(always)]
fn step_plane<W: Way>(planes: &mut [u64], i: usize, other: Lanes, carry: Lanes) -> Lanes
    requires { 2 * i + 2 ≤ length planes.old }
    ensures digit { (q : ℕ) → q < 128 → W.seen (bit_of planes.new (128 * i + q)) + 2 * bit_of result.words q ≡ W.seen (bit_of planes.old (128 * i + q)) + bit_of other.words q + bit_of carry.words q }
    ensures others { (p : ℕ) → (p < 128 * i) ⊎ (128 * i + 128 ≤ p) → bit_of planes.new p ≡ bit_of planes.old p }
{
    let digit = load(planes, 2 * i);
    store(parity(digit, other, carry), planes, 2 * i);
    W::carried(digit, other, carry)
}

/// Adds numbers of three digits.
#[inline(always)]
fn add<W: Way>(planes: &mut [u64], digits: ThreeDigits)
    requires { 3 ≤ length planes.old / 2 }
    ensures { HasAdded W.seen (length planes.old / 2) (three_digits digits) planes.old planes.new }
{
    let none = all_or_none(false);
    let twos = step_plane::<W>(planes, 0, digits.ones, none);
    let fours = step_plane::<W>(planes, 1, digits.twos, twos);
    let mut carry = step_plane::<W>(planes, 2, digits.fours, fours);
    'carry: for i in 3..planes.len() / 2 {
        carry = step_plane::<W>(planes, i, none, carry);
    }
}

/// Adds the bits at the places, one after another.
fn add_ones<W: Way>(planes: &mut [u64], cells: &[u64], places: &[usize], at: usize)
    requires digits { 3 ≤ length planes.old / 2 }
    requires room { (k : ℕ) → k < length places.now → slice_index places.now k / 64 + at + 3 ≤ length cells.now }
    ensures { HasAdded W.seen (length planes.old / 2) (λ q. bits_at cells.now places.now (64 * at + q)) planes.old planes.new }
{
    for i in 0..places.len() {
        add::<W>(planes, sum_at_one(cells, places, i, at));
    }
}

/// Adds the bits at the places, three at a time.
fn add_threes<W: Way>(planes: &mut [u64], cells: &[u64], places: &[usize], at: usize)
    requires digits { 3 ≤ length planes.old / 2 }
    requires room { (k : ℕ) → k < length places.now → slice_index places.now k / 64 + at + 3 ≤ length cells.now }
    ensures { HasAdded W.seen (length planes.old / 2) (λ q. bits_at cells.now places.now (64 * at + q)) planes.old planes.new }
{
    let whole = places.len() / 3;
    for i in 0..whole {
        add::<W>(planes, sum_at_three(cells, places, 3 * i, at));
    }
    add_ones::<W>(planes, cells, &places[3 * whole..], at);
}

/// Adds to each number how many bits are set at the places, counted from that word on: seven at a time, which three digits hold.
pub(crate) fn add_bits<W: Way>(planes: &mut [u64], cells: &[u64], places: &[usize], at: usize)
    requires digits { 3 ≤ length planes.old / 2 }
    requires room { (k : ℕ) → k < length places.now → slice_index places.now k / 64 + at + 3 ≤ length cells.now }
    ensures { HasAdded W.seen (length planes.old / 2) (λ q. bits_at cells.now places.now (64 * at + q)) planes.old planes.new }
{
    let whole = places.len() / 7;
    for i in 0..whole {
        add::<W>(planes, sum_at_seven(cells, places, 7 * i, at));
    }
    add_threes::<W>(planes, cells, &places[7 * whole..], at);
}

/// How many sums the bits at so many places are.
pub(crate) fn sums_of(count: usize) -> usize {
    let rest = count % 7;
    count / 7 + rest / 3 + rest % 3
}
