//! Sums of bits that stand at places of a row, for 128 places at once.
ghost use Rattle.std.specs.Prelude.{◌≡◌, ℕ, ◌+◌, ◌*◌, ◌/◌, ◌<◌, ◌≤◌, length, take, drop, slice_index};
ghost use Rattle.mw_bits.specs.mw_pixel_words.Packed.{bit_of};
ghost use Rattle.mw_rank_bits.specs.Numbers.{bits_at, two_digits, three_digits};

use crate::lanes::{Lanes, ahead, all_or_none, majority, parity};

/// Numbers of two binary digits.
#[derive(Clone, Copy)]
pub(crate) struct TwoDigits {
    pub ones: Lanes,
    pub twos: Lanes,
}

/// Numbers of three binary digits.
#[derive(Clone, Copy)]
pub(crate) struct ThreeDigits {
    pub ones: Lanes,
    pub twos: Lanes,
    pub fours: Lanes,
}

/// The sum of three bits.
#[inline(always)]
pub(crate) fn sum_of_three(a: Lanes, b: Lanes, c: Lanes) -> TwoDigits
    ensures { (q : ℕ) → q < 128 → two_digits result q ≡ bit_of a.words q + bit_of b.words q + bit_of c.words q }
{
    TwoDigits {
        ones: parity(a, b, c),
        twos: majority(a, b, c),
    }
}

/// The sum of seven bits, of which three are added up, and three more.
#[inline(always)]
fn sum_of_seven(a: TwoDigits, b: TwoDigits, last: Lanes) -> ThreeDigits
    ensures { (q : ℕ) → q < 128 → three_digits result q ≡ two_digits a q + two_digits b q + bit_of last.words q }
{
    let low = sum_of_three(a.ones, b.ones, last);
    let high = sum_of_three(a.twos, b.twos, low.twos);
    ThreeDigits {
        ones: low.ones,
        twos: high.ones,
        fours: high.twos,
    }
}

/// The bits from a place of the list on, counted from that word.
#[inline(always)]
fn look(cells: &[u64], places: &[usize], i: usize, at: usize) -> Lanes
    requires index { i < length places.now }
    requires room { slice_index places.now i / 64 + at + 3 ≤ length cells.now }
    ensures { (q : ℕ) → q < 128 → bit_of result.words q ≡ bit_of cells.now (slice_index places.now i + (64 * at + q)) }
{
    let place = places[i];
    ahead(cells, place / 64 + at, (place % 64) as u32)
}

/// The sum of the bits at three places of the list.
#[inline(always)]
fn three_at(cells: &[u64], places: &[usize], i: usize, at: usize) -> TwoDigits
    requires index { i + 3 ≤ length places.now }
    requires room { (k : ℕ) → k < length places.now → slice_index places.now k / 64 + at + 3 ≤ length cells.now }
    ensures { (q : ℕ) → q < 128 → two_digits result q ≡ bits_at cells.now (take 3 (drop i places.now)) (64 * at + q) }
{
    let a = look(cells, places, i, at);
    let b = look(cells, places, i + 1, at);
    let c = look(cells, places, i + 2, at);
    sum_of_three(a, b, c)
}

/// The bit at a place of the list.
#[inline(always)]
pub(crate) fn sum_at_one(cells: &[u64], places: &[usize], i: usize, at: usize) -> ThreeDigits
    requires index { i < length places.now }
    requires room { (k : ℕ) → k < length places.now → slice_index places.now k / 64 + at + 3 ≤ length cells.now }
    ensures { (q : ℕ) → q < 128 → three_digits result q ≡ bits_at cells.now (take 1 (drop i places.now)) (64 * at + q) }
{
    ThreeDigits {
        ones: look(cells, places, i, at),
        twos: all_or_none(false),
        fours: all_or_none(false),
    }
}

/// The sum of the bits at three places of the list.
#[inline(always)]
pub(crate) fn sum_at_three(cells: &[u64], places: &[usize], i: usize, at: usize) -> ThreeDigits
    requires index { i + 3 ≤ length places.now }
    requires room { (k : ℕ) → k < length places.now → slice_index places.now k / 64 + at + 3 ≤ length cells.now }
    ensures { (q : ℕ) → q < 128 → three_digits result q ≡ bits_at cells.now (take 3 (drop i places.now)) (64 * at + q) }
{
    let sum = three_at(cells, places, i, at);
    ThreeDigits {
        ones: sum.ones,
        twos: sum.twos,
        fours: all_or_none(false),
    }
}

/// The sum of the bits at seven places of the list.
#[inline(always)]
pub(crate) fn sum_at_seven(cells: &[u64], places: &[usize], i: usize, at: usize) -> ThreeDigits
    requires index { i + 7 ≤ length places.now }
    requires room { (k : ℕ) → k < length places.now → slice_index places.now k / 64 + at + 3 ≤ length cells.now }
    ensures { (q : ℕ) → q < 128 → three_digits result q ≡ bits_at cells.now (take 7 (drop i places.now)) (64 * at + q) }
{
    let a = three_at(cells, places, i, at);
    let b = three_at(cells, places, i + 3, at);
    let last = look(cells, places, i + 6, at);
    sum_of_seven(a, b, last)
}
