//! Counters that walk down a tile, 128 columns at a time: what a place sees differs from what the one above it sees by the ends
//! of the element's columns alone, as in a moving histogram (Huang, Yang and Tang 1979) that has one level.
ghost use Rattle.std.specs.Prelude.{◌≡◌, ◌⊎◌, ℕ, cond, nat_lt, ◌+◌, ◌-◌, ◌*◌, ◌/◌, ◌^◌, ◌<◌, ◌≤◌, length, slice_index};
ghost use Rattle.mw_bits.specs.mw_pixel_words.Packed.{bit_of};
ghost use Rattle.mw_rank_bits.specs.Numbers.{bits_at, number_at};
ghost use Rattle.mw_rank_bits.specs.Walks.{is_below, AreMoves, WordsHaveRoom, HasColumn, HasBelow};

use crate::counter::{Fewer, More, add_bits};
use crate::lanes::{all_or_none, load, store, turned};

/// Places in rows of bits, counted from a place: those that are seen, those that are seen anew one row further down, and those
/// that are seen no more.
#[derive(Clone, Copy)]
pub(crate) struct Places<'a> {
    pub seen: &'a [usize],
    pub entered: &'a [usize],
    pub left: &'a [usize],
}

/// How many rows there are, how many words they have, how many pairs of words are wanted of each, and where counters start.
#[derive(Clone, Copy)]
pub(crate) struct Rows {
    pub high: usize,
    pub wide: usize,
    pub pairs: usize,
    pub start: u64,
}

/// All numbers become this one.
fn fill(planes: &mut [u64], number: u64)
    requires few { length planes.old / 2 ≤ 64 }
    requires small { number < 2 ^ (length planes.old / 2) }
    ensures { (q : ℕ) → q < 128 → number_at (λ (a : ℕ). a) (length planes.old / 2) planes.new q ≡ number }
{
    for i in 0..planes.len() / 2 {
        store(all_or_none((number >> i) & 1 == 1), planes, 2 * i);
    }
}

/// Writes which numbers are below half of what the digits hold: those whose highest digit is 0.
fn write_below(planes: &[u64], out: &mut [u64], at: usize)
    requires some { 0 < length planes.now / 2 }
    requires room { at + 2 ≤ length out.old }
    ensures put { (q : ℕ) → q < 128 → bit_of out.new (64 * at + q) ≡ cond (nat_lt (number_at (λ (a : ℕ). a) (length planes.now / 2) planes.now q) (2 ^ (length planes.now / 2 - 1))) 1 0 }
    ensures others { (p : ℕ) → (p < 64 * at) ⊎ (64 * at + 128 ≤ p) → bit_of out.new p ≡ bit_of out.old p }
{
    let highest = planes.len() / 2 - 1;
    store(turned(load(planes, 2 * highest)), out, at);
}

/// Goes from what is seen from a word on to what is seen one row further down.
fn step_down(planes: &mut [u64], cells: &[u64], places: Places, at: usize)
    requires digits { 3 ≤ length planes.old / 2 }
    requires left { WordsHaveRoom cells.now places.left.now at }
    requires entered { WordsHaveRoom cells.now places.entered.now at }
    ensures { (start wide q : ℕ) → q < 128 → AreMoves wide places.entry.seen.now places.entry.entered.now places.entry.left.now → start + length places.entry.seen.now < 2 ^ (length planes.old / 2) → number_at (λ (a : ℕ). a) (length planes.old / 2) planes.old q ≡ start + bits_at cells.now places.entry.seen.now (64 * at + q) → number_at (λ (a : ℕ). a) (length planes.old / 2) planes.new q ≡ start + bits_at cells.now places.entry.seen.now (64 * at + q + wide) }
{
    let _seen = places.seen;
    add_bits::<Fewer>(planes, cells, places.left, at);
    add_bits::<More>(planes, cells, places.entered, at);
}

/// Writes at which places of two columns of words the start and what is seen are below half of what the digits hold.
fn walk_down(
    planes: &mut [u64],
    cells: &[u64],
    places: Places,
    rows: Rows,
    j: usize,
    out: &mut [u64],
)
    requires digits { 3 ≤ length planes.old / 2 }
    requires few { length planes.old / 2 ≤ 64 }
    requires small { rows.start + length places.seen.now < 2 ^ (length planes.old / 2) }
    requires moves { AreMoves (64 * rows.wide) places.seen.now places.entered.now places.left.now }
    requires seen { WordsHaveRoom cells.now places.seen.now j }
    requires left { (y : ℕ) → y + 1 < rows.high → WordsHaveRoom cells.now places.left.now (y * rows.wide + j) }
    requires entered { (y : ℕ) → y + 1 < rows.high → WordsHaveRoom cells.now places.entered.now (y * rows.wide + j) }
    requires inside { j + 2 ≤ 2 * rows.pairs }
    requires some { 0 < rows.high }
    requires room { rows.high * (2 * rows.pairs) ≤ length out.old }
    requires fits { rows.high * rows.wide + 2 * rows.pairs < 2 ^ 64 }
    ensures { HasColumn (λ q y. is_below (length planes.old / 2) rows.start cells.now places.entry.seen.now (64 * (y * rows.wide + j) + q)) (2 * rows.pairs) j rows.high out.old out.new }
{
    fill(planes, rows.start);
    add_bits::<More>(planes, cells, places.seen, j);
    write_below(planes, out, j);
    for y in 1..rows.high {
        step_down(planes, cells, places, (y - 1) * rows.wide + j);
        write_below(planes, out, y * (2 * rows.pairs) + j);
    }
}

/// Writes at which places the start and what is seen are below half of what the digits hold.
pub(crate) fn walk_all(
    planes: &mut [u64],
    cells: &[u64],
    places: Places,
    rows: Rows,
    out: &mut [u64],
)
    requires digits { 3 ≤ length planes.old / 2 }
    requires few { length planes.old / 2 ≤ 64 }
    requires small { rows.start + length places.seen.now < 2 ^ (length planes.old / 2) }
    requires moves { AreMoves (64 * rows.wide) places.seen.now places.entered.now places.left.now }
    requires seen { WordsHaveRoom cells.now places.seen.now (2 * rows.pairs - 2) }
    requires left { (y : ℕ) → y + 1 < rows.high → WordsHaveRoom cells.now places.left.now (y * rows.wide + (2 * rows.pairs - 2)) }
    requires entered { (y : ℕ) → y + 1 < rows.high → WordsHaveRoom cells.now places.entered.now (y * rows.wide + (2 * rows.pairs - 2)) }
    requires some { 0 < rows.high }
    requires room { rows.high * (2 * rows.pairs) ≤ length out.old }
    requires fits { rows.high * rows.wide + 2 * rows.pairs < 2 ^ 64 }
    ensures { HasBelow (length planes.old / 2) rows cells.now places.entry.seen.now out.new }
{
    let _seen = places.seen;
    for i in 0..rows.pairs {
        walk_down(planes, cells, places, rows, 2 * i, out);
    }
}
