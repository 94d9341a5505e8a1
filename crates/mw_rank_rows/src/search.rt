//! The search for the levels of a rank in eight lanes at once. All lanes look from one level on, the front, which moves as
//! the level of a moving histogram does: so they see the same counters, and lanes of rows that lie beside one another find
//! their levels close to one another.
ghost use Rattle.std.specs.Prelude.{◌≡◌, ◌↔◌, ℕ, ◌+◌, ◌-◌, ◌*◌, ◌%◌, ◌<◌, ◌≤◌, IsTrue, length, min, nat_lt, slice_index_or, cond};
ghost use Rattle.mw_rank_rows.specs.Lanes.{Counts, IsFound, HasFewBelow};

use crate::vectors::{all_less, lanes_at, minus, none_less, one_more_below, plus};
use std::simd::Simd;
use std::simd::prelude::*;

/// A level, and how many samples of each lane are below it.
#[derive(Clone, Copy)]
pub(crate) struct Front {
    pub level: usize,
    pub below: Simd<u16, 8>,
}

/// The level of each lane, how far the search went from the front to the last of them, and how far the front had moved.
#[derive(Clone, Copy)]
pub(crate) struct Found {
    pub levels: Simd<u16, 8>,
    pub steps: usize,
    pub moves: usize,
}

/// Moves down until in each lane fewer than n samples are below, or to the lowest level.
fn lower(counts: &[u16], front: Front, n: Simd<u16, 8>) -> Front
    requires n { length n ≡ 8 }
    requires held { (levels : ℕ) × (u : ℕ → ℕ → ℕ) × Counts levels u counts.now front.level front.below }
    ensures counts { (levels : ℕ) (u : ℕ → ℕ → ℕ) → Counts levels u counts.now front.level front.below → Counts levels u counts.now result.level result.below }
    ensures few { HasFewBelow result n }
{
    let mut level = front.level;
    let mut below = front.below;
    while level > 0 && !all_less(below, n) {
        level -= 1;
        below = minus(below, lanes_at(counts, level * 8));
    }
    Front { level, below }
}

/// Moves up while in each lane fewer than n samples are not above.
fn raise(counts: &[u16], front: Front, n: Simd<u16, 8>) -> Front
    requires n { length n ≡ 8 }
    requires held { (levels : ℕ) × (u : ℕ → ℕ → ℕ) × Counts levels u counts.now front.level front.below × ((j : ℕ) → j < 8 → slice_index_or n j 0 ≤ u levels j) }
    ensures counts { (levels : ℕ) (u : ℕ → ℕ → ℕ) → Counts levels u counts.now front.level front.below → Counts levels u counts.now result.level result.below }
    ensures few { HasFewBelow front n → HasFewBelow result n }
{
    let mut level = front.level;
    let mut below = front.below;
    let mut next = plus(below, lanes_at(counts, level * 8));
    while all_less(next, n) {
        level += 1;
        below = next;
        next = plus(below, lanes_at(counts, level * 8));
    }
    Front { level, below }
}

/// Goes on from the front to the level of each lane at which n samples are not above.
fn scan(counts: &[u16], front: Front, n: Simd<u16, 8>) -> Found
    requires n { length n ≡ 8 }
    requires held { (levels : ℕ) × (u : ℕ → ℕ → ℕ) × Counts levels u counts.now front.level front.below × ((j : ℕ) → j < 8 → slice_index_or n j 0 ≤ u levels j) }
    requires few { HasFewBelow front n }
    ensures size { length result.levels ≡ 8 }
    ensures found { (levels : ℕ) (u : ℕ → ℕ → ℕ) → Counts levels u counts.now front.level front.below → (j : ℕ) → j < 8 → IsFound levels u (slice_index_or n j 0) j (slice_index_or result.levels j 0) }
{
    let mut at = front.level;
    let mut sums = plus(front.below, lanes_at(counts, at * 8));
    let mut levels = Simd::<u16, 8>::splat(at as u16);
    while !none_less(sums, n) {
        levels = one_more_below(levels, sums, n);
        at += 1;
        sums = plus(sums, lanes_at(counts, at * 8));
    }
    Found {
        levels,
        steps: at - front.level,
        moves: 0,
    }
}

/// In each lane the level at which n samples are not above, and fewer are below; the lowest where n is 0.
pub(crate) fn select(counts: &[u16], front: &mut Front, n: Simd<u16, 8>) -> Found
    requires n { length n ≡ 8 }
    requires held { (levels : ℕ) × (u : ℕ → ℕ → ℕ) × Counts levels u counts.now front.old.level front.old.below × ((j : ℕ) → j < 8 → slice_index_or n j 0 ≤ u levels j) }
    ensures counts { (levels : ℕ) (u : ℕ → ℕ → ℕ) → Counts levels u counts.now front.old.level front.old.below → Counts levels u counts.now front.new.level front.new.below }
    ensures size { length result.levels ≡ 8 }
    ensures found { (levels : ℕ) (u : ℕ → ℕ → ℕ) → Counts levels u counts.now front.old.level front.old.below → (j : ℕ) → j < 8 → IsFound levels u (slice_index_or n j 0) j (slice_index_or result.levels j 0) }
{
    let lowered = lower(counts, *front, n);
    let raised = raise(counts, lowered, n);
    let moves = raised.level.abs_diff(front.level);
    *front = raised;
    let found = scan(counts, raised, n);
    Found { moves, ..found }
}
