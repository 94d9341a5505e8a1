//! A forest of numbers: each has a parent that is no greater, and a root is its own. Numbers with one root are one class.

ghost use Rattle.std.specs.Prelude.{◌≡◌, ℕ, ◌<◌, ◌≤◌, length, slice_index, IfOk, vec_len};
ghost use Rattle.mw_geodesic_runs.specs.Forests.{IsForest, Respects, AllAlone, HasSameColours, HasJoined};

use mw_model::NoMemory;
use std::alloc::Global;

/// So many numbers, each a root.
pub(crate) fn alone(alloc: Global, count: u32) -> Result<Vec<u32>, NoMemory>
    ensures size { IfOk result (λ r. vec_len r ≡ count) }
    ensures alone { IfOk result (λ r. AllAlone r.items) }
{
    let mut parent = Vec::with_capacity(alloc, count as usize)?;
    for i in 0..count {
        parent.push(i)?;
    }
    Ok(parent)
}

/// The root of a number. Each second number on the way gets the parent of its parent.
pub(crate) fn find(parent: &mut [u32], i: u32) -> u32
    requires forest { IsForest parent.old }
    requires within { i < length parent.old }
    ensures forest { IsForest parent.new }
    ensures lower { result ≤ i }
    ensures root { slice_index parent.new result ≡ result }
    ensures roots { (k : ℕ) → slice_index parent.old k ≡ k → slice_index parent.new k ≡ k }
    ensures colours { HasSameColours parent.old parent.new }
    ensures one { (f : ℕ → ℕ) → Respects parent.old f → f result ≡ f i }
{
    let mut at = i;
    'up: while parent[at as usize] != at {
        let next = parent[parent[at as usize] as usize];
        parent[at as usize] = next;
        at = next;
    }
    at
}

/// Makes the classes of two numbers one: the lesser root becomes the parent of the other.
pub(crate) fn unite(parent: &mut [u32], a: u32, b: u32)
    requires forest { IsForest parent.old }
    requires first { a < length parent.old }
    requires second { b < length parent.old }
    ensures forest { IsForest parent.new }
    ensures joined { HasJoined parent.old a b parent.new }
{
    let root = find(parent, a);
    let other = find(parent, b);
    if root < other {
        parent[other as usize] = root;
    } else {
        parent[root as usize] = other;
    }
}

/// The same of two numbers of which the second is no less: where that is still a root, it takes the parent of the first, and
/// where both have one parent, nothing is to be done. So most numbers find no root.
#[inline(always)]
pub(crate) fn join(parent: &mut [u32], a: u32, b: u32)
    requires forest { IsForest parent.old }
    requires order { a < b }
    requires within { b < length parent.old }
    ensures forest { IsForest parent.new }
    ensures joined { HasJoined parent.old a b parent.new }
{
    let above = parent[a as usize];
    let own = parent[b as usize];
    if own == above {
        return;
    }
    if own == b {
        parent[b as usize] = above;
    } else {
        unite(parent, a, b);
    }
}
