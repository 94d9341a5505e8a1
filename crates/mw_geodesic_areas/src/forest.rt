//! A forest of numbers: each has a parent that is no greater, and a root is its own.

ghost use Rattle.std.specs.Prelude.{◌≡◌, ℕ, ◌<◌, ◌≤◌, length, slice_index, IfOk, vec_len};
ghost use Rattle.mw_geodesic_areas.specs.Forests.{IsParentForest, EachByItself, AreRoots, KeepsRoots};

use mw_model::NoMemory;
use std::alloc::Global;

/// So many numbers, each a root.
pub(crate) fn alone(alloc: Global, count: u32) -> Result<Vec<u32>, NoMemory>
    ensures size { IfOk result (λ r. vec_len r ≡ count) }
    ensures alone { IfOk result (λ r. EachByItself r.items) }
{
    let mut parent = Vec::with_capacity(alloc, count as usize)?;
    for i in 0..count {
        parent.push(i)?;
    }
    Ok(parent)
}

/// The root of a number. Each second number on the way gets the parent of its parent (halving of paths, van Leeuwen and van
/// der Weide 1977). Nothing is written where that is the root.
pub(crate) fn find(parent: &mut [u32], i: u32) -> u32
    requires forest { IsParentForest parent.old }
    requires within { i < length parent.old }
    ensures forest { IsParentForest parent.new }
    ensures lower { result ≤ i }
    ensures keeps { KeepsRoots parent.old parent.new }
    ensures root { (c : ℕ → ℕ) → AreRoots parent.old c → result ≡ c i }
{
    let mut at = i;
    'up: while parent[at as usize] != at {
        let up = parent[at as usize];
        let next = parent[up as usize];
        if next == up {
            return up;
        }
        parent[at as usize] = next;
        at = next;
    }
    at
}
