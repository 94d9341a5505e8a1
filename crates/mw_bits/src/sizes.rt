//! How many pixels the cells stand for while they grow, and which runs are merged then.
ghost use Rattle.std.specs.Prelude.{◌≡◌, ℕ, ◌*◌, ◌<◌, ◌≤◌, ◌^◌};
ghost use Rattle.std.specs.List.{AllByRecursion};
ghost use Rattle.mw_offset.specs.mw_element_runs.declared.runs.Run.{Run};

use mw_offset::run::{Run, Sizes};

/// The longest run's length.
pub(crate) fn longest_of(runs: &[Run]) -> usize
    ensures all { AllByRecursion (λ (r : Run). r.count ≤ result) runs.now }
    ensures least { (n : ℕ) → AllByRecursion (λ (r : Run). r.count ≤ n) runs.now → result ≤ n }
    ensures small { result < 2 ^ 32 }
{
    let mut longest = 0u32;
    for i in 0..runs.len() {
        longest = longest.max(runs[i].count);
    }
    longest as usize
}

/// The size that comes after that one: twice as much, or the first between that so many runs have that a merge less for each,
/// of `merged` words, is worth a pass over the cells.
pub(crate) fn next_size(counts: &[usize], least: usize, cells: usize, merged: usize) -> Sizes
    requires some { 0 < least }
    requires few { least < 2 ^ 63 }
    ensures least { result.least ≡ least }
    ensures more { least < result.next }
    ensures twice { result.next ≤ 2 * least }
{
    for next in least + 1..(2 * least).min(counts.len()) {
        if counts[next].saturating_mul(merged) > cells {
            return Sizes { least, next };
        }
    }
    Sizes {
        least,
        next: 2 * least,
    }
}
