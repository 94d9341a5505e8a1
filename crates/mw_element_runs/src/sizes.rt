//! How many samples a cell stands for while cells grow, so that a run of any length is two of them, and how many runs have each
//! length.
ghost use Rattle.std.specs.Prelude.{◌≡◌, ℕ, ◌+◌, ◌<◌, ◌≤◌, ◌^◌, vec_len, slice_index, IfOk};
ghost use Rattle.std.specs.List.{AllByRecursion};
ghost use Rattle.mw_element_runs.specs.declared.runs.Run.{Run};
ghost use Rattle.mw_element_runs.specs.Runs.{runs_as_long};

use crate::runs::Run;
use mw_model::NoMemory;
use std::alloc::Global;

/// The samples of a cell, and those of a cell that comes next: runs from the one on, and below the other, are two cells each.
#[derive(Clone, Copy)]
pub struct Sizes {
    pub least: usize,
    pub next: usize,
}

/// How many runs have each length, up to the longest.
pub fn counts_of(alloc: Global, runs: &[Run], longest: usize) -> Result<Vec<usize>, NoMemory>
    requires all { AllByRecursion (λ (r : Run). r.count ≤ longest) runs.now }
    requires small { longest < 2 ^ 32 }
    ensures size { IfOk result (λ v. vec_len v ≡ longest + 1) }
    ensures counts { IfOk result (λ v. (n : ℕ) → n ≤ longest → slice_index v.items n ≡ runs_as_long n runs.now) }
{
    let mut counts = vec![in alloc; 0usize; longest + 1]?;
    for i in 0..runs.len() {
        let count = runs[i].count as usize;
        counts[count] += 1;
    }
    Ok(counts)
}
