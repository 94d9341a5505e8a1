//! How many samples the cells stand for while they grow, and which runs are merged then.
ghost use Rattle.std.specs.Prelude.{◌≡◌, ◌*◌, ◌<◌, ◌≤◌, ◌^◌};
ghost use Rattle.std.specs.List.{AllByRecursion};
ghost use Rattle.mw_model.specs.declared.limits.TheConstants.{FAR_LIMIT};
ghost use Rattle.mw_element_runs.specs.declared.runs.Run.{Run};

use mw_element_runs::{Run, Sizes};

/// The longest run's length.
pub(crate) fn longest_of(runs: &[Run]) -> usize
    ensures all { AllByRecursion (λ (r : Run). r.count ≤ result) runs.now }
    ensures small { result < 2 ^ 32 }
{
    let mut longest = 0u32;
    for i in 0..runs.len() {
        longest = longest.max(runs[i].count);
    }
    longest as usize
}

/// The size that comes after that one: twice as much, or a length between that has so many runs that one merge less for
/// each is worth a pass over the cells, of which there are so many for each sample.
pub(crate) fn next_size(counts: &[usize], least: usize, per_sample: usize) -> Sizes
    requires some { 0 < least }
    requires few { least ≤ FAR_LIMIT }
    ensures least { result.least ≡ least }
    ensures more { least < result.next }
    ensures twice { result.next ≤ 2 * least }
{
    let mut next = 2 * least;
    let mut most = per_sample.saturating_add(1).saturating_mul(2);
    for count in least + 1..(2 * least).min(counts.len()) {
        if counts[count] > most {
            most = counts[count];
            next = count;
        }
    }
    Sizes { least, next }
}
