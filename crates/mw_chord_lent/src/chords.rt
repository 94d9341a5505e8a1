//! Which chords are made, and where those of each run stand.
ghost use Rattle.std.specs.Prelude.{◌≡◌, ℕ, ◌+◌, ◌-◌, ◌*◌, ◌<◌, ◌≤◌, ◌^◌, ◌++◌, length, slice_index_or, IfOk, OnOk};
ghost use Rattle.std.specs.List.{AllByRecursion};
ghost use Rattle.mw_offset.specs.mw_element_runs.declared.runs.Run.{Run};
ghost use Rattle.mw_offset.specs.mw_element_runs.Runs.{RunIsInside, start_of};
ghost use Rattle.mw_chord_lent.specs.Placed.{ArePlaced, one_or_two};
ghost use Rattle.mw_chord_lent.specs.Sizes.{AreSizes, AreSizesTo};

use mw_model::NoMemory;
use mw_offset::run::{Extent, Run, counts_of, start_of_run};
use std::alloc::Global;

/// From how many runs of one length on a list of their chords costs less than a second chord of each.
pub(crate) const MANY: usize = 6;

/// The longest run's length.
pub(crate) fn longest_of(runs: &[Run]) -> usize
    ensures all { AllByRecursion (λ (r : Run). r.count ≤ result) runs.now }
    ensures small { result < 2 ^ 32 }
{
    let mut longest = 0u32;
    for i in 0..runs.len() {
        longest = longest.max(runs[i].count);
    }
    longest as usize
}

/// The length that comes after that one: the first that so many runs have, or twice as much.
fn next_size(counts: &[usize], size: usize, many: usize) -> usize
    requires some { 0 < size }
    requires few { size ≤ 256 }
    ensures more { size < result }
    ensures twice { result ≤ 2 * size }
{
    for count in size + 1..(2 * size).min(counts.len()) {
        if counts[count] >= many {
            return count;
        }
    }
    2 * size
}

/// The lengths of chords that runs up to the longest are made up of: doublings, and those that so many runs have.
pub(crate) fn sizes_of(
    alloc: Global,
    runs: &[Run],
    longest: usize,
    many: usize,
) -> Result<Vec<usize>, NoMemory>
    requires some { 0 < longest }
    requires short { longest ≤ 256 }
    requires all { AllByRecursion (λ (r : Run). r.count ≤ longest) runs.now }
    ensures { IfOk result (λ v. AreSizesTo longest v.items) }
{
    let counts = counts_of(alloc, runs, longest)?;
    let mut sizes = Vec::new(alloc);
    let mut size = 1usize;
    let mut next = next_size(counts.as_slice(), size, many);
    sizes.push(size)?;
    'sizes: while next <= longest {
        size = next;
        next = next_size(counts.as_slice(), size, many);
        sizes.push(size)?;
    }
    Ok(sizes)
}

/// The list of the longest chords that a run of so many has.
fn list_of(sizes: &[usize], count: usize) -> usize
    requires chain { AreSizes sizes.now }
    requires some { 0 < count }
    requires last { (j : ℕ) → j + 1 ≡ length sizes.now → count < 2 * slice_index_or sizes.now j 0 }
    ensures inside { result < length sizes.now }
    ensures within { slice_index_or sizes.now result 0 ≤ count }
    ensures twice { count ≤ 2 * slice_index_or sizes.now result 0 }
{
    let mut j = 0usize;
    'longer: while j + 1 < sizes.len() && sizes[j + 1] <= count {
        j += 1;
    }
    j
}

/// Adds a place, and another so much further on, if there is more.
fn push_places(places: &mut Vec<usize>, start: usize, more: usize) -> Result<(), NoMemory>
    requires { start + more < 2 ^ 64 }
    ensures { OnOk result (places.new.items ≡ places.old.items ++ one_or_two start more) }
{
    places.push(start)?;
    if more > 0 {
        places.push(start + more)?;
    }
    Ok(())
}

/// The places of all runs, in rows of `wide` and lists of `span`.
pub(crate) fn places_of(
    alloc: Global,
    runs: &[Run],
    sizes: &[usize],
    extent: Extent,
    wide: usize,
    span: usize,
) -> Result<Vec<usize>, NoMemory>
    requires chain { AreSizes sizes.now }
    requires last { (j : ℕ) → j + 1 ≡ length sizes.now → AllByRecursion (λ (r : Run). r.count < 2 * slice_index_or sizes.now j 0) runs.now }
    requires inside { AllByRecursion (RunIsInside extent) runs.now }
    requires fits { AllByRecursion (λ (r : Run). start_of extent wide r + r.count ≤ span) runs.now }
    requires room { length sizes.now * span < 2 ^ 64 }
    ensures { IfOk result (λ v. ArePlaced sizes.now span extent wide runs.now v.items) }
{
    let mut places = Vec::new(alloc);
    for i in 0..runs.len() {
        let run = runs[i];
        let count = run.count as usize;
        let list = list_of(sizes, count);
        let start = list * span + start_of_run(run, extent, wide);
        push_places(&mut places, start, count - sizes[list])?;
    }
    Ok(places)
}
