//! The extremum over horizontal runs. The window is spread over rows of one length, which grow as lines do: a row merged with
//! itself, shifted, so that each cell has the extremum of 1, 2, 4 .. samples. A run of k samples is then the first and the
//! last of so many samples, so that it takes two merges; the parts of all runs of one size are merged into one block of
//! samples after another. Where many runs have one length, the cells are grown to that length, and each of them takes one
//! merge (Urbach and Wilkinson 2008 grow them to each length).
ghost use Rattle.std.specs.Prelude.{◌≡◌, ℕ, ◌+◌, ◌-◌, ◌*◌, ◌/◌, ◌<◌, ◌≤◌, ◌^◌, ℤ, pos, negsuc, ◌+ℤ◌, ◌-ℤ◌, ◌≤ℤ◌, length, fold, flat_map, slice_index_or, vec_len, [], ◌++◌, IfOk, OnOk};
ghost use Rattle.std.specs.Vec.{vec_capacity};
ghost use Rattle.mw_element_runs.specs.declared.runs.Extent.{Extent};
ghost use Rattle.std.specs.List.{AllByRecursion};
ghost use Rattle.mw_model.specs.Rectangles.{nonnegative};
ghost use Rattle.mw_model.specs.Windows.{seen_at};
ghost use Rattle.mw_element_runs.specs.declared.runs.Run.{Run};
ghost use Rattle.mw_offset.specs.MergedAt.{run_extremum, places_of, sized_below, IsMergedAtOnce};
ghost use Rattle.mw_offset.specs.Tiles.{HoldsExtrema};
ghost use Rattle.mw_element_runs.specs.Runs.{run_offsets, start_of, RunIsInside, RunHasRoom, two_parts, gather};

use crate::merging::combine_rows_at;
use crate::narrow::{is_cheaper_as_list, pick_columns};
use crate::sizes::{longest_of, next_size};
use mw_element_runs::{
    Extent, Run, Sizes, columns_after, counts_of, first_column, first_row, rows_after, start_of_run,
};
use mw_line::lane::combine_ahead;
use mw_line::pixel::{Extremum, Grey, Pixel, copies};
use mw_line::tile::Window;
use mw_line::{SpreadRows, spread};
use mw_model::{NoMemory, Rect};
use std::alloc::Global;

/// A tile, and the columns and rows of offsets that are looked at from each of its places.
#[derive(Clone, Copy)]
pub(crate) struct Looked {
    pub(crate) tile: Rect,
    pub(crate) extent: Extent,
}

/// How runs lie in rows of one length: the columns and rows that they take, and that length; and the rows that are made.
#[derive(Clone, Copy)]
struct Laid {
    extent: Extent,
    wide: usize,
    width: usize,
    height: usize,
}

/// Adds the places of the parts of `sizes.least` samples that make up a run, if it is of these sizes.
fn push_places(
    places: &mut Vec<usize>,
    run: Run,
    extent: Extent,
    wide: usize,
    sizes: Sizes,
) -> Result<(), NoMemory>
    requires inside { RunIsInside extent run }
    requires fits { start_of extent wide run + run.count < 2 ^ 64 }
    ensures { OnOk result (places.new.items ≡ places.old.items ++ places_of extent wide sizes.least sizes.next run) }
{
    let count = run.count as usize;
    let start = start_of_run(run, extent, wide);
    if count < sizes.least || count >= sizes.next {
        return Ok(());
    }
    places.push(start)?;
    if count > sizes.least {
        places.push(start + (count - sizes.least))?;
    }
    Ok(())
}

/// How many parts the runs of these sizes are made up of.
fn parts_of_sizes(runs: &[Run], sizes: Sizes) -> usize
    ensures { (extent : Extent) (wide : ℕ) → result ≡ length (flat_map (places_of extent wide sizes.least sizes.next) runs.now) }
{
    let mut parts = 0usize;
    for i in 0..runs.len() {
        let count = runs[i].count as usize;
        if count >= sizes.least && count < sizes.next {
            parts += if count > sizes.least { 2 } else { 1 };
        }
    }
    parts
}

/// Room for a place of each part of the runs of these sizes, and no more.
fn room_for_parts(alloc: Global, runs: &[Run], sizes: Sizes) -> Result<Vec<usize>, NoMemory>
    ensures empty { IfOk result (λ v. v.items ≡ []) }
    ensures exact { IfOk result (λ v. (extent : Extent) (wide : ℕ) → vec_capacity v ≡ length (flat_map (places_of extent wide sizes.least sizes.next) runs.now)) }
{
    let room = Vec::with_capacity(alloc, parts_of_sizes(runs, sizes))?;
    Ok(room)
}

/// The places of the parts of the runs of these sizes.
fn places_of_sizes(
    alloc: Global,
    runs: &[Run],
    extent: Extent,
    wide: usize,
    sizes: Sizes,
) -> Result<Vec<usize>, NoMemory>
    requires room { (count : ℕ) × (cells : ℕ) × (0 < count) × (cells < 2 ^ 64) × AllByRecursion (RunHasRoom extent wide count cells) runs.now }
    ensures { IfOk result (λ v. v.items ≡ flat_map (places_of extent wide sizes.least sizes.next) runs.now) }
{
    let mut places = room_for_parts(alloc, runs, sizes)?;
    for i in 0..runs.len() {
        push_places(&mut places, runs[i], extent, wide, sizes)?;
    }
    Ok(places)
}

/// Merges the runs of these sizes, where each cell is the extremum of `sizes.least` samples.
fn combine_sized<P: Pixel, E: Extremum<P>>(
    alloc: Global,
    runs: &[Run],
    laid: Laid,
    sizes: Sizes,
    cells: &[P],
    out: &mut [P],
) -> Result<(), NoMemory>
    requires room { AllByRecursion (RunHasRoom laid.extent laid.wide ((laid.height - 1) * laid.wide + laid.width + 63) (length cells.now)) runs.now }
    requires size { length out.old ≡ laid.height * laid.width }
    requires cells { (laid.height - 1) * laid.wide + laid.width + 63 ≤ length cells.now }
    requires some { 0 < sizes.least }
    requires narrow { sizes.next ≤ 2 * sizes.least }
    ensures { OnOk result ((x y : ℕ) (d : P) → x < laid.width → y < laid.height → slice_index_or out.new (y * laid.width + x) d ≡ fold (sized_below sizes.least sizes.next (two_parts E.merge cells.now d laid.extent laid.wide sizes.least (y * laid.wide + x))) (slice_index_or out.old (y * laid.width + x) d) runs.now) }
{
    let places = places_of_sizes(alloc, runs, laid.extent, laid.wide, sizes)?;
    if places.len() == 0 {
        return Ok(());
    }
    combine_rows_at::<P, E>(
        cells,
        laid.wide,
        places.as_slice(),
        laid.width,
        laid.height,
        out,
    );
    Ok(())
}

/// Merges each run into the rows, and grows the cells.
fn combine_runs<P: Pixel, E: Extremum<P>>(
    alloc: Global,
    runs: &[Run],
    laid: Laid,
    cells: &mut [P],
    out: &mut [P],
) -> Result<(), NoMemory>
    requires room { AllByRecursion (RunHasRoom laid.extent laid.wide ((laid.height - 1) * laid.wide + laid.width + 63) (length cells.old)) runs.now }
    requires size { length out.old ≡ laid.height * laid.width }
    requires wanted { 0 < length out.old }
    requires cells { (laid.height - 1) * laid.wide + laid.width + 63 ≤ length cells.old }
    ensures { OnOk result ((n : P) → ((q : ℕ) → slice_index_or out.old q n ≡ n) → (x y : ℕ) → x < laid.width → y < laid.height → slice_index_or out.new (y * laid.width + x) n ≡ gather E.merge n (run_extremum E.merge cells.old n laid.extent laid.wide (y * laid.wide + x)) runs.now) }
{
    let longest = longest_of(runs);
    let counts = counts_of(alloc, runs, longest)?;
    let per_sample = cells.len() / out.len();
    let mut sizes = next_size(counts.as_slice(), 1, per_sample);
    combine_sized::<P, E>(alloc, runs, laid, sizes, cells, out)?;
    'sizes: while sizes.next <= longest && sizes.next <= cells.len() {
        let left = cells.len() - sizes.next + 1;
        combine_ahead::<P, E>(cells, sizes.next - sizes.least, left);
        sizes = next_size(counts.as_slice(), sizes.next, per_sample);
        combine_sized::<P, E>(alloc, runs, laid, sizes, cells, out)?;
    }
    Ok(())
}

/// Merges each run into neutral rows, or into one list of all rows, whichever costs less. Rows that are as long as those of the
/// cells are such a list.
fn merge_laid<P: Pixel, E: Extremum<P>>(
    alloc: Global,
    runs: &[Run],
    laid: Laid,
    neutral: P,
    cells: &mut [P],
    out: &mut [P],
) -> Result<(), NoMemory>
    requires room { AllByRecursion (RunHasRoom laid.extent laid.wide ((laid.height - 1) * laid.wide + laid.width + 63) (length cells.old)) runs.now }
    requires size { length out.old ≡ laid.height * laid.width }
    requires wanted { 0 < length out.old }
    requires cells { (laid.height - 1) * laid.wide + laid.width + 63 ≤ length cells.old }
    requires blank { (q : ℕ) → slice_index_or out.old q neutral ≡ neutral }
    ensures { OnOk result ((x y : ℕ) → x < laid.width → y < laid.height → slice_index_or out.new (y * laid.width + x) neutral ≡ gather E.merge neutral (run_extremum E.merge cells.old neutral laid.extent laid.wide (y * laid.wide + x)) runs.now) }
{
    let Laid {
        wide,
        width,
        height,
        ..
    } = laid;
    let count = (height - 1) * wide + width;
    let list = Laid {
        width: count,
        height: 1,
        ..laid
    };
    if wide == width {
        return combine_runs::<P, E>(alloc, runs, list, cells, out);
    }
    if !is_cheaper_as_list(runs.len(), count, width, height) {
        return combine_runs::<P, E>(alloc, runs, laid, cells, out);
    }
    let mut listed = copies(alloc, count, neutral)?;
    combine_runs::<P, E>(alloc, runs, list, cells, listed.as_mut_slice())?;
    pick_columns(listed.as_slice(), wide, width, height, out);
    Ok(())
}

/// Merges into neutral samples, at each place of the tile, what the window has under the runs.
pub(crate) fn merge_runs<P: Grey, E: Extremum<P>>(
    alloc: Global,
    window: &Window<P>,
    runs: &[Run],
    looked: Looked,
    neutral: P,
    out: &mut [P],
) -> Result<(), NoMemory>
    requires inside { AllByRecursion (RunIsInside looked.extent) runs.now }
    requires some { (0 < looked.tile.width) × (0 < looked.tile.height) }
    requires wide { looked.extent.left ≤ℤ looked.extent.right }
    requires high { looked.extent.top ≤ℤ looked.extent.bottom }
    requires low { looked.tile.height ≤ 2 ^ 17 }
    requires strip { IsMergedAtOnce looked.extent looked.tile.width looked.tile.height }
    requires few_rows { nonnegative (looked.extent.bottom -ℤ looked.extent.top) ≤ 1023 }
    requires size { length out.old ≡ looked.tile.height * looked.tile.width }
    requires blank { (q : ℕ) → slice_index_or out.old q neutral ≡ neutral }
    ensures { OnOk result (HoldsExtrema E.merge neutral (seen_at window.now) (flat_map run_offsets runs.now) looked.tile out.new) }
{
    let Looked { tile, extent } = looked;
    let place = window.place();
    let width = tile.width as usize;
    let height = tile.height as usize;
    let wide = width + columns_after(extent);
    let high = height + rows_after(extent);
    let column = first_column(tile, extent, place);
    let row = first_row(tile, extent, place);
    let rows = SpreadRows {
        column,
        row,
        wide,
        high,
    };
    let laid = Laid {
        extent,
        wide,
        width,
        height,
    };
    let mut cells = spread(alloc, window, rows, neutral)?;
    merge_laid::<P, E>(alloc, runs, laid, neutral, cells.as_mut_slice(), out)
}
