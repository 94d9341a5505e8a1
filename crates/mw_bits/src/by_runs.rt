//! The extremum over horizontal runs. The set is spread over rows of so many words, which are merged with themselves, shifted,
//! so that each bit is the extremum of 1, 2, 4 .. pixels, or of a length between that many runs have: a chain in which each
//! length is at most twice the one before (Urbach and Wilkinson, 2008). A run is then one merge, or two, of its first and its
//! last pixels; and since all rows have as many words, each merge takes all rows of the tile at once, and two merges one pass.
ghost use Rattle.std.specs.Prelude.{◌≡◌, ℕ, ◌+◌, ◌-◌, ◌*◌, ◌/◌, ◌<◌, ◌≤◌, ◌^◌, ℤ, pos, negsuc, ◌+ℤ◌, ◌-ℤ◌, ◌≤ℤ◌, length, fold, flat_map, slice_index_or, vec_len, IfOk, IfSome, IsTrue};
ghost use Rattle.std.specs.List.{AllByRecursion};
ghost use Rattle.mw_model.specs.Rectangles.{nonnegative};
ghost use Rattle.mw_model.specs.Windows.{seen_at};
ghost use Rattle.mw_offset.specs.mw_element_runs.declared.runs.Run.{Run};
ghost use Rattle.mw_offset.specs.mw_element_runs.Runs.{run_offsets, start_of, RunIsInside, IsWider, RunHasRoom, two_parts, gather};
ghost use Rattle.mw_offset.specs.MergedAt.{run_extremum, sized_below};
ghost use Rattle.mw_offset.specs.mw_pixel_words.Packed.{bit_of, IsPacked};
ghost use Rattle.mw_bits_rows.specs.Rows.{laid_bits};
ghost use Rattle.mw_bits.specs.Waiting.{with_waiting};
ghost use Rattle.mw_bits.specs.Layouts.{AreNear, ExtentIsNear};
ghost use Rattle.mw_bits.specs.Tiles.{WordsHoldExtrema};

use crate::WordExtremum;
use crate::sizes::{longest_of, next_size};
use crate::spread::spread;
use mw_bits_rows::{combine_ahead, combine_both, combine_from};
use mw_model::{NoMemory, Rect};
use mw_offset::pixel::Bit;
use mw_offset::run::{
    Extent, Run, Sizes, columns_after, counts_of, first_column, first_row, rows_after, start_of_run,
};
use mw_offset::tile::Window;
use mw_offset::words::{repeated, stride, trimmed};
use std::alloc::Global;

/// How runs lie in rows of one length: the columns and rows that they take, and that length in bits.
#[derive(Clone, Copy)]
struct Laid {
    extent: Extent,
    wide: usize,
}

/// Merges the bits from a place on, beside those that wait to be merged with others; with none waiting, these wait.
fn combine_next<E: WordExtremum>(
    cells: &[u64],
    waiting: Option<usize>,
    start: usize,
    out: &mut [u64],
) -> Option<usize>
    requires first { IfSome waiting (λ a. a / 64 + length out.old < length cells.now) }
    requires room { start / 64 + length out.old < length cells.now }
    ensures first { IfSome result (λ a. a / 64 + length out.old < length cells.now) }
    ensures value { (q : ℕ) → q < 64 * length out.old → with_waiting E.merge cells.now q result (bit_of out.new q) ≡ E.merge (with_waiting E.merge cells.now q waiting (bit_of out.old q)) (bit_of cells.now (start + q)) }
{
    match waiting {
        Some(first) => {
            combine_both::<E>(cells, first, start, out);
            None
        }
        None => Some(start),
    }
}

/// Merges the bits that still wait.
fn combine_last<E: WordExtremum>(cells: &[u64], waiting: Option<usize>, out: &mut [u64])
    requires { IfSome waiting (λ a. a / 64 + length out.old < length cells.now) }
    ensures { (q : ℕ) → q < 64 * length out.old → bit_of out.new q ≡ with_waiting E.merge cells.now q waiting (bit_of out.old q) }
{
    if let Some(first) = waiting {
        combine_from::<E>(cells, first, out);
    }
}

/// Merges a run's first bits and, where it has `extra` more, its last ones.
fn combine_run<E: WordExtremum>(
    cells: &[u64],
    waiting: Option<usize>,
    start: usize,
    extra: usize,
    out: &mut [u64],
) -> Option<usize>
    requires first { IfSome waiting (λ a. a / 64 + length out.old < length cells.now) }
    requires room { start + extra + 64 * length out.old ≤ 64 * (length cells.now - 1) }
    requires some { 0 < length cells.now }
    requires few { length cells.now < 2 ^ 58 }
    ensures first { IfSome result (λ a. a / 64 + length out.old < length cells.now) }
    ensures value { (q d : ℕ) → q < 64 * length out.old → with_waiting E.merge cells.now q result (bit_of out.new q) ≡ E.merge (E.merge (with_waiting E.merge cells.now q waiting (bit_of out.old q)) (slice_index_or (laid_bits cells.now) (start + q) d)) (slice_index_or (laid_bits cells.now) (start + extra + q) d) }
{
    let first = combine_next::<E>(cells, waiting, start, out);
    if extra == 0 {
        return first;
    }
    combine_next::<E>(cells, first, start + extra, out)
}

/// Merges the runs of `size` pixels and more, and less than `next`, where each cell is the extremum of `size` pixels: two
/// places of the cells in one pass.
fn combine_sized<E: WordExtremum>(
    runs: &[Run],
    laid: Laid,
    sizes: Sizes,
    cells: &[u64],
    out: &mut [u64],
)
    requires room { AllByRecursion (RunHasRoom laid.extent laid.wide (64 * length out.old) (64 * (length cells.now - 1))) runs.now }
    requires positive { 0 < sizes.least }
    requires some { 0 < length cells.now }
    requires few { length cells.now < 2 ^ 58 }
    ensures { (q d : ℕ) → q < 64 * length out.old → bit_of out.new q ≡ fold (sized_below sizes.least sizes.next (two_parts E.merge (laid_bits cells.now) d laid.extent laid.wide sizes.least q)) (bit_of out.old q) runs.now }
{
    let mut waiting: Option<usize> = None;
    for i in 0..runs.len() {
        let run = runs[i];
        let count = run.count as usize;
        if sizes.least <= count && count < sizes.next {
            let start = start_of_run(run, laid.extent, laid.wide);
            waiting = combine_run::<E>(cells, waiting, start, count - sizes.least, out);
        }
    }
    combine_last::<E>(cells, waiting, out);
}

/// Merges each run into the words, the shorter ones first, and grows the cells.
fn combine_runs<E: WordExtremum>(
    runs: &[Run],
    laid: Laid,
    counts: &[usize],
    cells: &mut [u64],
    out: &mut [u64],
)
    requires room { AllByRecursion (RunHasRoom laid.extent laid.wide (64 * length out.old) (64 * (length cells.old - 1))) runs.now }
    requires longest { AllByRecursion (λ (r : Run). r.count < length counts.now) runs.now }
    requires within { length counts.now ≤ 64 * (length cells.old - 1) + 1 }
    requires some { 0 < length cells.old }
    requires few { length cells.old < 2 ^ 57 }
    ensures { (n : ℕ) → ((q : ℕ) → q < 64 * length out.old → bit_of out.old q ≡ n) → (q : ℕ) → q < 64 * length out.old → bit_of out.new q ≡ gather E.merge n (run_extremum E.merge (laid_bits cells.old) n laid.extent laid.wide q) runs.now }
{
    let mut sizes = next_size(counts, 1, cells.len(), out.len());
    combine_sized::<E>(runs, laid, sizes, cells, out);
    'sizes: while sizes.next < counts.len() {
        combine_ahead::<E>(cells, sizes.next - sizes.least);
        sizes = next_size(counts, sizes.next, cells.len(), out.len());
        combine_sized::<E>(runs, laid, sizes, cells, out);
    }
}

/// Whether these are at most 1024 places within 32768 of the origin.
fn are_near(first: i32, last: i32) -> bool
    ensures { IsTrue result → AreNear first last }
{
    if first < -32768 || last < first || 32768 < last {
        return false;
    }
    if last - first >= 1024 {
        return false;
    }
    true
}

/// Whether an element has few columns and rows near its origin, so that it can be laid out around a tile.
pub fn is_near(extent: Extent) -> bool
    ensures { IsTrue result → ExtentIsNear extent }
{
    are_near(extent.left, extent.right) && are_near(extent.top, extent.bottom)
}

/// The extent, widened by so many words of columns after its first.
fn widened(extent: Extent, words: usize) -> Extent
    requires near { ExtentIsNear extent }
    requires enough { nonnegative (extent.right -ℤ extent.left) ≤ 64 * words }
    requires few { words ≤ 16 }
    ensures wider { IsWider result extent }
    ensures columns { nonnegative (result.right -ℤ result.left) ≡ 64 * words }
    ensures ordered { result.left ≤ℤ result.right }
    ensures top { result.top ≡ extent.top }
    ensures bottom { result.bottom ≡ extent.bottom }
{
    Extent {
        left: extent.left,
        right: extent.left + 64 * words as i32,
        top: extent.top,
        bottom: extent.bottom,
    }
}

/// The words of the tile: the extremum of neutral pixels and what the set has under the runs.
pub(crate) fn extremum_by_runs<E: WordExtremum>(
    alloc: Global,
    set: &Window<Bit>,
    runs: &[Run],
    extent: Extent,
    tile: Rect,
) -> Result<Vec<u64>, NoMemory>
    requires inside { AllByRecursion (RunIsInside extent) runs.now }
    requires some { (0 < tile.width) × (0 < tile.height) }
    requires small { (tile.width ≤ 2 ^ 31) × (tile.height ≤ 2 ^ 31) }
    requires near { ExtentIsNear extent }
    ensures packed { IfOk result (λ v. IsPacked tile.width tile.height v.items) }
    ensures cells { IfOk result (λ v. WordsHoldExtrema E.merge (E.neutral_of 1) (seen_at set.now) (flat_map run_offsets runs.now) tile v.items) }
{
    let place = set.place();
    let stride = stride(tile.width);
    let height = tile.height as usize;
    let columns = columns_after(extent);
    let words = (columns + 63) / 64;
    let laid = widened(extent, words);
    let wide = stride + words;
    let high = height + rows_after(laid);
    let column = first_column(tile, laid, place);
    let row = first_row(tile, laid, place);
    let longest = longest_of(runs);
    let counts = counts_of(alloc, runs, longest)?;
    let mut cells = spread::<E>(alloc, set, column, row, wide, high)?;
    let mut out = repeated(alloc, (height - 1) * wide + stride, E::neutral_word())?;
    let rows = Laid {
        extent: laid,
        wide: 64 * wide,
    };
    combine_runs::<E>(
        runs,
        rows,
        counts.as_slice(),
        cells.as_mut_slice(),
        out.as_mut_slice(),
    );
    let made = trimmed(alloc, out.as_slice(), wide, tile.width, tile.height)?;
    Ok(made)
}
