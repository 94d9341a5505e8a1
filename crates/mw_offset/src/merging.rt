//! Samples merged with those at several places of another row: a block of them stays in registers until those of all
//! places are merged into it. The samples of a row that is shorter than a block are merged as one too, so there are 63
//! cells more than are asked for.
ghost use Rattle.std.specs.Prelude.{◌≡◌, ℕ, ◌+◌, ◌-◌, ◌*◌, ◌<◌, ◌≤◌, length, fold, slice_index_or};
ghost use Rattle.std.specs.List.{AllByRecursion};
ghost use Rattle.mw_offset.specs.MergedAt.{merge_from};

use mw_line::pixel::{Extremum, Pixel};

/// Merges into 64 samples those of the cells that stand `at` places after each of the places.
#[inline(always)]
fn merge_block<P: Pixel, E: Extremum<P>>(cells: &[P], places: &[usize], at: usize, block: &mut [P])
    requires whole { length block.old ≡ 64 }
    requires room { AllByRecursion (λ p. p + (at + 64) ≤ length cells.now) places.now }
    ensures { (q : ℕ) (d : P) → q < 64 → slice_index_or block.new q d ≡ fold (merge_from E.merge cells.now d (at + q)) (slice_index_or block.old q d) places.now }
{
    let mut best = [block[0]; 64];
    best.copy_from_slice(block);
    for place in places {
        let from = *place + at;
        E::combine_block(&mut best, &cells[from..from + 64]);
    }
    block.copy_from_slice(&best);
}

/// Merges into at most 64 samples those of the cells that stand `at` places after each of the places.
fn merge_rest<P: Pixel, E: Extremum<P>>(cells: &[P], places: &[usize], at: usize, rest: &mut [P])
    requires some { 0 < length rest.old }
    requires few { length rest.old ≤ 64 }
    requires cells { 64 ≤ length cells.now }
    requires room { AllByRecursion (λ p. p + (at + 64) ≤ length cells.now) places.now }
    ensures { (q : ℕ) (d : P) → q < length rest.old → slice_index_or rest.new q d ≡ fold (merge_from E.merge cells.now d (at + q)) (slice_index_or rest.old q d) places.now }
{
    let count = rest.len();
    let mut block = [rest[0]; 64];
    block[..count].copy_from_slice(rest);
    merge_block::<P, E>(cells, places, at, &mut block);
    rest.copy_from_slice(&block[..count]);
}

/// Merges into a block or more of samples those of the cells that stand `from` places and as many more after each of the
/// places. What is merged twice is merged once, so the last block may begin within the one before.
fn combine_blocks<P: Pixel, E: Extremum<P>>(
    cells: &[P],
    places: &[usize],
    from: usize,
    out: &mut [P],
)
    requires block { 64 ≤ length out.old }
    requires cells { from + length out.old ≤ length cells.now }
    requires room { AllByRecursion (λ p. p + (from + length out.old) ≤ length cells.now) places.now }
    ensures { (q : ℕ) (d : P) → q < length out.old → slice_index_or out.new q d ≡ fold (merge_from E.merge cells.now d (from + q)) (slice_index_or out.old q d) places.now }
{
    let mut at = 0usize;
    'by_block: while out.len() - at >= 64 {
        merge_block::<P, E>(cells, places, from + at, &mut out[at..at + 64]);
        at += 64;
    }
    if at < out.len() {
        let last = out.len() - 64;
        merge_block::<P, E>(cells, places, from + last, &mut out[last..last + 64]);
    }
}

/// Merges into each sample that of the cells that stands `from` places and as many more after each of the places.
fn combine_places<P: Pixel, E: Extremum<P>>(
    cells: &[P],
    places: &[usize],
    from: usize,
    out: &mut [P],
)
    requires cells { from + length out.old + 63 ≤ length cells.now }
    requires room { AllByRecursion (λ p. p + (from + length out.old + 63) ≤ length cells.now) places.now }
    ensures { (q : ℕ) (d : P) → q < length out.old → slice_index_or out.new q d ≡ fold (merge_from E.merge cells.now d (from + q)) (slice_index_or out.old q d) places.now }
{
    if out.len() >= 64 {
        combine_blocks::<P, E>(cells, places, from, out);
    } else if out.len() > 0 {
        merge_rest::<P, E>(cells, places, from, out);
    }
}

/// Merges into each sample of rows that lie behind one another those of the cells, in rows of `wide`, that stand as far
/// after each of the places.
pub(crate) fn combine_rows_at<P: Pixel, E: Extremum<P>>(
    cells: &[P],
    wide: usize,
    places: &[usize],
    width: usize,
    height: usize,
    out: &mut [P],
)
    requires size { length out.old ≡ height * width }
    requires cells { (height - 1) * wide + width + 63 ≤ length cells.now }
    requires room { AllByRecursion (λ p. p + ((height - 1) * wide + width + 63) ≤ length cells.now) places.now }
    ensures { (x y : ℕ) (d : P) → x < width → y < height → slice_index_or out.new (y * width + x) d ≡ fold (merge_from E.merge cells.now d (y * wide + x)) (slice_index_or out.old (y * width + x) d) places.now }
{
    for y in 0..height {
        let start = y * width;
        combine_places::<P, E>(cells, places, y * wide, &mut out[start..start + width]);
    }
}
