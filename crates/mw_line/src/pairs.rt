//! The last pass of doubling. A run of samples is the extremum of its first part and its last: both are merged into rows of a
//! result at once, so that no pass writes what another reads only once.
ghost use Rattle.std.specs.Prelude.{◌≡◌, ℕ, ◌+◌, ◌-◌, ◌*◌, ◌<◌, ◌≤◌, length, slice_index_or};
ghost use Rattle.mw_line.specs.Extrema.{strided};

use mw_lane::combine_rows;
use mw_tile::pixel::{Extremum, Pixel};

/// Merges into 64 samples from `at` on those of the cells that stand as far after `from`, and those `shift` further on.
#[inline(always)]
fn merge_block<P: Pixel, E: Extremum<P>>(
    cells: &[P],
    from: usize,
    shift: usize,
    out: &mut [P],
    at: usize,
)
    requires room { at + 64 ≤ length out.old }
    requires cells { from + at + shift + 64 ≤ length cells.now }
    ensures below { (q : ℕ) (d : P) → q < at → slice_index_or out.new q d ≡ slice_index_or out.old q d }
    ensures within { (q : ℕ) (d e : P) → at ≤ q → q < at + 64 → slice_index_or out.new q d ≡ E.merge (slice_index_or out.old q d) (strided E.merge cells.now e shift 1 (from + q)) }
    ensures above { (q : ℕ) (d : P) → at + 64 ≤ q → slice_index_or out.new q d ≡ slice_index_or out.old q d }
{
    let start = from + at;
    let mut block = [cells[start]; 64];
    block.copy_from_slice(&cells[start..start + 64]);
    E::combine_block(&mut block, &cells[start + shift..start + shift + 64]);
    E::combine_block(&mut out[at..at + 64], &block);
}

/// Merges into so many blocks of 64 samples those of the cells.
fn merge_blocks<P: Pixel, E: Extremum<P>>(
    cells: &[P],
    from: usize,
    shift: usize,
    out: &mut [P],
    blocks: usize,
)
    requires room { blocks * 64 ≤ length out.old }
    requires cells { from + shift + blocks * 64 ≤ length cells.now }
    ensures within { (q : ℕ) (d e : P) → q < blocks * 64 → slice_index_or out.new q d ≡ E.merge (slice_index_or out.old q d) (strided E.merge cells.now e shift 1 (from + q)) }
    ensures past { (q : ℕ) (d : P) → blocks * 64 ≤ q → slice_index_or out.new q d ≡ slice_index_or out.old q d }
{
    for i in 0..blocks {
        merge_block::<P, E>(cells, from, shift, out, i * 64);
    }
}

/// Merges into the samples from `at` on those of the cells, a few samples of which no block is made.
fn merge_rest<P: Pixel, E: Extremum<P>>(cells: &[P], from: usize, out: &mut [P], at: usize)
    requires room { at ≤ length out.old }
    requires cells { from + length out.old ≤ length cells.now }
    ensures below { (q : ℕ) (d : P) → q < at → slice_index_or out.new q d ≡ slice_index_or out.old q d }
    ensures within { (q : ℕ) (d e : P) → at ≤ q → q < length out.old → slice_index_or out.new q d ≡ E.merge (slice_index_or out.old q d) (slice_index_or cells.now (from + q) e) }
{
    let n = out.len();
    combine_rows::<P, E>(&mut out[at..n], &cells[from + at..from + n]);
}

/// Merges into each sample that of the cells that stands as far after `from`, and the one `shift` further on.
fn merge_row<P: Pixel, E: Extremum<P>>(cells: &[P], from: usize, shift: usize, out: &mut [P])
    requires { from + shift + length out.old ≤ length cells.now }
    ensures { (q : ℕ) (d e : P) → q < length out.old → slice_index_or out.new q d ≡ E.merge (slice_index_or out.old q d) (strided E.merge cells.now e shift 1 (from + q)) }
{
    let blocks = out.len() / 64;
    merge_blocks::<P, E>(cells, from, shift, out, blocks);
    let at = blocks * 64;
    if at < out.len() {
        merge_rest::<P, E>(cells, from, out, at);
        merge_rest::<P, E>(cells, from + shift, out, at);
    }
}

/// Merges into each sample of rows that lie behind one another that of the cells, in rows of `wide`, and the one `shift`
/// further on.
pub(crate) fn merge_rows<P: Pixel, E: Extremum<P>>(
    cells: &[P],
    wide: usize,
    shift: usize,
    width: usize,
    height: usize,
    out: &mut [P],
)
    requires size { length out.old ≡ height * width }
    requires cells { (height - 1) * wide + (width + shift) ≤ length cells.now }
    ensures { (x y : ℕ) (d e : P) → x < width → y < height → slice_index_or out.new (y * width + x) d ≡ E.merge (slice_index_or out.old (y * width + x) d) (strided E.merge cells.now e shift 1 (y * wide + x)) }
{
    for y in 0..height {
        let start = y * width;
        merge_row::<P, E>(cells, y * wide, shift, &mut out[start..start + width]);
    }
}
