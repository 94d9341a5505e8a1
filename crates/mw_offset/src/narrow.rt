//! Narrow tiles. Where a row of the tile fills no more than a part of its blocks, the samples of all rows are merged as one
//! list, in rows as long as those of the cells, and the tile's columns are picked out of them at the end.
ghost use Rattle.std.specs.Prelude.{◌≡◌, ℕ, ◌+◌, ◌-◌, ◌*◌, ◌<◌, ◌≤◌, length, slice_index_or};

use mw_line::pixel::Pixel;

/// What a block of 64 samples costs besides its runs, as a multiple of what one run costs it.
const BLOCK: usize = 6;

/// What a block of a list costs besides its runs: it is made too, and the tile's part of it is copied.
const LISTED_BLOCK: usize = 9;

/// What a row that is shorter than a block costs more: it is copied into a block and back.
const SHORT_ROW: usize = 8;

/// What a row of a list costs, of which the tile's columns are picked out.
const LISTED_ROW: usize = 2;

/// What it costs to ask for a list and to free it.
const LIST: usize = 16;

/// What a row costs, at so much a block.
fn row_cost(width: usize, block: usize) -> usize {
    if width < 64 {
        return block.saturating_add(SHORT_ROW);
    }
    let blocks = width / 64 + if width % 64 > 0 { 1 } else { 0 };
    blocks.saturating_mul(block)
}

/// Whether one list of so many samples costs less than row after row: any answer is right. The costs were fitted to measured
/// times.
pub(crate) fn is_cheaper_as_list(runs: usize, count: usize, width: usize, height: usize) -> bool {
    let by_rows = height.saturating_mul(row_cost(width, runs.saturating_add(BLOCK)));
    let listed = row_cost(count, runs.saturating_add(LISTED_BLOCK))
        .saturating_add(height.saturating_mul(LISTED_ROW))
        .saturating_add(LIST);
    listed < by_rows
}

/// Copies the first samples of each row of `wide` into rows that lie behind one another.
pub(crate) fn pick_columns<P: Pixel>(
    list: &[P],
    wide: usize,
    width: usize,
    height: usize,
    out: &mut [P],
)
    requires size { length out.old ≡ height * width }
    requires list { (height - 1) * wide + width ≤ length list.now }
    ensures { (x y : ℕ) (d : P) → x < width → y < height → slice_index_or out.new (y * width + x) d ≡ slice_index_or list.now (y * wide + x) d }
{
    for y in 0..height {
        let from = y * wide;
        let to = y * width;
        out[to..to + width].copy_from_slice(&list[from..from + width]);
    }
}
