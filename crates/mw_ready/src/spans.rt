//! How many tiles windows span. It is made out by columns and by rows: a window spans so many columns as the column of its
//! tile tells, in so many rows as its row tells. So a grid takes two divisions for each column and each row, and a tile
//! takes one product.

ghost use Rattle.std.specs.Prelude.{◌≡◌, ℕ, ◌+◌, ◌-◌, ◌*◌, ◌/◌, ◌%◌, ◌<◌, ◌≤◌, ◌^◌, min, nat_eq, length, slice_index};
ghost use Rattle.mw_grid.specs.Blocks.{sees};
ghost use Rattle.mw_grid.specs.Counts.{bit, count_below, in_range};
ghost use Rattle.mw_grid.specs.Grids.{rows_of, tile_count};
ghost use Rattle.mw_ready.specs.Boards.{step_on_grid};
ghost use Rattle.mw_ready.specs.Counters.{Raises};
ghost use Rattle.mw_ready.specs.Kept.{seen_by};
ghost use Rattle.mw_ready.specs.Spans.{AreSpans, span_of, tiles_spanned};

use mw_grid::Grid;
use mw_model::Reach;

/// Of windows of one reach: how many columns of tiles those of a column span, and how many rows those of a row. A side has
/// at most 128 tiles: 8192 pixels in tiles of 64. A frame of few tiles writes and reads as few places.
#[derive(Drop)]
pub(crate) struct Spans {
    across: [u8; 128],
    down: [u8; 128],
}

/// How many of so many pieces of a line one spans that is grown so far before and behind.
fn span(count: u32, side: u32, at: u32, before: u32, after: u32) -> u32
    requires some { 0 < side }
    requires within { at < count }
    requires fits { at * side < 2 ^ 32 }
    ensures value { result ≡ span_of count side at before after }
    ensures most { result ≤ count }
{
    let first = (at * side).saturating_sub(before) / side;
    let last = (u64::from(at * side) + u64::from(side) - 1 + u64::from(after)) / u64::from(side);
    u64::from(count).min(last + 1) as u32 - first
}

/// How many pieces each piece of the line spans when it is so grown.
fn along(found: &mut [u8], count: u32, side: u32, before: u32, after: u32)
    requires some { 0 < side }
    requires few { count ≤ 128 }
    requires within { count ≤ length found.old }
    requires small { side ≤ 1024 }
    ensures each { (at : ℕ) → at < count → slice_index found.new at ≡ span_of count side at before after }
    ensures low { (at : ℕ) → at < count → slice_index found.new at ≤ 128 }
{
    for at in 0..count {
        found[at as usize] = span(count, side, at, before, after) as u8;
    }
}

impl Spans {
    /// No numbers yet.
    pub(crate) fn none() -> Spans {
        Spans {
            across: [0; 128],
            down: [0; 128],
        }
    }

    /// From now on those of the tiles that the window of a tile meets.
    pub(crate) fn set_met_by(&mut self, grid: Grid, reach: Reach)
        ensures { AreSpans grid self.new (λ tile. count_below (sees grid reach tile) (tile_count grid)) }
    {
        let (columns, rows, side) = (grid.columns(), grid.rows(), grid.side());
        // for their ranges
        let (_width, _height) = (grid.width(), grid.height());
        along(&mut self.across, columns, side, reach.left, reach.right);
        along(&mut self.down, rows, side, reach.up, reach.down);
    }

    /// From now on those of the tiles whose windows meet a tile.
    pub(crate) fn set_meeting(&mut self, grid: Grid, reach: Reach)
        ensures { AreSpans grid self.new (seen_by grid reach) }
    {
        // for their ranges
        let (_width, _height, _side) = (grid.width(), grid.height(), grid.side());
        self.set_met_by(
            grid,
            Reach {
                left: reach.right,
                right: reach.left,
                up: reach.down,
                down: reach.up,
            },
        );
    }
}

/// So many times each of these numbers more, in as many places from one on.
fn raise_row(counts: &mut [u32], first: usize, across: &[u8], columns: usize, times: u32)
    requires columns { columns ≤ length across.now }
    requires within { first + columns ≤ length counts.old }
    requires fits { (i : ℕ) → i < columns → slice_index counts.old (first + i) + times * slice_index across.now i < 2 ^ 32 }
    ensures { Raises (λ u. bit (in_range first (first + columns) u) * (times * slice_index across.now (u - first))) counts.old counts.new }
{
    for i in 0..columns {
        counts[first + i] += times * u32::from(across[i]);
    }
}

/// For each task of a step, so many times the tiles more that the window of its tile spans.
pub(crate) fn raise_step(counts: &mut [u32], grid: Grid, spans: &Spans, step: u32, times: u32)
    requires within { step * tile_count grid + tile_count grid ≤ length counts.old }
    requires small { length counts.old < 2 ^ 31 }
    requires few { times ≤ 65535 }
    requires low { (row : ℕ) → row < rows_of grid → slice_index spans.now.down row ≤ 128 }
    requires fits { (u : ℕ) → u < length counts.old → slice_index counts.old u + times * tiles_spanned grid spans.now (u % tile_count grid) < 2 ^ 32 }
    ensures { Raises (λ u. bit (nat_eq step (step_on_grid grid u)) * (times * tiles_spanned grid spans.now (u % tile_count grid))) counts.old counts.new }
{
    let columns = grid.columns();
    let first = step * grid.len();
    for row in 0..grid.rows() {
        raise_row(
            counts,
            (first + row * columns) as usize,
            &spans.across,
            columns as usize,
            times * u32::from(spans.down[row as usize]),
        );
    }
}
