//! Blocks of tiles: those that a window meets, and those whose windows meet a tile. The sides of a block are found by a
//! division each.

ghost use Rattle.std.specs.Prelude.{◌≡◌, ℕ, ◌+◌, ◌-◌, ◌*◌, ◌/◌, ◌<◌, ◌≤◌, ◌^◌, ◌&&◌, min, nat_eq, ◌%◌};
ghost use Rattle.mw_grid.specs.Counts.{count_below};
ghost use Rattle.mw_grid.specs.Grids.{rows_of, tile_count};
ghost use Rattle.mw_grid.specs.Blocks.{IsBlock, in_block, sees};

use crate::grid::Grid;
use mw_model::Reach;

/// The tiles in these columns and rows; the ends are not among them.
#[derive(Clone, Copy)]
pub struct Block {
    pub left: u32,
    pub right: u32,
    pub top: u32,
    pub bottom: u32,
}

/// The first piece of a line that comes near a piece.
fn first_near(side: u32, at: u32, before: u32) -> u32
    requires some { 0 < side }
    requires fits { at * side < 2 ^ 32 }
    ensures value { result ≡ (at * side - before) / side }
    ensures low { result ≤ at }
{
    (at * side).saturating_sub(before) / side
}

/// The end of the pieces of a line that come near a piece.
fn end_near(count: u32, side: u32, at: u32, after: u32) -> u32
    requires some { 0 < side }
    requires fits { at * side < 2 ^ 32 }
    ensures value { result ≡ min count ((at * side + side - 1 + after) / side + 1) }
    ensures high { at < count → at < result }
    ensures most { result ≤ count }
{
    let last = (u64::from(at * side) + u64::from(side) - 1 + u64::from(after)) / u64::from(side);
    u64::from(count).min(last + 1) as u32
}

impl Block {
    /// The tiles that the window of a tile meets.
    pub fn met_by(grid: Grid, tile: u32, reach: Reach) -> Block
        requires { tile < tile_count grid }
        ensures within { IsBlock grid result }
        ensures meets { (v : ℕ) → v < tile_count grid → in_block grid result v ≡ sees grid reach tile v }
    {
        let (columns, rows, side) = (grid.columns(), grid.rows(), grid.side());
        // for their ranges
        let (_width, _height) = (grid.width(), grid.height());
        let (column, row) = (tile % columns, tile / columns);
        Block {
            left: first_near(side, column, reach.left),
            right: end_near(columns, side, column, reach.right),
            top: first_near(side, row, reach.up),
            bottom: end_near(rows, side, row, reach.down),
        }
    }

    /// The tiles whose windows meet a tile.
    pub fn meeting(grid: Grid, tile: u32, reach: Reach) -> Block
        requires { tile < tile_count grid }
        ensures within { IsBlock grid result }
        ensures meets { (v : ℕ) → v < tile_count grid → in_block grid result v ≡ sees grid reach v tile }
    {
        // for their ranges
        let (_width, _height, _side) = (grid.width(), grid.height(), grid.side());
        let turned = Reach {
            left: reach.right,
            right: reach.left,
            up: reach.down,
            down: reach.up,
        };
        Block::met_by(grid, tile, turned)
    }

    /// How many tiles of the grid lie in the block.
    pub fn len(self, grid: Grid) -> u32
        requires { IsBlock grid self }
        ensures value { result ≡ count_below (in_block grid self) (tile_count grid) }
        ensures most { result ≤ tile_count grid }
    {
        // for their ranges
        let (_columns, _rows) = (grid.columns(), grid.rows());
        (self.bottom - self.top) * (self.right - self.left)
    }

    /// Where the tasks of one step after another are numbered by tiles: the block as the tasks of a step.
    pub fn at_step(self, grid: Grid, step: u32) -> Block
        requires within { IsBlock grid self }
        requires fits { step * rows_of grid + rows_of grid < 2 ^ 32 }
        ensures across { (result.left ≡ self.left) × (result.right ≡ self.right) }
        ensures down { (result.top ≤ result.bottom) × (result.bottom ≤ step * rows_of grid + rows_of grid) }
        ensures tasks { (t : ℕ) → in_block grid result t ≡ nat_eq (t / tile_count grid) step && in_block grid self (t % tile_count grid) }
    {
        let first = step * grid.rows();
        Block {
            top: first + self.top,
            bottom: first + self.bottom,
            ..self
        }
    }
}
