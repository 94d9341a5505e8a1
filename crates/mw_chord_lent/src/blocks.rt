//! Blocks of a tile's results, one after another: the rows that a block sees are laid out, lists of chords are made of them, and
//! the chords of all runs are merged. The last blocks of a row and of a column begin early enough to end with them.
ghost use Rattle.std.specs.Prelude.{◌≡◌, ℕ, ◌+◌, ◌-◌, ◌*◌, ◌<◌, ◌≤◌, List, length, slice_index_or};
ghost use Rattle.mw_model.specs.Windows.{seen_at};
ghost use Rattle.mw_offset.specs.mw_element_runs.declared.runs.Run.{Run};
ghost use Rattle.mw_line_lent.specs.Boxes.{IsPutInRows};
ghost use Rattle.mw_chord_lent.specs.Works.{IsSeen, IsBlockWork};

use crate::gather::{Rows, put_rows};
use crate::grow::grow;
use crate::layout::lay_rows;
use crate::plan::Plan;
use mw_line::SpreadRows;
use mw_line_lent::{Laned, LanedExtremum};
use mw_offset::run::{Extent, first_column, first_row, rows_after};
use mw_tile_lent::{Lent, Rect};

/// A tile, and what is needed for its blocks: the element's extent, the lengths of chords, and the places of its runs in their
/// lists.
#[derive(Clone, Copy)]
pub(crate) struct Work<'a> {
    pub tile: Rect,
    pub extent: Extent,
    pub plan: Plan,
    pub sizes: &'a [usize],
    pub places: &'a [usize],
}

/// A block's first column and row.
#[derive(Clone, Copy)]
pub(crate) struct Corner {
    pub x: usize,
    pub y: usize,
}

/// Writes a block.
fn put_block<P: Laned, E: LanedExtremum<P>>(
    lent: &Lent<P>,
    work: Work,
    corner: Corner,
    neutral: P,
    lists: &mut [P],
    out: &mut [P],
)
    requires work { (runs : List Run) × IsBlockWork P.WIDTH runs work }
    requires lists { length work.sizes.now * work.plan.span ≤ length lists.old }
    requires across { corner.x + work.plan.width ≤ work.tile.width }
    requires down { corner.y + work.plan.high ≤ work.tile.height }
    requires room { length out.old ≡ work.tile.height * work.tile.width }
    ensures lists { length lists.new ≡ length lists.old }
    ensures put { IsPutInRows work.entry.plan.high (corner.y * work.entry.tile.width + corner.x) work.entry.plan.width work.entry.tile.width out.old out.new }
    ensures made { (runs : List Run) → IsBlockWork P.WIDTH runs work.entry → (r i : ℕ) → r < work.entry.plan.high → i < work.entry.plan.width → IsSeen E.merge neutral (seen_at lent.now) runs work.entry.tile (corner.x + i) (corner.y + r) (slice_index_or out.new (corner.y * work.entry.tile.width + corner.x + r * work.entry.tile.width + i) neutral) }
{
    let Work {
        tile,
        extent,
        plan,
        ..
    } = work;
    let place = lent.place();
    let seen = SpreadRows {
        column: first_column(tile, extent, place) + corner.x as i64,
        row: first_row(tile, extent, place) + corner.y as i64,
        wide: plan.wide,
        high: plan.high + rows_after(extent),
    };
    lay_rows(lent, seen, neutral, lists);
    grow::<P, E>(lists, work.sizes, plan.span, plan.chunks);
    let apart = tile.width as usize;
    let rows = Rows {
        at: corner.y * apart + corner.x,
        apart,
        high: plan.high,
        width: plan.width,
        wide: plan.wide,
    };
    put_rows::<P, E>(lists, work.places, neutral, out, rows);
}

/// Writes the blocks from row y on.
fn put_columns<P: Laned, E: LanedExtremum<P>>(
    lent: &Lent<P>,
    work: Work,
    y: usize,
    neutral: P,
    lists: &mut [P],
    out: &mut [P],
)
    requires work { (runs : List Run) × IsBlockWork P.WIDTH runs work }
    requires lists { length work.sizes.now * work.plan.span ≤ length lists.old }
    requires down { y + work.plan.high ≤ work.tile.height }
    requires room { length out.old ≡ work.tile.height * work.tile.width }
    ensures lists { length lists.new ≡ length lists.old }
    ensures size { length out.new ≡ length out.old }
    ensures before { (p : ℕ) (d : P) → p < y * work.entry.tile.width → slice_index_or out.new p d ≡ slice_index_or out.old p d }
    ensures made { (runs : List Run) → IsBlockWork P.WIDTH runs work.entry → (r x : ℕ) → r < work.entry.plan.high → x < work.entry.tile.width → IsSeen E.merge neutral (seen_at lent.now) runs work.entry.tile x (y + r) (slice_index_or out.new ((y + r) * work.entry.tile.width + x) neutral) }
{
    let width = work.tile.width as usize;
    let mut done = 0usize;
    'by_columns: while done < width {
        let x = done.min(width - work.plan.width);
        put_block::<P, E>(lent, work, Corner { x, y }, neutral, lists, out);
        done = x + work.plan.width;
    }
}

/// Writes all blocks.
pub(crate) fn put_blocks<P: Laned, E: LanedExtremum<P>>(
    lent: &Lent<P>,
    work: Work,
    neutral: P,
    lists: &mut [P],
    out: &mut [P],
)
    requires work { (runs : List Run) × IsBlockWork P.WIDTH runs work }
    requires lists { length work.sizes.now * work.plan.span ≤ length lists.old }
    requires room { length out.old ≡ work.tile.height * work.tile.width }
    ensures size { length out.new ≡ length out.old }
    ensures made { (runs : List Run) → IsBlockWork P.WIDTH runs work.entry → (x y : ℕ) → x < work.entry.tile.width → y < work.entry.tile.height → IsSeen E.merge neutral (seen_at lent.now) runs work.entry.tile x y (slice_index_or out.new (y * work.entry.tile.width + x) neutral) }
{
    let height = work.tile.height as usize;
    let mut done = 0usize;
    'by_rows: while done < height {
        let y = done.min(height - work.plan.high);
        put_columns::<P, E>(lent, work, y, neutral, lists, out);
        done = y + work.plan.high;
    }
}
