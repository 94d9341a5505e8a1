//! Rows of what is lent, laid out with neutral samples where its place has no rows or columns.
ghost use Rattle.std.specs.Prelude.{◌≡◌, ℕ, ◌+◌, ◌*◌, ◌<◌, ◌≤◌, ◌^◌, pos, negsuc, ◌≤ℤ◌, length, slice_index_or};
ghost use Rattle.mw_model.specs.declared.limits.TheConstants.{FAR_LIMIT};
ghost use Rattle.mw_line.specs.Cells.{spread_cell};
ghost use Rattle.mw_line_lent.specs.Boxes.{IsPutAt};
ghost use Rattle.mw_offset_lent.specs.Parts.{IsPartOf};

use crate::parts::{Part, fill};
use mw_line::SpreadRows;
use mw_line::pixel::Pixel;
use mw_tile_lent::Lent;

/// Copies so many samples from one place on to another.
fn copy<P: Pixel>(samples: &[P], from: usize, n: usize, out: &mut [P], at: usize)
    requires samples { from + n ≤ length samples.now }
    requires room { at + n ≤ length out.old }
    ensures put { IsPutAt at n out.old out.new }
    ensures made { (i : ℕ) (d : P) → i < n → slice_index_or out.new (at + i) d ≡ slice_index_or samples.now (from + i) d }
{
    out[at..at + n].copy_from_slice(&samples[from..from + n]);
}

/// Lays out row y of the rows, of which the place has this part of the columns.
fn lay_row<P: Pixel>(
    lent: &Lent<P>,
    rows: SpreadRows,
    part: Part,
    y: usize,
    neutral: P,
    cells: &mut [P],
)
    requires part { IsPartOf rows.column rows.wide lent.now.place.width part }
    requires near { rows.row ≤ℤ pos FAR_LIMIT }
    requires few { y ≤ 2 ^ 20 }
    requires room { (y + 1) * rows.wide ≤ length cells.old }
    ensures put { IsPutAt (y * rows.wide) rows.wide cells.old cells.new }
    ensures made { (x : ℕ) → x < rows.wide → slice_index_or cells.new (y * rows.wide + x) neutral ≡ spread_cell neutral lent.now rows.column rows.row x y }
{
    let place = lent.place();
    let at = y * rows.wide;
    let row = rows.row + y as i64;
    if row < 0 || row >= i64::from(place.height) {
        fill(cells, at, rows.wide, neutral);
        return;
    }
    let from = row as usize * place.width as usize + part.ahead;
    let end = part.behind + part.count;
    fill(cells, at, part.behind, neutral);
    copy(lent.samples(), from, part.count, cells, at + part.behind);
    fill(cells, at + end, rows.wide - end, neutral);
}

/// Lays out all rows.
pub(crate) fn lay_rows<P: Pixel>(
    lent: &Lent<P>,
    rows: SpreadRows,
    part: Part,
    neutral: P,
    cells: &mut [P],
)
    requires part { IsPartOf rows.column rows.wide lent.now.place.width part }
    requires near { rows.row ≤ℤ pos FAR_LIMIT }
    requires few { rows.high ≤ 2 ^ 20 }
    requires room { rows.high * rows.wide ≤ length cells.old }
    ensures size { length cells.new ≡ length cells.old }
    ensures made { (x y : ℕ) → x < rows.wide → y < rows.high → slice_index_or cells.new (y * rows.wide + x) neutral ≡ spread_cell neutral lent.now rows.column rows.row x y }
{
    for y in 0..rows.high {
        lay_row(lent, rows, part, y, neutral, cells);
    }
}
