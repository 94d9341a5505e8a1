//! The rows of results of a tile, some at a time.
ghost use Rattle.std.specs.Prelude.{◌≡◌, ℕ, ◌+◌, ◌*◌, ◌<◌, ◌≤◌, List, length};
ghost use Rattle.mw_model.specs.declared.offsets.Offset.{Offset};
ghost use Rattle.mw_model.specs.Windows.{seen_at};
ghost use Rattle.mw_line_lent.specs.Boxes.{IsPutAt};
ghost use Rattle.mw_offset_lent.specs.Layouts.{AreLaid, HasSeenAt, HasSeenRows, IsStripOf, IsWorkFor};

use crate::in_place::{put_in_place, rows_in_place};
use crate::layout::lay_rows;
use crate::rows::{Rows, put_rows};
use crate::work::{Strip, Work};
use mw_line::SpreadRows;
use mw_line_lent::{Laned, LanedExtremum};
use mw_tile_lent::Lent;

/// Writes the rows of results of a strip, of cells that are laid out.
fn put_laid<P: Laned, E: LanedExtremum<P>>(
    lent: &Lent<P>,
    work: Work,
    strip: Strip,
    neutral: P,
    cells: &mut [P],
    out: &mut [P],
)
    requires work { IsWorkFor P.WIDTH lent.now work }
    requires strip { IsStripOf work strip }
    requires cells { (work.laid.most + 2 * work.laid.around.down) * work.laid.wide ≤ length cells.old }
    requires room { length out.old ≡ work.laid.tile.height * work.laid.tile.width }
    ensures cells { length cells.new ≡ length cells.old }
    ensures put { IsPutAt (strip.y * work.entry.laid.tile.width) (strip.high * work.entry.laid.tile.width) out.old out.new }
    ensures made { (offsets : List Offset) → AreLaid work.entry offsets → (r x : ℕ) → r < strip.high → x < work.entry.laid.tile.width → HasSeenAt E.merge neutral (seen_at lent.now) offsets work.entry.laid.tile strip.y r x out.new }
{
    let laid = work.laid;
    let split = work.split;
    let rows = SpreadRows {
        column: laid.column,
        row: laid.row + strip.y as i64,
        wide: laid.wide,
        high: strip.high + 2 * laid.around.down,
    };
    lay_rows(lent, rows, laid.part, neutral, cells);
    let rows = Rows {
        at: strip.y * split.width,
        high: strip.high,
    };
    put_rows::<P, E>(cells, split, neutral, out, rows);
}

/// How many rows of results are laid out at once where the first row that they see has this number: where others can be read in
/// place, no more than come before these.
fn rows_to_lay(row: i64, most: usize, lines: usize) -> usize
    requires { 0 < most }
    ensures some { 0 < result }
    ensures most { result ≤ most }
{
    if lines == 0 || row > 0 {
        return most;
    }
    most.min((row.unsigned_abs() as usize).saturating_add(1))
}

/// Writes some rows of results from row y on. Returns how many.
fn put_strip<P: Laned, E: LanedExtremum<P>>(
    lent: &Lent<P>,
    work: Work,
    y: usize,
    neutral: P,
    cells: &mut [P],
    out: &mut [P],
) -> usize
    requires work { IsWorkFor P.WIDTH lent.now work }
    requires row { y < work.laid.tile.height }
    requires cells { (work.laid.most + 2 * work.laid.around.down) * work.laid.wide ≤ length cells.old }
    requires room { length out.old ≡ work.laid.tile.height * work.laid.tile.width }
    ensures some { 0 < result }
    ensures within { y + result ≤ work.entry.laid.tile.height }
    ensures cells { length cells.new ≡ length cells.old }
    ensures put { IsPutAt (y * work.entry.laid.tile.width) (result * work.entry.laid.tile.width) out.old out.new }
    ensures made { (offsets : List Offset) → AreLaid work.entry offsets → (r x : ℕ) → r < result → x < work.entry.laid.tile.width → HasSeenAt E.merge neutral (seen_at lent.now) offsets work.entry.laid.tile y r x out.new }
{
    let laid = work.laid;
    let most = laid.most.min(laid.tile.height as usize - y);
    let row = laid.row + y as i64;
    let free = rows_in_place(row, laid.around.down, work.lines);
    if free > 0 {
        let high = most.min(free);
        put_in_place::<P, E>(lent, work, Strip { y, high }, neutral, cells, out);
        return high;
    }
    let high = rows_to_lay(row, most, work.lines);
    put_laid::<P, E>(lent, work, Strip { y, high }, neutral, cells, out);
    high
}

/// Writes all rows of results.
pub(crate) fn put_strips<P: Laned, E: LanedExtremum<P>>(
    lent: &Lent<P>,
    work: Work,
    neutral: P,
    cells: &mut [P],
    out: &mut [P],
)
    requires work { IsWorkFor P.WIDTH lent.now work }
    requires cells { (work.laid.most + 2 * work.laid.around.down) * work.laid.wide ≤ length cells.old }
    requires room { length out.old ≡ work.laid.tile.height * work.laid.tile.width }
    ensures size { length out.new ≡ length out.old }
    ensures made { (offsets : List Offset) → AreLaid work.entry offsets → HasSeenRows E.merge neutral (seen_at lent.now) offsets work.entry.laid.tile work.entry.laid.tile.height out.new }
{
    let height = work.laid.tile.height as usize;
    let mut done = 0usize;
    'by_strips: while done < height {
        let made = put_strip::<P, E>(lent, work, done, neutral, cells, out);
        done += made;
    }
}
