//! Rows of results of rows that are read where they stand. Beside the place's sides such a row runs on into the one above or
//! below it, so there what was made is overwritten by what cells give that are laid out.
ghost use Rattle.std.specs.Prelude.{◌≡◌, ℕ, ◌+◌, ◌*◌, ◌<◌, ◌≤◌, pos, ◌+ℤ◌, ◌≤ℤ◌, List, length};
ghost use Rattle.mw_model.specs.declared.offsets.Offset.{Offset};
ghost use Rattle.mw_model.specs.Windows.{seen_at};
ghost use Rattle.mw_line_lent.specs.Boxes.{IsPutAt};
ghost use Rattle.mw_offset_lent.specs.Layouts.{AreLaid, HasSeenAt, IsStripOf, IsWorkFor, StandsInLines};

use crate::edges::{Edge, put_edge};
use crate::rows::{Rows, put_rows};
use crate::samples::{before_row, rest_from};
use crate::work::{Strip, Work};
use mw_line_lent::{Laned, LanedExtremum};
use mw_tile_lent::Lent;

/// How many rows of results see rows of the place alone that have one more above and below them, where the first row that the first
/// of them sees has this number.
pub(crate) fn rows_in_place(row: i64, down: usize, lines: usize) -> usize
    requires { down ≤ 64 }
    ensures top { 0 < result → pos 1 ≤ℤ row }
    ensures bottom { 0 < result → (row +ℤ pos (result + 2 * down + 1)) ≤ℤ pos lines }
{
    if row < 1 {
        return 0;
    }
    lines
        .saturating_sub(row as usize)
        .saturating_sub(2 * down + 1)
}

/// Writes the rows of a strip. Between the columns at the place's sides these are the results.
fn put_between<P: Laned, E: LanedExtremum<P>>(
    lent: &Lent<P>,
    work: Work,
    strip: Strip,
    neutral: P,
    out: &mut [P],
)
    requires work { IsWorkFor P.WIDTH lent.now work }
    requires strip { IsStripOf work strip }
    requires lines { StandsInLines work strip }
    requires room { length out.old ≡ work.laid.tile.height * work.laid.tile.width }
    ensures put { IsPutAt (strip.y * work.entry.laid.tile.width) (strip.high * work.entry.laid.tile.width) out.old out.new }
    ensures made { (offsets : List Offset) → AreLaid work.entry offsets → (r x : ℕ) → r < strip.high → work.entry.laid.around.across ≤ x → x + work.entry.laid.around.across < work.entry.laid.tile.width → HasSeenAt E.merge neutral (seen_at lent.now) offsets work.entry.laid.tile strip.y r x out.new }
{
    let place = lent.place();
    let samples = lent.samples();
    let from = before_row(place, work.laid, strip.y);
    let seen = rest_from(samples, from);
    let rows = Rows {
        at: strip.y * work.inner.width,
        high: strip.high,
    };
    put_rows::<P, E>(seen, work.inner, neutral, out, rows);
}

/// Writes the rows of results of a strip whose rows stand in the place.
pub(crate) fn put_in_place<P: Laned, E: LanedExtremum<P>>(
    lent: &Lent<P>,
    work: Work,
    strip: Strip,
    neutral: P,
    cells: &mut [P],
    out: &mut [P],
)
    requires work { IsWorkFor P.WIDTH lent.now work }
    requires strip { IsStripOf work strip }
    requires lines { StandsInLines work strip }
    requires cells { (work.laid.most + 2 * work.laid.around.down) * work.laid.wide ≤ length cells.old }
    requires room { length out.old ≡ work.laid.tile.height * work.laid.tile.width }
    ensures cells { length cells.new ≡ length cells.old }
    ensures put { IsPutAt (strip.y * work.entry.laid.tile.width) (strip.high * work.entry.laid.tile.width) out.old out.new }
    ensures made { (offsets : List Offset) → AreLaid work.entry offsets → (r x : ℕ) → r < strip.high → x < work.entry.laid.tile.width → HasSeenAt E.merge neutral (seen_at lent.now) offsets work.entry.laid.tile strip.y r x out.new }
{
    let last = work.laid.tile.width as usize - P::WIDTH;
    put_between::<P, E>(lent, work, strip, neutral, out);
    put_edge::<P, E>(lent, work, Edge { strip, from: 0 }, neutral, cells, out);
    put_edge::<P, E>(lent, work, Edge { strip, from: last }, neutral, cells, out);
}
