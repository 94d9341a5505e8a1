//! A row of a window merged into a row of samples.
ghost use Rattle.std.specs.Prelude.{◌≡◌, ℕ, ◌<◌, ◌+ℤ◌, pos, length, slice_index_or};
ghost use Rattle.mw_lane.specs.Shifted.{merge_at};
ghost use Rattle.mw_line.specs.Cells.{window_cell};

use mw_lane::combine_shifted;
use mw_tile::Window;
use mw_tile::pixel::{Extremum, Grey};

/// Merges into each sample what the window has in that row, so many columns further on, both counted from the window's
/// first place.
pub fn combine_window_row<P: Grey, E: Extremum<P>>(
    window: &Window<P>,
    column: i64,
    row: i64,
    out: &mut [P],
)
    ensures { (x : ℕ) (d : P) → x < length out.old → slice_index_or out.new x d ≡ merge_at E.merge (slice_index_or out.old x d) (window_cell window.now (column +ℤ pos x) row) }
{
    let place = window.place();
    if row >= 0 && row < i64::from(place.height) {
        combine_shifted::<P, E>(window.row(row as u32), column, out);
    }
}
