//! What a window shows of an element's runs.
ghost use Rattle.std.specs.Prelude.{◌≡◌, ℕ, ℤ, pos, ◌+ℤ◌, ◌-ℤ◌, ◌<◌, ◌≤◌, map, min, MatchOption};
ghost use Rattle.mw_model.specs.declared.limits.TheConstants.{FAR_LIMIT};
ghost use Rattle.mw_model.specs.Rectangles.{nonnegative};
ghost use Rattle.mw_model.specs.Windows.{seen_at};
ghost use Rattle.mw_rank.specs.Ranks.{levels_under, HasNoRow};
ghost use Rattle.mw_rank.specs.Runs.{offsets_of_run};

use crate::runs::more_of;
use mw_element_runs::{Run, place_of};
use mw_tile::Window;
use mw_tile::pixel::Grey;

/// The row of the window in which a run lies, where the window has it.
pub fn row_in<P: Grey>(window: &Window<P>, run: Run, y: u64) -> Option<usize>
    requires { y ≤ FAR_LIMIT }
    ensures { MatchOption result (HasNoRow window.now (pos y +ℤ run.dy -ℤ pos window.now.place.y)) (λ row. (row < window.now.place.height) × (pos y +ℤ run.dy -ℤ pos window.now.place.y ≡ pos row)) }
{
    let place = window.place();
    let row = place_of(y, run.dy, place.y);
    if row < 0 || row >= i64::from(place.height) {
        return None;
    }
    Some(row as usize)
}

/// The nearest place to a column that lies in a row of that width or right behind it.
fn clamped(column: i64, width: u32) -> usize
    ensures { result ≡ min (nonnegative column) width }
{
    if column < 0 {
        return 0;
    }
    (column as usize).min(width as usize)
}

/// The samples of the window that a run shows at column x of row y of the frame.
pub(crate) fn seen_part<P: Grey>(window: &Window<P>, run: Run, x: u64, y: u64) -> &[P]
    requires near { x ≤ FAR_LIMIT }
    requires high { y ≤ FAR_LIMIT }
    ensures { map P.level result.now ≡ levels_under P.level (seen_at window.now) (offsets_of_run run) x y }
{
    let place = window.place();
    let all = window.samples();
    match row_in(window, run, y) {
        None => &all[..0],
        Some(row) => {
            let from = place_of(x, run.dx, place.x);
            let begin = clamped(from, place.width);
            let end = clamped(from + i64::from(more_of(run)) + 1, place.width);
            let samples = window.row(row as u32);
            &samples[begin..end]
        }
    }
}
