//! City-block and chessboard distances by two sweeps over the rows.

ghost use Rattle.std.specs.Prelude.{◌≡◌, ℕ, ◌*◌, ◌<◌, ◌≤◌, length};
ghost use Rattle.mw_geodesic_distances.specs.Rows.{distance_at};
ghost use Rattle.mw_geodesic_distances.specs.Grids.{grid, AreUpTo, IsLowered, IsForward, IsSmooth};

use crate::frame::Frame;
use crate::rows::{step_left, step_right};

/// Sets each number of a row.
pub(crate) fn fill(row: &mut [u32], number: u32)
    ensures { (x : ℕ) → x < length row.old → distance_at row.new x ≡ number }
{
    for x in 0..row.len() {
        row[x] = number;
    }
}

/// Lowers all numbers, row by row from the top, each row by the one above and then from its left. The other row is for the
/// one above.
fn sweep_down(numbers: &mut [u32], other: &mut [u32], frame: Frame, top: u32)
    requires size { length numbers.old ≡ frame.height * frame.width }
    requires other { length other.old ≡ frame.width }
    requires small { frame.reach ≤ 1 }
    requires low { AreUpTo frame top (grid frame.width numbers.old) }
    ensures lowered { IsLowered frame (grid frame.width numbers.old) (grid frame.width numbers.new) }
    ensures forward { IsForward frame (grid frame.width numbers.new) }
{
    fill(other, top); // above the first row all is far
    let width = frame.width as usize;
    for y in 0..frame.height {
        let start = y as usize * width;
        step_right(&mut numbers[start..start + width], other, frame.reach);
    }
}

/// Lowers all numbers, row by row from the bottom, each row by the one below and then from its right. The other row is for
/// the one below.
fn sweep_up(numbers: &mut [u32], other: &mut [u32], frame: Frame, top: u32)
    requires size { length numbers.old ≡ frame.height * frame.width }
    requires other { length other.old ≡ frame.width }
    requires small { frame.reach ≤ 1 }
    requires low { AreUpTo frame top (grid frame.width numbers.old) }
    requires forward { IsForward frame (grid frame.width numbers.old) }
    ensures lowered { IsLowered frame (grid frame.width numbers.old) (grid frame.width numbers.new) }
    ensures smooth { IsSmooth frame (grid frame.width numbers.new) }
{
    fill(other, top); // and below the last one
    let width = frame.width as usize;
    for done in 0..frame.height {
        let start = (frame.height - 1 - done) as usize * width;
        step_left(&mut numbers[start..start + width], other, frame.reach);
    }
}

/// Lowers all numbers until none is over one more than that of a place near it. The other row has as many numbers as there
/// are columns.
pub(crate) fn sweep(numbers: &mut [u32], other: &mut [u32], frame: Frame, top: u32)
    requires size { length numbers.old ≡ frame.height * frame.width }
    requires other { length other.old ≡ frame.width }
    requires small { frame.reach ≤ 1 }
    requires low { AreUpTo frame top (grid frame.width numbers.old) }
    ensures lowered { IsLowered frame (grid frame.width numbers.old) (grid frame.width numbers.new) }
    ensures smooth { IsSmooth frame (grid frame.width numbers.new) }
{
    sweep_down(numbers, other, frame, top);
    sweep_up(numbers, other, frame, top);
}
