//! How far places are from what is not in the set, within their columns.

ghost use Rattle.std.specs.Prelude.{◌≡◌, ℕ, ◌*◌, ◌<◌, ◌≤◌, length};
ghost use Rattle.mw_geodesic_distances.specs.Rows.{begin_of_bit};
ghost use Rattle.mw_geodesic_distances.specs.Grids.{grid, AreUpTo};
ghost use Rattle.mw_geodesic_distances.specs.Columns.{IsLoweredDown, IsLoweredUp, AreGaps};

use crate::frame::Frame;
use crate::rows::step_straight;
use crate::sweeps::fill;

/// What counts as far: the square of so many rows is over each top.
pub(crate) const FAR: u32 = 65536;

/// Lowers all numbers, row by row from the top, each to one more than the one above. The other row is for the one above.
fn lower_down(numbers: &mut [u32], other: &mut [u32], frame: Frame)
    requires size { length numbers.old ≡ frame.height * frame.width }
    requires other { length other.old ≡ frame.width }
    requires low { AreUpTo frame FAR (grid frame.width numbers.old) }
    ensures { IsLoweredDown frame.width frame.height (grid frame.width numbers.old) (grid frame.width numbers.new) }
{
    fill(other, FAR);
    let width = frame.width as usize;
    for y in 0..frame.height {
        let start = y as usize * width;
        step_straight(&mut numbers[start..start + width], other);
    }
}

/// Lowers all numbers, row by row from the bottom, each to one more than the one below. The other row is for the one below.
fn lower_up(numbers: &mut [u32], other: &mut [u32], frame: Frame)
    requires size { length numbers.old ≡ frame.height * frame.width }
    requires other { length other.old ≡ frame.width }
    requires low { AreUpTo frame FAR (grid frame.width numbers.old) }
    ensures { IsLoweredUp frame.width frame.height (grid frame.width numbers.old) (grid frame.width numbers.new) }
{
    fill(other, FAR);
    let width = frame.width as usize;
    for done in 0..frame.height {
        let start = (frame.height - 1 - done) as usize * width;
        step_straight(&mut numbers[start..start + width], other);
    }
}

/// Makes the gaps of all places of what the numbers of a set begin with. The other row is for one of them.
pub(crate) fn measure_columns(numbers: &mut [u32], other: &mut [u32], frame: Frame)
    requires size { length numbers.old ≡ frame.height * frame.width }
    requires other { length other.old ≡ frame.width }
    requires low { AreUpTo frame FAR (grid frame.width numbers.old) }
    ensures { (set : ℕ → ℕ → ℕ) → ((x y : ℕ) → x < frame.width → y < frame.height → grid frame.width numbers.old x y ≡ begin_of_bit FAR (set x y)) → ((x y : ℕ) → x < frame.width → y < frame.height → set x y ≤ 1) → AreGaps frame.width frame.height set (grid frame.width numbers.new) }
{
    lower_down(numbers, other, frame);
    lower_up(numbers, other, frame);
}
