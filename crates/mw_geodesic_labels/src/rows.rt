//! What is told of a component as a row of an array: seven numbers, one behind the other.

ghost use Rattle.std.specs.Prelude.{◌≡◌, ◌+◌, ◌≤◌, length};
ghost use Rattle.mw_pixel.specs.Planes.{put_at};
ghost use Rattle.mw_geodesic_labels.specs.Regions.{region_row};
ghost use Rattle.mw_geodesic_labels.specs.Gathering.{HasRegionAt};

use crate::Region;

/// How many numbers are written of a component.
pub const NUMBERS: usize = 7;

/// Writes the numbers of one component.
pub fn put_row(out: &mut [u32], at: usize, r: Region)
    requires { at + 7 ≤ length out.old }
    ensures { out.new ≡ put_at at (region_row r) out.old }
{
    let row = [r.x, r.y, r.area, r.left, r.top, r.right, r.bottom];
    out[at..at + NUMBERS].copy_from_slice(&row);
}

/// What the numbers of one component tell.
pub(crate) fn row_at(out: &[u32], at: usize) -> Region
    requires { at + 7 ≤ length out.now }
    ensures { HasRegionAt out.now at result }
{
    Region {
        x: out[at],
        y: out[at + 1],
        area: out[at + 2],
        left: out[at + 3],
        top: out[at + 4],
        right: out[at + 5],
        bottom: out[at + 6],
    }
}
