//! The side of a command's tiles. No reply depends on it: a tile reads its window, which an element makes larger to each side by
//! its reach. Larger tiles read less beside themselves, and hold more at once.

ghost use Rattle.mw_core_tasks.specs.Sides.{IsSideFor};

use mw_grid::side_ok;

/// A reach up to this is small beside the usual side.
const NEAR: u32 = 24;

/// The side where ranks go over numbers of levels: at the frame's edge a tile goes another way, and a larger one loses more by it.
const NUMBERED: u32 = 128;

/// The usual side.
const USUAL: u32 = 256;

/// A reach up to this is small beside the side of large tiles.
const FAR: u32 = 64;

/// The side of large tiles.
const LARGE: u32 = 512;

/// The side of the largest tiles, for elements that reach farther.
const LARGEST: u32 = 1024;

/// The side of tiles that was asked for, or one that suits an element of this reach where tiles may not have that.
pub(crate) fn side_for(asked: u32, reach: u32, is_numbered: bool) -> u32
    ensures { IsSideFor asked result }
{
    if side_ok(asked) {
        asked
    } else if reach <= NEAR {
        if is_numbered { NUMBERED } else { USUAL }
    } else if reach <= FAR {
        LARGE
    } else {
        LARGEST
    }
}
