//! The columns and rows of a box, one at a time.

ghost use Rattle.std.specs.Prelude.{◌≡◌, ◌+ℤ◌, ◌<◌, ◌≤ℤ◌, negsuc, pos};
ghost use Rattle.mw_model.specs.Rectangles.{span};

use mw_model::OffsetBox;

/// How many columns a box has.
pub(crate) fn columns(offsets: OffsetBox) -> usize
    ensures { result ≡ span offsets.x0 offsets.x1 }
{
    if offsets.x1 < offsets.x0 {
        return 0;
    }
    (i64::from(offsets.x1) - i64::from(offsets.x0) + 1) as usize
}

/// How many rows a box has.
pub(crate) fn rows(offsets: OffsetBox) -> usize
    ensures { result ≡ span offsets.y0 offsets.y1 }
{
    if offsets.y1 < offsets.y0 {
        return 0;
    }
    (i64::from(offsets.y1) - i64::from(offsets.y0) + 1) as usize
}

/// How far column i of a box lies to the right.
pub(crate) fn right_of(offsets: OffsetBox, i: usize) -> i64
    requires { i < span offsets.x0 offsets.x1 }
    ensures value { result ≡ offsets.x0 +ℤ pos i }
    ensures high { result ≤ℤ pos 2147483647 }
    ensures low { negsuc 2147483647 ≤ℤ result }
{
    i64::from(offsets.x0) + i as i64
}

/// How far row j of a box lies below.
pub(crate) fn below(offsets: OffsetBox, j: usize) -> i64
    requires { j < span offsets.y0 offsets.y1 }
    ensures value { result ≡ offsets.y0 +ℤ pos j }
    ensures high { result ≤ℤ pos 2147483647 }
    ensures low { negsuc 2147483647 ≤ℤ result }
{
    i64::from(offsets.y0) + j as i64
}
