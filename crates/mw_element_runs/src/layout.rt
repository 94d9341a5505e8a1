//! Runs laid out around a tile: in rows of one length, from the first column and row of the element on.
ghost use Rattle.std.specs.Prelude.{◌≡◌, ◌<◌, ◌≤◌, ◌^◌, pos, negsuc, ◌+ℤ◌, ◌-ℤ◌, ◌≤ℤ◌};
ghost use Rattle.mw_model.specs.declared.limits.TheConstants.{FAR_LIMIT};
ghost use Rattle.mw_model.specs.Rectangles.{nonnegative};
ghost use Rattle.mw_element_runs.specs.declared.runs.Run.{Run};
ghost use Rattle.mw_element_runs.specs.Runs.{start_of, RunIsInside};

use crate::runs::{Extent, Run};
use mw_model::Rect;

/// How many places there are from the first to that one.
fn places_from(first: i32, place: i16) -> usize
    requires { first ≤ℤ place }
    ensures { result ≡ nonnegative (place -ℤ first) }
{
    (i64::from(place) - i64::from(first)) as usize
}

/// Where a run begins in rows of `wide` places.
pub fn start_of_run(run: Run, extent: Extent, wide: usize) -> usize
    requires inside { RunIsInside extent run }
    requires fits { start_of extent wide run < 2 ^ 64 }
    ensures { result ≡ start_of extent wide run }
{
    let down = places_from(extent.top, run.dy);
    let across = places_from(extent.left, run.dx);
    down * wide + across
}

/// Where the first place that is looked at from a tile lies in the window, along one axis.
fn first_looked(tile: u32, offset: i32, first: u32) -> i64
    ensures value { result ≡ pos tile +ℤ offset -ℤ pos first }
    ensures low { negsuc FAR_LIMIT ≤ℤ result }
    ensures high { result ≤ℤ pos FAR_LIMIT }
{
    i64::from(tile) + i64::from(offset) - i64::from(first)
}

/// How many places come after the first one.
fn places_after(first: i32, last: i32) -> usize
    requires { first ≤ℤ last }
    ensures value { result ≡ nonnegative (last -ℤ first) }
    ensures small { result ≤ 2 ^ 32 }
{
    (i64::from(last) - i64::from(first)) as usize
}

/// How many columns an extent has after its first.
pub fn columns_after(extent: Extent) -> usize
    requires { extent.left ≤ℤ extent.right }
    ensures value { result ≡ nonnegative (extent.right -ℤ extent.left) }
    ensures small { result ≤ 2 ^ 32 }
{
    places_after(extent.left, extent.right)
}

/// How many rows an extent has after its first.
pub fn rows_after(extent: Extent) -> usize
    requires { extent.top ≤ℤ extent.bottom }
    ensures value { result ≡ nonnegative (extent.bottom -ℤ extent.top) }
    ensures small { result ≤ 2 ^ 32 }
{
    places_after(extent.top, extent.bottom)
}

/// The column of the window at which the tile begins to look.
pub fn first_column(tile: Rect, extent: Extent, place: Rect) -> i64
    ensures value { result ≡ pos tile.x +ℤ extent.left -ℤ pos place.x }
    ensures low { negsuc FAR_LIMIT ≤ℤ result }
    ensures high { result ≤ℤ pos FAR_LIMIT }
{
    first_looked(tile.x, extent.left, place.x)
}

/// The row of the window at which the tile begins to look.
pub fn first_row(tile: Rect, extent: Extent, place: Rect) -> i64
    ensures value { result ≡ pos tile.y +ℤ extent.top -ℤ pos place.y }
    ensures low { negsuc FAR_LIMIT ≤ℤ result }
    ensures high { result ≤ℤ pos FAR_LIMIT }
{
    first_looked(tile.y, extent.top, place.y)
}
