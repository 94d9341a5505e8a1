//! Which places of a box's side can see a window from a tile, along one axis.
ghost use Rattle.std.specs.Prelude.{◌≡◌, ℕ, ◌+◌, ◌≤◌, ◌^◌, pos, negsuc, ◌+ℤ◌, ◌-ℤ◌, ◌≤ℤ◌};
ghost use Rattle.mw_model.specs.declared.limits.TheConstants.{FAR_LIMIT};
ghost use Rattle.mw_model.specs.Rectangles.{nonnegative, span};
ghost use Rattle.mw_line.specs.Sides.{IsSeenSide};

use mw_model::{OffsetBox, Rect};

/// The places of a side that are left out at its beginning, and how many from there on are looked at.
#[derive(Clone, Copy)]
pub struct SeenSide {
    pub skipped: usize,
    pub count: usize,
}

/// The number, or 0 below 0.
fn at_least_zero(number: i64) -> usize
    ensures { result ≡ nonnegative number }
{
    if number > 0 { number as usize } else { 0 }
}

/// How many places from `a` on end before the window as seen from the tile's last place.
fn places_before(a: i32, tile: u32, side: u32, first: u32) -> usize
    ensures { result ≡ nonnegative (pos first -ℤ pos tile -ℤ pos side -ℤ a +ℤ pos 1) }
{
    let ahead = i64::from(first) - i64::from(tile) - i64::from(side) - i64::from(a) + 1;
    at_least_zero(ahead)
}

/// How many places from `a` on come before the window's end as seen from the tile's first place.
fn places_to_end(a: i32, tile: u32, end: u64) -> usize
    requires { end ≤ 2 ^ 33 }
    ensures { result ≡ nonnegative (pos end -ℤ pos tile -ℤ a) }
{
    let ahead = (end as i64) - i64::from(tile) - i64::from(a);
    at_least_zero(ahead)
}

/// How many places there are from `a` to `b`.
fn places_of_side(a: i32, b: i32) -> usize
    ensures { result ≡ span a b }
{
    at_least_zero(i64::from(b) - i64::from(a) + 1)
}

/// The part of a box's side from `a` to `b` by which `side` places of a tile can see `len` places of a window.
fn seen_side(a: i32, b: i32, tile: u32, side: u32, first: u32, len: u32) -> SeenSide
    ensures { IsSeenSide tile side first len a b result.skipped result.count }
{
    let skipped = places_before(a, tile, side, first);
    let to_end = places_to_end(a, tile, u64::from(first) + u64::from(len));
    let stop = to_end.min(places_of_side(a, b));
    SeenSide {
        skipped,
        count: stop.saturating_sub(skipped),
    }
}

/// The part of the box's columns by which the tile can see a window at that place.
pub fn seen_across(offsets: OffsetBox, tile: Rect, place: Rect) -> SeenSide
    ensures { IsSeenSide tile.x tile.width place.x place.width offsets.x0 offsets.x1 result.skipped result.count }
{
    seen_side(
        offsets.x0,
        offsets.x1,
        tile.x,
        tile.width,
        place.x,
        place.width,
    )
}

/// The part of the box's rows by which the tile can see a window at that place.
pub fn seen_down(offsets: OffsetBox, tile: Rect, place: Rect) -> SeenSide
    ensures { IsSeenSide tile.y tile.height place.y place.height offsets.y0 offsets.y1 result.skipped result.count }
{
    seen_side(
        offsets.y0,
        offsets.y1,
        tile.y,
        tile.height,
        place.y,
        place.height,
    )
}

/// Where the first place that is looked at from the tile's first place lies in the window.
pub fn first_seen(tile: u32, a: i32, skipped: usize, first: u32) -> i64
    requires { skipped ≤ 2 ^ 34 }
    ensures value { result ≡ pos tile +ℤ (a +ℤ pos skipped) -ℤ pos first }
    ensures low { negsuc FAR_LIMIT ≤ℤ result }
    ensures high { result ≤ℤ pos FAR_LIMIT }
{
    i64::from(tile) + i64::from(a) + (skipped as i64) - i64::from(first)
}
