//! Where an element's offsets lie in a window, for columns at which all of them do.
ghost use Rattle.std.specs.Prelude.{◌≡◌, ℕ, pos, ◌+ℤ◌, ◌-ℤ◌, ◌+◌, ◌≤◌, IfOk, IfSome, IsTrue};
ghost use Rattle.mw_model.specs.declared.limits.TheConstants.{FAR_LIMIT};
ghost use Rattle.mw_model.specs.Windows.{seen_at};
ghost use Rattle.mw_rank.specs.Runs.{run_at};
ghost use Rattle.mw_rank_counts.specs.Counting.{ArePlaces, AddsPlace};

use mw_model::{NoMemory, Offset, Rect};
use mw_rank::pixel::Grey;
use mw_rank::row_in;
use mw_rank::run::{Run, place_of};
use mw_rank::tile::Window;

/// The columns of a tile at which all offsets lie in columns of a window.
#[derive(Clone, Copy)]
pub(crate) struct Inner {
    pub first: u32,
    pub count: u32,
}

/// An offset as a run of its own.
fn lone(offset: Offset) -> Run
    ensures { result ≡ run_at offset.dx offset.dy 1 }
{
    Run {
        dx: offset.dx,
        dy: offset.dy,
        count: 1,
    }
}

/// The column of the place in which an offset lies, where it does so at `count` columns in all.
fn column_in(place: Rect, offset: Offset, x: u64, count: u32) -> Option<usize>
    requires { x ≤ FAR_LIMIT }
    ensures { IfSome result (λ column. (pos x +ℤ offset.dx -ℤ pos place.x ≡ pos column) × (column + count ≤ place.width)) }
{
    let from = place_of(x, offset.dx, place.x);
    if from < 0 || from + i64::from(count) > i64::from(place.width) {
        return None;
    }
    Some(from as usize)
}

/// Adds an offset's place, where the window has its row; says whether the window has its columns.
fn push_place<P: Grey>(
    places: &mut Vec<usize>,
    window: &Window<P>,
    offset: Offset,
    x: u64,
    y: u64,
    count: u32,
) -> Result<bool, NoMemory>
    requires near { x ≤ FAR_LIMIT }
    requires high { y ≤ FAR_LIMIT }
    requires some { 1 ≤ count }
    ensures { IfOk result (λ inside. IsTrue inside → AddsPlace P.level P.TOP (seen_at window.now) window.now.cells offset x y count places.old.items places.new.items) }
{
    let place = window.place();
    // for their number
    let _samples = window.samples();
    let run = lone(offset);
    match row_in(window, run, y) {
        None => Ok(true),
        Some(row) => match column_in(place, offset, x, count) {
            None => Ok(false),
            Some(column) => {
                places.push(row * place.width as usize + column)?;
                Ok(true)
            }
        },
    }
}

/// The places of all offsets at column x of row y; says whether the window has their columns there and at `count`
/// columns in all.
pub(crate) fn row_places<P: Grey>(
    places: &mut Vec<usize>,
    window: &Window<P>,
    offsets: &[Offset],
    x: u64,
    y: u64,
    count: u32,
) -> Result<bool, NoMemory>
    requires near { x ≤ FAR_LIMIT }
    requires high { y ≤ FAR_LIMIT }
    requires some { 1 ≤ count }
    ensures { IfOk result (λ inside. IsTrue inside → ArePlaces P.level P.TOP (seen_at window.now) window.now.cells offsets.now x y count places.new.items) }
{
    places.clear();
    for offset in offsets {
        if !push_place(places, window, *offset, x, y, count)? {
            return Ok(false);
        }
    }
    Ok(true)
}

/// The columns of the tile at which all offsets are in columns of the window; `row_places` looks whether they are.
pub(crate) fn inner_places(offsets: &[Offset], tile: Rect, place: Rect) -> Inner
    ensures { result.first + result.count ≤ tile.width }
{
    let mut left = 0u16;
    let mut right = 0u16;
    for offset in offsets {
        left = left.max(offset.dx.min(0).unsigned_abs());
        right = right.max(offset.dx.max(0).unsigned_abs());
    }
    let width = u64::from(tile.width);
    let begin = u64::from(place.x) + u64::from(left);
    let first = begin.saturating_sub(u64::from(tile.x)).min(width);
    let end = u64::from(place.x) + u64::from(place.width);
    let stop = end
        .saturating_sub(u64::from(tile.x) + u64::from(right))
        .min(width);
    Inner {
        first: first as u32,
        count: stop.saturating_sub(first) as u32,
    }
}
