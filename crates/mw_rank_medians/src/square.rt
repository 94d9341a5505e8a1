//! Elements that are squares of offsets, and where a window shows them.
ghost use Rattle.std.specs.Prelude.{◌≡◌, ◌+◌, ◌<◌, ◌≤◌, pos, ◌+ℤ◌, ◌-ℤ◌, IfSome, IsTrue};
ghost use Rattle.mw_model.specs.Windows.{seen_at};
ghost use Rattle.mw_model.specs.declared.limits.TheConstants.{FAR_LIMIT};
ghost use Rattle.mw_rank_medians.specs.Squares.{offset_rows, ShowsSquare};

use mw_model::{Offset, Rect};
use mw_rank::pixel::Grey;
use mw_rank::run::place_of;
use mw_rank::tile::Window;

/// Whether a step is so many places from another.
fn is_ahead(from: i16, to: i16, by: usize) -> bool
    requires { by < 256 }
    ensures { IsTrue result → to ≡ from +ℤ pos by }
{
    i64::from(to) == i64::from(from) + by as i64
}

/// Whether the offset stands so many columns to the right of the first, and rows below it.
fn stands_at(first: Offset, offset: Offset, column: usize, row: usize) -> bool
    requires across { column < 256 }
    requires down { row < 256 }
    ensures { IsTrue result → (offset.dx ≡ first.dx +ℤ pos column) × (offset.dy ≡ first.dy +ℤ pos row) }
{
    is_ahead(first.dx, offset.dx, column) && is_ahead(first.dy, offset.dy, row)
}

/// The first offset, where the offsets are a square of that side, row after row.
pub fn square_of(offsets: &[Offset], side: usize) -> Option<Offset>
    requires some { 1 ≤ side }
    requires small { side < 256 }
    ensures { IfSome result (λ b. offsets.now ≡ offset_rows b side side) }
{
    if offsets.is_empty() || offsets.len() != side * side {
        return None;
    }
    let first = offsets[0];
    for row in 0..side {
        for column in 0..side {
            if !stands_at(first, offsets[row * side + column], column, row) {
                return None;
            }
        }
    }
    Some(first)
}

/// The column of the place in which the square begins, where it stays in the place's columns at so many columns in all.
fn column_in(place: Rect, first: Offset, side: u32, x: u64, count: u32) -> Option<usize>
    requires near { x ≤ FAR_LIMIT }
    ensures { IfSome result (λ column. (pos x +ℤ first.dx -ℤ pos place.x ≡ pos column) × (column + count + side ≤ place.width + 1)) }
{
    let from = place_of(x, first.dx, place.x);
    if from < 0 {
        return None;
    }
    let column = from as usize;
    if column + count as usize + side as usize > place.width as usize + 1 {
        return None;
    }
    Some(column)
}

/// The row of the place in which the square begins, where the place has all of its rows.
fn row_in(place: Rect, first: Offset, side: u32, y: u64) -> Option<usize>
    requires high { y ≤ FAR_LIMIT }
    ensures { IfSome result (λ row. (pos y +ℤ first.dy -ℤ pos place.y ≡ pos row) × (row + side ≤ place.height)) }
{
    let from = place_of(y, first.dy, place.y);
    if from < 0 {
        return None;
    }
    let row = from as usize;
    if row + side as usize > place.height as usize {
        return None;
    }
    Some(row)
}

/// The place of the first offset's sample at column x of row y, where the window shows the whole square there and at so
/// many columns in all.
pub(crate) fn square_in<P: Grey>(
    window: &Window<P>,
    first: Offset,
    side: u32,
    x: u64,
    y: u64,
    count: u32,
) -> Option<usize>
    requires near { x ≤ FAR_LIMIT }
    requires high { y ≤ FAR_LIMIT }
    requires some { 1 ≤ side }
    ensures { IfSome result (λ from. ShowsSquare P.level P.TOP (seen_at window.now) window.now.cells (offset_rows first side side) x y count from window.now.place.width side) }
{
    let place = window.place();
    // for their number
    let _samples = window.samples();
    match row_in(place, first, side, y) {
        None => None,
        Some(row) => match column_in(place, first, side, x, count) {
            None => None,
            Some(column) => Some(row * place.width as usize + column),
        },
    }
}
