//! Whether windows are those that a step reads for a tile.

ghost use Rattle.std.specs.Prelude.{◌≡◌, ◌↔◌, IsTrue, length};
ghost use Rattle.std.specs.List.{AllByRecursion};
ghost use Rattle.mw_model.specs.Rectangles.{IsWithin};
ghost use Rattle.mw_model.specs.Tasks.{place_read};
ghost use Rattle.mw_step_task.specs.Meanings.{meaning};
ghost use Rattle.mw_step_task.specs.WindowTasks.{FitsStep, IsRead, KindsFit, SameKind, IsSetWindow, source_count};

use crate::Step;
use mw_model::{Kind, Rect, SIDE_LIMIT};
use mw_tile_pieces::SharedWindow;

/// The tile grown by the reach of the step and cut to the frame.
fn place_read(step: &Step, width: u32, height: u32, tile: Rect) -> Rect
    requires { IsWithin tile width height }
    ensures { result ≡ place_read (meaning step.now) width height tile }
{
    let reach = step.reach();
    let x = tile.x.saturating_sub(reach.left);
    let y = tile.y.saturating_sub(reach.up);
    let right = (tile.x + tile.width).saturating_add(reach.right).min(width);
    let bottom = (tile.y + tile.height)
        .saturating_add(reach.down)
        .min(height);
    Rect {
        x,
        y,
        width: right - x,
        height: bottom - y,
    }
}

/// Whether the tile lies in a frame of these sides.
fn within(tile: Rect, width: u32, height: u32) -> bool
    ensures { IsTrue result ↔ IsWithin tile width height }
{
    tile.x <= width
        && tile.width <= width - tile.x
        && tile.y <= height
        && tile.height <= height - tile.y
}

/// Whether the window is what the step reads for the tile in a frame of these sides.
fn is_read(step: &Step, tile: Rect, width: u32, height: u32, window: &SharedWindow) -> bool
    ensures { IsTrue result ↔ IsRead (meaning step.now) tile width height window.now }
{
    window.frame_width() == width
        && window.frame_height() == height
        && width <= SIDE_LIMIT
        && height <= SIDE_LIMIT
        && within(tile, width, height)
        && window.place() == place_read(step, width, height, tile)
}

/// Whether each window is what the step reads for the tile in a frame of these sides.
fn all_read(step: &Step, tile: Rect, width: u32, height: u32, windows: &[SharedWindow]) -> bool
    ensures { IsTrue result ↔ AllByRecursion (IsRead (meaning step.now) tile width height) windows.now }
{
    for window in windows {
        if !is_read(step, tile, width, height, window) {
            return false;
        }
    }
    true
}

fn is_set(window: &SharedWindow) -> bool
    ensures { IsTrue result ↔ IsSetWindow window.now }
{
    window.kind() == Kind::Bit
}

fn same_kind(a: &SharedWindow, b: &SharedWindow) -> bool
    ensures { IsTrue result ↔ SameKind a.now b.now }
{
    a.kind() == b.kind() && a.maxval() == b.maxval()
}

/// Whether the kinds and maxvals of the sources are such that the step can be made of them.
fn kinds_fit(step: &Step, windows: &[SharedWindow]) -> bool
    requires { length windows.now ≡ source_count (meaning step.now) }
    ensures { IsTrue result ↔ KindsFit (meaning step.now) windows.now }
{
    match step {
        Step::Minus => same_kind(&windows[0], &windows[1]),
        Step::Meet => same_kind(&windows[0], &windows[1]),
        Step::Join => same_kind(&windows[0], &windows[1]),
        Step::Blank(maxval) => *maxval >= 1,
        Step::Mark(value) => {
            *value <= windows[0].maxval() && is_set(&windows[1]) && is_set(&windows[2])
        }
        Step::MarkLast(value) => *value <= windows[0].maxval() && is_set(&windows[1]),
        _ => true,
    }
}

/// Whether the windows are those that the step reads for the tile.
pub(crate) fn windows_fit(step: &Step, tile: Rect, windows: &[SharedWindow]) -> bool
    ensures { IsTrue result ↔ FitsStep (meaning step.now) tile windows.now }
{
    if windows.len() != step.source_count() || tile.width == 0 || tile.height == 0 {
        return false;
    }
    if windows.is_empty() {
        return kinds_fit(step, windows);
    }
    all_read(
        step,
        tile,
        windows[0].frame_width(),
        windows[0].frame_height(),
        windows,
    ) && kinds_fit(step, windows)
}
