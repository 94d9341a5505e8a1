//! Rectangles of a frame, in pixels.

ghost use Rattle.std.specs.Prelude.{◌≡◌, ◌↔◌, IsTrue};
ghost use Rattle.mw_model.specs.Rectangles.{grown, IsWithin};
ghost use Rattle.mw_grid.specs.Rectangles.{whole_frame};

use mw_model::{Reach, Rect};

/// The rectangle of a whole frame of this width and height.
pub fn whole_frame(width: u32, height: u32) -> Rect
    ensures value { result ≡ whole_frame width height }
    ensures within { IsWithin result width height }
{
    Rect {
        x: 0,
        y: 0,
        width,
        height,
    }
}

/// Whether the rectangle lies in a frame of this width and height.
pub fn is_within(rect: Rect, width: u32, height: u32) -> bool
    ensures { IsTrue result ↔ IsWithin rect width height }
{
    rect.x <= width
        && rect.width <= width - rect.x
        && rect.y <= height
        && rect.height <= height - rect.y
}

/// The rectangle grown by the reach and cut to a frame of this width and height.
pub fn grown(rect: Rect, reach: Reach, width: u32, height: u32) -> Rect
    requires { IsWithin rect width height }
    ensures value { result ≡ grown width height reach rect }
    ensures within { IsWithin result width height }
{
    let x = rect.x.saturating_sub(reach.left);
    let y = rect.y.saturating_sub(reach.up);
    let right = (rect.x + rect.width).saturating_add(reach.right).min(width);
    let bottom = (rect.y + rect.height)
        .saturating_add(reach.down)
        .min(height);
    Rect {
        x,
        y,
        width: right - x,
        height: bottom - y,
    }
}
