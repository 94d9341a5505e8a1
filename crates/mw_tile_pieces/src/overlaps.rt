//! Places of a frame.

ghost use Rattle.std.specs.Prelude.{◌≡◌, ◌+◌, ◌<◌, ◌^◌};
ghost use Rattle.mw_tile_pieces.specs.Patches.{overlap_of};

use mw_model::Rect;

/// The places that both rectangles have. Where they have none in common, it has no width or no height.
pub fn overlap(a: Rect, b: Rect) -> Rect
    requires across { a.x + a.width < 2 ^ 32 }
    requires down { a.y + a.height < 2 ^ 32 }
    requires across_other { b.x + b.width < 2 ^ 32 }
    requires down_other { b.y + b.height < 2 ^ 32 }
    ensures { result ≡ overlap_of a b }
{
    let x = a.x.max(b.x);
    let y = a.y.max(b.y);
    let right = (a.x + a.width).min(b.x + b.width);
    let bottom = (a.y + a.height).min(b.y + b.height);
    Rect {
        x,
        y,
        width: right.saturating_sub(x),
        height: bottom.saturating_sub(y),
    }
}
