//! Places of a frame.

ghost use Rattle.std.specs.Prelude.{◌≡◌, ◌<◌, ◌+ℤ◌, ◌-ℤ◌, ℕ, pos, IsNone, IfSome};
ghost use Rattle.mw_geodesic.specs.Floods.{IsLedTo, IsBehind};
ghost use Rattle.mw_geodesic.specs.Neighbours.{Joins};

use mw_model::Offset;

/// The neighbours of a place: those above, to the left, to the right and below, or these and the four at the corners.
#[derive(Clone, Copy, PartialEq, Eq, Debug)]
pub enum Neighbours {
    Four,
    Eight,
}

/// A place, by its column and its row.
#[derive(Clone, Copy, Debug)]
pub struct Place {
    pub x: u32,
    pub y: u32,
}

/// One coordinate less another.
fn less(a: u32, b: i16) -> i64
    ensures { result ≡ pos a -ℤ b }
{
    i64::from(a) - i64::from(b)
}

/// One coordinate and another.
fn plus(a: u32, b: i16) -> i64
    ensures { result ≡ pos a +ℤ b }
{
    i64::from(a) + i64::from(b)
}

/// The place of the frame from which the offset leads to this one.
pub fn behind(width: u32, height: u32, q: Place, b: Offset) -> Option<Place>
    ensures is { IfSome result (IsBehind width height b q.x q.y) }
    ensures none { IsNone result → (x y : ℕ) → x < width → y < height → Joins b x y q.x q.y → ⊥ }
{
    let column = less(q.x, b.dx);
    let row = less(q.y, b.dy);
    if column < 0 || row < 0 || column >= i64::from(width) || row >= i64::from(height) {
        return None;
    }
    Some(Place {
        x: column as u32,
        y: row as u32,
    })
}

/// The place of the frame to which the offset leads.
pub fn ahead(width: u32, height: u32, p: Place, b: Offset) -> Option<Place>
    ensures { IfSome result (IsLedTo width height b p.x p.y) }
{
    let column = plus(p.x, b.dx);
    let row = plus(p.y, b.dy);
    if column < 0 || row < 0 || column >= i64::from(width) || row >= i64::from(height) {
        return None;
    }
    Some(Place {
        x: column as u32,
        y: row as u32,
    })
}
