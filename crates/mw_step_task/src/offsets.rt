//! Boxes of offsets: whether two are the same, and how far their offsets lead.

ghost use Rattle.std.specs.Prelude.{◌≡◌, ◌↔◌, IsTrue, neg_ℤ};
ghost use Rattle.mw_model.specs.Elements.{reach_of};
ghost use Rattle.mw_model.specs.Rectangles.{nonnegative, box_offsets};

use mw_model::{OffsetBox, Reach};

/// Whether the boxes have the same bounds.
pub(crate) fn same_box(a: OffsetBox, b: OffsetBox) -> bool
    ensures { IsTrue result ↔ (a ≡ b) }
{
    a.x0 == b.x0 && a.x1 == b.x1 && a.y0 == b.y0 && a.y1 == b.y1
}

fn left_of(b: OffsetBox) -> u32
    ensures { result ≡ nonnegative (neg_ℤ b.x0) }
{
    if b.x0 < 0 { b.x0.unsigned_abs() } else { 0 }
}

fn right_of(b: OffsetBox) -> u32
    ensures { result ≡ nonnegative b.x1 }
{
    if b.x1 < 0 { 0 } else { b.x1 as u32 }
}

fn up_of(b: OffsetBox) -> u32
    ensures { result ≡ nonnegative (neg_ℤ b.y0) }
{
    if b.y0 < 0 { b.y0.unsigned_abs() } else { 0 }
}

fn down_of(b: OffsetBox) -> u32
    ensures { result ≡ nonnegative b.y1 }
{
    if b.y1 < 0 { 0 } else { b.y1 as u32 }
}

fn no_reach() -> Reach
    ensures { result ≡ record { left = 0; right = 0; up = 0; down = 0 } }
{
    Reach {
        left: 0,
        right: 0,
        up: 0,
        down: 0,
    }
}

/// The greatest distance of an offset of the box on each side; 0 where it has none.
pub(crate) fn reach_of_box(b: OffsetBox) -> Reach
    ensures { result ≡ reach_of (box_offsets b) }
{
    if b.x0 > b.x1 {
        return no_reach();
    }
    if b.y0 > b.y1 {
        return no_reach();
    }
    Reach {
        left: left_of(b),
        right: right_of(b),
        up: up_of(b),
        down: down_of(b),
    }
}
