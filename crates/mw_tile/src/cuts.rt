//! Cutting a rectangle out of a plane, and pasting one into it, a row at a time: rows are copied whole, so both cost
//! what a copy of the samples does.

ghost use Rattle.std.specs.Prelude.{◌≡◌, ◌+◌, ◌*◌, ◌<◌, ◌≤◌, IfOk};
ghost use Rattle.mw_model.specs.Rectangles.{IsWithin};
ghost use Rattle.mw_tile.specs.Windows.{IsCut};
ghost use Rattle.mw_tile.specs.Cuts.{stood_at, Pastes};

use mw_model::{NoMemory, Rect};
use mw_pixel::{Planar, Plane};
use std::alloc::Global;

/// The samples of a rectangle of the plane.
pub fn cut<P: Planar>(alloc: Global, plane: &Plane<P>, rect: Rect) -> Result<Plane<P>, NoMemory>
    requires { IsWithin rect plane.now.width plane.now.height }
    ensures width { IfOk result (λ r. r.width ≡ rect.width) }
    ensures height { IfOk result (λ r. r.height ≡ rect.height) }
    ensures cells { IfOk result (λ r. IsCut (stood_at plane.now rect r) plane.now) }
{
    let mut part = Plane::blank(alloc, rect.width, rect.height)?;
    copy_rows(plane, rect, &mut part);
    Ok(part)
}

/// Writes the rows of the rectangle over those of the part, one after another.
fn copy_rows<P: Planar>(plane: &Plane<P>, rect: Rect, part: &mut Plane<P>)
    requires within { IsWithin rect plane.now.width plane.now.height }
    requires width { part.old.width ≡ rect.width }
    requires height { part.old.height ≡ rect.height }
    ensures width { part.new.width ≡ rect.width }
    ensures height { part.new.height ≡ rect.height }
    ensures cut { IsCut (stood_at plane.now rect part.new) plane.now }
{
    // for the number of their samples
    let _size = plane.height();
    let _room = part.height();
    for y in 0..rect.height {
        part.copy_run(0, y, plane, rect.x, rect.y + y, rect.width);
    }
}

/// Puts the samples of the part in the place of those of the rectangle.
pub fn paste<P: Planar>(plane: &mut Plane<P>, rect: Rect, part: &Plane<P>)
    requires within { IsWithin rect plane.old.width plane.old.height }
    requires width { part.now.width ≡ rect.width }
    requires height { part.now.height ≡ rect.height }
    ensures { Pastes plane.old plane.new part.now rect }
{
    // for the number of their samples
    let _size = plane.height();
    let _part = part.height();
    for y in 0..rect.height {
        plane.copy_run(rect.x, rect.y + y, part, 0, y, rect.width);
    }
}
