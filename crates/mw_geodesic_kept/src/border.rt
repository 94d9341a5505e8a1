//! The border of a set cleared, and its holes filled.

ghost use Rattle.std.specs.Prelude.{◌≡◌, ◌*◌, ◌<◌, ◌^◌, Bool, IfOk};
ghost use Rattle.mw_pixel.specs.Images.{set_of};
ghost use Rattle.mw_geodesic.specs.Neighbours.{neighbours_of};
ghost use Rattle.mw_geodesic.specs.Reconstructions.{border_cleared, holes_filled};
ghost use Rattle.mw_geodesic_kept.specs.Keeping.{touching_or_not};

use crate::Neighbours;
use crate::flipping::flipped;
use crate::keeping::kept;
use crate::marks::marks_at_edge;
use mw_geodesic::laws::duality;
use mw_geodesic_runs::spans_of;
use mw_model::NoMemory;
use mw_pixel::{Bit, Plane};
use std::alloc::Global;

/// The components that touch the border of the frame, or those that do not.
fn by_border(
    alloc: Global,
    set: &Plane<Bit>,
    neighbours: Neighbours,
    touching: bool,
) -> Result<Plane<Bit>, NoMemory>
    requires narrow { set.now.width < 2 ^ 16 }
    requires few { set.now.height * set.now.width < 2 ^ 32 }
    ensures { IfOk result (λ r. set_of r ≡ touching_or_not (neighbours_of neighbours) touching (set_of set.now)) }
{
    let found = spans_of(alloc, set.words(), neighbours)?;
    let spans = found.spans.as_slice();
    let starts = found.starts.as_slice();
    let numbers = found.numbers.as_slice();
    let marks = marks_at_edge(
        alloc,
        spans,
        starts,
        numbers,
        found.count,
        set.width(),
        set.height(),
    )?;
    let part = kept(alloc, set, spans, starts, numbers, &marks, touching)?;
    Ok(part)
}

/// The components of a set that do not touch the border of the frame. It may want memory (`NoMemory`).
pub fn border_cleared_of_set(
    alloc: Global,
    set: &Plane<Bit>,
    neighbours: Neighbours,
) -> Result<Plane<Bit>, NoMemory>
    requires narrow { set.now.width < 2 ^ 16 }
    requires few { set.now.height * set.now.width < 2 ^ 32 }
    ensures { IfOk result (λ r. set_of r ≡ border_cleared (neighbours_of neighbours) (set_of set.now)) }
{
    by_border(alloc, set, neighbours, false)
}

/// The set with its holes: all but the components of its complement that touch the border of the frame. These hang
/// together by the neighbours that are given. It may want memory (`NoMemory`).
pub fn holes_filled_of_set(
    alloc: Global,
    set: &Plane<Bit>,
    neighbours: Neighbours,
) -> Result<Plane<Bit>, NoMemory>
    requires narrow { set.now.width < 2 ^ 16 }
    requires few { set.now.height * set.now.width < 2 ^ 32 }
    ensures { IfOk result (λ r. set_of r ≡ holes_filled (neighbours_of neighbours) (set_of set.now)) }
{
    // for its samples, and for what filling is dual to
    let _words = set.words();
    let _size = set.width();
    duality();
    let outside = flipped(alloc, set)?;
    let touching = by_border(alloc, &outside, neighbours, true)?;
    let filled = flipped(alloc, &touching)?;
    Ok(filled)
}
