//! Reconstruction of a set.

ghost use Rattle.std.specs.Prelude.{◌≡◌, ◌*◌, ◌<◌, ◌^◌, IfOk};
ghost use Rattle.mw_pixel.specs.Images.{set_of};
ghost use Rattle.mw_geodesic.specs.Geodesics.{reconstruction};
ghost use Rattle.mw_geodesic.specs.Neighbours.{neighbours_of};

use crate::Neighbours;
use crate::keeping::kept;
use crate::marks::marks_met;
use mw_geodesic_runs::spans_of;
use mw_model::NoMemory;
use mw_pixel::{Bit, Plane};
use std::alloc::Global;

/// The components of the mask that have a pixel of the marker. It may want memory (`NoMemory`).
pub fn reconstruction_of_set(
    alloc: Global,
    marker: &Plane<Bit>,
    mask: &Plane<Bit>,
    neighbours: Neighbours,
) -> Result<Plane<Bit>, NoMemory>
    requires narrow { mask.now.width < 2 ^ 16 }
    requires few { mask.now.height * mask.now.width < 2 ^ 32 }
    requires width { marker.now.width ≡ mask.now.width }
    requires height { marker.now.height ≡ mask.now.height }
    ensures { IfOk result (λ r. set_of r ≡ reconstruction (neighbours_of neighbours) (set_of mask.now) (set_of marker.now)) }
{
    // for the samples of the marker
    let _marker = marker.words();
    let _size = marker.width();
    let found = spans_of(alloc, mask.words(), neighbours)?;
    let spans = found.spans.as_slice();
    let starts = found.starts.as_slice();
    let numbers = found.numbers.as_slice();
    let marks = marks_met(alloc, spans, starts, numbers, found.count, marker)?;
    let rebuilt = kept(alloc, mask, spans, starts, numbers, &marks, true)?;
    Ok(rebuilt)
}
