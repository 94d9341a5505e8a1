//! How many steps places are from what is not in the set.

ghost use Rattle.std.specs.Prelude.{◌≡◌, replicate, IfOk};
ghost use Rattle.mw_pixel.specs.Images.{set_of};
ghost use Rattle.mw_geodesic.specs.Distances.{distance};
ghost use Rattle.mw_geodesic_distances.specs.Metrics.{metric_element};

use crate::beginning::begin;
use crate::frame::Frame;
use crate::neighbours::reach;
use crate::sweeps::sweep;
use mw_geodesic::Neighbours;
use mw_model::NoMemory;
use mw_pixel::{Bit, Plane};
use std::alloc::Global;

/// So many numbers.
pub(crate) fn blank(alloc: Global, size: usize) -> Result<Vec<u32>, NoMemory>
    ensures { IfOk result (λ r. r.items ≡ replicate size 0) }
{
    let numbers = vec![in alloc; 0u32; size]?;
    Ok(numbers)
}

/// How many steps to neighbours each place of a set is from the nearest one of the frame that is not in it.
pub(crate) fn by_steps(
    alloc: Global,
    set: &Plane<Bit>,
    neighbours: Neighbours,
    top: u32,
) -> Result<Vec<u32>, NoMemory>
    ensures { IfOk result (λ r. r.items ≡ (distance (metric_element neighbours) top (set_of set.now)).samples) }
{
    let frame = Frame {
        width: set.width(),
        height: set.height(),
        reach: reach(neighbours),
    };
    let size = frame.height as usize * frame.width as usize;
    let mut numbers = blank(alloc, size)?;
    let mut other = blank(alloc, frame.width as usize)?;
    begin(&mut numbers, set.words(), top);
    sweep(&mut numbers, &mut other, frame, top);
    Ok(numbers)
}
