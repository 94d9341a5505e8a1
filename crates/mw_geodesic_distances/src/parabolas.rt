//! The squares of straight distances: first within the columns, and then along the rows.

ghost use Rattle.std.specs.Prelude.{◌≡◌, ℕ, ◌*◌, ◌<◌, length, IfOk};
ghost use Rattle.mw_pixel.specs.Images.{set_of};
ghost use Rattle.mw_geodesic.specs.Distances.{squared_distance};
ghost use Rattle.mw_geodesic_distances.specs.Grids.{grid};
ghost use Rattle.mw_geodesic_distances.specs.Envelopes.{IsNearest};

use crate::beginning::begin;
use crate::columns::{FAR, measure_columns};
use crate::envelope::nearest;
use crate::frame::Frame;
use crate::steps::blank;
use mw_model::NoMemory;
use mw_pixel::{Bit, Plane};
use std::alloc::Global;

/// Makes squares of distances of the gaps of all rows. The other rows are for the gaps of a row, and for its envelope.
fn draw_rows(
    numbers: &mut [u32],
    gaps: &mut [u32],
    sites: &mut [u32],
    starts: &mut [u32],
    frame: Frame,
    top: u32,
)
    requires size { length numbers.old ≡ frame.height * frame.width }
    requires gaps { length gaps.old ≡ frame.width }
    requires sites { length sites.old ≡ frame.width }
    requires starts { length starts.old ≡ frame.width }
    ensures { (x y : ℕ) → x < frame.width → y < frame.height → IsNearest (λ u. grid frame.width numbers.old u y) frame.width top x (grid frame.width numbers.new x y) }
{
    let width = frame.width as usize;
    for y in 0..frame.height {
        let start = y as usize * width;
        nearest(&mut numbers[start..start + width], gaps, sites, starts, top);
    }
}

/// The square of how far each place of a set is from the nearest one of the frame that is not in it.
pub(crate) fn by_parabolas(alloc: Global, set: &Plane<Bit>, top: u32) -> Result<Vec<u32>, NoMemory>
    ensures { IfOk result (λ r. r.items ≡ (squared_distance top (set_of set.now)).samples) }
{
    let frame = Frame {
        width: set.width(),
        height: set.height(),
        reach: 0,
    };
    let size = frame.height as usize * frame.width as usize;
    let mut numbers = blank(alloc, size)?;
    let mut gaps = blank(alloc, frame.width as usize)?;
    let mut sites = blank(alloc, frame.width as usize)?;
    let mut starts = blank(alloc, frame.width as usize)?;
    begin(&mut numbers, set.words(), FAR);
    measure_columns(&mut numbers, &mut gaps, frame);
    draw_rows(&mut numbers, &mut gaps, &mut sites, &mut starts, frame, top);
    Ok(numbers)
}
