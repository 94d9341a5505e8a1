//! The labels of a set, and what is told of its components, by one search for its runs.

ghost use Rattle.std.specs.Prelude.{◌≡◌, ◌*◌, ◌<◌, ◌^◌, length, IfErr, IfOk};
ghost use Rattle.mw_pixel.specs.Images.{set_of};
ghost use Rattle.mw_geodesic.specs.Neighbours.{neighbours_of};
ghost use Rattle.mw_geodesic_labels.specs.Regions.{AreRegionsWithLabels};

use crate::Neighbours;
use crate::painting::write_spans;
use crate::regions::gather_rows;
use crate::rows::NUMBERS;
use mw_geodesic_runs::spans_of;
use mw_model::NoMemory;
use mw_pixel::{Bit, Plane};
use std::alloc::Global;

/// Writes what is told of each component of a set into an array, by first places, and the labels of the set into another, where
/// there is room for what is told of all. The answer is how many there are. It may want memory (`NoMemory`), and both arrays are
/// then as they were.
pub fn label_and_measure(
    alloc: Global,
    set: &Plane<Bit>,
    neighbours: Neighbours,
    rows: &mut [u32],
    out: &mut [u32],
) -> Result<u32, NoMemory>
    requires narrow { set.now.width < 2 ^ 16 }
    requires few { set.now.height * set.now.width < 2 ^ 32 }
    requires room { length out.old ≡ set.now.height * set.now.width }
    ensures made { IfOk result (λ count. AreRegionsWithLabels (neighbours_of neighbours) (set_of set.now) count rows.old rows.new out.old out.new) }
    ensures kept { IfErr result (λ _. (rows.new ≡ rows.old) × (out.new ≡ out.old)) }
{
    let width = set.width();
    let height = set.height();
    let found = spans_of(alloc, set.words(), neighbours)?;
    let spans = found.spans.as_slice();
    let starts = found.starts.as_slice();
    let numbers = found.numbers.as_slice();
    let count = found.count;
    let room = rows.len() / NUMBERS;
    if count as usize <= room {
        gather_rows(rows, height, spans, starts, numbers);
        write_spans(out, width, height, spans, starts, numbers);
    }
    Ok(count)
}
