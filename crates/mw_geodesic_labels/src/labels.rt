//! The labels of a set.

ghost use Rattle.std.specs.Prelude.{◌≡◌, ◌*◌, ◌<◌, ◌^◌, length, replicate, IfErr, IfOk};
ghost use Rattle.mw_pixel.specs.Images.{set_of};
ghost use Rattle.mw_geodesic.specs.Labels.{IsLabelling};
ghost use Rattle.mw_geodesic.specs.Neighbours.{neighbours_of};

use crate::Neighbours;
use crate::painting::write_spans;
use mw_geodesic_runs::spans_of;
use mw_model::NoMemory;
use mw_pixel::{Bit, Plane};
use std::alloc::Global;

/// The labels of a set, by rows from the top, and how many there are: 0 outside the set, and in it the number of the
/// component, counted from 1 by first places.
#[derive(Debug, Drop)]
pub struct Labelled {
    pub count: u32,
    pub labels: Vec<u32>,
}

/// So many places without a label.
pub(crate) fn blank(alloc: Global, size: usize) -> Result<Vec<u32>, NoMemory>
    ensures { IfOk result (λ r. r.items ≡ replicate size 0) }
{
    let labels = vec![in alloc; 0u32; size]?;
    Ok(labels)
}

/// The labels of the components of a set. It may want memory (`NoMemory`).
pub fn labels_of(
    alloc: Global,
    set: &Plane<Bit>,
    neighbours: Neighbours,
) -> Result<Labelled, NoMemory>
    requires narrow { set.now.width < 2 ^ 16 }
    requires few { set.now.height * set.now.width < 2 ^ 32 }
    ensures { IfOk result (λ r. IsLabelling (neighbours_of neighbours) (set_of set.now) r.count r.labels.items) }
{
    let size = set.height() as usize * set.width() as usize;
    let mut labels = blank(alloc, size)?;
    let count = write_labels(alloc, set, neighbours, &mut labels)?;
    Ok(Labelled { count, labels })
}

/// Writes the labels of the components of a set into an array. The answer is how many there are. It may want memory
/// (`NoMemory`), and the array is then as it was.
pub fn write_labels(
    alloc: Global,
    set: &Plane<Bit>,
    neighbours: Neighbours,
    out: &mut [u32],
) -> Result<u32, NoMemory>
    requires narrow { set.now.width < 2 ^ 16 }
    requires few { set.now.height * set.now.width < 2 ^ 32 }
    requires room { length out.old ≡ set.now.height * set.now.width }
    ensures made { IfOk result (λ count. IsLabelling (neighbours_of neighbours) (set_of set.now) count out.new) }
    ensures kept { IfErr result (λ _. out.new ≡ out.old) }
{
    let width = set.width();
    let height = set.height();
    let found = spans_of(alloc, set.words(), neighbours)?;
    let spans = found.spans.as_slice();
    let starts = found.starts.as_slice();
    let numbers = found.numbers.as_slice();
    write_spans(out, width, height, spans, starts, numbers);
    Ok(found.count)
}
