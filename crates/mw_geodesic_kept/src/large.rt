//! The components of a set that are large enough, written to an array.

ghost use Rattle.std.specs.Prelude.{◌≡◌, ℕ, ◌-◌, ◌*◌, ◌<◌, ◌≤◌, ◌^◌, nat_le, if◌then◌else◌, length, slice_index, IfOk, OnErr, OnOk};
ghost use Rattle.mw_pixel.specs.Images.{set_of};
ghost use Rattle.mw_geodesic.specs.Components.{large_components};
ghost use Rattle.mw_geodesic.specs.Neighbours.{neighbours_of};
ghost use Rattle.mw_geodesic_runs.specs.Components.{AreRunSpans};

use crate::Neighbours;
use crate::showing::show_spans;
use mw_geodesic_labels::areas_of;
use mw_geodesic_runs::{Spans, spans_of};
use mw_model::NoMemory;
use mw_pixel::{Bit, Plane};
use std::alloc::Global;

/// The runs of a set, which is let go.
fn runs_alone(alloc: Global, set: Plane<Bit>, neighbours: Neighbours) -> Result<Spans, NoMemory>
    requires narrow { set.width < 2 ^ 16 }
    requires few { set.height * set.width < 2 ^ 32 }
    ensures { IfOk result (λ r. AreRunSpans (neighbours_of neighbours) (set_of set) r.spans.items r.starts.items r.numbers.items r.count) }
{
    spans_of(alloc, set.words(), neighbours)
}

/// 1 where an area is `least` or more, else 0.
#[inline(always)]
fn is_large(area: u32, least: u32) -> u32
    ensures { result ≡ (if nat_le least area then 1 else 0) }
{
    if least <= area { 1 } else { 0 }
}

/// Writes over the number of each run whether the area of its component is `least` or more: 1 or 0. The first area is that of
/// number 1.
fn tell_large(numbers: &mut [u32], areas: &[u32], least: u32)
    requires some { (i : ℕ) → i < length numbers.old → 1 ≤ slice_index numbers.old i }
    requires most { (i : ℕ) → i < length numbers.old → slice_index numbers.old i ≤ length areas.now }
    ensures size { length numbers.new ≡ length numbers.old }
    ensures each { (i : ℕ) → i < length numbers.old → slice_index numbers.new i ≡ (if nat_le least (slice_index areas.now (slice_index numbers.old i - 1)) then 1 else 0) }
{
    for i in 0..numbers.len() {
        let k = numbers[i] as usize - 1;
        numbers[i] = is_large(areas[k], least);
    }
}

/// Writes the components of a set with an area of `least` or more to an array, a byte for each place. It may want memory
/// (`NoMemory`), and the array is then as it was. The set is let go before areas are counted, so that no more than the runs,
/// their numbers and the areas is held.
pub fn write_large_components(
    alloc: Global,
    set: Plane<Bit>,
    neighbours: Neighbours,
    least: u32,
    out: &mut [u8],
) -> Result<(), NoMemory>
    requires narrow { set.width < 2 ^ 16 }
    requires few { set.height * set.width < 2 ^ 32 }
    requires room { length out.old ≡ set.height * set.width }
    ensures made { OnOk result (out.new ≡ (large_components (neighbours_of neighbours) least (set_of set)).samples) }
    ensures kept { OnErr result (out.new ≡ out.old) }
{
    let (width, height) = (set.width(), set.height());
    let mut found = runs_alone(alloc, set, neighbours)?;
    let rows = found.spans.as_slice();
    let begins = found.starts.as_slice();
    let numbers = found.numbers.as_slice();
    let areas = areas_of(alloc, height, rows, begins, numbers, found.count)?;
    tell_large(found.numbers.as_mut_slice(), areas.as_slice(), least);
    let spans = found.spans.as_slice();
    let starts = found.starts.as_slice();
    let told = found.numbers.as_slice();
    show_spans(out, width, height, spans, starts, told);
    Ok(())
}
