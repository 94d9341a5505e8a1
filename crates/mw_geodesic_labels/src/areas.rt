//! The areas of the components of a set, by its runs.

ghost use Rattle.std.specs.Prelude.{◌≡◌, ℕ, ◌+◌, ◌-◌, ◌<◌, ◌≤◌, ◌^◌, length, slice_index, slice_set, vec_len, IfOk};
ghost use Rattle.mw_geodesic_labels.specs.Painting.{HeldRuns};
ghost use Rattle.mw_geodesic_labels.specs.Gathering.{AreCounted, AreAreasOf};

use crate::labels::blank;
use mw_geodesic_runs::Span;
use mw_model::NoMemory;
use std::alloc::Global;

/// Adds a run to the area of its component.
#[inline(always)]
fn add_area(areas: &mut Vec<u32>, span: Span, number: u32)
    requires some { span.first < span.end }
    requires positive { 1 ≤ number }
    requires most { number ≤ length areas.old.items }
    requires fits { slice_index areas.old.items (number - 1) + (span.end - span.first) < 2 ^ 32 }
    ensures { areas.new.items ≡ slice_set areas.old.items (number - 1) (slice_index areas.old.items (number - 1) + (span.end - span.first)) }
{
    let k = number as usize - 1;
    areas[k] = areas[k] + u32::from(span.end - span.first);
}

/// The area of each component by its number, from number 1 on, of runs that are held row by row. It may want memory
/// (`NoMemory`).
pub fn areas_of(
    alloc: Global,
    height: u32,
    spans: &[Span],
    starts: &[u32],
    numbers: &[u32],
    count: u32,
) -> Result<Vec<u32>, NoMemory>
    requires { HeldRuns (λ runs. AreCounted runs numbers.now count) height spans.now starts.now numbers.now }
    ensures size { IfOk result (λ r. vec_len r ≡ count) }
    ensures areas { IfOk result (λ r. (held : HeldRuns (λ runs. AreCounted runs numbers.now count) height spans.now starts.now numbers.now) → AreAreasOf held.runs numbers.now (length held.runs) count r.items) }
{
    let mut areas = blank(alloc, count as usize)?;
    for y in 0..height as usize {
        for k in starts[y] as usize..starts[y + 1] as usize {
            add_area(&mut areas, spans[k], numbers[k]);
        }
    }
    Ok(areas)
}
