//! Marks of the numbers of components, by what holds of any of their runs.

ghost use Rattle.std.specs.Prelude.{◌≡◌, ℕ, ◌+◌, ◌<◌, ◌≤◌, length, slice_set, true, false, if◌then◌else◌, vec_len, IfOk};
ghost use Rattle.mw_pixel.specs.Images.{set_of};
ghost use Rattle.mw_geodesic_kept.specs.Keeping.{mark_of, LieHeld, HasPixelOf, IsAtEdge, AreMarked};

use mw_geodesic_runs::{Run, Span, next_place};
use mw_model::NoMemory;
use mw_pixel::words::stride;
use mw_pixel::{Bit, Plane};
use std::alloc::Global;

/// So many numbers without a mark.
pub(crate) fn unmarked(alloc: Global, count: usize) -> Result<Vec<bool>, NoMemory>
    ensures size { IfOk result (λ r. vec_len r ≡ count) }
    ensures none { IfOk result (λ r. (k : ℕ) → mark_of r.items k ≡ false) }
{
    let marks = vec![in alloc; false; count]?;
    Ok(marks)
}

/// Whether a pixel of the marker stands in the run.
#[inline(always)]
fn meets(marker: &Plane<Bit>, run: Run) -> bool
    requires some { run.first < run.end }
    requires across { run.end ≤ marker.now.width }
    requires down { run.row < marker.now.height }
    ensures yes { result ≡ true → HasPixelOf (set_of marker.now) run }
    ensures no { result ≡ false → HasPixelOf (set_of marker.now) run → ⊥ }
{
    let row = marker.words().row(run.row);
    let words = &row[..stride(u32::from(run.end))];
    next_place(words, run.first as usize, true) < run.end as usize
}

/// Whether the run has a place at the border of the frame.
#[inline(always)]
fn at_edge(width: u32, height: u32, run: Run) -> bool
    requires { run.row < height }
    ensures yes { result ≡ true → IsAtEdge width height run }
    ensures no { result ≡ false → IsAtEdge width height run → ⊥ }
{
    if run.row == 0 {
        return true;
    }
    if run.row + 1 == height {
        return true;
    }
    if run.first == 0 {
        return true;
    }
    u32::from(run.end) == width
}

/// Marks a number that is asked for.
#[inline(always)]
fn mark(marks: &mut Vec<bool>, number: u32, is_asked: bool)
    requires { number < length marks.old.items }
    ensures { marks.new.items ≡ (if is_asked then slice_set marks.old.items number true else marks.old.items) }
{
    if is_asked {
        marks[number as usize] = true;
    }
}

/// Marks the numbers of the components that have a pixel of the marker.
pub(crate) fn marks_met(
    alloc: Global,
    spans: &[Span],
    starts: &[u32],
    numbers: &[u32],
    count: u32,
    marker: &Plane<Bit>,
) -> Result<Vec<bool>, NoMemory>
    requires { LieHeld marker.now.width marker.now.height (count + 1) spans.now starts.now numbers.now }
    ensures size { IfOk result (λ r. vec_len r ≡ count + 1) }
    ensures marked { IfOk result (λ r. (held : LieHeld marker.now.width marker.now.height (count + 1) spans.now starts.now numbers.now) → AreMarked (HasPixelOf (set_of marker.now)) held.runs numbers.now (length held.runs) r.items) }
{
    let mut marks = unmarked(alloc, count as usize + 1)?;
    for y in 0..marker.height() as usize {
        for k in starts[y] as usize..starts[y + 1] as usize {
            let run = Run {
                row: y as u32,
                first: spans[k].first,
                end: spans[k].end,
            };
            mark(&mut marks, numbers[k], meets(marker, run));
        }
    }
    Ok(marks)
}

/// Marks the numbers of the components that have a place at the border of the frame.
pub(crate) fn marks_at_edge(
    alloc: Global,
    spans: &[Span],
    starts: &[u32],
    numbers: &[u32],
    count: u32,
    width: u32,
    height: u32,
) -> Result<Vec<bool>, NoMemory>
    requires { LieHeld width height (count + 1) spans.now starts.now numbers.now }
    ensures size { IfOk result (λ r. vec_len r ≡ count + 1) }
    ensures marked { IfOk result (λ r. (held : LieHeld width height (count + 1) spans.now starts.now numbers.now) → AreMarked (IsAtEdge width height) held.runs numbers.now (length held.runs) r.items) }
{
    let mut marks = unmarked(alloc, count as usize + 1)?;
    for y in 0..height as usize {
        for k in starts[y] as usize..starts[y + 1] as usize {
            let run = Run {
                row: y as u32,
                first: spans[k].first,
                end: spans[k].end,
            };
            mark(&mut marks, numbers[k], at_edge(width, height, run));
        }
    }
    Ok(marks)
}
