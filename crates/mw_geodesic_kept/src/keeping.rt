//! Runs of a set whose numbers have a mark, written into an empty plane.

ghost use Rattle.std.specs.Prelude.{◌≡◌, ◌+◌, ◌<◌, ◌≤◌, length, IfOk};
ghost use Rattle.mw_pixel.specs.Images.{set_of};
ghost use Rattle.mw_geodesic_runs.specs.Runs.{RunsBefore};
ghost use Rattle.mw_geodesic_kept.specs.Keeping.{LieHeld, RunsWritten, IsKeptPart};

use mw_geodesic_runs::Span;
use mw_model::NoMemory;
use mw_pixel::{Bit, Plane};
use std::alloc::Global;

/// Writes of the set each run whose number has the wanted mark over what stands in the plane. The runs are held row by row.
fn write_runs(
    out: &mut Plane<Bit>,
    set: &Plane<Bit>,
    spans: &[Span],
    starts: &[u32],
    numbers: &[u32],
    marks: &[bool],
    wanted: bool,
)
    requires width { set.now.width ≡ out.old.width }
    requires height { set.now.height ≡ out.old.height }
    requires lie { LieHeld set.now.width set.now.height (length marks.now) spans.now starts.now numbers.now }
    ensures { (held : LieHeld set.now.width set.now.height (length marks.now) spans.now starts.now numbers.now) → RunsWritten (set_of set.now) held.runs numbers.now marks.now wanted (length held.runs) (set_of out.old) (set_of out.new) }
{
    // for the sizes
    let _set = set.width();
    let _out = out.width();
    for y in 0..set.height() {
        for k in starts[y as usize] as usize..starts[y as usize + 1] as usize {
            let mark = marks[numbers[k] as usize];
            if mark == wanted {
                let first = u32::from(spans[k].first);
                out.copy_run(first, y, set, first, y, u32::from(spans[k].end) - first);
            }
        }
    }
}

/// Of the set the runs whose numbers have the wanted mark. It may want memory (`NoMemory`).
pub(crate) fn kept(
    alloc: Global,
    set: &Plane<Bit>,
    spans: &[Span],
    starts: &[u32],
    numbers: &[u32],
    marks: &[bool],
    wanted: bool,
) -> Result<Plane<Bit>, NoMemory>
    requires { LieHeld set.now.width set.now.height (length marks.now) spans.now starts.now numbers.now }
    ensures { IfOk result (λ r. (held : LieHeld set.now.width set.now.height (length marks.now) spans.now starts.now numbers.now) → RunsBefore (set_of set.now) 0 set.now.height held.runs → IsKeptPart (set_of set.now) held.runs numbers.now marks.now wanted (set_of r)) }
{
    // for its samples
    let _words = set.words();
    let mut out = Plane::filled(alloc, set.width(), set.height(), Bit::new(false))?;
    write_runs(&mut out, set, spans, starts, numbers, marks, wanted);
    Ok(out)
}
