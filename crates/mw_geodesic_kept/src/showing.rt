//! Runs of a set written over an array of the caller, a byte for each place, once from its first place to its last.

ghost use Rattle.std.specs.Prelude.{◌≡◌, ℕ, ◌<◌, ◌≤◌, length, slice_index, replicate};
ghost use Rattle.mw_geodesic_labels.specs.Painting.{painted_runs, RunsFit, HeldRuns};

use mw_geodesic_labels::overwrite;
use mw_geodesic_runs::Span;

/// Writes what is told of each run, 0 or 1, over its places, and 0 over all others. The runs are held row by row.
pub(crate) fn show_spans(
    out: &mut [u8],
    width: u32,
    height: u32,
    spans: &[Span],
    starts: &[u32],
    told: &[u32],
)
    requires held { HeldRuns (RunsFit width (length out.old)) height spans.now starts.now told.now }
    requires low { (k : ℕ) → k < length told.now → slice_index told.now k ≤ 1 }
    ensures { (held : HeldRuns (RunsFit width (length out.old)) height spans.now starts.now told.now) → out.new ≡ painted_runs width held.runs told.now (length held.runs) (replicate (length out.old) 0) }
{
    let mut at = 0;
    for y in 0..height as usize {
        for k in starts[y] as usize..starts[y + 1] as usize {
            let span = spans[k];
            let first = y * width as usize + span.first as usize;
            let end = y * width as usize + span.end as usize;
            overwrite(out, at, first, 0);
            overwrite(out, first, end, told[k] as u8);
            at = end;
        }
    }
    overwrite(out, at, out.len(), 0);
}
