//! Labels written over an array once, from its first place to its last: a run has its number, and what lies before it 0. So no
//! memory is asked for while the array is written, and no page of it is fetched twice.

ghost use Rattle.std.specs.Prelude.{◌≡◌, length, replicate};
ghost use Rattle.mw_geodesic_labels.specs.Painting.{painted_runs, RunsFit, HeldRuns};

use crate::overwriting::overwrite;
use mw_geodesic_runs::Span;

/// Writes the number of each run over its places, and 0 over all others. The runs are held row by row.
pub(crate) fn write_spans(
    labels: &mut [u32],
    width: u32,
    height: u32,
    spans: &[Span],
    starts: &[u32],
    numbers: &[u32],
)
    requires { HeldRuns (RunsFit width (length labels.old)) height spans.now starts.now numbers.now }
    ensures { (held : HeldRuns (RunsFit width (length labels.old)) height spans.now starts.now numbers.now) → labels.new ≡ painted_runs width held.runs numbers.now (length held.runs) (replicate (length labels.old) 0) }
{
    let mut at = 0;
    for y in 0..height as usize {
        for k in starts[y] as usize..starts[y + 1] as usize {
            let span = spans[k];
            let first = y * width as usize + span.first as usize;
            let end = y * width as usize + span.end as usize;
            overwrite(labels, at, first, 0);
            overwrite(labels, first, end, numbers[k]);
            at = end;
        }
    }
    overwrite(labels, at, labels.len(), 0);
}
