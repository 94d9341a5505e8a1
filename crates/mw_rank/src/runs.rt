//! What a run of offsets is to a moving histogram: a first offset, and those after it.
ghost use Rattle.std.specs.Prelude.{◌≡◌, ◌-◌};
ghost use Rattle.mw_element_runs.specs.Runs.{start_offset};

use mw_element_runs::Run;
use mw_model::Offset;

/// The first offset of a run.
#[inline(always)]
pub(crate) fn start_of(run: Run) -> Offset
    ensures { result ≡ start_offset run }
{
    Offset {
        dx: run.dx,
        dy: run.dy,
    }
}

/// How many offsets a run has after its first.
#[inline(always)]
pub(crate) fn more_of(run: Run) -> u32
    ensures { result ≡ run.count - 1 }
{
    run.count.saturating_sub(1)
}
