//! Dropping the work of tickets that are settled.

ghost use Rattle.std.specs.Prelude.{◌≡◌, ◌≢◌, ◌<◌, ℕ, true, false, length, Some, None, slice_set, if◌then◌else◌};
ghost use Rattle.mw_model.specs.Refusals.{is_pending, outcome_at};
ghost use Rattle.mw_core_tasks.specs.mw_core_progress.ProgressView.{ProgressView};
ghost use Rattle.mw_core_ledger.specs.Books.{work_at};
ghost use Rattle.mw_core_ledger.specs.Changes.{KeepsInProgress};

use mw_core_tasks::{PlanProgress, Store};

/// Drops the work under each ticket that is not pending.
pub(crate) fn drop_settled(store: &Store, in_progress: &mut [Option<PlanProgress>])
    requires { length in_progress.old ≡ length store.now.table.names }
    ensures { KeepsInProgress store.now.table in_progress.old in_progress.new }
{
    for t in 0..store.len() {
        keep_if(store.outcome(t).is_pending(), in_progress, t as usize);
    }
}

/// Drops the work under a ticket that has ended. Where a pending entry had it as an input, others may have ended with it:
/// then under each ticket that is not pending.
pub(crate) fn drop_ended(
    store: &Store,
    in_progress: &mut [Option<PlanProgress>],
    t: u32,
    wanted: bool,
)
    requires count { length in_progress.old ≡ length store.now.table.names }
    requires within { t < length in_progress.old }
    requires ended { wanted ≡ false → is_pending (outcome_at store.now.table.outcomes t) ≡ false }
    requires others { wanted ≡ false → (k : ℕ) (u : ProgressView) → k ≢ t → work_at in_progress.old k ≡ Some u → is_pending (outcome_at store.now.table.outcomes k) ≡ true }
    ensures swept { KeepsInProgress store.now.table in_progress.old in_progress.new }
    ensures own { wanted ≡ false → in_progress.new ≡ slice_set in_progress.old t None }
{
    if wanted {
        drop_settled(store, in_progress);
    } else {
        in_progress[t as usize] = None;
    }
}

fn keep_if(pending: bool, in_progress: &mut [Option<PlanProgress>], t: usize)
    requires { t < length in_progress.old }
    ensures { in_progress.new ≡ (if pending then in_progress.old else slice_set in_progress.old t None) }
{
    if !pending {
        in_progress[t] = None;
    }
}
