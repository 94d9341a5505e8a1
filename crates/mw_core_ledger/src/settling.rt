//! Results: what was made is placed in the work of its ticket, and the last one settles it.

ghost use Rattle.std.specs.Prelude.{◌≡◌, ◌-◌, ◌<◌, ◌≤◌, ◌++◌, ◌∷◌, [], length, slice_set, slice_index_or, IfSome, Some, None, true, false};
ghost use Rattle.mw_model.specs.Plans.{is_sum};
ghost use Rattle.mw_model.specs.Refusals.{is_image};
ghost use Rattle.mw_model.specs.Tasks.{nothing_planned, remaining_tasks};
ghost use Rattle.mw_core_tasks.specs.mw_store.Kept.{kept_value};
ghost use Rattle.mw_core_ledger.specs.Tasks.{value_made};

use crate::compact::Compact;
use crate::ledger::Ledger;
use mw_core_tasks::gran::Curve;
use mw_core_tasks::task::TileDone;
use mw_core_tasks::{PlanProgress, StoredValue, Waiters, WholePlane};
use mw_model::{LogItem, Outcome, Shape};

/// The value that finished work has made, where the result has this shape. No memory is asked for.
fn value_of(shape: Shape, progress: PlanProgress) -> StoredValue
    requires done { remaining_tasks progress.progress ≡ 0 }
    requires plane { is_image shape ≡ true → is_sum (slice_index_or progress.progress.plan (length progress.progress.plan - 1) nothing_planned).step ≡ false }
    ensures { kept_value result ≡ value_made shape progress }
{
    // Of finished work all tiles of the last step are placed.
    let _whole = progress.remaining();
    match shape {
        Shape::Image(_, _, _, _) => StoredValue::Tiles(WholePlane::of(progress.into_plane())),
        Shape::Element(_, _) => StoredValue::Curve(Curve::of(progress.into_numbers())),
        Shape::Curve(_) => StoredValue::Curve(Curve::of(progress.into_numbers())),
    }
}

impl Ledger {
    ghost use Rattle.std.specs.Prelude.{ℕ, ◌&&◌, nat_eq};
    ghost use Rattle.std.specs.List.{AllByRecursion, list_any};
    ghost use Rattle.mw_model.specs.Refusals.{outcome_at, is_pending, shape_at};
    ghost use Rattle.mw_model.specs.Machine.{settled};
    ghost use Rattle.mw_model.specs.Stands.{inputs_of};
    ghost use Rattle.mw_core_tasks.specs.mw_store.Stored.{DropsSpent};
    ghost use Rattle.mw_core_ledger.specs.Books.{IsOrderly, work_at};
    ghost use Rattle.mw_core_ledger.specs.Tasks.{FinishesAt, IsFitAt, PlacesAt, SettlesAt};

    /// Takes the work of a result's ticket away, and finishes the task in it.
    fn finished(&mut self, done: TileDone) -> PlanProgress
        requires { IsFitAt self.old done }
        ensures finishes { FinishesAt self.old done result }
        ensures book { self.new ≡ record self.old { in_progress = slice_set self.old.in_progress done.task.ticket None } }
        ensures order { 1 ≤ remaining_tasks result.progress → IsOrderly (record self.old { in_progress = slice_set self.old.in_progress done.task.ticket (Some result) }) }
        ensures plane { is_image (shape_at self.old.table.submissions done.task.ticket) ≡ true → is_sum (slice_index_or result.progress.plan (length result.progress.plan - 1) nothing_planned).step ≡ false }
    {
        let task = done.task();
        // They fit the step, as a fact of the result.
        let _windows = done.windows();
        let Some(mut progress) = self.in_progress[task.ticket as usize].take() else {
            unreachable!()
        };
        progress.finish(task.step, task.tile, done.into_made());
        progress
    }

    /// Ends a pending ticket by its value, in the place that its item has, and hands out those that waited for it.
    fn settle(&mut self, t: u32, value: StoredValue) -> Waiters
        requires within { t < length self.old.table.names }
        requires pending { outcome_at self.old.table.outcomes t ≡ Outcome.Pending }
        requires empty { work_at self.old.in_progress t ≡ None }
        ensures table { self.new.table ≡ settled self.old.table t Outcome.Done }
        ensures kept { DropsSpent self.new.table (slice_set self.old.kept t (Some (kept_value value))) self.new.kept }
        ensures in_progress { self.new.in_progress ≡ self.old.in_progress }
        ensures log { self.new.log ≡ self.old.log ++ LogItem.Finished t ∷ [] }
        ensures side { self.new.side ≡ self.old.side }
        ensures waiting { (u : ℕ) → u < length self.old.table.names → (is_pending (outcome_at self.old.table.outcomes u) && list_any (nat_eq t) (inputs_of self.old.table u)) ≡ true → list_any (nat_eq u) result ≡ true }
        ensures below { AllByRecursion (λ u. u < length self.old.table.names) result }
    {
        let _pending = self.store.pending();
        let waiters = self.store.settle(t, value);
        let _whole = self.store.pending();
        self.log.push_reserved(Compact::short(LogItem::Finished(t)));
        waiters
    }

    /// Takes a result. Where it is the last of its ticket, that is settled, and the tickets of those that waited for it are
    /// handed out. No memory is asked for.
    pub fn finish(&mut self, done: TileDone) -> Option<Waiters>
        requires { IsFitAt self.old done }
        ensures placed { result ≡ None → PlacesAt self.old done self.new }
        ensures settled { IfSome result (λ w. SettlesAt self.old done self.new) }
        ensures waiting { IfSome result (λ w. (u : ℕ) → u < length self.old.table.names → (is_pending (outcome_at self.old.table.outcomes u) && list_any (nat_eq done.task.ticket) (inputs_of self.old.table u)) ≡ true
            → list_any (nat_eq u) w ≡ true) }
        ensures below { IfSome result (λ w. AllByRecursion (λ u. u < length self.old.table.names) w) }
    {
        let t = done.task().ticket;
        let progress = self.finished(done);
        if progress.remaining() > 0 {
            self.in_progress[t as usize] = Some(progress);
            return None;
        }
        let value = value_of(self.store.shape(t), progress);
        Some(self.settle(t, value))
    }
}
