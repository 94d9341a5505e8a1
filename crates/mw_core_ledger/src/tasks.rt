//! Tasks: one is taken, and it is told whether a result, or a task that was refused, is that of a running one.

ghost use Rattle.std.specs.Prelude.{◌≡◌, ◌<◌, ◌≤◌, ◌↔◌, length, IsTrue, OnOk, OnErr, IfOk, Err, None};

use crate::ledger::Ledger;
use mw_core_tasks::task::{TileDone, Work};
use mw_core_tasks::{begin, is_fit, is_result};
use mw_model::{NoMemory, Outcome, TaskId};

/// Why a task is not taken.
#[derive(Clone, Copy, PartialEq, Eq, Debug)]
pub enum Unfit {
    /// The ticket is not pending any more.
    Late,
    /// No running task is meant.
    Stranger,
}

impl Ledger {
    ghost use Rattle.std.specs.List.{AllByRecursion};
    ghost use Rattle.mw_model.specs.Refusals.{outcome_at};
    ghost use Rattle.mw_model.specs.Stands.{progress_at, ready_under};
    ghost use Rattle.mw_core_tasks.specs.mw_step_task.WindowTasks.{IsBounded};
    ghost use Rattle.mw_core_tasks.specs.mw_core_laws.TaskEvents.{IsOpen, IsSettled, IsUnderway};
    ghost use Rattle.mw_core_ledger.specs.Books.{seen_of};
    ghost use Rattle.mw_core_ledger.specs.Tasks.{IsFitAt, IsFoundAt, IsResultAt, TakesAt};

    /// Takes the ready task of the ticket at this place of its order; None, and nothing taken, where it has no windows that
    /// fit its step.
    pub fn take(&mut self, t: u32, place: u32) -> Result<Option<Work>, NoMemory>
        requires within { t < length self.old.table.names }
        requires ready { place < ready_under (seen_of self.old) t }
        ensures taken { IfOk result (TakesAt self.old t self.new) }
        ensures same { OnErr result (self.new ≡ self.old) }
    {
        let Some(image) = self.store.submission(t).inputs.a else {
            unreachable!()
        };
        let alloc = self.alloc;
        match &mut self.in_progress[t as usize] {
            Some(progress) => {
                let _whole = progress.remaining();
                begin(alloc, &self.store, image, t, progress, place)
            }
            None => unreachable!(),
        }
    }

    /// Whether a ticket is pending.
    fn check_ticket(&self, t: u32) -> Result<(), Unfit>
        ensures within { OnOk result (t < length self.now.table.names) }
        ensures pending { OnOk result (outcome_at self.now.table.outcomes t ≡ Outcome.Pending) }
        ensures late { result ≡ Err Unfit.Late → IsSettled (seen_of self.now) t }
        ensures stranger { result ≡ Err Unfit.Stranger → length self.now.table.names ≤ t }
        ensures idle { result ≡ Err Unfit.Stranger → progress_at (seen_of self.now).work t ≡ None }
    {
        if t >= self.store.len() {
            return Err(Unfit::Stranger);
        }
        if self.store.outcome(t).is_pending() {
            Ok(())
        } else {
            Err(Unfit::Late)
        }
    }

    /// Whether a result is that of a running task under a pending ticket, on what is kept.
    fn has_result(&self, done: &TileDone) -> bool
        requires within { done.now.task.ticket < length self.now.table.names }
        requires pending { outcome_at self.now.table.outcomes done.now.task.ticket ≡ Outcome.Pending }
        ensures result { IsTrue result → IsResultAt self.now done.now }
        ensures all { IsFoundAt self.now done.now → IsTrue result }
    {
        let t = done.task().ticket;
        let Some(image) = self.store.submission(t).inputs.a else {
            return false;
        };
        match &self.in_progress[t as usize] {
            Some(progress) => {
                let _whole = progress.remaining();
                is_result(&self.store, image, progress, done)
            }
            None => false,
        }
    }

    /// Whether a result on bounded windows is that of a running task, but for what the windows show, which is not looked at.
    fn has_fit(&self, done: &TileDone) -> bool
        requires within { done.now.task.ticket < length self.now.table.names }
        requires pending { outcome_at self.now.table.outcomes done.now.task.ticket ≡ Outcome.Pending }
        requires bounded { AllByRecursion IsBounded done.now.windows }
        ensures result { IsTrue result → IsFitAt self.now done.now }
        ensures all { IsFoundAt self.now done.now → IsTrue result }
    {
        let t = done.task().ticket;
        let Some(_image) = self.store.submission(t).inputs.a else {
            return false;
        };
        match &self.in_progress[t as usize] {
            Some(progress) => {
                let _whole = progress.remaining();
                is_fit(progress, done)
            }
            None => false,
        }
    }

    /// Whether the task of these numbers is running.
    fn is_underway(&self, task: TaskId) -> bool
        requires { task.ticket < length self.now.table.names }
        ensures { IsTrue result ↔ IsUnderway (seen_of self.now) task }
    {
        match &self.in_progress[task.ticket as usize] {
            Some(progress) => {
                let _whole = progress.remaining();
                progress.is_running(task.step, task.tile)
            }
            None => false,
        }
    }

    /// Whether a result is that of a running task under a pending ticket.
    pub fn check_result(&self, done: &TileDone) -> Result<(), Unfit>
        ensures ok { OnOk result (IsResultAt self.now done.now) }
        ensures late { result ≡ Err Unfit.Late → IsSettled (seen_of self.now) done.now.task.ticket }
        ensures open { result ≡ Err Unfit.Stranger → IsOpen (seen_of self.now) done.now.task.ticket }
        ensures stranger { result ≡ Err Unfit.Stranger → IsFoundAt self.now done.now → ⊥ }
    {
        self.check_ticket(done.task().ticket)?;
        if self.has_result(done) {
            Ok(())
        } else {
            Err(Unfit::Stranger)
        }
    }

    /// Whether a result on bounded windows is that of a running task under a pending ticket, but for what the windows show,
    /// which is not looked at.
    pub fn check_fit(&self, done: &TileDone) -> Result<(), Unfit>
        requires { AllByRecursion IsBounded done.now.windows }
        ensures ok { OnOk result (IsFitAt self.now done.now) }
        ensures late { result ≡ Err Unfit.Late → IsSettled (seen_of self.now) done.now.task.ticket }
        ensures open { result ≡ Err Unfit.Stranger → IsOpen (seen_of self.now) done.now.task.ticket }
        ensures stranger { result ≡ Err Unfit.Stranger → IsFoundAt self.now done.now → ⊥ }
    {
        self.check_ticket(done.task().ticket)?;
        if self.has_fit(done) {
            Ok(())
        } else {
            Err(Unfit::Stranger)
        }
    }

    /// Whether the task of these numbers is running under a pending ticket.
    pub fn check_running(&self, task: TaskId) -> Result<(), Unfit>
        ensures ok { OnOk result (IsUnderway (seen_of self.now) task) }
        ensures within { OnOk result (task.ticket < length self.now.table.names) }
        ensures pending { OnOk result (outcome_at self.now.table.outcomes task.ticket ≡ Outcome.Pending) }
        ensures late { result ≡ Err Unfit.Late → IsSettled (seen_of self.now) task.ticket }
        ensures open { result ≡ Err Unfit.Stranger → IsOpen (seen_of self.now) task.ticket }
        ensures stranger { result ≡ Err Unfit.Stranger → IsUnderway (seen_of self.now) task → ⊥ }
    {
        self.check_ticket(task.ticket)?;
        if self.is_underway(task) {
            Ok(())
        } else {
            Err(Unfit::Stranger)
        }
    }
}
