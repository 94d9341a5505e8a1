//! Events on tasks: a worker takes one, brings its result, or tells that it found no memory.

ghost use Rattle.std.specs.Prelude.{◌≡◌, ◌↔◌};
ghost use Rattle.mw_core_ledger.specs.Books.{seen_of};
ghost use Rattle.mw_core_ledger.specs.Counts.{AreCounts};
ghost use Rattle.mw_core_ledger.specs.Tasks.{IsFitAt};
ghost use Rattle.mw_core.specs.TaskAnswers.{TakenAt};

use crate::answers::{Finish, Refusal, Started};
use crate::machine::Core;
use mw_core_ledger::{Counts, Ledger, Unfit};
use mw_core_refusals::task::{TaskRefused, TileDone};
use mw_model::{LogItem, NoMemory, Outcome};

/// Takes a result that fits a running task, whose ticket it settles where it is the last.
fn take_result(ledger: &mut Ledger, counts: &mut Counts, done: TileDone) -> Finish
    requires fits { IsFitAt ledger.old done }
    requires counted { AreCounts (seen_of ledger.old) counts.old }
    ensures taken { TakenAt ledger.old done result ledger.new }
    ensures counted { AreCounts (seen_of ledger.new) counts.new }
    ensures side { ledger.new.side ≡ ledger.old.side }
{
    ledger.sound();
    let t = done.task().ticket;
    let was = ledger.running_of(t);
    match ledger.finish(done) {
        None => {
            counts.follow(ledger, t, was);
            Finish::Placed
        }
        Some(waiters) => {
            counts.settle(ledger, t, was, waiters.tickets());
            Finish::Settled(t)
        }
    }
}

impl Core {
    ghost use Rattle.std.specs.List.{AllByRecursion};
    ghost use Rattle.mw_model.specs.Machine.{Machine};
    ghost use Rattle.mw_model.specs.Stands.{StandsFor, ready_count};
    ghost use Rattle.mw_core_refusals.specs.mw_step_task.WindowTasks.{IsBounded};
    ghost use Rattle.mw_core.specs.TaskAnswers.{Starts, StartsBounded, AnswersFinish, IsOwn, AnswersRefusal, Picks};

    /// A worker takes the ready task of this place. Places are counted from 0 in ticket order, and round again where
    /// there are fewer. `Idle` is answered exactly where no task is ready.
    pub fn start(&mut self, place: u64) -> Started
        ensures task { (m : Machine) → StandsFor self.old m → Starts self.old m result self.new }
        ensures idle { (m : Machine) → StandsFor self.old m → (result ≡ Started.Idle) ↔ (ready_count self.old ≡ 0) }
        ensures turn { Picks self.old place result }
        ensures bounded { StartsBounded result }
        ensures side { self.new.side ≡ self.old.side }
    {
        let count = self.counts.ready();
        if count == 0 {
            return Started::Idle;
        }
        let (t, at) = self.counts.find(place % count);
        self.ledger.sound();
        let was = self.ledger.running_of(t);
        match self.ledger.take(t, at) {
            Ok(Some(work)) => {
                self.counts.follow(&self.ledger, t, was);
                Started::Work(work)
            }
            // A task that is ready has the windows that it reads.
            Ok(None) => Started::Idle,
            Err(NoMemory) => {
                self.end(t, Outcome::Memory, LogItem::Killed(t));
                Started::Refused(t)
            }
        }
    }

    /// A worker brings the result of a task. It is taken where the ticket is pending, the task is running, and the
    /// result was made from the tile, the step and the windows that the core has. No memory is asked for: the places of
    /// the tile, of the value and in the log are there since the ticket was accepted or the task was started.
    pub fn finish(&mut self, done: TileDone) -> Finish
        ensures task { (m : Machine) → StandsFor self.old m → AnswersFinish self.old m done result self.new }
        ensures side { self.new.side ≡ self.old.side }
    {
        self.ledger.sound();
        match self.ledger.check_result(&done) {
            Ok(()) => take_result(&mut self.ledger, &mut self.counts, done),
            Err(Unfit::Late) => Finish::Late,
            Err(Unfit::Stranger) => Finish::Stranger,
        }
    }

    /// A result that is known to be the core's own, as who hands out its tasks can know: the samples of its windows are not
    /// looked at. All else is tested as by `finish`.
    pub fn finish_own(&mut self, done: TileDone) -> Finish
        requires { AllByRecursion IsBounded done.windows }
        ensures task { (m : Machine) → StandsFor self.old m → IsOwn self.old m done → AnswersFinish self.old m done result self.new }
        ensures side { self.new.side ≡ self.old.side }
    {
        self.ledger.sound();
        match self.ledger.check_fit(&done) {
            Ok(()) => take_result(&mut self.ledger, &mut self.counts, done),
            Err(Unfit::Late) => Finish::Late,
            Err(Unfit::Stranger) => Finish::Stranger,
        }
    }

    /// A worker found no memory for a task: the ticket of a running task is killed.
    pub fn refuse(&mut self, refused: TaskRefused) -> Refusal
        ensures task { (m : Machine) → StandsFor self.old m → AnswersRefusal self.old m refused.task result self.new }
        ensures side { self.new.side ≡ self.old.side }
    {
        let task = refused.task();
        self.whole();
        match self.ledger.check_running(task) {
            Ok(()) => {
                self.end(task.ticket, Outcome::Memory, LogItem::Killed(task.ticket));
                Refusal::Killed(task.ticket)
            }
            Err(Unfit::Late) => Refusal::Late,
            Err(Unfit::Stranger) => Refusal::Stranger,
        }
    }
}
