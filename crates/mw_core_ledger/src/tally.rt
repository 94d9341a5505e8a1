//! Counts of ready and running tasks beside a ledger.

ghost use Rattle.std.specs.Prelude.{◌≡◌, ℕ, ◌+◌, ◌-◌, ◌<◌, ◌≤◌, ◌^◌, length, sum, slice_index, slice_set, Option, None, false, IfOk, MatchResult};

use crate::ledger::Ledger;
use mw_core_sums::Sums;
use mw_model::NoMemory;
use std::alloc::Global;
use std::marker::Model;

/// The numbers of ready tasks by ticket, and how many tasks are running.
#[derive(Drop)]
pub struct Counts {
    ready: Sums,
    running: u64,
}

impl Model for Counts {
    ghost use Rattle.mw_core_ledger.specs.Counts.{Tally};

    ghost Value = { Tally };

    ghost view = { λ k. record { ready = k.ready; running = k.running } };
}

impl Counts {
    ghost use Rattle.std.specs.List.{AllByRecursion};
    ghost use Rattle.mw_model.specs.declared.calls.Call.{Call};
    ghost use Rattle.mw_model.specs.declared.names.Name.{Name};
    ghost use Rattle.mw_model.specs.declared.calls.Outcome.{Outcome};
    ghost use Rattle.mw_model.specs.Machine.{settled};
    ghost use Rattle.mw_model.specs.Stands.{CoreView, is_wanted, ready_under};
    ghost use Rattle.mw_core_tasks.specs.mw_core_progress.ProgressView.{ProgressView};
    ghost use Rattle.mw_core_tasks.specs.mw_core_laws.Counts.{running_under};
    ghost use Rattle.mw_core_tasks.specs.mw_core_laws.Turns.{IsAt};
    ghost use Rattle.mw_core_tasks.specs.mw_store.declared.kept.Entry.{Entry};
    ghost use Rattle.mw_core_tasks.specs.mw_step_task.WindowTasks.{WindowTask};
    ghost use Rattle.mw_core_ledger.specs.Books.{Book, IsOrderly, seen_of};
    ghost use Rattle.mw_core_ledger.specs.Changes.{with_accepted};
    ghost use Rattle.mw_core_ledger.specs.Tasks.{SettlesAt};
    ghost use Rattle.mw_core_ledger.specs.Counts.{AreCounts, Tally, WaitFor, no_counts, tally_grown};

    /// Of a ledger without entries.
    pub fn new(alloc: Global) -> Result<Counts, NoMemory>
        ensures { IfOk result (λ k. k ≡ no_counts) }
    {
        Ok(Counts {
            ready: Sums::new(alloc),
            running: 0,
        })
    }

    /// A place for one ticket more, which has no task yet.
    pub fn grow(&mut self) -> Result<(), NoMemory>
        requires { length self.old.ready < 65536 }
        ensures { MatchResult result (λ _. self.new ≡ tally_grown self.old) (λ _. self.new ≡ self.old) }
    {
        self.ready.push(0)
    }

    /// Takes back the last place, of a ticket that did not come.
    pub fn shrink(&mut self)
        requires { 1 ≤ length self.old.ready }
        ensures { (k : Tally) → self.old ≡ tally_grown k → self.new ≡ k }
    {
        self.ready.pop();
    }

    /// Counts the tasks of a ticket anew, where so many of them were counted as running before.
    fn count(&mut self, ledger: &Ledger, t: u32, was: u32)
        requires within { t < length ledger.now.table.names }
        requires count { length self.old.ready ≡ length ledger.now.table.names }
        ensures ready { self.new.ready ≡ slice_set self.old.ready t (ready_under (seen_of ledger.now) t) }
        ensures running { self.old.running ≤ 2 ^ 63 → self.new.running ≡ self.old.running - was + running_under (seen_of ledger.now) t }
    {
        let running = u64::from(ledger.running_of(t));
        self.ready.set(t, ledger.ready_of(t));
        // Saturating, so that a caller has nothing to show; the numbers of a ledger never come so far.
        self.running = self
            .running
            .saturating_sub(u64::from(was))
            .saturating_add(running);
    }

    /// Counts the tasks of a ticket that was added.
    pub fn add_last(&mut self, ledger: &Ledger)
        requires some { 1 ≤ length ledger.now.table.names }
        requires count { length self.old.ready ≡ length ledger.now.table.names }
        ensures { (b : Book) (k : Tally) (c : Call) (n : Name) (e : Entry) (u : Option ProgressView) (room : ℕ) → IsOrderly b → AreCounts (seen_of b) k → self.old ≡ tally_grown k → ledger.now ≡ with_accepted b c n e u room
            → AreCounts (seen_of ledger.now) self.new }
    {
        let last = self.ready.len() - 1;
        self.count(ledger, last, 0);
    }

    /// Counts the tasks of a ticket anew, whose work has changed. So many of them were running before.
    pub fn follow(&mut self, ledger: &Ledger, t: u32, was: u32)
        requires within { t < length ledger.now.table.names }
        requires count { length self.old.ready ≡ length ledger.now.table.names }
        ensures { (b : Book) (x : Option ProgressView) → IsOrderly b → AreCounts (seen_of b) self.old → ledger.now ≡ record b { in_progress = slice_set b.in_progress t x } → was ≡ running_under (seen_of b) t
            → AreCounts (seen_of ledger.now) self.new }
    {
        self.count(ledger, t, was);
    }

    /// Counts the tasks of those that waited for a ticket which is done. So many of its own were running before.
    pub fn settle(&mut self, ledger: &Ledger, t: u32, was: u32, waiters: &[u32])
        requires within { t < length ledger.now.table.names }
        requires count { length self.old.ready ≡ length ledger.now.table.names }
        requires below { AllByRecursion (λ u. u < length ledger.now.table.names) waiters.now }
        ensures { (b : Book) (d : WindowTask) → IsOrderly b → AreCounts (seen_of b) self.old → SettlesAt b d ledger.now → d.task.ticket ≡ t → was ≡ running_under (seen_of b) t → WaitFor b t waiters.now
            → AreCounts (seen_of ledger.now) self.new }
    {
        self.count(ledger, t, was);
        for &u in waiters {
            self.ready.set(u, ledger.ready_of(u));
        }
    }

    /// Counts the tasks of a ticket that has died. So many of its own were running before. Where no pending entry had it as
    /// an input, nothing is ready that was not before; else all tickets are counted anew.
    pub fn count_dead(&mut self, ledger: &Ledger, t: u32, was: u32, wanted: bool)
        requires within { t < length ledger.now.table.names }
        requires count { length self.old.ready ≡ length ledger.now.table.names }
        ensures { (b : Book) (o : Outcome) → IsOrderly b → AreCounts (seen_of b) self.old → wanted ≡ is_wanted b.table t → (is_wanted b.table t ≡ false → ledger.now.table ≡ settled b.table t o)
            → (is_wanted b.table t ≡ false → ledger.now.in_progress ≡ slice_set b.in_progress t None) → was ≡ running_under (seen_of b) t → AreCounts (seen_of ledger.now) self.new }
    {
        if wanted {
            self.recount(ledger);
        } else {
            self.count(ledger, t, was);
        }
    }

    /// Counts the tasks of all tickets.
    pub fn recount(&mut self, ledger: &Ledger)
        requires { length self.old.ready ≡ length ledger.now.table.names }
        ensures { AreCounts (seen_of ledger.now) self.new }
    {
        self.running = 0;
        for t in 0..self.ready.len() {
            self.ready.set(t, ledger.ready_of(t));
            self.running += u64::from(ledger.running_of(t));
        }
    }

    /// How many tasks are ready.
    pub fn ready(&self) -> u64
        ensures { result ≡ sum self.now.ready }
    {
        self.ready.total()
    }

    /// How many tasks are running.
    pub fn running(&self) -> u64
        ensures { result ≡ self.now.running }
    {
        self.running
    }

    /// The ticket of the ready task of this position, where tasks are counted in ticket order, and its place among the ready
    /// tasks of the ticket.
    pub fn find(&self, position: u64) -> (u32, u32)
        requires { position < sum self.now.ready }
        ensures within { result.0 < length self.now.ready }
        ensures turn { (c : CoreView) → AreCounts c self.now → IsAt c position result.0 }
        ensures place { (c : CoreView) → AreCounts c self.now → result.1 < ready_under c result.0 }
    {
        let (t, place) = self.ready.find(position);
        (t, place as u32)
    }
}
