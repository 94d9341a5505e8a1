//! The core: a ledger, and the counts of its tasks. What is private here is said by equations, beside any machine.

ghost use Rattle.std.specs.Prelude.{◌≡◌, ◌⊎◌, ◌<◌, ◌≤◌, [], ◌∷◌, ◌++◌, length, OnOk, OnErr, IfOk, IfSome, option_map, true, false};
ghost use Rattle.mw_model.specs.declared.limits.TheConstants.{ENTRY_LIMIT, TASK_LIMIT};

use mw_core_ledger::{Compact, Counts, Entry, Ledger, PlanProgress};
use mw_model::{Call, LogItem, Name, NoMemory, Outcome, Reply};
use std::alloc::Global;
use std::marker::Model;

/// The machine, with what it keeps and the work that is under way.
pub struct Core {
    pub(crate) ledger: Ledger,
    pub(crate) counts: Counts,
    pub(crate) alloc: Global,
}

/// Lets go of all that the core holds. It is written out, since what is derived is proved anew in each crate that drops a
/// core, part by part.
impl Drop for Core {
    fn drop(self) {
        let Core {
            ledger: _,
            counts: _,
            alloc: _,
        } = self;
    }
}

impl Model for Core {
    ghost use Rattle.mw_model.specs.Stands.{CoreView};
    ghost use Rattle.mw_core_ledger.specs.Books.{seen_of};
    ghost use Rattle.mw_core_ledger.specs.Counts.{AreCounts};

    ghost Value = { CoreView };

    ghost view = { λ c. seen_of c.ledger };

    ghost invariant = { λ c. AreCounts (seen_of c.ledger) c.counts };
}

impl Core {
    ghost use Rattle.std.specs.List.{AllByRecursion};
    ghost use Rattle.mw_model.specs.Values.{tickets};
    ghost use Rattle.mw_model.specs.Refusals.{ticket_of, outcome_at, is_dead, is_pending};
    ghost use Rattle.mw_model.specs.Machine.{with_entry, killed, settled};
    ghost use Rattle.mw_model.specs.Tasks.{remaining_tasks, task_count};
    ghost use Rattle.mw_core_refusals.specs.mw_store.Entries.{MakesNoElement, submission_of, outcome_of, payload_in};
    ghost use Rattle.mw_core_refusals.specs.mw_store.Stored.{DropsSpent};
    ghost use Rattle.mw_core_ledger.specs.mw_core_laws.Changes.{KeepsWork};
    ghost use Rattle.mw_core_ledger.specs.mw_core_laws.Facts.{IsComplete};
    ghost use Rattle.mw_core_ledger.specs.mw_core_laws.Limits.{FitsLimits, ShapesFit};
    ghost use Rattle.mw_core_ledger.specs.mw_core_laws.Rows.{IsLogFull};
    ghost use Rattle.mw_core_ledger.specs.mw_core_tasks.Planning.{IsPlannedOn};
    ghost use Rattle.mw_core_ledger.specs.Short.{is_long};
    ghost use Rattle.mw_core_ledger.specs.Books.{progress_of};

    /// What holds of every core.
    pub(crate) fn whole(&self)
        ensures complete { IsComplete self.now }
        ensures fits { ShapesFit self.now.table }
    {
        self.ledger.sound();
    }

    /// Adds the item of a call that changes no entry. Memory is wanting only where the log is full, or for a long item.
    pub(crate) fn note(&mut self, call: Call, reply: Reply) -> Result<Reply, NoMemory>
        ensures reply { IfOk result (λ r. r ≡ reply) }
        ensures ok { OnOk result (self.new ≡ record self.old { log = self.old.log ++ LogItem.Call call reply ∷ [] }) }
        ensures side { self.new.side ≡ self.old.side }
        ensures err { OnErr result (self.new ≡ self.old) }
        ensures memory { OnErr result ((is_long (LogItem.Call call reply) ≡ true) ⊎ IsLogFull self.old) }
    {
        self.ledger.note(call, reply)?;
        Ok(reply)
    }

    /// Adds an entry with its work, its item and a place for its end.
    pub(crate) fn accept(
        &mut self,
        call: Call,
        name: Name,
        entry: Entry,
        progress: Option<PlanProgress>,
    ) -> Result<Reply, NoMemory>
        requires free { ticket_of self.old.table.names name ≡ None }
        requires room { length self.old.table.names < ENTRY_LIMIT }
        requires below { AllByRecursion (λ i. i < length self.old.table.names) (tickets (submission_of entry).inputs) }
        requires alive { AllByRecursion (λ i. is_dead (outcome_at self.old.table.outcomes i) ≡ false) (tickets (submission_of entry).inputs) }
        requires made { MakesNoElement entry }
        requires fits { FitsLimits (submission_of entry).shape }
        requires planned { IfSome progress (IsPlannedOn self.old.table (submission_of entry)) }
        requires left { IfSome progress (λ u. 1 ≤ remaining_tasks u.progress) }
        requires most { IfSome progress (λ u. task_count u.progress ≤ TASK_LIMIT) }
        ensures reply { IfOk result (λ r. r ≡ Reply.Accepted (length self.old.table.names)) }
        ensures table { OnOk result (self.new.table ≡ with_entry self.old.table name (submission_of entry) (outcome_of entry)) }
        ensures kept { OnOk result (self.new.kept ≡ self.old.kept ++ payload_in entry ∷ []) }
        ensures work { OnOk result (self.new.work ≡ self.old.work ++ option_map progress_of progress ∷ []) }
        ensures log { OnOk result (self.new.log ≡ self.old.log ++ LogItem.Call call (Reply.Accepted (length self.old.table.names)) ∷ []) }
        ensures side { self.new.side ≡ self.old.side }
        ensures err { OnErr result (self.new ≡ self.old) }
    {
        self.ledger.sound();
        self.counts.grow()?;
        match self.ledger.accept(call, name, entry, progress) {
            Ok(t) => {
                self.counts.add_last(&self.ledger);
                Ok(Reply::Accepted(t))
            }
            Err(NoMemory) => {
                self.counts.shrink();
                Err(NoMemory)
            }
        }
    }

    /// Ends a pending ticket by its death, in the place that its item has, and drops what nothing waits for any more. No
    /// memory is asked for.
    pub(crate) fn end(&mut self, t: u32, cause: Outcome, item: LogItem)
        requires within { t < length self.old.table.names }
        requires pending { outcome_at self.old.table.outcomes t ≡ Outcome.Pending }
        requires dead { is_pending cause ≡ false }
        requires short { is_long item ≡ false }
        ensures table { self.new.table ≡ killed self.old.table t cause }
        ensures kept { DropsSpent self.new.table self.old.kept self.new.kept }
        ensures work { KeepsWork self.new.table self.old.work self.new.work }
        ensures log { self.new.log ≡ self.old.log ++ item ∷ [] }
        ensures side { self.new.side ≡ self.old.side }
    {
        self.ledger.sound();
        let wanted = self.ledger.store().is_wanted(t);
        let was = self.ledger.running_of(t);
        self.ledger.end(t, cause, Compact::short(item));
        self.counts.count_dead(&self.ledger, t, was, wanted);
    }

    /// Lets a done ticket go. Memory is wanting only where the log is full.
    pub(crate) fn let_go(&mut self, t: u32, item: LogItem) -> Result<(), NoMemory>
        requires within { t < length self.old.table.names }
        requires done { outcome_at self.old.table.outcomes t ≡ Outcome.Done }
        requires short { is_long item ≡ false }
        ensures table { OnOk result (self.new.table ≡ settled self.old.table t Outcome.Released) }
        ensures kept { OnOk result (DropsSpent self.new.table self.old.kept self.new.kept) }
        ensures work { OnOk result (self.new.work ≡ self.old.work) }
        ensures log { OnOk result (self.new.log ≡ self.old.log ++ item ∷ []) }
        ensures side { self.new.side ≡ self.old.side }
        ensures err { OnErr result (self.new ≡ self.old) }
        ensures memory { OnErr result (IsLogFull self.old) }
    {
        self.ledger.sound();
        self.ledger.let_go(t, Compact::short(item))
    }
}
