//! Session calls: entries are added, die, and are let go, and each call has its item in the log.

ghost use Rattle.std.specs.Prelude.{◌≡◌, ◌<◌, ◌≤◌, ◌++◌, ◌∷◌, ◌⊎◌, [], length, slice_set, OnOk, OnErr, IfOk, IfSome, None, true, false};
ghost use Rattle.mw_model.specs.declared.limits.TheConstants.{ENTRY_LIMIT, TASK_LIMIT};

use crate::compact::Compact;
use crate::ledger::Ledger;
use crate::log_room::make_places;
use crate::sweep::drop_ended;
use mw_core_tasks::{Entry, PlanProgress, reserve_row};
use mw_model::{Call, LogItem, Name, NoMemory, Outcome, Reply};

impl Ledger {
    ghost use Rattle.std.specs.List.{AllByRecursion};
    ghost use Rattle.mw_model.specs.Values.{tickets};
    ghost use Rattle.mw_model.specs.Refusals.{ticket_of, outcome_at, is_dead, is_pending};
    ghost use Rattle.mw_model.specs.Machine.{killed, settled};
    ghost use Rattle.mw_model.specs.Stands.{is_wanted};
    ghost use Rattle.mw_model.specs.Tasks.{remaining_tasks, task_count};
    ghost use Rattle.mw_core_tasks.specs.mw_store.Entries.{MakesNoElement, submission_of};
    ghost use Rattle.mw_core_tasks.specs.mw_store.RowRoom.{FillsRows, TakesMore};
    ghost use Rattle.mw_core_tasks.specs.mw_store.Stored.{DropsSpent};
    ghost use Rattle.mw_core_tasks.specs.mw_core_laws.Limits.{FitsLimits};
    ghost use Rattle.mw_core_tasks.specs.Planning.{IsPlannedOn};
    ghost use Rattle.mw_core_ledger.specs.Short.{is_long};
    ghost use Rattle.mw_core_ledger.specs.Books.{seen_of};
    ghost use Rattle.mw_core_ledger.specs.Changes.{KeepsInProgress, noted, with_accepted};
    ghost use Rattle.mw_core_tasks.specs.mw_core_laws.Rows.{IsLogFull};

    /// Adds the item of a call that changes no entry. Memory is wanting only where the log has no room, or the item needs a
    /// block of its own.
    pub fn note(&mut self, call: Call, reply: Reply) -> Result<(), NoMemory>
        ensures ok { OnOk result (self.new ≡ noted self.old (LogItem.Call call reply) self.new.room) }
        ensures err { OnErr result (self.new ≡ self.old) }
        ensures memory { OnErr result ((is_long (LogItem.Call call reply) ≡ true) ⊎ (self.old.room ≡ 0)) }
        ensures rows { OnErr result ((is_long (LogItem.Call call reply) ≡ true) ⊎ IsLogFull (seen_of self.old)) }
    {
        let item = Compact::new(self.alloc, LogItem::Call(call, reply))?;
        make_places(&mut self.log, self.store.pending() + 1)?;
        self.log.push_reserved(item);
        Ok(())
    }

    /// Adds an entry with its work, its item and a place for its end, and answers its ticket. Memory is wanting only where the
    /// item needs a block of its own, the log has less than two places, the entries fill their rows of places, or the entry
    /// takes more than a place in each column.
    pub fn accept(
        &mut self,
        call: Call,
        name: Name,
        entry: Entry,
        progress: Option<PlanProgress>,
    ) -> Result<u32, NoMemory>
        requires free { ticket_of self.old.table.names name ≡ None }
        requires room { length self.old.table.names < ENTRY_LIMIT }
        requires below { AllByRecursion (λ i. i < length self.old.table.names) (tickets (submission_of entry).inputs) }
        requires alive { AllByRecursion (λ i. is_dead (outcome_at self.old.table.outcomes i) ≡ false) (tickets (submission_of entry).inputs) }
        requires made { MakesNoElement entry }
        requires fits { FitsLimits (submission_of entry).shape }
        requires planned { IfSome progress (IsPlannedOn self.old.table (submission_of entry)) }
        requires left { IfSome progress (λ u. 1 ≤ remaining_tasks u.progress) }
        requires most { IfSome progress (λ u. task_count u.progress ≤ TASK_LIMIT) }
        ensures ticket { IfOk result (λ t. t ≡ length self.old.table.names) }
        ensures ok { OnOk result (self.new ≡ with_accepted self.old call name entry progress self.new.room) }
        ensures err { OnErr result (self.new ≡ record self.old { room = self.new.room }) }
        ensures memory { OnErr result ((is_long (LogItem.Call call (Reply.Accepted (length self.old.table.names))) ≡ true) ⊎ (self.old.room < 2) ⊎ FillsRows (length self.old.table.names) ⊎ TakesMore self.old.table.outcomes entry) }
    {
        let next = self.store.len();
        let item = Compact::new(self.alloc, LogItem::Call(call, Reply::Accepted(next)))?;
        make_places(&mut self.log, self.store.pending() + 2)?;
        reserve_row(&mut self.in_progress)?;
        let t = self.store.add(name, entry)?;
        let _whole = self.store.pending();
        self.in_progress.push_reserved(progress);
        self.log.push_reserved(item);
        Ok(t)
    }

    /// Ends a pending ticket by its death, in the place that its item has, and drops what nothing waits for any more. Where
    /// a pending entry has it as an input, this is the only call that looks at all entries. No memory is asked for.
    pub fn end(&mut self, t: u32, cause: Outcome, item: Compact)
        requires within { t < length self.old.table.names }
        requires pending { outcome_at self.old.table.outcomes t ≡ Outcome.Pending }
        requires dead { is_pending cause ≡ false }
        ensures table { self.new.table ≡ killed self.old.table t cause }
        ensures alone { is_wanted self.old.table t ≡ false → self.new.table ≡ settled self.old.table t cause }
        ensures kept { DropsSpent self.new.table self.old.kept self.new.kept }
        ensures in_progress { KeepsInProgress self.new.table self.old.in_progress self.new.in_progress }
        ensures own { is_wanted self.old.table t ≡ false → self.new.in_progress ≡ slice_set self.old.in_progress t None }
        ensures log { self.new.log ≡ self.old.log ++ item ∷ [] }
        ensures side { self.new.side ≡ self.old.side }
    {
        let _pending = self.store.pending();
        let wanted = self.store.is_wanted(t);
        self.store.kill(t, cause);
        let _whole = self.store.pending();
        drop_ended(&self.store, &mut self.in_progress, t, wanted);
        self.log.push_reserved(item);
    }

    /// Lets a done ticket go. Memory is wanting only where the log has no room.
    pub fn let_go(&mut self, t: u32, item: Compact) -> Result<(), NoMemory>
        requires within { t < length self.old.table.names }
        requires done { outcome_at self.old.table.outcomes t ≡ Outcome.Done }
        ensures table { OnOk result (self.new.table ≡ settled self.old.table t Outcome.Released) }
        ensures kept { OnOk result (DropsSpent self.new.table self.old.kept self.new.kept) }
        ensures in_progress { OnOk result (self.new.in_progress ≡ self.old.in_progress) }
        ensures log { OnOk result (self.new.log ≡ self.old.log ++ item ∷ []) }
        ensures side { self.new.side ≡ self.old.side }
        ensures err { OnErr result (self.new ≡ self.old) }
        ensures memory { OnErr result (self.old.room ≡ 0) }
        ensures rows { OnErr result (IsLogFull (seen_of self.old)) }
    {
        make_places(&mut self.log, self.store.pending() + 1)?;
        self.store.release(t);
        let _whole = self.store.pending();
        self.log.push_reserved(item);
        Ok(())
    }
}
