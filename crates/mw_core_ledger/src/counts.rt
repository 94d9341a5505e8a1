//! How many tasks of a ticket are ready, running and left.

ghost use Rattle.std.specs.Prelude.{◌≡◌, ◌<◌, ◌≤◌, length, IfSome};
ghost use Rattle.mw_model.specs.declared.limits.TheConstants.{TASK_LIMIT};
ghost use Rattle.mw_core_ledger.specs.Books.{seen_of};

use crate::ledger::Ledger;

impl Ledger {
    ghost use Rattle.mw_model.specs.Stands.{ready_under, remaining_of};
    ghost use Rattle.mw_core_tasks.specs.mw_core_laws.Counts.{running_under};

    /// How many tasks of the ticket are ready.
    pub fn ready_of(&self, t: u32) -> u32
        requires { t < length self.now.table.names }
        ensures value { result ≡ ready_under (seen_of self.now) t }
        ensures small { result ≤ TASK_LIMIT }
    {
        if !self.store.outcome(t).is_pending() || !self.store.inputs_there(t) {
            return 0;
        }
        match &self.in_progress[t as usize] {
            Some(progress) => progress.ready(),
            None => 0,
        }
    }

    /// How many tasks of the ticket are running.
    pub fn running_of(&self, t: u32) -> u32
        requires { t < length self.now.table.names }
        ensures value { result ≡ running_under (seen_of self.now) t }
        ensures small { result ≤ TASK_LIMIT }
    {
        match &self.in_progress[t as usize] {
            Some(progress) => progress.running(),
            None => 0,
        }
    }

    /// How many tasks of the ticket are not finished, if it has work.
    pub fn remaining(&self, t: u32) -> Option<u64>
        ensures value { result ≡ remaining_of (seen_of self.now) t }
        ensures bounded { IfSome result (λ n. (1 ≤ n) × (n ≤ TASK_LIMIT)) }
    {
        if t >= self.store.len() {
            return None;
        }
        match &self.in_progress[t as usize] {
            Some(progress) => Some(u64::from(progress.remaining())),
            None => None,
        }
    }
}
