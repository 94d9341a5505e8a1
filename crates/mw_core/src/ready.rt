//! How many tasks are ready, running and left.

ghost use Rattle.std.specs.Prelude.{true, ◌≡◌, ◌<◌, ◌≤◌, length, IfSome};
ghost use Rattle.mw_model.specs.declared.limits.TheConstants.{TASK_LIMIT};
ghost use Rattle.mw_model.specs.Refusals.{outcome_at};

use crate::machine::Core;

impl Core {
    ghost use Rattle.std.specs.Prelude.{◌↔◌, IsSome};
    ghost use Rattle.mw_model.specs.Machine.{Machine};
    ghost use Rattle.mw_model.specs.Refusals.{is_pending};
    ghost use Rattle.mw_model.specs.Stands.{StandsFor, ready_count, running_count, remaining_of};
    ghost use Rattle.mw_core_ledger.specs.mw_core_laws.Counts.{NonePending};

    /// How many tasks are ready.
    pub fn ready_count(&self) -> u64
        ensures { result ≡ ready_count self.now }
    {
        self.counts.ready()
    }

    /// How many tasks of pending tickets are running. Where none is, and none is ready, nothing is pending.
    pub fn running(&self) -> u64
        ensures value { result ≡ running_count self.now }
        ensures rest { (m : Machine) → StandsFor self.now m → result ≡ 0 → ready_count self.now ≡ 0 → NonePending m.table }
    {
        self.counts.running()
    }

    /// How many tasks of a pending ticket are not finished, from 1 to 4,194,304; of any other, `None`.
    pub fn remaining(&self, t: u32) -> Option<u64>
        ensures value { result ≡ remaining_of self.now t }
        ensures pending { (m : Machine) → StandsFor self.now m → IsSome result ↔ ((t < length m.table.names) × (is_pending (outcome_at m.table.outcomes t) ≡ true)) }
        ensures bounded { IfSome result (λ n. (1 ≤ n) × (n ≤ TASK_LIMIT)) }
    {
        self.ledger.sound();
        self.ledger.remaining(t)
    }
}
