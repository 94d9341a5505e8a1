//! Looking at the core.

ghost use Rattle.std.specs.Prelude.{◌≡◌, ◌<◌, ◌≤◌, ◌&&◌, ◌||◌, Some, is_some, length, slice_get};

use crate::machine::Core;
use mw_model::{LogItem, Name};

/// The least side of tiles that suit an element (`mw_core_tasks`).
const LEAST_SUITED: u32 = 256;

impl Core {
    ghost use Rattle.mw_model.specs.Values.{value_at};
    ghost use Rattle.mw_model.specs.Refusals.{ticket_of, outcome_at, is_done, is_released};
    ghost use Rattle.mw_model.specs.Machine.{Machine};
    ghost use Rattle.mw_model.specs.Stands.{StandsFor, is_wanted};
    ghost use Rattle.mw_core.specs.Costs.{least_side};

    /// Whether the value of a ticket is kept: that of each done entry, and of a released one exactly while a pending
    /// entry has it as an input.
    pub fn keeps(&self, t: u32) -> bool
        ensures value { result ≡ is_some (value_at self.now.kept t) }
        ensures wanted { (m : Machine) → StandsFor self.now m → t < length self.now.table.names
            → result ≡ (is_done (outcome_at m.table.outcomes t) || (is_released (outcome_at m.table.outcomes t) && is_wanted m.table t)) }
    {
        if t >= self.ledger.store().len() {
            return false;
        }
        self.ledger.store().keeps(t)
    }

    /// The ticket of a name.
    pub fn ticket_of(&self, name: Name) -> Option<u32>
        ensures { result ≡ ticket_of self.now.table.names name }
    {
        self.ledger.store().find(name)
    }

    /// The side of tiles that it was made with, in pixels; 0 where it is to suit the elements.
    pub fn side(&self) -> u32
        ensures { result ≡ self.now.side }
    {
        self.ledger.side()
    }

    /// The least side that its tasks' tiles have, in pixels, as far as the frame lets them.
    pub fn least_side(&self) -> u32
        ensures value { result ≡ least_side self.now.side }
        ensures some { 1 ≤ result }
    {
        match self.ledger.side() {
            0 => LEAST_SUITED,
            side => side,
        }
    }

    /// How many items the log has.
    pub fn log_len(&self) -> usize
        ensures { result ≡ length self.now.log }
    {
        self.ledger.log_len()
    }

    /// An item of the log.
    pub fn log_at(&self, i: usize) -> LogItem
        requires { i < length self.now.log }
        ensures { slice_get self.now.log i ≡ Some result }
    {
        self.ledger.log_at(i)
    }
}
