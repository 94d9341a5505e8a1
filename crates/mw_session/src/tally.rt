//! A core, and what is counted while it answers a session.

ghost use Rattle.std.specs.Prelude.{◌≡◌, false};
ghost use Rattle.mw_session.specs.Budgets.{CoversCore};

use crate::budget::Budget;
use mw_core_waves::Core;

/// A core, the number of the line in which the next request stands, of the lines of requests, and whether a reply was a
/// refusal; and how much memory the core may take, and has taken.
#[derive(Drop)]
pub struct Tally {
    pub core: Core,
    pub line: u64,
    pub refused: bool,
    pub(crate) budget: Budget,
}

impl Tally {
    /// A core that has answered nothing yet.
    pub fn new(core: Core) -> Tally
        ensures core { result.core ≡ core }
        ensures first { result.line ≡ 1 }
        ensures clear { result.refused ≡ false }
        ensures covers { CoversCore result.budget result.core }
    {
        Tally::within(core, None)
    }

    /// A core that has answered nothing yet, and may take so many MiB.
    pub fn within(core: Core, memory: Option<u32>) -> Tally
        ensures core { result.core ≡ core }
        ensures first { result.line ≡ 1 }
        ensures clear { result.refused ≡ false }
        ensures covers { CoversCore result.budget result.core }
    {
        let budget = Budget::new(memory, &core);
        Tally {
            core,
            line: 1,
            refused: false,
            budget,
        }
    }
}
