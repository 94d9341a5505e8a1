//! A core that is kept from one event to the next: it stands for some state of the machine throughout.

ghost use Rattle.std.specs.Prelude.{◌≡◌, [], IfOk};
ghost use Rattle.mw_model.specs.Machine.{Machine, start_state};
ghost use Rattle.mw_model.specs.Stands.{StandsFor};

use mw_core::events::{Answer, Event, serve};
use mw_core::{Core, NoMemory};
use std::alloc::Global;

/// A core that stands for some state of the machine.
#[derive(Drop)]
pub struct LockedCore {
    pub core: Core,
    pub ghost stands: { ∥ ((m : Machine) × StandsFor core m) ∥₁ },
}

impl LockedCore {
    ghost use Rattle.mw_core.specs.EventEffects.{IsServable, HasEffect};

    /// A core that has accepted nothing yet.
    pub fn new(alloc: Global, side: u32) -> Result<Self, NoMemory>
        ensures stands { IfOk result (λ h. StandsFor h.core start_state) }
        ensures log { IfOk result (λ h. h.core.log ≡ []) }
        ensures side { IfOk result (λ h. h.core.side ≡ side) }
    {
        Ok(LockedCore {
            core: Core::new(alloc, side)?,
        })
    }

    /// One event.
    pub fn serve(&mut self, event: Event) -> Answer
        requires { IsServable event }
        ensures happens { (m : Machine) → StandsFor self.old.core m → (n : Machine) × HasEffect self.old.core m event result self.new.core n × StandsFor self.new.core n }
        ensures side { self.new.core.side ≡ self.old.core.side }
    {
        serve(&mut self.core, event)
    }
}
