//! All work of a core.

ghost use Rattle.std.specs.Prelude.{◌≡◌};
ghost use Rattle.mw_model.specs.Machine.{Machine};
ghost use Rattle.mw_model.specs.Stands.{StandsFor, running_count};
ghost use Rattle.mw_core_waves.specs.Work.{AllWorked};

use crate::wave::run_wave;
use crate::{Crew, Pick};
use mw_core::Core;
use std::thread::Threads;

/// Runs work until nothing is pending, wave by wave; by one worker task by task. Once it is not wanted, what is pending is
/// refused. No core has as many tasks as there are turns.
pub fn run_all_work<P: Pick, T: Threads + Sync>(crew: Crew<T>, core: &mut Core, pick: &mut P)
    ensures { (m : Machine) → StandsFor core.old m → running_count core.old ≡ 0 → AllWorked m core.old core.new }
{
    'turns: for _turn in 0..u64::MAX {
        if !run_wave(crew, core, pick) {
            return;
        }
    }
}
