//! A whole script, from a reader to a writer.

ghost use Rattle.std.specs.Prelude.{◌≡◌, false};
ghost use Rattle.mw_model.specs.Machine.{Machine};
ghost use Rattle.mw_model.specs.Stands.{StandsFor, running_count};
ghost use Rattle.mw_session_fetch.specs.mw_wire.Failures.{IsUnread, TellsFailures};
ghost use Rattle.mw_session.specs.Runs.{SessionRan};
ghost use Rattle.mw_session.specs.Budgets.{KeepsCount};
ghost use Rattle.mw_session.specs.Tallies.{IsCounted};

use crate::answer::{ScriptHandler, Teller};
use crate::budget::{Budget, Means};
use crate::tally::Tally;
use mw_core_waves::{Core, Crew, Pick};
use mw_model::End;
use mw_session_fetch::wire::{SessionFault, Sink, Source, run_session};
use std::io::{Read, Write};
use std::thread::Threads;

/// Serves a script: reads to the end, to QUIT or to a fault, and writes what is answered. Before each STATUS, FETCH and
/// WAIT all work is run by the crew, in the order of the picks, and nothing else runs work. Want of memory is `ERR 50 MEMORY` for
/// that request, and ends the session where a line or a payload is gathered.
///
/// A session makes at most `READ_LIMIT` reads, and makes one again that was interrupted.
pub fn run_script<R: Read, W: Write, P: Pick, T: Threads + Sync>(
    crew: Crew<T>,
    source: &mut Source<R>,
    sink: &mut Sink<W>,
    core: &mut Core,
    pick: &mut P,
) -> Result<End, SessionFault>
    requires source_fresh { IsUnread source.old.failed source.old.reads }
    requires sink_clear { sink.old.failed ≡ false }
    requires idle { running_count core.old ≡ 0 }
    // What was written is the script of the bytes that were read, or what a fault left of it, and the core stands for the state after it.
    ensures ran { (m : Machine) → StandsFor core.old m
        → SessionRan m core.old core.new (R.remaining source.old.inner) (R.remaining source.new.inner) (W.contents sink.old.inner) (W.contents sink.new.inner) result }
    ensures failures { TellsFailures source.new.failed source.new.reads sink.new.failed result }
{
    let budget = Budget::unbounded();
    let means = Means { crew, budget };
    let mut clerk = ScriptHandler { means, pick };
    run_session(crew.alloc, source, sink, &mut clerk, core)
}

/// Serves a script as `run_script` does. Behind an end the tally has the number of the line behind what was answered, of the
/// lines of requests, and whether a reply was a refusal. What would take more memory than the tally says is refused as where there
/// is none.
pub fn run_counted<R: Read, W: Write, P: Pick, T: Threads + Sync>(
    crew: Crew<T>,
    source: &mut Source<R>,
    sink: &mut Sink<W>,
    tally: &mut Tally,
    pick: &mut P,
) -> Result<End, SessionFault>
    requires source_fresh { IsUnread source.old.failed source.old.reads }
    requires sink_clear { sink.old.failed ≡ false }
    requires idle { running_count tally.old.core ≡ 0 }
    requires first { tally.old.line ≡ 1 }
    requires clear { tally.old.refused ≡ false }
    // What was written is the script of the bytes that were read, or what a fault left of it, and the core stands for the state after it. Behind an end the tally counts what was answered.
    ensures ran { (m : Machine) → StandsFor tally.old.core m
        → (s : SessionRan m tally.old.core tally.new.core (R.remaining source.old.inner) (R.remaining source.new.inner) (W.contents sink.old.inner) (W.contents sink.new.inner) result) × IsCounted result s tally.new }
    // What the budget has taken goes on being all that the core is counted as, and goes on being within the bound, but for the items of the log.
    ensures keeps { KeepsCount tally.old.core tally.old.budget tally.new.core tally.new.budget }
    ensures failures { TellsFailures source.new.failed source.new.reads sink.new.failed result }
{
    let budget = tally.budget;
    let means = Means { crew, budget };
    let mut teller = Teller { means, pick };
    run_session(crew.alloc, source, sink, &mut teller, tally)
}
