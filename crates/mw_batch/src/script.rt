//! A script from a reader to a writer, and what is told of its faults.

ghost use Rattle.std.specs.Prelude.{◌≡◌, ◌⊎◌, [], false};
ghost use Rattle.mw_model.specs.Machine.{start_state};
ghost use Rattle.mw_model.specs.Stands.{StandsFor, running_count};
ghost use Rattle.mw_session.specs.mw_wire.Failures.{IsUnread};
ghost use Rattle.mw_batch.specs.Batches.{HasReplied, IsSideAsked, Served, ServedStrictly, SessionEnds, Unserved, ends_of};

use crate::told::{end_line, strict_status};
use mw_session::wire::{Sink, Source, send, tell};
use mw_session::{Core, Crew, End, Pick, Tally, run_counted};
use std::io::{Read, Write};
use std::thread::Threads;

/// Takes the ready task that came first.
#[derive(Drop)]
struct First;

impl Pick for First {
    ghost place = { λ s n. 0 };

    fn pick(&mut self, _count: u64) -> u64 {
        0
    }

    fn is_wanted(&mut self) -> bool {
        true
    }
}

/// Runs a script on a core that has just been made, with its work in the order of the picks, and gives the exit status that a
/// batch has. Where that is 0, the tally tells whether a reply was a refusal.
fn run_on<R: Read, W: Write, F: Write, P: Pick, T: Threads + Sync>(
    crew: Crew<T>,
    source: &mut Source<R>,
    sink: &mut Sink<W>,
    faults: &mut Sink<F>,
    tally: &mut Tally,
    pick: &mut P,
) -> u8
    requires source_fresh { IsUnread source.old.failed source.old.reads }
    requires sink_clear { sink.old.failed ≡ false }
    requires stands { StandsFor tally.old.core start_state }
    requires idle { running_count tally.old.core ≡ 0 }
    requires log { tally.old.core.log ≡ [] }
    requires first { tally.old.line ≡ 1 }
    requires clear { tally.old.refused ≡ false }
    ensures { let old : SessionEnds = ends_of R.remaining W.contents F.contents source.old sink.old faults.old in
        let new : SessionEnds = ends_of R.remaining W.contents F.contents source.new sink.new faults.new in
        (served : Served old new result) × (result ≡ 0 → HasReplied served.turns served.state served.text tally.new.refused) }
{
    match run_counted(crew, source, sink, tally, pick) {
        Ok(End::Quit) => 0,
        Ok(End::Ended(code)) => {
            let _told = send(faults, end_line(tally.line, code).as_bytes());
            1
        }
        Err(fault) => {
            let _told = tell(faults, fault);
            1
        }
    }
}

/// Runs a script on a core of its own by this crew, with tiles of this side in pixels, or of sides that suit its elements where
/// it is 0, and gives the exit status: 0 after QUIT and at the end of the input between requests, and else 1. The line of a fault goes to `faults`: `error: input`,
/// `error: output`, or `error: memory` where there is none to begin with; and where a refusal ended the session, the number of
/// the line that did, of the lines of requests, and why.
pub fn batch<R: Read, W: Write, F: Write, T: Threads + Sync>(
    crew: Crew<T>,
    source: &mut Source<R>,
    sink: &mut Sink<W>,
    faults: &mut Sink<F>,
    side: u32,
) -> u8
    requires side { IsSideAsked side }
    requires source_fresh { IsUnread source.old.failed source.old.reads }
    requires sink_clear { sink.old.failed ≡ false }
    ensures { let old : SessionEnds = ends_of R.remaining W.contents F.contents source.old sink.old faults.old in
        let new : SessionEnds = ends_of R.remaining W.contents F.contents source.new sink.new faults.new in
        Served old new result ⊎ Unserved old new result }
{
    watched_batch(crew, source, sink, faults, side, None, &mut First)
}

/// Runs a script as `batch` does, with its work in the order of the picks, as long as it is wanted. What the writer takes
/// behind that is no result of its requests, so it is to take nothing more. Where memory is bounded, what would take the session over
/// so many MiB is refused as where there is no memory for it.
pub fn watched_batch<R: Read, W: Write, F: Write, P: Pick, T: Threads + Sync>(
    crew: Crew<T>,
    source: &mut Source<R>,
    sink: &mut Sink<W>,
    faults: &mut Sink<F>,
    side: u32,
    memory: Option<u32>,
    pick: &mut P,
) -> u8
    requires side { IsSideAsked side }
    requires source_fresh { IsUnread source.old.failed source.old.reads }
    requires sink_clear { sink.old.failed ≡ false }
    ensures { let old : SessionEnds = ends_of R.remaining W.contents F.contents source.old sink.old faults.old in
        let new : SessionEnds = ends_of R.remaining W.contents F.contents source.new sink.new faults.new in
        Served old new result ⊎ Unserved old new result }
{
    let Ok(core) = Core::new(crew.alloc, side) else {
        let _told = send(faults, b"error: memory\n");
        return 1;
    };
    let mut tally = Tally::within(core, memory);
    run_on(crew, source, sink, faults, &mut tally, pick)
}

/// Runs a script as `batch` does. The exit status is 3 in the place of 0 where a reply was a refusal.
pub fn strict_batch<R: Read, W: Write, F: Write, T: Threads + Sync>(
    crew: Crew<T>,
    source: &mut Source<R>,
    sink: &mut Sink<W>,
    faults: &mut Sink<F>,
    side: u32,
) -> u8
    requires side { IsSideAsked side }
    requires source_fresh { IsUnread source.old.failed source.old.reads }
    requires sink_clear { sink.old.failed ≡ false }
    ensures { let old : SessionEnds = ends_of R.remaining W.contents F.contents source.old sink.old faults.old in
        let new : SessionEnds = ends_of R.remaining W.contents F.contents source.new sink.new faults.new in
        ServedStrictly old new result ⊎ Unserved old new result }
{
    let Ok(core) = Core::new(crew.alloc, side) else {
        let _told = send(faults, b"error: memory\n");
        return 1;
    };
    let mut tally = Tally::new(core);
    let status = run_on(crew, source, sink, faults, &mut tally, &mut First);
    strict_status(status, tally.refused)
}
