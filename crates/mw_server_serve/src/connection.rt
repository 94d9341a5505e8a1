//! One connection: a session that begins with nothing and leaves nothing.

ghost use Rattle.std.specs.Prelude.{◌≡◌, ◌≤◌, ◌+◌, None, IfSome, IfNone, true, false};
ghost use Rattle.std.specs.Io.Buffered.{writer_contents};
ghost use Rattle.mw_model.specs.declared.limits.TheConstants.{READ_LIMIT};
ghost use Rattle.mw_batch.specs.Batches.{IsSideAsked, SessionEnds};
ghost use Rattle.mw_server_serve.specs.Services.{ServedAlone, IsTaken, Conversed, Connected};
ghost use Rattle.mw_server_socket.specs.Closings.{Drops, IsDone};
ghost use Rattle.mw_server_socket.specs.mw_wire.Failures.{IsUnread};

use crate::visitor::{Guarded, Turns, Visitor};
use mw_batch::{Crew, Pick, watched_batch};
use mw_server_socket::wire::{Sink, Source};
use mw_server_socket::{finish, prepare};
use std::alloc::Global;
use std::io;
use std::io::{BufWriter, Read, Write};
use std::net::OpenStream;
use std::sync::atomic::AtomicBool;
use std::thread::Threads;
use std::time::Clock;

/// How many bytes of replies may wait for those behind them, so that they go out in one write.
pub(crate) const HELD: usize = 65536;

/// What bounds a session: the side of its tiles in pixels, how many seconds it waits for its client, and how many MiB it may
/// take; none for any time and for all memory.
#[derive(Clone, Copy, Debug, PartialEq, Eq)]
pub struct Limits {
    pub side: u32,
    pub idle: Option<u32>,
    pub memory: Option<u32>,
}

/// Serves one connection as a batch, on a core of its own, with its work in the order of the picks as long as it is wanted,
/// and gives the exit status that the batch has. Nobody is told of a fault.
pub fn serve_one<R: Read, W: Write, P: Pick, T: Threads + Sync>(
    crew: Crew<T>,
    source: &mut Source<R>,
    sink: &mut Sink<W>,
    limits: Limits,
    pick: &mut P,
) -> u8
    requires side { IsSideAsked limits.side }
    requires source_fresh { IsUnread source.old.failed source.old.reads }
    requires sink_clear { sink.old.failed ≡ false }
    ensures { let old : SessionEnds = record { left = R.remaining source.old.inner; reads = source.old.reads; read_failed = source.old.failed; written = W.contents sink.old.inner; write_failed = sink.old.failed; told = None; tell_failed = false } in
        let new : SessionEnds = record { left = R.remaining source.new.inner; reads = source.new.reads; read_failed = source.new.failed; written = W.contents sink.new.inner; write_failed = sink.new.failed; told = None; tell_failed = false } in
        ServedAlone old new result }
{
    let mut faults = Sink::new(io::sink());
    watched_batch(
        crew,
        source,
        sink,
        &mut faults,
        limits.side,
        limits.memory,
        pick,
    )
}

/// Has the writer take what is held still. Gives it back, and whether it has taken all. What it has not taken is dropped: a
/// writer that failed is not waited for once more.
fn hand_over<W: Write + Drop>(sink: Sink<Guarded<'_, BufWriter<W, Global>>>) -> (W, bool)
    ensures { IsTaken (writer_contents W.contents sink.entry.inner.inner) (W.contents result.0) result.1 }
{
    let has_failed = sink.failed();
    let Guarded {
        inner: mut buffered,
        is_over: _,
    } = sink.into_inner();
    let has_taken = !has_failed && buffered.flush().is_ok();
    let (writer, _untaken) = buffered.into_parts();
    (writer, has_taken)
}

/// Serves one session between these ends, as long as the visitor wants it. Gives the writer back, and whether it has taken all
/// replies.
fn converse<V: Visitor, R: Read, W: Write + Drop, T: Threads + Sync>(
    crew: Crew<T>,
    visitor: &V,
    source: &mut Source<R>,
    writer: BufWriter<W, Global>,
    limits: Limits,
) -> (W, bool)
    requires side { IsSideAsked limits.side }
    requires source_fresh { IsUnread source.old.failed source.old.reads }
    ensures served { Conversed (R.remaining source.old.inner) (R.remaining source.new.inner) (writer_contents W.contents writer) (W.contents result.0) result.1 }
    ensures few { source.new.reads ≤ READ_LIMIT }
{
    let is_over = AtomicBool::new(false);
    let mut sink = Sink::new(Guarded {
        inner: writer,
        is_over: &is_over,
    });
    let mut turns = Turns {
        visitor,
        is_over: &is_over,
    };
    let _status = serve_one(crew, source, &mut sink, limits, &mut turns);
    hand_over(sink)
}

/// Ends a connection, of which this is the socket and the reader: what comes behind its session is read and dropped. A session that
/// was cut leaves unread what has come, so the system tells its client by a reset.
#[tactic(auto, using(crate::proofs::Parting::drops_nothing))]
fn part<S: OpenStream, R: Read, C: Clock>(clock: &C, socket: &S, source: &mut Source<R>)
    requires few { source.old.reads ≤ READ_LIMIT }
    ensures dropped { Drops (R.remaining source.old.inner) (R.remaining source.new.inner) }
    ensures done { IsDone (R.remaining source.new.inner) source.new.failed (source.old.reads + 16384) source.new.reads }
{
    if !source.failed() {
        finish(clock, socket, source);
    }
}

/// Serves the connection of a visitor, of which these are the reader and the writer, as one session, which is cut where it is
/// wanted no more. Gives the writer back, and whether it has taken all replies; where it has, and reading did not fail, what
/// comes behind the end of the session is read and dropped. None where waiting cannot be bounded, or where there is no memory
/// to hold replies: then nothing is read or written.
pub fn serve_connection<V: Visitor, R: Read, W: Write + Drop, T: Threads + Clock + Sync>(
    crew: Crew<T>,
    visitor: &V,
    source: &mut Source<R>,
    writer: W,
    limits: Limits,
) -> Option<(W, bool)>
    requires side { IsSideAsked limits.side }
    requires source_fresh { IsUnread source.old.failed source.old.reads }
    ensures served { IfSome result (λ r. Connected (R.remaining source.old.inner) (R.remaining source.new.inner) (W.contents writer) (W.contents r.0) r.1) }
    ensures done { IfSome result (λ r. r.1 ≡ true → IsDone (R.remaining source.new.inner) source.new.failed 16384 source.new.reads) }
    ensures none { IfNone result (source.new ≡ source.old) }
{
    if !prepare(visitor.socket(), limits.idle) {
        return None;
    }
    let Ok(buffered) = BufWriter::with_capacity(crew.alloc, HELD, writer) else {
        return None;
    };
    let (writer, has_taken) = converse(crew, visitor, source, buffered, limits);
    if has_taken {
        part(crew.rt, visitor.socket(), source);
    }
    Some((writer, has_taken))
}
