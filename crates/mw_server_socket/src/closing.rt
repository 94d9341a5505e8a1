//! The end of a connection.

ghost use Rattle.std.specs.Prelude.{◌≤◌, ◌+◌};
ghost use Rattle.mw_model.specs.declared.limits.TheConstants.{READ_LIMIT};
ghost use Rattle.mw_server_socket.specs.Closings.{Drops, IsDone};

use mw_wire::Source;
use std::io::Read;
use std::net::{OpenStream, Shutdown};
use std::time::{Clock, Duration, Instant};

/// How many bytes are read at a time of what comes behind the end of a session, and how often at most: together they are
/// more than the longest payload.
const LAST_READ: usize = 16384;

const LAST_READS: u64 = 16384;

/// For how many seconds in all what a client sends behind the end of its session is waited for.
const LAST_WAIT: u64 = 1;

/// What is left of them, where the waiting began then: nothing where the clock fails.
fn time_left<C: Clock>(clock: &C, begun: Option<Instant>) -> Duration {
    let Some(begun) = begun else {
        return Duration::ZERO;
    };
    match begun.elapsed(clock) {
        Ok(spent) => Duration::from_secs(LAST_WAIT).saturating_sub(spent),
        Err(_) => Duration::ZERO,
    }
}

/// Bounds the next read by what is left of the time. Where nothing is left, the system gives out what has come still, and
/// then the end.
fn bound_next<S: OpenStream, C: Clock>(socket: &S, clock: &C, begun: Option<Instant>) {
    let left = time_left(clock, begun);
    let _bounded = if left.is_zero() {
        socket.shutdown(Shutdown::Read)
    } else {
        socket.set_read_timeout(Some(left))
    };
}

/// Reads what is left and drops it, up to its end, to a fault, or so many times. A read that was interrupted is made again.
fn drop_rest<S: OpenStream, R: Read, C: Clock>(
    clock: &C,
    begun: Option<Instant>,
    socket: &S,
    source: &mut Source<R>,
)
    requires few { source.old.reads ≤ READ_LIMIT }
    ensures dropped { Drops (R.remaining source.old.inner) (R.remaining source.new.inner) }
    ensures done { IsDone (R.remaining source.new.inner) source.new.failed (source.old.reads + 16384) source.new.reads }
{
    let mut dropped = [0u8; LAST_READ];
    let mut count = 0u64;
    'pieces: while count < LAST_READS {
        count += 1;
        bound_next(socket, clock, begun);
        match source.read(&mut dropped) {
            Ok(0) => return,
            Err(_) if source.failed() => return,
            _ => {}
        }
    }
}

/// Ends a connection whose session has ended: nothing more is sent, and what the client sent behind the end is read and
/// dropped, until it ends, for a second in all, or 16,384 times. The system breaks a connection off that is closed with bytes
/// unread, and the last replies could be lost with it.
pub fn finish<S: OpenStream, R: Read, C: Clock>(clock: &C, socket: &S, source: &mut Source<R>)
    requires few { source.old.reads ≤ READ_LIMIT }
    ensures dropped { Drops (R.remaining source.old.inner) (R.remaining source.new.inner) }
    ensures done { IsDone (R.remaining source.new.inner) source.new.failed (source.old.reads + 16384) source.new.reads }
{
    let _closed = socket.shutdown(Shutdown::Write);
    let begun = Instant::now(clock).ok();
    drop_rest(clock, begun, socket, source)
}
