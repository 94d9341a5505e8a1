//! A client while its session is served: whether it is there still, for how long the session has computed, and the wire by
//! which its bytes are counted.

ghost use Rattle.std.specs.Io.{ReadsAtMost, WritesAtMost};

use crate::counts::{Counts, count_bytes};
use crate::guests::Seated;
use crate::replies::Replies;
use crate::visitor::Visitor;
use std::io;
use std::io::{ErrorKind, Read, Write};
use std::net::TcpStream;
use std::sync::atomic::{AtomicU64, Ordering};
use std::time::{Clock, Duration, Instant};

/// A second, in nanoseconds.
const SECOND: u64 = 1_000_000_000;

/// How many nanoseconds pass before the socket is asked again whether its client has gone.
const ASKED_EVERY: u64 = 20_000_000;

/// A client whose session is served. All times are in nanoseconds: how long the session may compute, how long it has, and up
/// to when, since it began, that is reckoned.
#[derive(Drop)]
pub(crate) struct Visit<'g, C> {
    guest: &'g Seated,
    clock: &'g C,
    counts: &'g Counts,
    begun: Option<Instant>,
    longest: Option<u64>,
    computed: AtomicU64,
    looked: AtomicU64,
}

/// These nanoseconds, or as many as there may be.
fn nanoseconds(time: Duration) -> u64 {
    let seconds = time.as_secs().saturating_mul(SECOND);
    seconds.saturating_add(u64::from(time.subsec_nanos()))
}

impl<'g, C: Clock> Visit<'g, C> {
    /// A client whose session begins now, and may compute for so many seconds.
    pub fn new(
        guest: &'g Seated,
        clock: &'g C,
        counts: &'g Counts,
        longest: Option<u32>,
    ) -> Visit<'g, C> {
        Visit {
            guest,
            clock,
            counts,
            begun: Instant::now(clock).ok(),
            longest: match longest {
                Some(seconds) => Some(u64::from(seconds).saturating_mul(SECOND)),
                None => None,
            },
            computed: AtomicU64::new(0),
            looked: AtomicU64::new(0),
        }
    }

    /// The time since the session began; 0 where the clock fails.
    fn now(&self) -> u64 {
        let Some(begun) = self.begun else {
            return 0;
        };
        match begun.elapsed(self.clock) {
            Ok(time) => nanoseconds(time),
            Err(_) => 0,
        }
    }

    /// Reckons what was computed up to now, and ends the session where that is over its time.
    fn reckon(&self, now: u64) {
        let more = now.saturating_sub(self.looked.load(Ordering::SeqCst));
        self.looked.store(now, Ordering::SeqCst);
        self.counts.computed.fetch_add(more, Ordering::SeqCst);
        let computed = self.computed.load(Ordering::SeqCst).saturating_add(more);
        self.computed.store(computed, Ordering::SeqCst);
        if let Some(longest) = self.longest {
            if computed > longest {
                self.guest.end();
            }
        }
    }

    /// The session begins to wait for its client.
    fn begin_to_wait(&self) {
        self.reckon(self.now());
    }

    /// The session has waited.
    fn end_waiting(&self) {
        self.looked.store(self.now(), Ordering::SeqCst);
    }
}

/// Whether the other end of a connection has broken it off. One that has only closed its own way may wait for replies.
fn has_gone(stream: &TcpStream) -> bool {
    matches!(stream.take_error(), Ok(Some(_)))
}

impl<C: Clock> Visitor for Visit<'_, C> {
    type Socket = TcpStream;

    fn socket(&self) -> &TcpStream {
        &self.guest.stream
    }

    fn is_wanted(&self) -> bool {
        if self.guest.is_over() {
            return false;
        }
        let now = self.now();
        if now.saturating_sub(self.looked.load(Ordering::SeqCst)) < ASKED_EVERY {
            return true;
        }
        self.reckon(now);
        if has_gone(&self.guest.stream) {
            self.guest.end();
        }
        !self.guest.is_over()
    }
}

/// Writes to a connection. A wait for room that was too long is tried once more: the system wakes who waits only where much
/// room has come.
fn write_patiently(stream: &TcpStream, buf: &[u8]) -> io::Result<usize>
    ensures { WritesAtMost result buf.now }
{
    let mut stream = stream;
    match stream.write(buf) {
        Err(error) if error.kind() == ErrorKind::WouldBlock => stream.write(buf),
        passed => passed,
    }
}

/// What a client sends. Once its session is over, reading fails.
#[derive(Drop)]
pub(crate) struct Incoming<'v, C> {
    pub visit: &'v Visit<'v, C>,
}

impl<C: Clock> Read for Incoming<'_, C> {
    fn read(&mut self, buf: &mut [u8]) -> io::Result<usize> {
        self.visit.begin_to_wait();
        if self.visit.guest.is_over() {
            return Err(io::Error::from(ErrorKind::ConnectionAborted));
        }
        let mut stream = &self.visit.guest.stream;
        let passed = stream.read(buf);
        self.visit.end_waiting();
        count_bytes(&self.visit.counts.read, &passed);
        passed
    }
}

/// What is written to a client.
#[derive(Drop)]
pub(crate) struct Outgoing<'v, C> {
    pub visit: &'v Visit<'v, C>,
    pub replies: Replies,
}

impl<C: Clock> Write for Outgoing<'_, C> {
    fn write(&mut self, buf: &[u8]) -> io::Result<usize> {
        self.visit.begin_to_wait();
        let passed = write_patiently(&self.visit.guest.stream, buf);
        self.visit.end_waiting();
        count_bytes(&self.visit.counts.written, &passed);
        if let Ok(count) = &passed {
            self.replies.look_at(&buf[..*count], self.visit.counts);
        }
        passed
    }

    fn flush(&mut self) -> io::Result<()> {
        Ok(())
    }
}
