//! A reader that remembers whether it failed, and how a piece is read from it.

ghost use Rattle.std.specs.Prelude.{◌≡◌, ◌≤◌, ◌<◌, ◌+◌, ◌⊎◌, ◌||◌, min, take, length, true, false, OnOk, OnErr, IfOk};
ghost use Rattle.std.specs.Io.KnownBytes.{Consumes, Keeps, IsAtEnd, ReadConsumes};
ghost use Rattle.std.specs.Io.{ReadsAtMost};
ghost use Rattle.mw_wire.specs.Faults.{has_failed};

use crate::fault::SessionFault;
use mw_model::READ_LIMIT;
use std::io;
use std::io::{ErrorKind, Read};

/// A reader that remembers whether a read failed, and how many there were. A read that was interrupted has not failed.
#[derive(Drop)]
pub struct Source<R> {
    inner: R,
    failed: bool,
    reads: u64,
}

impl<R: Read> Source<R> {
    /// A reader that has not failed yet.
    pub fn new(inner: R) -> Source<R>
        ensures inner { result.inner ≡ inner }
        ensures clear { result.failed ≡ false }
        ensures none { result.reads ≡ 0 }
    {
        Source {
            inner,
            failed: false,
            reads: 0,
        }
    }

    /// Whether a read failed.
    pub fn failed(&self) -> bool
        ensures { result ≡ self.now.failed }
    {
        self.failed
    }

    /// How many reads there were.
    pub fn reads(&self) -> u64
        ensures { result ≡ self.now.reads }
    {
        self.reads
    }
}

impl<R: Read> Read for Source<R> {
    ghost remaining = { λ s. R.remaining s.inner };

    fn read(&mut self, buf: &mut [u8]) -> io::Result<usize>
        ensures bound { ReadsAtMost result buf.new }
        ensures bytes { ReadConsumes (R.remaining self.old.inner) (R.remaining self.new.inner) result buf.new }
        ensures flag { self.new.failed ≡ (self.old.failed || has_failed result) }
        ensures counted { self.new.reads ≡ min (self.old.reads + 1) u64.MAX }
    {
        self.reads = self.reads.saturating_add(1);
        let result = self.inner.read(buf);
        if let Err(error) = &result {
            if error.kind() != ErrorKind::Interrupted {
                self.failed = true;
            }
        }
        result
    }
}

/// Reads a piece to the front of the buffer, and says how long it is: 0 only at the end. A read that was interrupted is
/// made again. `Err` where a read failed, or where `READ_LIMIT` reads were made.
pub fn receive<R: Read>(source: &mut Source<R>, buffer: &mut [u8]) -> Result<usize, SessionFault>
    requires room { 0 < length buffer.old }
    requires few { source.old.reads ≤ READ_LIMIT }
    ensures bound { IfOk result (λ n. n ≤ length buffer.new) }
    ensures ok { IfOk result (λ n. Consumes (R.remaining source.old.inner) (R.remaining source.new.inner) (take n buffer.new)) }
    ensures end { IfOk result (λ n. n ≡ 0 → IsAtEnd (R.remaining source.new.inner)) }
    ensures err { OnErr result (Keeps (R.remaining source.old.inner) (R.remaining source.new.inner)) }
    ensures kept { OnOk result (source.new.failed ≡ source.old.failed) }
    ensures counted { OnOk result (source.old.reads < source.new.reads) }
    ensures few_reads { source.new.reads ≤ READ_LIMIT }
    ensures fault { OnErr result ((result ≡ Err SessionFault.Read) × ((source.new.failed ≡ true) ⊎ (source.new.reads ≡ READ_LIMIT))) }
{
    'tries: while source.reads < READ_LIMIT {
        match source.read(buffer) {
            Ok(n) => return Ok(n),
            Err(_) if source.failed => return Err(SessionFault::Read),
            // It was interrupted.
            Err(_) => {}
        }
    }
    Err(SessionFault::Read)
}
