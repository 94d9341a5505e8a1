//! A writer that remembers whether it failed, and how all of a text is written to it.

ghost use Rattle.std.specs.Prelude.{◌≡◌, ◌<◌, ◌||◌, is_err, true, false, MatchResult};
ghost use Rattle.std.specs.Io.KnownBytes.{Keeps, WriteAppends};
ghost use Rattle.mw_wire.specs.Failures.{RemembersFailure};
ghost use Rattle.mw_wire.specs.Writes.{Wrote};
ghost use Rattle.std.specs.Io.{WritesAtMost};

use crate::fault::SessionFault;
use std::io;
use std::io::Write;

/// A writer that remembers whether a write failed or took nothing.
#[derive(Drop)]
pub struct Sink<W> {
    inner: W,
    failed: bool,
}

impl<W: Write> Sink<W> {
    /// A writer that has not failed yet.
    pub fn new(inner: W) -> Sink<W>
        ensures inner { result.inner ≡ inner }
        ensures clear { result.failed ≡ false }
    {
        Sink {
            inner,
            failed: false,
        }
    }

    /// Whether a write or a flush failed.
    pub fn failed(&self) -> bool
        ensures { result ≡ self.now.failed }
    {
        self.failed
    }

    /// The writer alone.
    pub fn into_inner(self) -> W
        ensures { result ≡ self.inner }
    {
        let Sink { inner, failed: _ } = self;
        inner
    }
}

impl<W: Write> Write for Sink<W> {
    ghost contents = { λ s. W.contents s.inner };

    fn write(&mut self, buf: &[u8]) -> io::Result<usize>
        ensures bound { WritesAtMost result buf.now }
        ensures bytes { WriteAppends (W.contents self.old.inner) (W.contents self.new.inner) result buf.now }
        ensures flag { MatchResult result (λ n. (0 < n → self.new.failed ≡ self.old.failed) × (n ≡ 0 → self.new.failed ≡ true)) (λ _. self.new.failed ≡ true) }
    {
        let result = self.inner.write(buf);
        match &result {
            Ok(n) if *n > 0 => {}
            _ => self.failed = true,
        }
        result
    }

    fn flush(&mut self) -> io::Result<()>
        ensures bytes { Keeps (W.contents self.old.inner) (W.contents self.new.inner) }
        ensures flag { self.new.failed ≡ (self.old.failed || is_err result) }
    {
        let result = self.inner.flush();
        if result.is_err() {
            self.failed = true;
        }
        result
    }
}

/// Has the writer pass on all that it still holds.
pub fn pass_on<W: Write>(sink: &mut Sink<W>) -> Result<(), SessionFault>
    ensures same_bytes { Keeps (W.contents sink.old.inner) (W.contents sink.new.inner) }
    ensures remembers { RemembersFailure sink.old.failed sink.new.failed result }
{
    match sink.flush() {
        Ok(()) => Ok(()),
        Err(_) => Err(SessionFault::Write),
    }
}

/// Writes all the bytes. At `Err` a front of them was written.
pub fn send<W: Write>(sink: &mut Sink<W>, bytes: &[u8]) -> Result<(), SessionFault>
    ensures wrote { Wrote (W.contents sink.old.inner) (W.contents sink.new.inner) bytes.now result }
    ensures remembers { RemembersFailure sink.old.failed sink.new.failed result }
{
    let mut at = 0;
    while at < bytes.len() {
        let (_, rest) = bytes.split_at(at);
        match sink.write(rest) {
            Ok(n) if n > 0 => at += n,
            _ => return Err(SessionFault::Write),
        }
    }
    Ok(())
}
