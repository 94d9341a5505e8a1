//! The client of a session, as long as the session is wanted.

use mw_batch::Pick;
use std::io;
use std::io::{ErrorKind, Write};
use std::net::OpenStream;
use std::sync::atomic::{AtomicBool, Ordering};

/// The client of a session: its socket, and whether the session is wanted still.
pub trait Visitor {
    type Socket: OpenStream;

    fn socket(&self) -> &Self::Socket;

    /// Whether the session is to go on: its client has not gone, and its time is not over. It is asked before each task, so
    /// it is to be quick. Any answer is right.
    fn is_wanted(&self) -> bool;
}

/// Takes the ready task that came first, until the visitor says once that the session is wanted no more.
#[derive(Drop)]
pub(crate) struct Turns<'v, V> {
    pub visitor: &'v V,
    pub is_over: &'v AtomicBool,
}

impl<V: Visitor> Pick for Turns<'_, V> {
    ghost place = { λ s n. 0 };

    fn pick(&mut self, _count: u64) -> u64 {
        0
    }

    fn is_wanted(&mut self) -> bool {
        if self.is_over.load(Ordering::SeqCst) {
            return false;
        }
        let is_wanted = self.visitor.is_wanted();
        if !is_wanted {
            self.is_over.store(true, Ordering::SeqCst);
        }
        is_wanted
    }
}

/// A writer that takes no reply from then on: tasks were refused, and what is answered is no result of them.
#[derive(Drop)]
pub(crate) struct Guarded<'v, W> {
    pub inner: W,
    pub is_over: &'v AtomicBool,
}

impl<W: Write> Write for Guarded<'_, W> {
    ghost contents = { λ s. W.contents s.inner };

    fn write(&mut self, buf: &[u8]) -> io::Result<usize> {
        if self.is_over.load(Ordering::SeqCst) {
            return Err(io::Error::from(ErrorKind::ConnectionAborted));
        }
        self.inner.write(buf)
    }

    fn flush(&mut self) -> io::Result<()> {
        self.inner.flush()
    }
}
