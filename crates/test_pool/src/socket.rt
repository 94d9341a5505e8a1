//! A socket that does nothing, and notes what is asked of it.

use std::cell::Cell;
use std::io;
use std::net::{OpenStream, Shutdown};
use std::time::Duration;

/// Which call of a socket fails.
#[derive(Clone, Copy, Debug, PartialEq, Eq, Drop)]
pub(crate) enum Fails {
    Nothing,
    Delay,
    Reads,
    Writes,
}

/// What was asked: to send without delay, and how many milliseconds a read and a write wait.
#[derive(Drop)]
pub(crate) struct Noted {
    pub fails: Fails,
    pub quick: Cell<bool>,
    pub reads: Cell<u64>,
    pub writes: Cell<u64>,
}

/// A wait that nobody bounds.
pub(crate) const FOR_EVER: u64 = u64::MAX;

impl Noted {
    pub fn new(fails: Fails) -> Noted {
        Noted {
            fails,
            quick: Cell::new(false),
            reads: Cell::new(FOR_EVER),
            writes: Cell::new(FOR_EVER),
        }
    }

    /// Fails if this is the call that does.
    fn or_fail(&self, call: Fails) -> io::Result<()> {
        if self.fails == call {
            return Err(io::Error::from(io::ErrorKind::Other));
        }
        Ok(())
    }
}

/// Milliseconds, which a second has a thousand of.
fn millis(wait: Option<Duration>) -> u64 {
    match wait {
        Some(wait) => u64::try_from(wait.as_millis()).unwrap_or(FOR_EVER),
        None => FOR_EVER,
    }
}

impl OpenStream for Noted {
    fn shutdown(&self, _how: Shutdown) -> io::Result<()> {
        Ok(())
    }

    fn set_nodelay(&self, nodelay: bool) -> io::Result<()> {
        self.or_fail(Fails::Delay)?;
        self.quick.set(nodelay);
        Ok(())
    }

    fn set_read_timeout(&self, wait: Option<Duration>) -> io::Result<()> {
        self.or_fail(Fails::Reads)?;
        self.reads.set(millis(wait));
        Ok(())
    }

    fn set_write_timeout(&self, wait: Option<Duration>) -> io::Result<()> {
        self.or_fail(Fails::Writes)?;
        self.writes.set(millis(wait));
        Ok(())
    }
}
