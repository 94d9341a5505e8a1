//! What a service counts.

use std::alloc::{AllocError, Global};
use std::io;
use std::sync::atomic::{AtomicU64, Ordering};

/// Refusals have numbers below this.
const NUMBERS: usize = 64;

/// How many sessions began, how many of them ended, how many clients were turned away, how many requests were answered, how
/// often each number of a refusal was, how many bytes were read of sessions' clients and written to them, and for how many
/// nanoseconds sessions computed.
#[derive(Drop)]
pub(crate) struct Counts {
    pub begun: AtomicU64,
    pub ended: AtomicU64,
    pub turned_away: AtomicU64,
    pub answered: AtomicU64,
    pub refused: Vec<AtomicU64>,
    pub read: AtomicU64,
    pub written: AtomicU64,
    pub computed: AtomicU64,
}

impl Counts {
    /// Nothing is counted yet.
    pub fn new(alloc: Global) -> Result<Counts, AllocError> {
        let mut refused = Vec::with_capacity(alloc, NUMBERS)?;
        for _ in 0..NUMBERS {
            refused.push(AtomicU64::new(0))?;
        }
        Ok(Counts {
            begun: AtomicU64::new(0),
            ended: AtomicU64::new(0),
            turned_away: AtomicU64::new(0),
            answered: AtomicU64::new(0),
            refused,
            read: AtomicU64::new(0),
            written: AtomicU64::new(0),
            computed: AtomicU64::new(0),
        })
    }
}

/// One more.
pub(crate) fn count(counter: &AtomicU64) {
    counter.fetch_add(1, Ordering::SeqCst);
}

/// Adds the bytes that a read or a write passed on.
pub(crate) fn count_bytes(counter: &AtomicU64, passed: &io::Result<usize>) {
    if let Ok(bytes) = passed {
        counter.fetch_add(*bytes as u64, Ordering::SeqCst);
    }
}
