//! How many sessions may run at once.

use std::sync::{Condvar, Mutex, Wait};
use std::time::{Clock, Duration};

/// The seats that are free, and the wait for one. Who serves a session has a seat, and gives it back when the session ends.
#[derive(Drop)]
pub(crate) struct Seats {
    all: usize,
    free: Mutex<usize>,
    given: Condvar,
}

impl Seats {
    /// So many seats, all of them free.
    pub fn new(all: usize) -> Seats {
        Seats {
            all,
            free: Mutex::new(all),
            given: Condvar::new(),
        }
    }

    /// Takes a seat, once one is free.
    pub fn take<R: Wait>(&self, rt: &R) {
        for _ in rt.forever() {
            let mut free = self.free.lock(rt);
            if *free > 0 {
                *free -= 1;
                return;
            }
            let _free = self.given.wait(rt, free);
        }
    }

    /// Gives a seat back, and wakes who waits for one, or for all.
    pub fn give<R: Wait>(&self, rt: &R) {
        let mut free = self.free.lock(rt);
        *free = free.saturating_add(1);
        self.given.notify_all();
    }

    /// Waits until all seats are free, but no longer than so many seconds.
    pub fn wait_for_all<R: Wait + Clock>(&self, rt: &R, seconds: u32) {
        let longest = Duration::from_secs(u64::from(seconds));
        let all = self.all;
        let free = self.free.lock(rt);
        let _ended = self
            .given
            .wait_timeout_while(rt, free, longest, |free| *free < all);
    }
}
