//! Who waits for a session, where that is bounded.

use std::alloc::{AllocError, AllocFailed, Global};
use std::collections::VecDeque;
use std::net::TcpStream;
use std::sync::{Condvar, Mutex, Wait};

/// The connections that wait, the first one first; how many are inside, which wait or are served; and whether none is to come.
#[derive(Drop)]
struct Inside {
    waiting: VecDeque<TcpStream, Global>,
    count: usize,
    is_over: bool,
}

/// The connections that wait for a session. Who accepts them is never kept waiting.
#[derive(Drop)]
pub(crate) struct Queue {
    most: usize,
    inside: Mutex<Inside>,
    came: Condvar,
}

impl Queue {
    /// Room for so many connections that wait or are served.
    pub fn new(alloc: Global, most: usize) -> Result<Queue, AllocError> {
        let waiting = VecDeque::with_capacity(alloc, most)?;
        Ok(Queue {
            most,
            inside: Mutex::new(Inside {
                waiting,
                count: 0,
                is_over: false,
            }),
            came: Condvar::new(),
        })
    }

    /// Has a connection wait. Gives it back where there is no room.
    pub fn enter<R: Wait>(&self, rt: &R, stream: TcpStream) -> Option<TcpStream> {
        let mut inside = self.inside.lock(rt);
        if inside.is_over || inside.count >= self.most {
            return Some(stream);
        }
        if let Err(AllocFailed { value }) = inside.waiting.push_back(stream) {
            return Some(value);
        }
        inside.count = inside.count.saturating_add(1);
        self.came.notify_one();
        None
    }

    /// The connection that has waited longest, once there is one. None once none is to come.
    pub fn next<R: Wait>(&self, rt: &R) -> Option<TcpStream> {
        for _ in rt.forever() {
            let mut inside = self.inside.lock(rt);
            if inside.is_over {
                return None;
            }
            if let Some(stream) = inside.waiting.pop_front() {
                return Some(stream);
            }
            let _inside = self.came.wait(rt, inside);
        }
        None
    }

    /// A connection that waits still, when none is to come.
    pub fn rest<R: Wait>(&self, rt: &R) -> Option<TcpStream> {
        let mut inside = self.inside.lock(rt);
        inside.waiting.pop_front()
    }

    /// One connection that was served has ended.
    pub fn leave<R: Wait>(&self, rt: &R) {
        let mut inside = self.inside.lock(rt);
        inside.count = inside.count.saturating_sub(1);
    }

    /// Lets none in from now on, and wakes who waits for one.
    pub fn close<R: Wait>(&self, rt: &R) {
        let mut inside = self.inside.lock(rt);
        inside.is_over = true;
        self.came.notify_all();
    }
}
