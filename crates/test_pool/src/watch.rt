//! How long the tests wait, in milliseconds.

use crate::scenes::{Scene, play};
use mw_pool::{Board, Naming};
use std::alloc::Global;
use std::process::Abort;
use std::sync::Wait;
use std::sync::atomic::{AtomicBool, AtomicU64, Ordering};
use std::thread;
use std::thread::Threads;
use std::time::{Clock, Duration};

/// A test that takes longer than this has lost a waking.
const LIMIT: u32 = 40_000;

/// How long a gate waits for others.
const PATIENCE: u32 = 8000;

/// How long a thread has to fall asleep. One that takes longer finds its work without being woken.
const FALLS_ASLEEP: u64 = 50;

/// Ends the process where what it watches does not end in time.
#[derive(Drop)]
struct Watch {
    is_over: AtomicBool,
}

impl Watch {
    fn keep<R: Clock + Abort>(&self, rt: &R) {
        for _ in 0..LIMIT {
            if self.is_over.load(Ordering::SeqCst) {
                return;
            }
            thread::sleep(rt, Duration::from_millis(1));
        }
        panic!(rt; "a waking was lost");
    }

    fn ends(&self, (): ()) {
        self.is_over.store(true, Ordering::SeqCst);
    }
}

/// Plays a scene within the limit, in this thread beside one that watches. Where that thread finds no memory, it is played first,
/// unwatched.
pub(crate) fn watched<R: Threads + Wait + Clock + Abort + Sync, J: Naming + Send + Sync>(
    rt: &R,
    alloc: Global,
    board: &Board<J>,
    scene: Scene,
) {
    let watch = Watch {
        is_over: AtomicBool::new(false),
    };
    thread::join(
        rt,
        || watch.keep(rt),
        || watch.ends(play(rt, alloc, board, scene)),
    );
}

/// Waits until others sleep.
pub(crate) fn let_sleep<C: Clock>(clock: &C) {
    thread::sleep(clock, Duration::from_millis(FALLS_ASLEEP));
}

/// Waits until so much is counted, and says whether it was in time.
pub(crate) fn comes_to<C: Clock>(clock: &C, counter: &AtomicU64, wanted: u64) -> bool {
    for _ in 0..PATIENCE {
        if counter.load(Ordering::SeqCst) >= wanted {
            return true;
        }
        thread::sleep(clock, Duration::from_millis(1));
    }
    false
}
