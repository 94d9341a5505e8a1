//! The gate that computes the tasks of workers, and what threads tell one another by it.

use crate::watch::comes_to;
use mw_pool::Gate;
use mw_step_task::{TaskRefused, TileDone, Work};
use std::alloc::Global;
use std::sync::atomic::{AtomicU64, Ordering};
use std::time::Clock;

/// Of the scenes with more than one worker.
pub(crate) const WORKERS: u64 = 3;

/// How tasks go through the gate.
#[derive(Clone, Copy, PartialEq, Eq)]
pub(crate) enum Way {
    /// Each at once.
    Freely,
    /// Each is refused.
    Refused,
    /// Each 64th is refused.
    SomeRefused,
    /// The first is held until another one has ended.
    Overlapping,
    /// The first is held until all may go. Each other one is held until as many as there are workers, and one more, have begun.
    Together,
    /// Each is held until all may go.
    Held,
}

/// A gate, and what it counts.
#[derive(Drop)]
pub(crate) struct Door<'g, R> {
    rt: &'g R,
    alloc: Global,
    way: Way,
    /// How many tasks have begun, and how many ended.
    pub(crate) begun: AtomicU64,
    ended: AtomicU64,
    /// Whether all may go.
    pub(crate) open: AtomicU64,
    /// How many were held for others, and met them in time.
    pub(crate) met: AtomicU64,
    /// How many calls another session has made.
    pub(crate) asked: AtomicU64,
}

impl<'g, R: Clock> Door<'g, R> {
    pub(crate) fn new(rt: &'g R, alloc: Global, way: Way) -> Door<'g, R> {
        Door {
            rt,
            alloc,
            way,
            begun: AtomicU64::new(0),
            ended: AtomicU64::new(0),
            open: AtomicU64::new(0),
            met: AtomicU64::new(0),
            asked: AtomicU64::new(0),
        }
    }

    pub(crate) fn lets_all_go(&self) {
        self.open.store(1, Ordering::SeqCst);
    }

    fn refuses(&self, number: u64) -> bool {
        self.way == Way::Refused || self.way == Way::SomeRefused && number % 64 == 63
    }

    fn meets(&self, counter: &AtomicU64, wanted: u64) {
        if comes_to(self.rt, counter, wanted) {
            self.met.fetch_add(1, Ordering::SeqCst);
        }
    }

    /// Holds the task of this number.
    fn hold(&self, number: u64) {
        if self.way == Way::Overlapping && number == 0 {
            self.meets(&self.ended, 1);
        }
        if self.way == Way::Together && number > 0 {
            self.meets(&self.begun, WORKERS + 1);
        }
        if self.way == Way::Together && number == 0 || self.way == Way::Held {
            comes_to(self.rt, &self.open, 1);
        }
    }
}

impl<R: Clock> Gate for Door<'_, R> {
    fn compute(&self, work: Work) -> Result<TileDone, TaskRefused> {
        let number = self.begun.fetch_add(1, Ordering::SeqCst);
        if self.refuses(number) {
            return Err(TaskRefused::new(work));
        }
        self.hold(number);
        let done = mw_step::run(self.alloc, work);
        self.ended.fetch_add(1, Ordering::SeqCst);
        done
    }
}
