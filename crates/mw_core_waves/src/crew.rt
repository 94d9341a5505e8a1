//! Who runs the work.

ghost use Rattle.std.specs.Prelude.{◌≤◌};

use crate::job::WaveTask;
use crate::worth::{least_task_bytes, threads_for};
use std::alloc::{AllocError, Global};

/// How many bytes the tasks of a wave make for each worker, and take themselves. They are held until they are handed back. Fewer
/// would start threads anew more often than the tasks are worth; of more, the first wave is taken and the last handed back
/// while the others wait.
const BYTES_PER_WORKER: u64 = 2 << 20;

/// Never fewer tasks than this for each worker, so that those that take longer are made up for by others.
const LEAST_PER_WORKER: u64 = 8;

/// Who runs the work: the allocator, the handle that starts threads, and how many of them may run at once, the one that
/// has the core among them. No worker counts as one.
pub struct Crew<'r, T> {
    pub alloc: Global,
    pub rt: &'r T,
    pub workers: usize,
}

/// How large a wave is: it has `most` tasks at most, and once it has `least`, it ends where they hold so many bytes.
#[derive(Clone, Copy)]
pub(crate) struct WaveSize {
    pub most: usize,
    pub least: usize,
    pub bytes: u64,
}

/// The most tasks that are taken for each worker, where they make tiles of this side: as many as there may be of sets.
fn per_worker(side: u32) -> usize
    ensures { 1 ≤ result }
{
    (BYTES_PER_WORKER / least_task_bytes(side)).max(LEAST_PER_WORKER) as usize
}

impl<T> Copy for Crew<'_, T> {}

impl<T> Clone for Crew<'_, T> {
    ghost use Rattle.std.specs.Prelude.{◌≡◌, ⊤};

    ghost is_clone = { λ x y. y ≡ x };

    ghost is_infallible = { λ _. ⊤ };

    fn clone(&self) -> Result<Self, AllocError> {
        Ok(*self)
    }
}

impl<T> Crew<'_, T> {
    ghost use Rattle.std.specs.Prelude.{◌≤◌};

    /// The most tasks that are taken at once, where they make tiles of this side.
    pub(crate) fn wave(self, side: u32) -> usize
        ensures { self.entry.workers ≤ result }
    {
        self.workers.saturating_mul(per_worker(side))
    }

    /// How much is taken at once, where tasks make tiles of this side.
    pub(crate) fn wave_size(self, side: u32) -> WaveSize {
        WaveSize {
            most: self.wave(side),
            least: self.workers.saturating_mul(LEAST_PER_WORKER as usize),
            bytes: BYTES_PER_WORKER.saturating_mul(self.workers as u64),
        }
    }

    /// How many threads are started for the tasks of a wave, beside the one who has the core: none for a single one.
    pub(crate) fn others(self, jobs: &[WaveTask]) -> usize {
        if jobs.len() < 2 {
            return 0;
        }
        threads_for(jobs, self.workers.saturating_sub(1).min(jobs.len()))
    }
}
