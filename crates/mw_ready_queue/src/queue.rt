//! The queue of open tasks. It keeps past which step no task is open: of a long plan few steps have open tasks at a time,
//! and the latest of them is found without a look at the lists behind it.

ghost use Rattle.std.specs.Prelude.{◌≡◌, ℕ, ◌+◌, ◌-◌, ◌*◌, ◌/◌, ◌<◌, ◌≤◌, ◌^◌, length, true, false, replicate, IfOk, slice_set, slice_index, vec_len, vec_capacity, List};

use mw_model::NoMemory;
use std::alloc::Global;
use std::marker::Model;

/// For how many others each task waits, and which tasks wait for none and were not started.
#[derive(Drop)]
pub struct Queue {
    tiles: u32,
    started: Vec<bool>,
    waiting: Vec<u32>,
    ready: Vec<Vec<u16>>,
    top: usize,
    total: u32,
}

impl Model for Queue {
    ghost use Rattle.mw_ready_queue.specs.Queues.{Queued, IsQueue, IsTop};
    ghost use Rattle.mw_ready_queue.specs.Shown.{queue_of, items_of, ListsHaveRoom};

    ghost Value = { Queued };

    ghost view = { λ a. queue_of a.started.items a.waiting.items a.tiles a.ready.items };

    ghost invariant = { λ a. IsQueue (queue_of a.started.items a.waiting.items a.tiles a.ready.items) a.total
        × ListsHaveRoom a.tiles a.ready.items
        × IsTop (items_of a.ready.items) a.top };
}

impl Queue {
    ghost use Rattle.mw_model.specs.Tasks.{flag};
    ghost use Rattle.mw_grid.specs.Counts.{count_below};
    ghost use Rattle.mw_ready_queue.specs.Queues.{is_open, list_at, order_of};

    /// How many tasks may be started.
    pub fn count(&self) -> u32
        ensures value { result ≡ count_below (is_open self.now.started self.now.waiting) (length self.now.waiting) }
        ensures order { result ≡ length (order_of self.now) }
    {
        self.total
    }

    /// Whether the task was started.
    pub fn is_started(&self, task: u32) -> bool
        requires { task < length self.now.waiting }
        ensures { result ≡ flag self.now.started task }
    {
        self.started[task as usize]
    }

    /// Where the task at this place of the order stands: its step, and its place in the list of the step.
    fn find(&self, place: u32) -> (usize, usize)
        requires { place < count_below (is_open self.now.started self.now.waiting) (length self.now.waiting) }
        ensures step { result.0 < length self.now.ready }
        ensures small { result.0 < 2 ^ 31 }
        ensures at { result.1 < length (list_at self.now.ready result.0) }
        ensures value { slice_index (order_of self.now) place ≡ result.0 * self.now.tiles + slice_index (list_at self.now.ready result.0) result.1 }
        ensures latest { place ≡ 0 → (s : ℕ) → result.0 < s → s < length self.now.ready → length (list_at self.now.ready s) ≡ 0 }
    {
        // for the number of open tasks
        let _total = self.count();
        let mut left = place as usize;
        let mut step = self.top;
        while step > 0 {
            step -= 1;
            let count = self.ready[step].len();
            if left < count {
                return (step, left);
            }
            left -= count;
        }
        unreachable!()
    }

    /// The open task at a place of the order: its step and its tile.
    pub fn task_at(&self, place: u32) -> (u32, u32)
        requires { place < count_below (is_open self.now.started self.now.waiting) (length self.now.waiting) }
        ensures value { slice_index (order_of self.now) place ≡ result.0 * self.now.tiles + result.1 }
        ensures tile { result.1 < self.now.tiles }
        ensures within { result.0 * self.now.tiles + result.1 < length self.now.waiting }
        ensures opened { is_open self.now.started self.now.waiting (result.0 * self.now.tiles + result.1) ≡ true }
        ensures latest { place ≡ 0 → (t : ℕ) → t < length self.now.waiting → is_open self.now.started self.now.waiting t ≡ true → t / self.now.tiles ≤ result.0 }
    {
        let (step, at) = self.find(place);
        (step as u32, u32::from(self.ready[step][at]))
    }

    /// Starts the open task at a place of the order.
    pub fn take(&mut self, place: u32) -> (u32, u32)
        requires { place < count_below (is_open self.old.started self.old.waiting) (length self.old.waiting) }
        ensures value { slice_index (order_of self.old) place ≡ result.0 * self.old.tiles + result.1 }
        ensures tile { result.1 < self.old.tiles }
        ensures within { result.0 * self.old.tiles + result.1 < length self.old.waiting }
        ensures opened { is_open self.old.started self.old.waiting (result.0 * self.old.tiles + result.1) ≡ true }
        ensures started { self.new.started ≡ slice_set self.old.started (result.0 * self.old.tiles + result.1) true }
        ensures waiting { self.new.waiting ≡ self.old.waiting }
        ensures tiles { self.new.tiles ≡ self.old.tiles }
    {
        let (step, at) = self.find(place);
        let tile = self.ready[step].swap_remove(at);
        let task = step * self.tiles as usize + tile as usize;
        self.started[task] = true;
        self.total -= 1;
        self.top = lowered(&self.ready, self.top);
        (step as u32, u32::from(tile))
    }

    /// One thing less that a task waits for.
    pub fn settle(&mut self, task: u32)
        requires within { task < length self.old.waiting }
        requires waits { 0 < slice_index self.old.waiting task }
        requires idle { flag self.old.started task ≡ false }
        ensures started { self.new.started ≡ self.old.started }
        ensures tiles { self.new.tiles ≡ self.old.tiles }
        ensures waiting { self.new.waiting ≡ slice_set self.old.waiting task (slice_index self.old.waiting task - 1) }
    {
        let left = self.waiting[task as usize] - 1;
        self.waiting[task as usize] = left;
        if left == 0 {
            let step = (task / self.tiles) as usize;
            let tile = task % self.tiles;
            self.ready[step].push_reserved(tile as u16);
            self.total += 1;
            self.top = self.top.max(step + 1);
        }
    }

    /// The queue on which nothing was started, of steps with so many tiles each, and for how many each task waits.
    ///
    /// # Errors
    ///
    /// `NoMemory`, where about three bytes more for each task are not to be had.
    pub fn new(
        alloc: Global,
        steps: usize,
        tiles: u32,
        waiting: Vec<u32>,
    ) -> Result<Queue, NoMemory>
        requires tiles { (1 ≤ tiles) × (tiles ≤ 16384) }
        requires whole { vec_len waiting ≡ steps * tiles }
        requires small { vec_len waiting < 2 ^ 31 }
        ensures started { IfOk result (λ q. q.started ≡ replicate (steps * tiles) false) }
        ensures waiting { IfOk result (λ q. q.waiting ≡ waiting.items) }
        ensures tiles { IfOk result (λ q. q.tiles ≡ tiles) }
    {
        let started = vec![in alloc; false; waiting.len()]?;
        let mut ready = Vec::with_capacity(alloc, steps)?;
        let mut total = 0;
        for step in 0..steps {
            let list = free_tiles(alloc, &waiting, step, tiles)?;
            total += list.len() as u32;
            ready.push_reserved(list);
        }
        let top = lowered(&ready, steps);
        Ok(Queue {
            tiles,
            started,
            waiting,
            ready,
            top,
            total,
        })
    }
}

ghost use Rattle.std.specs.Prelude.{nat_eq};
ghost use Rattle.mw_ready_queue.specs.Queues.{Listed, list_at};
ghost use Rattle.mw_ready_queue.specs.Shown.{items_of};

/// How many of so many steps are left without the last ones that have no open task.
fn lowered(ready: &[Vec<u16>], top: usize) -> usize
    requires { top ≤ length ready.now }
    ensures within { result ≤ top }
    ensures none { (s : ℕ) → result ≤ s → s < top → length (list_at (items_of ready.now) s) ≡ 0 }
{
    let mut step = top;
    while step > 0 {
        if !ready[step - 1].is_empty() {
            return step;
        }
        step -= 1;
    }
    0
}

/// The tiles of a step that wait for nothing, with room for all tiles of a step.
fn free_tiles(alloc: Global, waiting: &[u32], step: usize, tiles: u32) -> Result<Vec<u16>, NoMemory>
    requires tiles { (1 ≤ tiles) × (tiles ≤ 16384) }
    requires fits { step * tiles + tiles ≤ length waiting.now }
    ensures listed { IfOk result (λ v. Listed tiles (λ t. nat_eq (slice_index waiting.now (step * tiles + t)) 0) v.items) }
    ensures few { IfOk result (λ v. vec_len v ≤ tiles) }
    ensures room { IfOk result (λ v. tiles ≤ vec_capacity v) }
{
    let mut list = Vec::with_capacity(alloc, tiles as usize)?;
    for tile in 0..tiles {
        if waiting[step * tiles as usize + tile as usize] == 0 {
            list.push_reserved(tile as u16);
        }
    }
    Ok(list)
}
