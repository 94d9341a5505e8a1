//! The tasks of a plan on a grid: which are ready, running and finished.

ghost use Rattle.std.specs.Prelude.{◌≡◌, ℕ, ◌+◌, ◌*◌, ◌<◌, ◌≤◌, ◌↔◌, IsTrue, IfOk, length, true, slice_set, slice_index, vec_len};

use crate::links::{Link, links_of};
use crate::need::Need;
use crate::readers::release_readers;
use crate::reads::{first_readers, lower_sources};
use crate::waits::first_waits;
use mw_grid::Grid;
use mw_model::NoMemory;
use mw_ready_queue::Queue;
use std::alloc::Global;
use std::marker::Model;

/// The tasks of a plan on a grid. A task is one tile of one step, and is ready where it was not started and every tile
/// that its window touches, of every step that it reads, is finished.
#[derive(Drop)]
pub struct Ready {
    needs: Vec<Need>,
    grid: Grid,
    queue: Queue,
    readers: Vec<u32>,
    links: Vec<Link>,
    finished: Vec<bool>,
    running: u32,
    remaining: u32,
}

impl Model for Ready {
    ghost use Rattle.std.specs.Prelude.{◌≡◌, ◌≤◌, length};
    ghost use Rattle.mw_grid.specs.Grids.{tile_count};
    ghost use Rattle.mw_ready.specs.Boards.{Turns};
    ghost use Rattle.mw_ready_queue.specs.Queues.{order_of};
    ghost use Rattle.mw_ready.specs.Kept.{Keeps, CountsReaders, board_of};
    ghost use Rattle.mw_ready.specs.Links.{Linked};

    ghost Value = { Turns };

    ghost view = { λ a. record { board = board_of a.needs.items a.grid a.queue a.finished.items; order = order_of a.queue } };

    ghost invariant = { λ a. Keeps (board_of a.needs.items a.grid a.queue a.finished.items) a.queue.waiting a.running a.remaining
        × (a.queue.tiles ≡ tile_count a.grid)
        × (length a.needs.items ≤ 65535)
        × CountsReaders (board_of a.needs.items a.grid a.queue a.finished.items) a.readers.items
        × Linked a.needs.items a.links.items 0 };
}

impl Ready {
    ghost use Rattle.std.specs.Prelude.{◌/◌, not, ◌&&◌, ◌||◌, slice_index_or};
    ghost use Rattle.std.specs.List.{list_all, list_any};
    ghost use Rattle.mw_model.specs.Tasks.{flag};
    ghost use Rattle.mw_grid.specs.Grids.{tile_count};
    ghost use Rattle.mw_ready.specs.Boards.{task_count_on, tasks_on, task_number, step_on_grid, no_need, reads_by_needs, is_ready_on, ready_tasks_on, running_tasks_on, remaining_tasks_on, fresh_schedule, RunsOn};

    /// All tasks of a plan with these needs, none of them started.
    ///
    /// # Errors
    ///
    /// `NoMemory`, where about twelve bytes for each task, and sixteen more for each step, are not to be had.
    pub fn new(alloc: Global, needs: Vec<Need>, grid: Grid) -> Result<Ready, NoMemory>
        requires { vec_len needs ≤ 65535 }
        ensures { IfOk result (λ r. r.board ≡ fresh_schedule needs.items grid) }
    {
        let tiles = grid.len();
        let waiting = first_waits(alloc, &needs, grid)?;
        let remaining = waiting.len() as u32;
        let finished = vec![in alloc; false; waiting.len()]?;
        let readers = first_readers(alloc, &needs, grid)?;
        let links = links_of(alloc, &needs)?;
        let queue = Queue::new(alloc, needs.len(), tiles, waiting)?;
        Ok(Ready {
            needs,
            grid,
            queue,
            readers,
            links,
            finished,
            running: 0,
            remaining,
        })
    }

    /// How many tasks are ready.
    pub fn count(&self) -> u32
        ensures value { result ≡ ready_tasks_on self.now.board }
        ensures order { result ≡ length self.now.order }
    {
        self.queue.count()
    }

    /// How many tasks are started and not finished.
    pub fn running(&self) -> u32
        ensures { result ≡ running_tasks_on self.now.board }
    {
        self.running
    }

    /// How many tasks are not finished.
    pub fn remaining(&self) -> u32
        ensures { result ≡ remaining_tasks_on self.now.board }
    {
        self.remaining
    }

    /// Whether there is such a task, and it is running. All that a task reads is finished before it is started.
    pub fn is_running(&self, step: u32, tile: u32) -> bool
        ensures value { IsTrue result ↔ RunsOn self.now.board step tile }
        ensures calm { (n : ℕ) → n < task_count_on self.now.board → flag self.now.board.started n ≡ true → list_all (λ u. not (reads_by_needs self.now.board.needs self.now.board.grid n u) || flag self.now.board.finished u) (tasks_on self.now.board) ≡ true }
    {
        let tiles = self.grid.len();
        if step as usize >= self.needs.len() || tile >= tiles {
            return false;
        }
        let task = step * tiles + tile;
        self.queue.is_started(task) && !self.finished[task as usize]
    }

    /// Whether an unfinished task reads this tile of this step.
    pub fn is_read(&self, step: u32, tile: u32) -> bool
        requires step { step < length self.now.board.needs }
        requires tile { tile < tile_count self.now.board.grid }
        ensures { result ≡ list_any (λ u. not (flag self.now.board.finished u) && reads_by_needs self.now.board.needs self.now.board.grid u (task_number self.now.board.grid step tile)) (tasks_on self.now.board) }
    {
        let task = step * self.grid.len() + tile;
        self.readers[task as usize] > 0
    }

    /// How many steps the plan has.
    pub fn steps(&self) -> u32
        ensures { result ≡ length self.now.board.needs }
    {
        self.needs.len() as u32
    }

    /// What a step needs.
    pub fn need(&self, step: u32) -> Need
        requires { step < length self.now.board.needs }
        ensures { result ≡ slice_index_or self.now.board.needs step no_need }
    {
        self.needs[step as usize]
    }

    /// The tiles of the plan's frame.
    pub fn grid(&self) -> Grid
        ensures { result ≡ self.now.board.grid }
    {
        self.grid
    }

    /// The step and the tile of the ready task that `start` takes at this place. At place 0 it is a task of the latest
    /// step that has a ready one, so that what is read is soon read to its end.
    pub fn task_at(&self, place: u32) -> (u32, u32)
        requires { place < ready_tasks_on self.now.board }
        ensures value { task_number self.now.board.grid result.0 result.1 ≡ slice_index self.now.order place }
        ensures step { result.0 < length self.now.board.needs }
        ensures tile { result.1 < tile_count self.now.board.grid }
        ensures ready { is_ready_on self.now.board (task_number self.now.board.grid result.0 result.1) ≡ true }
        ensures latest { place ≡ 0 → (n : ℕ) → n < task_count_on self.now.board → is_ready_on self.now.board n ≡ true → step_on_grid self.now.board.grid n ≤ result.0 }
    {
        self.queue.task_at(place)
    }

    /// Starts the ready task at a place of the order: its step and its tile.
    pub fn start(&mut self, place: u32) -> (u32, u32)
        requires { place < ready_tasks_on self.old.board }
        ensures value { task_number self.old.board.grid result.0 result.1 ≡ slice_index self.old.order place }
        ensures step { result.0 < length self.old.board.needs }
        ensures tile { result.1 < tile_count self.old.board.grid }
        ensures ready { is_ready_on self.old.board (task_number self.old.board.grid result.0 result.1) ≡ true }
        ensures new { self.new.board ≡ record self.old.board { started = slice_set self.old.board.started (task_number self.old.board.grid result.0 result.1) true } }
    {
        let task = self.queue.take(place);
        self.running += 1;
        task
    }

    /// A running task is finished.
    pub fn finish(&mut self, step: u32, tile: u32)
        requires { RunsOn self.old.board step tile }
        ensures { self.new.board ≡ record self.old.board { finished = slice_set self.old.board.finished (task_number self.old.board.grid step tile) true } }
    {
        let task = step * self.grid.len() + tile;
        self.finished[task as usize] = true;
        self.running -= 1;
        self.remaining -= 1;
        let need = self.needs[step as usize];
        let steps = self.needs.len() as u32;
        lower_sources(&mut self.readers, self.grid, need, steps, tile);
        release_readers(
            &mut self.queue,
            &self.needs,
            &self.links,
            self.grid,
            step,
            tile,
        );
    }
}
