//! The work under a ticket, one event at a time.

ghost use Rattle.std.specs.Prelude.{◌≡◌, ℕ, ◌+◌, ◌<◌, ◌≤◌, ◌||◌, [], nat_eq, length, slice_index_or, vec_capacity};
ghost use Rattle.mw_model.specs.Plans.{is_sum};
ghost use Rattle.mw_model.specs.Tasks.{nothing_planned};
ghost use Rattle.mw_grid.specs.Grids.{tile_count};
ghost use Rattle.mw_core_planes.specs.StepPlanes.{is_read, form, IsFormOf, place_at, planes_shown};
ghost use Rattle.mw_core_progress.specs.ProgressView.{numbers_of};

use mw_core_planes::{
    Plan, PlaneLevel, PlannedStep, Ready, SharedWindow, StepPlane, TileResult, TiledPlane, closed,
    drop_read, levels_of, needs_of, tasks_are_those_of_work,
};
use mw_grid::Grid;
use mw_model::{Kind, NoMemory, Rect};
use std::alloc::Global;
use std::marker::Model;

/// A plan with its tasks, what is kept of the plane of each step, and room for the numbers of the steps that sum up.
#[derive(Drop)]
pub struct PlanProgress {
    plan: Plan,
    input: PlaneLevel,
    grid: Grid,
    ready: Ready,
    places: Vec<StepPlane>,
    numbers: Vec<u64>,
}

impl Model for PlanProgress {
    ghost use Rattle.std.specs.Prelude.{◌≡◌, ◌≤◌, [], length, vec_capacity};
    ghost use Rattle.mw_core_progress.specs.ProgressView.{ProgressView, IsWhole};

    ghost Value = { ProgressView };

    ghost use Rattle.mw_core_progress.specs.Parts.{underway_kept, IsBoarded, IsPlaced};

    ghost view = { λ a. underway_kept a.plan a.input a.grid a.ready a.places.items };

    ghost invariant = { λ a. IsWhole (underway_kept a.plan a.input a.grid a.ready a.places.items)
        × IsBoarded a.plan a.grid a.ready.board
        × IsPlaced a.plan a.grid a.ready.board.started a.places.items
        × (a.numbers.items ≡ [])
        × (length a.plan ≤ vec_capacity a.numbers) };
}

/// Whether what the task makes is kept: it is of the last step, or a number, or an unfinished task reads it.
fn is_kept(plan: &Plan, ready: &Ready, step: u32, tile: u32) -> bool
    requires step { step < length plan.now }
    requires within { step < length ready.now.board.needs }
    requires tile { tile < tile_count ready.now.board.grid }
    ensures { result ≡ nat_eq (step + 1) (length plan.now) || is_sum (slice_index_or plan.now step nothing_planned).step || is_read ready.now.board step tile }
{
    step as usize + 1 == plan.len()
        || plan.step(step as usize).step.is_sum()
        || ready.is_read(step, tile)
}

/// Adds the numbers of the steps that sum up, in order.
fn add_numbers(plan: &Plan, places: &[StepPlane], grid: Grid, numbers: &mut Vec<u64>)
    requires count { length plan.now ≡ length places.now }
    requires forms { (k : ℕ) → k < length plan.now → IsFormOf (is_sum (slice_index_or plan.now k nothing_planned).step) (form (place_at places.now k)) }
    requires none { numbers.old.items ≡ [] }
    requires room { length plan.now ≤ vec_capacity numbers.old }
    ensures { numbers.new.items ≡ numbers_of plan.now (planes_shown grid places.now) }
{
    for k in 0..plan.len() {
        if plan.step(k).step.is_sum() {
            numbers.push_reserved(places[k].total(grid));
        }
    }
}

/// What nobody reads is given up.
fn let_go(_made: TileResult) {}

impl PlanProgress {
    ghost use Rattle.std.specs.Prelude.{ℕ, ◌+◌, ◌-◌, ◌*◌, ◌<◌, ◌≤◌, ◌↔◌, IsTrue, IfOk, OnOk, OnErr, true, false, length, map, slice_index, slice_index_or};
    ghost use Rattle.mw_model.specs.Pictures.{Picture};
    ghost use Rattle.mw_model.specs.Rectangles.{IsWithin};
    ghost use Rattle.mw_model.specs.Tasks.{nothing_planned, is_ready, is_running, ready_tasks, running_tasks, remaining_tasks};
    ghost use Rattle.mw_core_planes.specs.mw_tile.Windows.{window_of};
    ghost use Rattle.mw_core_planes.specs.mw_step_task.WindowTasks.{IsBounded};
    ghost use Rattle.mw_core_planes.specs.mw_tile_planes.Tiles.{HasAll, IsPlaneOf, nothing_placed};
    ghost use Rattle.mw_core_planes.specs.mw_plan.Seen.{planned};
    ghost use Rattle.mw_core_planes.specs.Levels.{levels, closed_plane};
    ghost use Rattle.mw_core_planes.specs.MadeTiles.{cells_of_made};
    ghost use Rattle.mw_core_progress.specs.ProgressView.{IsWorkable, IsWhole, IsStarted, IsFinished, ResultFits, fresh, number_of, numbers_of, plane_at};

    /// The work of a plan that reads one image of this kind and maxval, on a frame of the grid. Nothing of it was started.
    ///
    /// # Errors
    ///
    /// `NoMemory`, where about twelve bytes for each task, and sixteen more for each step, are not to be had.
    pub fn new(
        alloc: Global,
        plan: Plan,
        grid: Grid,
        kind: Kind,
        maxval: u16,
    ) -> Result<PlanProgress, NoMemory>
        requires { IsWorkable plan (record { kind = kind; maxval = maxval }) }
        ensures progress { IfOk result (λ p. p.progress ≡ fresh plan p.input grid) }
        ensures input { IfOk result (λ p. p.input ≡ record { kind = kind; maxval = maxval }) }
        ensures tiling { IfOk result (λ p. p.tiling ≡ grid) }
        ensures planes { IfOk result (λ p. p.planes ≡ map (closed_plane grid) (levels plan p.input)) }
        ensures whole { IfOk result IsWhole }
    {
        // for what holds of every grid
        let (_width, _height, _side) = (grid.width(), grid.height(), grid.side());
        let input = PlaneLevel::new(kind, maxval);
        let needs = needs_of(alloc, &plan)?;
        let levels = levels_of(alloc, &plan, input)?;
        let places = closed(alloc, &levels)?;
        let numbers = Vec::with_capacity(alloc, plan.len())?;
        let ready = Ready::new(alloc, needs, grid)?;
        Ok(PlanProgress {
            plan,
            input,
            grid,
            ready,
            places,
            numbers,
        })
    }

    /// How many tasks are ready.
    pub fn ready(&self) -> u32
        ensures value { result ≡ ready_tasks self.now.progress }
        ensures order { result ≡ length self.now.order }
    {
        tasks_are_those_of_work(&self.ready);
        self.ready.count()
    }

    /// How many tasks are started and not finished.
    pub fn running(&self) -> u32
        ensures { result ≡ running_tasks self.now.progress }
    {
        tasks_are_those_of_work(&self.ready);
        self.ready.running()
    }

    /// How many tasks are not finished.
    pub fn remaining(&self) -> u32
        ensures value { result ≡ remaining_tasks self.now.progress }
        ensures whole { IsWhole self.now }
    {
        tasks_are_those_of_work(&self.ready);
        self.ready.remaining()
    }

    /// The kind and maxval of the image that the plan reads.
    pub fn input(&self) -> (Kind, u16)
        ensures kind { result.0 ≡ self.now.input.kind }
        ensures maxval { result.1 ≡ self.now.input.maxval }
    {
        (self.input.kind(), self.input.maxval())
    }

    /// The frame and its tiles.
    pub fn grid(&self) -> Grid
        ensures { result ≡ self.now.tiling }
    {
        self.grid
    }

    /// A step of the plan, counted from 0.
    pub fn step(&self, step: u32) -> &PlannedStep
        requires { step < length self.now.progress.plan }
        ensures { planned result.now ≡ slice_index_or self.now.progress.plan step nothing_planned }
    {
        self.plan.step(step as usize)
    }

    /// The step and the tile of the ready task at this place of the order.
    pub fn task_at(&self, place: u32) -> (u32, u32)
        requires { place < ready_tasks self.now.progress }
        ensures value { number_of self.now.progress result.0 result.1 ≡ slice_index self.now.order place }
        ensures step { result.0 < length self.now.progress.plan }
        ensures tile { result.1 < tile_count self.now.tiling }
        ensures ready { is_ready self.now.progress (number_of self.now.progress result.0 result.1) ≡ true }
    {
        tasks_are_those_of_work(&self.ready);
        self.ready.task_at(place)
    }

    /// Starts the ready task at this place of the order. The only memory that is asked for is that of its step's plane,
    /// where no task of the step was started yet.
    ///
    /// # Errors
    ///
    /// `NoMemory`, where that is refused. Nothing is then started.
    pub fn start(&mut self, alloc: Global, place: u32) -> Result<(), NoMemory>
        requires { place < ready_tasks self.old.progress }
        ensures started { OnOk result (IsStarted self.old self.new (slice_index self.old.order place)) }
        ensures same { OnErr result (self.new ≡ self.old) }
        ensures whole { IsWhole self.new }
    {
        tasks_are_those_of_work(&self.ready);
        let (step, _tile) = self.ready.task_at(place);
        let sums = self.plan.step(step as usize).step.is_sum();
        self.places[step as usize].open(alloc, self.grid, sums)?;
        let _task = self.ready.start(place);
        Ok(())
    }

    /// Whether there is such a task, and it is running.
    pub fn is_running(&self, step: u32, tile: u32) -> bool
        ensures { IsTrue result ↔ ((step < length self.now.progress.plan) × (tile < tile_count self.now.tiling) × (is_running self.now.progress (number_of self.now.progress step tile) ≡ true)) }
    {
        tasks_are_those_of_work(&self.ready);
        self.ready.is_running(step, tile)
    }

    /// The kind and maxval of the plane of a step.
    pub fn level(&self, step: u32) -> (Kind, u16)
        requires step { step < length self.now.progress.plan }
        requires plane { is_sum (slice_index_or self.now.progress.plan step nothing_planned).step ≡ false }
        ensures kind { result.0 ≡ (plane_at self.now step).kind }
        ensures maxval { result.1 ≡ (plane_at self.now step).maxval }
    {
        let level = self.places[step as usize].level(self.grid);
        (level.kind(), level.maxval())
    }

    /// The window of a rectangle in the plane of a step, of which each tile that meets the rectangle is placed, as one
    /// more owner of those tiles.
    ///
    /// # Errors
    ///
    /// `NoMemory`, where there is none for the window.
    pub fn window(&self, alloc: Global, step: u32, rect: Rect) -> Result<SharedWindow, NoMemory>
        requires step { step < length self.now.progress.plan }
        requires plane { is_sum (slice_index_or self.now.progress.plan step nothing_planned).step ≡ false }
        requires some { (1 ≤ rect.width) × (1 ≤ rect.height) }
        requires within { IsWithin rect self.now.tiling.width self.now.tiling.height }
        requires placed { HasAll self.now.tiling (plane_at self.now step).tiles rect }
        ensures value { IfOk result (λ w. (f : Picture) → IsPlaneOf (plane_at self.now step) f → w ≡ window_of rect f) }
        ensures bounded { IfOk result IsBounded }
    {
        match &self.places[step as usize] {
            StepPlane::Plane(plane) => plane.shared(alloc, rect),
            _ => unreachable!(),
        }
    }

    /// Whether the window shows what stands there of the plane of a step, of which each tile that meets the rectangle is
    /// placed.
    pub fn matches(&self, step: u32, rect: Rect, window: &SharedWindow) -> bool
        requires step { step < length self.now.progress.plan }
        requires plane { is_sum (slice_index_or self.now.progress.plan step nothing_planned).step ≡ false }
        requires some { (1 ≤ rect.width) × (1 ≤ rect.height) }
        requires within { IsWithin rect self.now.tiling.width self.now.tiling.height }
        requires placed { HasAll self.now.tiling (plane_at self.now step).tiles rect }
        ensures same { (f : Picture) → IsPlaneOf (plane_at self.now step) f → IsTrue result ↔ (window.now ≡ window_of rect f) }
        ensures level { IsTrue result → (window.now.kind ≡ (plane_at self.now step).kind) × (window.now.maxval ≡ (plane_at self.now step).maxval) }
        ensures bounded { IsTrue result → IsBounded window.now }
    {
        match &self.places[step as usize] {
            StepPlane::Plane(plane) => plane.matches(rect, window),
            _ => unreachable!(),
        }
    }

    /// A running task is finished. What it made is placed if anyone still reads it, and each tile that it was the last to
    /// read is dropped. This takes no memory.
    pub fn finish(&mut self, step: u32, tile: u32, made: TileResult)
        requires running { is_running self.old.progress (number_of self.old.progress step tile) ≡ true }
        requires fits { ResultFits self.old step tile made }
        ensures finished { IsFinished self.old self.new (number_of self.old.progress step tile) (cells_of_made made) }
        ensures whole { IsWhole self.new }
    {
        tasks_are_those_of_work(&self.ready);
        let need = self.ready.need(step);
        self.ready.finish(step, tile);
        drop_read(&mut self.places, &self.ready, self.grid, need, tile);
        if is_kept(&self.plan, &self.ready, step, tile) {
            self.places[step as usize].put(self.grid, tile, made);
        } else {
            let_go(made);
        }
    }

    /// The plane of the last step, once all tasks are finished.
    pub fn into_plane(self) -> TiledPlane
        requires done { remaining_tasks self.progress ≡ 0 }
        requires plane { is_sum (slice_index_or self.progress.plan (length self.progress.plan - 1) nothing_planned).step ≡ false }
        ensures { result ≡ plane_at self (length self.progress.plan - 1) }
    {
        let PlanProgress { mut places, .. } = self;
        let last = places.pop().unwrap();
        match last {
            StepPlane::Plane(plane) => plane,
            _ => unreachable!(),
        }
    }

    /// The numbers of the steps that sum up, in order. This takes no memory.
    pub fn into_numbers(self) -> Vec<u64>
        ensures { result.items ≡ numbers_of self.progress.plan self.planes }
    {
        let PlanProgress {
            plan,
            grid,
            places,
            mut numbers,
            ..
        } = self;
        add_numbers(&plan, &places, grid, &mut numbers);
        numbers
    }
}
