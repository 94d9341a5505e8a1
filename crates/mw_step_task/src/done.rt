//! Tasks that were run.

use crate::{Step, TileResult, Work};
use mw_element::pixel::Image;
use mw_model::{Rect, TaskId};
use mw_tile_pieces::SharedWindow;
use std::marker::Model;

/// A task that is done, with what it made: what its step makes of its windows, and nothing else.
#[derive(Drop)]
pub struct TileDone {
    work: Work,
    made: TileResult,
}

impl Model for TileDone {
    ghost use Rattle.mw_step_task.specs.WindowTasks.{WindowTask};

    ghost Value = { WindowTask };

    ghost use Rattle.mw_step_task.specs.Products.{IsMade};

    ghost view = { λ d. d.work };

    ghost invariant = { λ d. IsMade d.work d.made };
}

/// A task for which memory was refused. Only who holds the work of a task can refuse it, and gives the work up.
#[derive(Drop)]
pub struct TaskRefused {
    task: TaskId,
}

impl TaskRefused {
    ghost use Rattle.std.specs.Prelude.{◌≡◌};

    /// The task of this work, for which there is no memory.
    pub fn new(work: Work) -> TaskRefused
        ensures { result.task ≡ work.task }
    {
        TaskRefused { task: work.task() }
    }

    /// The numbers of the task.
    pub fn task(&self) -> TaskId
        ensures { result ≡ self.now.task }
    {
        self.task
    }
}

impl TileDone {
    ghost use Rattle.std.specs.Prelude.{◌≡◌, false};
    ghost use Rattle.std.specs.List.{AllByRecursion};
    ghost use Rattle.mw_model.specs.Plans.{is_sum};
    ghost use Rattle.mw_step_task.specs.Meanings.{meaning};
    ghost use Rattle.mw_step_task.specs.WindowTasks.{FitsStep, IsBounded, tile_made};
    ghost use Rattle.mw_step_task.specs.Products.{IsMade};

    /// The work, with what its step makes of its windows.
    pub fn new(work: Work, made: TileResult) -> TileDone
        requires { IsMade work made }
        ensures { result ≡ work }
    {
        TileDone { work, made }
    }

    /// The numbers of the task.
    pub fn task(&self) -> TaskId
        ensures { result ≡ self.now.task }
    {
        self.work.task()
    }

    /// The tile.
    pub fn rect(&self) -> Rect
        ensures { result ≡ self.now.rect }
    {
        self.work.rect()
    }

    /// The step that was made in the tile.
    pub fn step(&self) -> &Step
        ensures { meaning result.now ≡ self.now.step }
    {
        self.work.step()
    }

    /// The windows that the task was made from.
    pub fn windows(&self) -> &[SharedWindow]
        ensures value { result.now ≡ self.now.windows }
        ensures fits { FitsStep self.now.step self.now.rect self.now.windows }
    {
        self.work.windows()
    }

    /// What was made, to be looked at.
    pub fn made(&self) -> &TileResult
        ensures { IsMade self.now result.now }
    {
        &self.made
    }

    /// What was made.
    pub fn into_made(self) -> TileResult
        ensures { IsMade self result }
    {
        self.made
    }

    /// The image that was made of the tile, which owns what was made: of a task for a whole frame, the plane of its step.
    pub fn into_image(self) -> Image
        requires plane { is_sum self.step ≡ false }
        requires bounded { AllByRecursion IsBounded self.windows }
        ensures { result ≡ tile_made self }
    {
        let TileDone { work, made } = self;
        match made {
            TileResult::Bits(plane) => Image::bits(plane),
            TileResult::Grey8(plane, maxval) => Image::grey8(plane, maxval),
            TileResult::Grey16(plane, maxval) => Image::grey16(plane, maxval),
            TileResult::Number(_) => unreachable!(),
        }
    }
}
