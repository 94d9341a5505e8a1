//! Tasks that are to be run.

use crate::Step;
use crate::reads::windows_fit;
use mw_model::{Rect, TaskId};
use mw_tile_pieces::SharedWindow;
use std::marker::Model;

/// A task with all that it reads: its step, its tile, and a window of each source. A window is held as the pieces of
/// planes that it is made of, so that making a task copies no sample.
#[derive(Drop)]
pub struct Work {
    task: TaskId,
    rect: Rect,
    step: Step,
    windows: Vec<SharedWindow>,
}

impl Model for Work {
    ghost use Rattle.mw_step_task.specs.WindowTasks.{WindowTask};

    ghost Value = { WindowTask };

    ghost use Rattle.mw_step_task.specs.Meanings.{meaning};
    ghost use Rattle.mw_step_task.specs.WindowTasks.{FitsStep};

    ghost view = { λ w. record { task = w.task; rect = w.rect; step = meaning w.step; windows = w.windows.items } };

    ghost invariant = { λ w. FitsStep (meaning w.step) w.rect w.windows.items };
}

impl Work {
    ghost use Rattle.std.specs.Prelude.{◌≡◌, ◌↔◌, IsSome, IfSome};
    ghost use Rattle.mw_step_task.specs.Meanings.{meaning};
    ghost use Rattle.mw_step_task.specs.WindowTasks.{FitsStep};

    /// A task of these windows; None where they are not those that the step reads for the tile, or their kinds and
    /// maxvals do not fit the step.
    pub fn new(task: TaskId, rect: Rect, step: Step, windows: Vec<SharedWindow>) -> Option<Work>
        ensures fits { IsSome result ↔ FitsStep (meaning step) rect windows.items }
        ensures value { IfSome result (λ w. w ≡ record { task = task; rect = rect; step = meaning step; windows = windows.items }) }
    {
        if windows_fit(&step, rect, &windows) {
            Some(Work {
                task,
                rect,
                step,
                windows,
            })
        } else {
            None
        }
    }

    /// The numbers of the task.
    pub fn task(&self) -> TaskId
        ensures { result ≡ self.now.task }
    {
        self.task
    }

    /// The tile.
    pub fn rect(&self) -> Rect
        ensures { result ≡ self.now.rect }
    {
        self.rect
    }

    /// The step that is made in the tile.
    pub fn step(&self) -> &Step
        ensures { meaning result.now ≡ self.now.step }
    {
        &self.step
    }

    /// A window of each source.
    pub fn windows(&self) -> &[SharedWindow]
        ensures value { result.now ≡ self.now.windows }
        ensures fits { FitsStep self.now.step self.now.rect self.now.windows }
    {
        &self.windows
    }
}
