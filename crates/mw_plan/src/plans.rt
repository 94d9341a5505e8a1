//! Plans and their steps.

use mw_model::NoMemory;
use mw_step_task::Step;
use std::alloc::Global;
use std::marker::Model;

/// Where a step reads.
#[derive(Clone, Copy, PartialEq, Eq, Debug)]
pub enum Source {
    /// An image among the inputs, by its place among the images.
    Input(u8),
    /// An earlier step.
    Step(u16),
}

/// Up to three sources, in the order of the step's arguments. They are copied without memory.
#[derive(Clone, Copy, PartialEq, Eq, Debug)]
pub enum Sources {
    Nothing,
    One(Source),
    Two(Source, Source),
    Three(Source, Source, Source),
}

impl Sources {
    ghost use Rattle.std.specs.Prelude.{◌≡◌, length};
    ghost use Rattle.mw_plan.specs.Seen.{sources};

    /// How many there are.
    pub fn len(self) -> usize
        ensures { result ≡ length (sources self) }
    {
        match self {
            Sources::Nothing => 0,
            Sources::One(_) => 1,
            Sources::Two(_, _) => 2,
            Sources::Three(_, _, _) => 3,
        }
    }
}

/// A step of a plan with what it reads.
#[derive(Drop)]
pub struct PlannedStep {
    pub step: Step,
    pub sources: Sources,
}

/// The steps of an operation, in order. Its result is what the last step makes, or of a curve the numbers of the steps
/// that sum up.
#[derive(Drop)]
pub struct Plan {
    steps: Vec<PlannedStep>,
}

impl Model for Plan {
    ghost use Rattle.std.specs.Prelude.{List, map};
    ghost use Rattle.mw_model.specs.Plans.{Planned};

    ghost Value = { List Planned };

    ghost use Rattle.mw_plan.specs.Seen.{planned};

    ghost view = { λ p. map planned p.steps.items };
}

impl Plan {
    ghost use Rattle.std.specs.Prelude.{◌≡◌, ◌<◌, [], ◌∷◌, ◌++◌, length, map, slice_index_or, IfOk, is_ok, if◌then◌else◌};
    ghost use Rattle.mw_model.specs.Tasks.{nothing_planned};
    ghost use Rattle.mw_plan.specs.Seen.{planned};

    /// A plan without steps, with room for so many, or `NoMemory`.
    pub fn with_capacity(alloc: Global, count: usize) -> Result<Plan, NoMemory>
        ensures { IfOk result (λ p. p ≡ []) }
    {
        Ok(Plan {
            steps: Vec::with_capacity(alloc, count)?,
        })
    }

    /// Adds a last step, or answers `NoMemory` and adds none.
    pub fn push(&mut self, step: PlannedStep) -> Result<(), NoMemory>
        ensures { self.new ≡ (if is_ok result then self.old ++ planned step ∷ [] else self.old) }
    {
        self.steps.push(step)?;
        Ok(())
    }

    /// How many steps there are.
    pub fn len(&self) -> usize
        ensures { result ≡ length self.now }
    {
        self.steps.len()
    }

    /// The step in this place, counted from 0.
    pub fn step(&self, place: usize) -> &PlannedStep
        requires { place < length self.now }
        ensures { planned result.now ≡ slice_index_or self.now place nothing_planned }
    {
        &self.steps[place]
    }

    /// All steps.
    pub fn steps(&self) -> &[PlannedStep]
        ensures { map planned result.now ≡ self.now }
    {
        &self.steps
    }
}
