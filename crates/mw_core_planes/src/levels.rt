//! The kind and maxval of each plane of a plan, before any is made.

ghost use Rattle.std.specs.Prelude.{◌≡◌, ◌<◌, length, map, slice_index_or, IfOk, vec_len};
ghost use Rattle.mw_model.specs.PlanSteps.{kind_of_step, maxval_of_step};
ghost use Rattle.mw_plan.specs.mw_step_task.Meanings.{meaning};
ghost use Rattle.mw_plan.specs.Seen.{source, sources, planned};
ghost use Rattle.mw_core_planes.specs.Levels.{Level, no_level, level_of_source, level_of_step, levels};

use mw_model::{Kind, NoMemory};
use mw_plan::task::Step;
use mw_plan::{Plan, PlannedStep, Source, Sources};
use std::alloc::Global;
use std::marker::Model;

/// The kind of a plane, and the greatest level that a sample of it may have.
#[derive(Clone, Copy)]
pub struct PlaneLevel {
    kind: Kind,
    maxval: u16,
}

impl Model for PlaneLevel {
    ghost use Rattle.mw_core_planes.specs.Levels.{Level};

    ghost Value = { Level };

    ghost view = { λ a. record { kind = a.kind; maxval = a.maxval } };

    ghost inverse = { λ l. record { kind = l.kind; maxval = l.maxval } };
}

impl PlaneLevel {
    /// The level of planes of this kind and maxval.
    pub fn new(kind: Kind, maxval: u16) -> PlaneLevel
        ensures { result ≡ record { kind = kind; maxval = maxval } }
    {
        PlaneLevel { kind, maxval }
    }

    /// Whether it is that of sets or of levels of grey.
    pub fn kind(self) -> Kind
        ensures { result ≡ self.kind }
    {
        self.kind
    }

    /// The greatest level of a sample.
    pub fn maxval(self) -> u16
        ensures { result ≡ self.maxval }
    {
        self.maxval
    }
}

/// The level of what the step makes where its first source has this one.
fn made_of(step: &Step, first: PlaneLevel) -> PlaneLevel
    ensures { result ≡ record { kind = kind_of_step (meaning step.now) first.kind; maxval = maxval_of_step (meaning step.now) first.maxval } }
{
    match step {
        Step::AtLeast(_) => PlaneLevel::new(Kind::Bit, 1),
        Step::Blank(maxval) => PlaneLevel::new(Kind::Grey, *maxval),
        Step::Equal(_) => PlaneLevel::new(Kind::Bit, 1),
        _ => first,
    }
}

/// The level of a source: the image that the plan reads, or an earlier step.
fn level_read(read: Source, input: PlaneLevel, made: &[PlaneLevel]) -> PlaneLevel
    ensures { result ≡ level_of_source input made.now (source read) }
{
    match read {
        Source::Input(_) => input,
        Source::Step(step) => match made.get(step as usize) {
            Some(level) => *level,
            None => PlaneLevel::new(Kind::Bit, 0),
        },
    }
}

/// The level of the first source; of none, that of sets of maxval 0.
fn first_read(read: Sources, input: PlaneLevel, made: &[PlaneLevel]) -> PlaneLevel
    ensures { result ≡ slice_index_or (map (level_of_source input made.now) (sources read)) 0 no_level }
{
    match read {
        Sources::Nothing => PlaneLevel::new(Kind::Bit, 0),
        Sources::One(a) => level_read(a, input, made),
        Sources::Two(a, _) => level_read(a, input, made),
        Sources::Three(a, _, _) => level_read(a, input, made),
    }
}

/// The level of a step, of the levels of those before it.
fn level_of(step: &PlannedStep, input: PlaneLevel, made: &[PlaneLevel]) -> PlaneLevel
    ensures { result ≡ level_of_step (planned step.now).step (map (level_of_source input made.now) (planned step.now).sources) }
{
    made_of(&step.step, first_read(step.sources, input, made))
}

/// The level of each step of the plan, where it reads an image of this one.
pub fn levels_of(alloc: Global, plan: &Plan, input: PlaneLevel) -> Result<Vec<PlaneLevel>, NoMemory>
    ensures { IfOk result (λ v. v.items ≡ levels plan.now input) }
{
    let mut made = Vec::with_capacity(alloc, plan.len())?;
    for k in 0..plan.len() {
        let level = level_of(plan.step(k), input, &made);
        made.push(level)?;
    }
    Ok(made)
}
