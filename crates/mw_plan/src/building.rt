//! Steps with their sources.

ghost use Rattle.std.specs.Prelude.{◌≡◌};
ghost use Rattle.mw_step_task.specs.Meanings.{meaning};
ghost use Rattle.mw_plan.specs.Seen.{planned, source};
ghost use Rattle.mw_plan.specs.Steps.{less, of_image, of_step};

use crate::{PlannedStep, Source, Sources};
use mw_step_task::Step;

/// A step that reads the image.
pub(crate) fn of_image(step: Step) -> PlannedStep
    ensures { planned result ≡ of_image (meaning step) }
{
    PlannedStep {
        step,
        sources: Sources::One(Source::Input(0)),
    }
}

/// A step that reads an earlier step.
pub(crate) fn of_step(place: u16, step: Step) -> PlannedStep
    ensures { planned result ≡ of_step place (meaning step) }
{
    PlannedStep {
        step,
        sources: Sources::One(Source::Step(place)),
    }
}

/// One source less the other.
pub(crate) fn less(first: Source, second: Source) -> PlannedStep
    ensures { planned result ≡ less (source first) (source second) }
{
    PlannedStep {
        step: Step::Minus,
        sources: Sources::Two(first, second),
    }
}
