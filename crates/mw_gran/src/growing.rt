//! Plans that grow step by step.

ghost use Rattle.std.specs.Prelude.{◌<◌, length, IfOk};
ghost use Rattle.mw_plan.specs.mw_step_task.Meanings.{meaning};
ghost use Rattle.mw_plan.specs.Seen.{source, sources};
ghost use Rattle.mw_gran.specs.Growing.{IsPushed};

use mw_model::NoMemory;
use mw_plan::{Plan, PlannedStep, Source, Sources, Step};

/// Puts a step behind the others, and tells where its plane is read.
pub(crate) fn add(plan: &mut Plan, step: Step, read: Sources) -> Result<Source, NoMemory>
    requires { length plan.old < 65536 }
    ensures { IfOk result (λ s. IsPushed plan.old plan.new (meaning step) (sources read) (source s)) }
{
    let place = plan.len() as u16;
    plan.push(PlannedStep {
        step,
        sources: read,
    })?;
    Ok(Source::Step(place))
}
