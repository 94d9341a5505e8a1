//! What the tasks of a planned step read.

ghost use Rattle.std.specs.Prelude.{◌≡◌, ℕ, ◌<◌, ◌≤◌, length, vec_len, slice_index_or, IfOk};
ghost use Rattle.std.specs.List.{list_any};
ghost use Rattle.mw_model.specs.Tasks.{is_step, nothing_planned};
ghost use Rattle.mw_plan.specs.Seen.{source, sources, planned};
ghost use Rattle.mw_ready.specs.Boards.{is_source, no_need};
ghost use Rattle.mw_ready.specs.Work.{IsNeedOf};

use mw_model::NoMemory;
use mw_plan::{Plan, PlannedStep, Source, Sources};
use mw_ready::Need;
use std::alloc::Global;

/// The step that is read, if it is one.
fn step_read(read: Source) -> Option<u32>
    ensures { (k : ℕ) → is_source k result ≡ is_step k (source read) }
{
    match read {
        Source::Input(_) => None,
        Source::Step(step) => Some(u32::from(step)),
    }
}

/// The steps among the sources.
fn steps_read(read: Sources) -> [Option<u32>; 3]
    ensures { (k : ℕ) → list_any (is_source k) result ≡ list_any (is_step k) (sources read) }
{
    match read {
        Sources::Nothing => [None, None, None],
        Sources::One(a) => [step_read(a), None, None],
        Sources::Two(a, b) => [step_read(a), step_read(b), None],
        Sources::Three(a, b, c) => [step_read(a), step_read(b), step_read(c)],
    }
}

/// What the tasks of this step read.
fn need_of(step: &PlannedStep) -> Need
    ensures { IsNeedOf result (planned step.now) }
{
    Need {
        reach: step.step.reach(),
        steps: steps_read(step.sources),
    }
}

/// What the tasks of each step of the plan read.
pub fn needs_of(alloc: Global, plan: &Plan) -> Result<Vec<Need>, NoMemory>
    ensures size { IfOk result (λ v. vec_len v ≡ length plan.now) }
    ensures each { IfOk result (λ v. (k : ℕ) → k < length plan.now → IsNeedOf (slice_index_or v.items k no_need) (slice_index_or plan.now k nothing_planned)) }
{
    let mut needs = Vec::with_capacity(alloc, plan.len())?;
    for k in 0..plan.len() {
        needs.push(need_of(plan.step(k)))?;
    }
    Ok(needs)
}
