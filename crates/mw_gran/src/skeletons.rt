//! Skeletons, after Lantuejoul: the residues of the erosions.
//!
//! All erosions come first (`erosions` says why), and then the turns. A turn takes two steps: the dilation of its erosion,
//! which is the opening of what was left before, and the marks of what the opening has lost. So no erosion is made twice.
//!
//! The empty marks come just before the first marks, which are put into them. Of all ready tasks those of the latest step
//! are taken first: at the head of the plan the empty marks would be taken last of all, and all marks wait for them.

ghost use Rattle.std.specs.Prelude.{◌≡◌, ◌+◌, ◌*◌, ◌<◌, ◌≤◌, ℕ, List, Some, length, IfOk};
ghost use Rattle.mw_model.specs.declared.limits.TheConstants.{TURN_LIMIT};
ghost use Rattle.mw_model.specs.declared.offsets.Offset.{Offset};
ghost use Rattle.mw_model.specs.Iterates.{skeleton};
ghost use Rattle.mw_model.specs.Pictures.{IsSet};
ghost use Rattle.mw_plan.specs.mw_step_task.Meanings.{meaning};
ghost use Rattle.mw_plan.specs.Seen.{source};
ghost use Rattle.mw_gran.specs.Growing.{PlanGoesOn, ShowsOperator};
ghost use Rattle.mw_gran.specs.Turns.{AreMarks, Draws, MarksResidues, Slides, marked, steps_to_marks};

use crate::eroding::{eroded, erosions};
use crate::growing::add;
use crate::sliding::SlidingSteps;
use mw_model::NoMemory;
use mw_plan::{Plan, Source, Sources, Step};
use std::alloc::Global;

/// The marks so far, or the empty marks.
fn marks_or_blank(plan: &mut Plan, marks: Option<Source>, levels: u16) -> Result<Source, NoMemory>
    requires few { length plan.old < 65536 }
    requires small { levels ≤ TURN_LIMIT }
    ensures count { IfOk result (λ _. length plan.new ≡ length plan.old + steps_to_marks marks) }
    ensures goes_on { IfOk result (λ _. PlanGoesOn IsSet plan.old plan.new) }
    ensures shows { (b : List Offset) (n : ℕ) → AreMarks b levels n plan.old marks → IfOk result (λ s. ShowsOperator IsSet plan.new (source s) (marked b levels n)) }
{
    match marks {
        Some(marks) => Ok(marks),
        None => add(plan, Step::Blank(levels + 1), Sources::Nothing),
    }
}

/// One turn, behind n others: where its marks are read.
fn turn(
    plan: &mut Plan,
    steps: &SlidingSteps,
    marks: Option<Source>,
    levels: u16,
    n: u16,
) -> Result<Source, NoMemory>
    requires few { length plan.old < 65000 }
    requires small { levels ≤ TURN_LIMIT }
    requires below { n < levels }
    ensures count { IfOk result (λ _. length plan.new ≡ length plan.old + steps_to_marks marks + 2) }
    ensures marks { (b : List Offset) → Slides b (meaning steps.now.erode) (meaning steps.now.dilate) → MarksResidues b levels n plan.old marks → IfOk result (λ m. MarksResidues b levels (n + 1) plan.new (Some m)) }
{
    let opened = add(plan, steps.dilate.share()?, Sources::One(eroded(n + 1)))?;
    let blank = marks_or_blank(plan, marks, levels)?;
    let sources = Sources::Three(blank, eroded(n), opened);
    let more = add(plan, Step::Mark(n + 1), sources)?;
    Ok(more)
}

/// The plan of a skeleton.
pub(crate) fn skeleton(alloc: Global, steps: &SlidingSteps, levels: u16) -> Result<Plan, NoMemory>
    requires { levels ≤ TURN_LIMIT }
    ensures { (b : List Offset) → Slides b (meaning steps.now.erode) (meaning steps.now.dilate) → IfOk result (λ p. Draws IsSet p (3 * levels + 2) (skeleton b levels)) }
{
    let mut plan = erosions(alloc, steps, levels, 3 * usize::from(levels) + 2)?;
    let mut last = None;
    for n in 0..levels {
        let more = turn(&mut plan, steps, last, levels, n)?;
        last = Some(more);
    }
    let marks = marks_or_blank(&mut plan, last, levels)?;
    let sources = Sources::Two(marks, eroded(levels));
    add(&mut plan, Step::MarkLast(levels + 1), sources)?;
    Ok(plan)
}
