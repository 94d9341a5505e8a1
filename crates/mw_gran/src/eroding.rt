//! The erosions at the head of a plan, each of what the one before it leaves.
//!
//! Of all ready tasks those of the latest step are taken first. So what turns have in common stands before all of them:
//! an erosion is made only where no turn can go on, and its plane is dropped once the turns that read it are done. If each
//! stood in its turn, behind the turns before it, the erosions would run ahead of the turns that read them, and their
//! planes would be kept all that time.

ghost use Rattle.std.specs.Prelude.{◌≡◌, ◌≤◌, List, length, IfOk};
ghost use Rattle.mw_model.specs.declared.limits.TheConstants.{TURN_LIMIT};
ghost use Rattle.mw_model.specs.declared.offsets.Offset.{Offset};
ghost use Rattle.mw_plan.specs.mw_step_task.Meanings.{meaning};
ghost use Rattle.mw_plan.specs.Seen.{source};
ghost use Rattle.mw_gran.specs.Turns.{Erodes, Slides, after_erosions};

use crate::growing::add;
use crate::sliding::SlidingSteps;
use mw_model::NoMemory;
use mw_plan::{Plan, Source, Sources};
use std::alloc::Global;

/// Where is read what n erosions leave of the image.
pub(crate) fn eroded(n: u16) -> Source
    ensures { source result ≡ after_erosions n }
{
    if n == 0 {
        return Source::Input(0);
    }
    Source::Step(n - 1)
}

/// A plan that begins with so many erosions, with room for so many steps.
pub(crate) fn erosions(
    alloc: Global,
    steps: &SlidingSteps,
    count: u16,
    room: usize,
) -> Result<Plan, NoMemory>
    requires { count ≤ TURN_LIMIT }
    ensures count { IfOk result (λ p. length p ≡ count) }
    ensures erodes { (b : List Offset) → Slides b (meaning steps.now.erode) (meaning steps.now.dilate) → IfOk result (Erodes b count) }
{
    let mut plan = Plan::with_capacity(alloc, room)?;
    for done in 0..count {
        let sources = Sources::One(eroded(done));
        add(&mut plan, steps.erode.share()?, sources)?;
    }
    Ok(plan)
}
