//! Restorations: the union of the n-fold dilations of what is marked n + 1.
//!
//! A dilation of a union is the union of the dilations, so the marks are taken from the last to the first, and all that is
//! restored so far is dilated once in each turn: three steps for a level in place of as many dilations as the level has.
//!
//! The sets of all levels come first, rising, and then the turns. Of all ready tasks those of the latest step are taken
//! first: so the set of a level is made only where no turn can go on without it, and the one that is wanted next is made
//! next. If it stood in its turn, all sets would be made and kept before the first dilation.

ghost use Rattle.std.specs.Prelude.{◌≡◌, ◌+◌, ◌*◌, ◌<◌, ◌≤◌, ℕ, List, length, IfOk};
ghost use Rattle.mw_model.specs.declared.limits.TheConstants.{TURN_LIMIT};
ghost use Rattle.mw_model.specs.declared.offsets.Offset.{Offset};
ghost use Rattle.mw_model.specs.Iterates.{restoration};
ghost use Rattle.mw_model.specs.Pictures.{IsPicture};
ghost use Rattle.mw_plan.specs.mw_step_task.Meanings.{meaning};
ghost use Rattle.mw_plan.specs.Seen.{source};
ghost use Rattle.mw_gran.specs.Turns.{Draws, HasLevels, Restores, Slides};

use crate::growing::add;
use crate::sliding::SlidingSteps;
use mw_model::NoMemory;
use mw_plan::{Plan, Source, Sources, Step};
use std::alloc::Global;

/// A plan that begins with the sets of the levels from 1 to `levels + 1`.
fn rising(alloc: Global, levels: u16) -> Result<Plan, NoMemory>
    requires { levels ≤ TURN_LIMIT }
    ensures { IfOk result (HasLevels (levels + 1)) }
{
    let mut plan = Plan::with_capacity(alloc, 3 * usize::from(levels) + 1)?;
    for done in 0..levels + 1 {
        let image = Sources::One(Source::Input(0));
        add(&mut plan, Step::Equal(done + 1), image)?;
    }
    Ok(plan)
}

/// One turn: what is restored so far is dilated, and joined with the set of this level.
fn turn(
    plan: &mut Plan,
    steps: &SlidingSteps,
    restored: Source,
    level: u16,
) -> Result<Source, NoMemory>
    requires few { length plan.old < 65000 }
    requires some { 0 < level }
    ensures count { IfOk result (λ _. length plan.new ≡ length plan.old + 2) }
    ensures restores { (b : List Offset) (depth n m : ℕ) → Slides b (meaning steps.now.erode) (meaning steps.now.dilate) → level ≡ n + 1 → n < depth → Restores b depth (n + 1) m plan.old (source restored) → IfOk result (λ s. Restores b depth n (m + 1) plan.new (source s)) }
{
    let grown = add(plan, steps.dilate.share()?, Sources::One(restored))?;
    let marked = Source::Step(level - 1);
    let joined = add(plan, Step::Join, Sources::Two(marked, grown))?;
    Ok(joined)
}

/// The plan of a restoration.
pub(crate) fn restoration(
    alloc: Global,
    steps: &SlidingSteps,
    levels: u16,
) -> Result<Plan, NoMemory>
    requires { levels ≤ TURN_LIMIT }
    ensures { (b : List Offset) → Slides b (meaning steps.now.erode) (meaning steps.now.dilate) → IfOk result (λ p. Draws IsPicture p (3 * levels + 1) (restoration b levels)) }
{
    let mut plan = rising(alloc, levels)?;
    let mut restored = Source::Step(levels);
    for done in 0..levels {
        restored = turn(&mut plan, steps, restored, levels - done)?;
    }
    Ok(plan)
}
