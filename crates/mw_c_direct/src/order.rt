//! Which step is made next.
//!
//! Of all steps that can be made it is the latest, as among the tasks of a core: plans are laid out for that. A skeleton begins
//! with all its erosions, and each of them is made only where no turn can go on without it.

ghost use Rattle.std.specs.Prelude.{◌≡◌, ◌<◌, ◌↔◌, length, slice_index_or, IfNone, IfSome, IsTrue};
ghost use Rattle.std.specs.List.{AllByRecursion};
ghost use Rattle.mw_model.specs.Tasks.{flag, nothing_planned};
ghost use Rattle.mw_plan.specs.Seen.{source, sources};
ghost use Rattle.mw_c_direct.specs.Kept.{SourceIsMade};
ghost use Rattle.mw_c_direct.specs.Runs.{CanBeNext, HasSteps};

use mw_plan::{Plan, Source, Sources};

fn is_step_made(made: &[bool], k: usize) -> bool
    ensures { result ≡ flag made.now k }
{
    k < made.len() && made[k]
}

/// Whether a source is the image, or a step that is made.
fn is_made(made: &[bool], from: Source) -> bool
    ensures { IsTrue result ↔ SourceIsMade made.now (source from) }
{
    match from {
        Source::Input(_) => true,
        Source::Step(k) => is_step_made(made, usize::from(k)),
    }
}

fn are_made(made: &[bool], from: Sources) -> bool
    ensures { IsTrue result ↔ AllByRecursion (SourceIsMade made.now) (sources from) }
{
    match from {
        Sources::Nothing => true,
        Sources::One(a) => is_made(made, a),
        Sources::Two(a, b) => is_made(made, a) && is_made(made, b),
        Sources::Three(a, b, c) => is_made(made, a) && is_made(made, b) && is_made(made, c),
    }
}

/// The latest step before step `k` that can be made now; none, if all that step `k` reads is made.
#[tactic(auto, using(crate::proofs::Steps::sources_made))]
pub(crate) fn next_before(plan: &Plan, made: &[bool], k: usize) -> Option<usize>
    requires steps { HasSteps plan.now }
    requires within { k < length plan.now }
    ensures none { IfNone result (AllByRecursion (SourceIsMade made.now) (slice_index_or plan.now k nothing_planned).sources) }
    ensures some { IfSome result (CanBeNext plan.now made.now k) }
{
    if are_made(made, plan.step(k).sources) {
        return None;
    }
    let mut place = k;
    'steps: while place > 0 {
        place -= 1;
        if !is_step_made(made, place) && are_made(made, plan.step(place).sources) {
            return Some(place);
        }
    }
    None
}
