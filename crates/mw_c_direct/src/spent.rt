//! Planes that no step reads any more.

ghost use Rattle.std.specs.Prelude.{◌≡◌, ℕ, false, true, length, slice_index_or, IfSome};
ghost use Rattle.std.specs.List.{AllByRecursion, list_any};
ghost use Rattle.mw_model.specs.Tasks.{is_step};
ghost use Rattle.mw_plan.specs.Seen.{source, sources};
ghost use Rattle.mw_c_direct.specs.Kept.{IsKeptWanted, IsWanted, KeepsRead, kept_at};

use mw_pixel::Image;
use mw_plan::{Plan, Source, Sources};

fn is_step(from: Source, k: usize) -> bool
    ensures { result ≡ is_step k (source from) }
{
    match from {
        Source::Step(j) => usize::from(j) == k,
        Source::Input(_) => false,
    }
}

fn has_step(from: Sources, k: usize) -> bool
    ensures { result ≡ list_any (is_step k) (sources from) }
{
    match from {
        Sources::Nothing => false,
        Sources::One(a) => is_step(a, k),
        Sources::Two(a, b) => is_step(a, k) || is_step(b, k),
        Sources::Three(a, b, c) => is_step(a, k) || (is_step(b, k) || is_step(c, k)),
    }
}

/// Whether a step that is not made yet reads step `k`.
fn is_wanted(plan: &Plan, made: &[bool], k: usize) -> bool
    requires { length made.now ≡ length plan.now }
    ensures wanted { result ≡ true → IsWanted plan.now made.now k }
    ensures spent { result ≡ false → IsWanted plan.now made.now k → ⊥ }
{
    for i in 0..plan.len() {
        if !made[i] && has_step(plan.step(i).sources, k) {
            return true;
        }
    }
    false
}

/// Drops the plane of a step, if no step that is not made yet reads it.
pub(crate) fn drop_unwanted(plan: &Plan, made: &[bool], k: usize, planes: &mut Vec<Option<Image>>)
    requires { length made.now ≡ length plan.now }
    ensures keeps { KeepsRead plan.now made.now planes.old.items planes.new.items }
    ensures wanted { IfSome (kept_at planes.new.items k) (λ _. IsWanted plan.now made.now k) }
{
    if k < planes.len() && !is_wanted(plan, made, k) {
        planes[k] = None;
    }
}

/// Drops the plane of the step that a source is, if no step that is not made yet reads it.
fn drop_one(plan: &Plan, made: &[bool], from: Source, planes: &mut Vec<Option<Image>>)
    requires { length made.now ≡ length plan.now }
    ensures keeps { KeepsRead plan.now made.now planes.old.items planes.new.items }
    ensures wanted { IsKeptWanted plan.now made.now planes.new.items (source from) }
{
    if let Source::Step(k) = from {
        drop_unwanted(plan, made, usize::from(k), planes);
    }
}

/// Drops the planes of the steps among the sources that no step that is not made yet reads.
pub(crate) fn drop_spent(plan: &Plan, made: &[bool], from: Sources, planes: &mut Vec<Option<Image>>)
    requires { length made.now ≡ length plan.now }
    ensures keeps { KeepsRead plan.now made.now planes.old.items planes.new.items }
    ensures wanted { AllByRecursion (IsKeptWanted plan.now made.now planes.new.items) (sources from) }
{
    match from {
        Sources::Nothing => {}
        Sources::One(a) => drop_one(plan, made, a, planes),
        Sources::Two(a, b) => {
            drop_one(plan, made, a, planes);
            drop_one(plan, made, b, planes);
        }
        Sources::Three(a, b, c) => {
            drop_one(plan, made, a, planes);
            drop_one(plan, made, b, planes);
            drop_one(plan, made, c, planes);
        }
    }
}
