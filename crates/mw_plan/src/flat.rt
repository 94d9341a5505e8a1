//! Plans of flat operators.
//!
//! An erosion, a dilation, a rank filter and a threshold are one step. An opening and a closing are two: an extremum, and
//! then the other by the element turned round. A gradient, a top-hat and a hit-or-miss end in a difference.

ghost use Rattle.std.specs.Prelude.{◌≡◌, true, false, [], ◌∷◌, length, IfOk, None};
ghost use Rattle.mw_model.specs.Flat.{minus, rank, threshold};
ghost use Rattle.mw_step_task.specs.Meanings.{meaning};
ghost use Rattle.mw_plan.specs.Asked.{IsRefusedBy, fault_in, is_element_input, offsets_of_input};
ghost use Rattle.mw_plan.specs.Forms.{has_rows, is_row_plan, is_strip_plan};
ghost use Rattle.mw_plan.specs.PlansOf.{IsPlanOf};
ghost use Rattle.mw_plan.specs.Seen.{planned};
ghost use Rattle.mw_plan.specs.Steps.{HasElements, HasForm, IsChain, Makes, filtering, greater, less, lesser, of_image, operator_of, residue, sliding, step_count};

use crate::building::{less, of_image, of_step};
use crate::extremum::ExtremumKind;
use crate::sliding::{rank, slide, slide_turned};
use crate::{Input, Plan, PlanFault, PlannedStep, Source, shape_of};
use mw_model::{FlatOp, NoMemory, Op};
use mw_step_task::Step;
use std::alloc::Global;

/// One step on the image.
fn alone(alloc: Global, step: Step) -> Result<Plan, NoMemory>
    ensures { IfOk result (λ p. p ≡ of_image (meaning step) ∷ []) }
{
    let mut plan = Plan::with_capacity(alloc, 1)?;
    plan.push(of_image(step))?;
    Ok(plan)
}

/// An erosion or a dilation.
fn extremum_plan(alloc: Global, extremum: ExtremumKind, b: Input<'_>) -> Result<Plan, NoMemory>
    requires { is_element_input b ≡ true }
    ensures makes { IfOk result (Makes 1 (sliding extremum (offsets_of_input b.entry))) }
    ensures form { IfOk result (HasForm true) }
{
    alone(alloc, slide(extremum, b)?)
}

/// An extremum and then the other by the element turned round, in a plan with room for so many steps.
fn chain(alloc: Global, room: usize, extremum: ExtremumKind, b: Input<'_>) -> Result<Plan, NoMemory>
    requires { is_element_input b ≡ true }
    ensures { IfOk result (IsChain extremum (offsets_of_input b.entry)) }
{
    let first = slide(extremum, b)?;
    let second = slide_turned(alloc, extremum.other(), b)?;
    let mut plan = Plan::with_capacity(alloc, room)?;
    plan.push(of_image(first))?;
    plan.push(of_step(0, second))?;
    Ok(plan)
}

/// An opening or a closing.
fn opening_plan(alloc: Global, extremum: ExtremumKind, b: Input<'_>) -> Result<Plan, NoMemory>
    requires { is_element_input b ≡ true }
    ensures makes { IfOk result (Makes 2 (filtering extremum (offsets_of_input b.entry))) }
    ensures form { IfOk result (HasForm false) }
{
    chain(alloc, 2, extremum, b)
}

/// The image less its opening, or its closing less the image.
fn top_hat_step(extremum: ExtremumKind) -> PlannedStep
    ensures { planned result ≡ less (greater extremum) (lesser extremum) }
{
    match extremum {
        ExtremumKind::Least => less(Source::Input(0), Source::Step(1)),
        ExtremumKind::Greatest => less(Source::Step(1), Source::Input(0)),
    }
}

/// A top-hat.
fn residue(alloc: Global, extremum: ExtremumKind, b: Input<'_>) -> Result<Plan, NoMemory>
    requires { is_element_input b ≡ true }
    ensures makes { IfOk result (Makes 3 (residue extremum (offsets_of_input b.entry))) }
    ensures form { IfOk result (HasForm false) }
{
    let mut plan = chain(alloc, 3, extremum, b)?;
    plan.push(top_hat_step(extremum))?;
    Ok(plan)
}

/// An extremum by the first element less an extremum by the second.
fn difference(
    alloc: Global,
    upper: ExtremumKind,
    first: Input<'_>,
    lower: ExtremumKind,
    second: Input<'_>,
) -> Result<Plan, NoMemory>
    requires first { is_element_input first ≡ true }
    requires second { is_element_input second ≡ true }
    ensures makes { IfOk result (Makes 3 (λ f. minus (sliding upper (offsets_of_input first.entry) f) (sliding lower (offsets_of_input second.entry) f))) }
    ensures form { IfOk result (HasForm true) }
{
    let greater = slide(upper, first)?;
    let lesser = slide(lower, second)?;
    let mut plan = Plan::with_capacity(alloc, 3)?;
    plan.push(of_image(greater))?;
    plan.push(of_image(lesser))?;
    plan.push(less(Source::Step(0), Source::Step(1)))?;
    Ok(plan)
}

fn rank_plan(alloc: Global, b: Input<'_>, k: u32) -> Result<Plan, NoMemory>
    requires { is_element_input b ≡ true }
    ensures makes { IfOk result (Makes 1 (rank (offsets_of_input b.entry) k)) }
    ensures form { IfOk result (HasForm true) }
{
    alone(alloc, rank(b, k)?)
}

fn thresholded(alloc: Global, k: u32) -> Result<Plan, NoMemory>
    ensures makes { IfOk result (Makes 1 (threshold k)) }
    ensures form { IfOk result (HasForm true) }
{
    alone(alloc, Step::AtLeast(k))
}

/// The steps of an operation whose elements are there.
fn steps(alloc: Global, op: &FlatOp, b: Input<'_>, c: Input<'_>) -> Result<Plan, NoMemory>
    requires { HasElements op.now b c }
    ensures makes { IfOk result (Makes (step_count op.now) (operator_of op.now (offsets_of_input b.entry) (offsets_of_input c.entry))) }
    ensures form { IfOk result (HasForm (has_rows op.now)) }
{
    match op {
        FlatOp::Erode(_, _) => extremum_plan(alloc, ExtremumKind::Least, b),
        FlatOp::Dilate(_, _) => extremum_plan(alloc, ExtremumKind::Greatest, b),
        FlatOp::Opening(_, _) => opening_plan(alloc, ExtremumKind::Least, b),
        FlatOp::Closing(_, _) => opening_plan(alloc, ExtremumKind::Greatest, b),
        FlatOp::Gradient(_, _) => difference(
            alloc,
            ExtremumKind::Greatest,
            b,
            ExtremumKind::Least,
            b,
        ),
        FlatOp::WhiteTopHat(_, _) => residue(alloc, ExtremumKind::Least, b),
        FlatOp::BlackTopHat(_, _) => residue(alloc, ExtremumKind::Greatest, b),
        FlatOp::Rank(_, _, k) => rank_plan(alloc, b, *k),
        FlatOp::Threshold(_, k) => thresholded(alloc, *k),
        FlatOp::HitMiss(_, _, _) => difference(
            alloc,
            ExtremumKind::Least,
            b,
            ExtremumKind::Greatest,
            c,
        ),
    }
}

/// A plan of an operation with which `shape_of` finds no fault on these inputs, or `NoMemory`.
pub fn plan_of_legal(
    alloc: Global,
    op: &FlatOp,
    a: Input<'_>,
    b: Input<'_>,
    c: Input<'_>,
) -> Result<Plan, NoMemory>
    requires legal { fault_in (Op.Flat op.now) a b c ≡ None }
    ensures steps { IfOk result (λ p. length p ≡ step_count op.now) }
    ensures strips { IfOk result (λ p. is_strip_plan p ≡ true) }
    ensures rows { IfOk result (λ p. is_row_plan p ≡ has_rows op.now) }
    ensures plan { IfOk result (IsPlanOf (Op.Flat op.now) a.entry b.entry c.entry) }
{
    let plan = steps(alloc, op, b, c)?;
    Ok(plan)
}

/// A plan of the operation on these inputs, or its first fault as `shape_of` tells it, or `NoMemory` where memory was
/// refused.
pub fn plan_of(
    alloc: Global,
    op: &FlatOp,
    a: Input<'_>,
    b: Input<'_>,
    c: Input<'_>,
) -> Result<Plan, PlanFault>
    ensures refused { IsRefusedBy (fault_in (Op.Flat op.now) a.entry b.entry c.entry) result }
    ensures steps { IfOk result (λ p. length p ≡ step_count op.now) }
    ensures strips { IfOk result (λ p. is_strip_plan p ≡ true) }
    ensures rows { IfOk result (λ p. is_row_plan p ≡ has_rows op.now) }
    ensures plan { IfOk result (IsPlanOf (Op.Flat op.now) a.entry b.entry c.entry) }
{
    shape_of(&Op::Flat(*op), a, b, c)?;
    Ok(plan_of_legal(alloc, op, a, b, c)?)
}
