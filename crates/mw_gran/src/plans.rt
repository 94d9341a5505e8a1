//! Plans of iterated operators.

ghost use Rattle.std.specs.Prelude.{◌≡◌, ◌+◌, ◌*◌, ◌≤◌, true, length, IfOk, None};
ghost use Rattle.std.specs.Arc.{arc_value};
ghost use Rattle.mw_plan.specs.mw_element.Figures.{FillsBox};
ghost use Rattle.mw_model.specs.declared.limits.TheConstants.{STEP_LIMIT, TURN_LIMIT};
ghost use Rattle.mw_model.specs.declared.offsets.OffsetBox.{OffsetBox};
ghost use Rattle.mw_model.specs.Iterates.{skeleton, restoration};
ghost use Rattle.mw_model.specs.Laws.{HoldsOrigin};
ghost use Rattle.mw_model.specs.Pictures.{IsPicture, IsSet};
ghost use Rattle.mw_plan.specs.Asked.{IsRefusedBy, fault_in, offsets_of_input};
ghost use Rattle.mw_plan.specs.PlansOf.{IsPlanOf};
ghost use Rattle.mw_gran.specs.Sizes.{LevelsFit, MakesGran, most_steps, most_steps_by_box};
ghost use Rattle.mw_gran.specs.Turns.{Draws};

use crate::restorations::restoration;
use crate::skeletons::skeleton;
use crate::sliding::sliding_steps;
use crate::spectra::spectrum;
use mw_model::{GranOp, NoMemory, Op};
use mw_plan::element::Element;
use mw_plan::{Input, Plan, PlanFault, shape_of};
use std::alloc::Global;
use std::sync::Arc;

/// The plan of a skeleton by this element.
fn skeleton_by(alloc: Global, element: &Arc<Element>, levels: u32) -> Result<Plan, NoMemory>
    requires { levels ≤ TURN_LIMIT }
    ensures { IfOk result (λ p. Draws IsSet p (3 * levels + 2) (skeleton (arc_value element.now).offsets levels)) }
{
    let steps = sliding_steps(alloc, element)?;
    skeleton(alloc, &steps, levels as u16)
}

/// The plan of a restoration by this element.
fn restoration_by(alloc: Global, element: &Arc<Element>, levels: u32) -> Result<Plan, NoMemory>
    requires { levels ≤ TURN_LIMIT }
    ensures { IfOk result (λ p. Draws IsPicture p (3 * levels + 1) (restoration (arc_value element.now).offsets levels)) }
{
    let steps = sliding_steps(alloc, element)?;
    restoration(alloc, &steps, levels as u16)
}

/// The steps of an operation by this element.
fn steps(alloc: Global, op: &GranOp, element: &Arc<Element>) -> Result<Plan, NoMemory>
    requires { LevelsFit op.now }
    ensures { IfOk result (MakesGran op.now (arc_value element.now).offsets) }
{
    match op {
        GranOp::Skeleton(_, _, levels) => skeleton_by(alloc, element, *levels),
        GranOp::Restore(_, _, levels) => restoration_by(alloc, element, *levels),
        GranOp::Spectrum(_, _, levels) => spectrum(alloc, element, *levels),
    }
}

/// The plan of an operation with which `mw_plan::shape_of` finds no fault on these inputs, or `NoMemory`.
fn plan_of_legal_gran(
    alloc: Global,
    op: &GranOp,
    a: Input<'_>,
    b: Input<'_>,
    c: Input<'_>,
) -> Result<Plan, NoMemory>
    requires legal { fault_in (Op.Gran op.now) a b c ≡ None }
    ensures plan { IfOk result (IsPlanOf (Op.Gran op.now) a.entry b.entry c.entry) }
    ensures steps { IfOk result (λ p. length p ≤ most_steps op.now) }
    ensures boxed { IfOk result (λ p. (box : OffsetBox) → FillsBox box (offsets_of_input b.entry) → HoldsOrigin (offsets_of_input b.entry) → length p ≤ most_steps_by_box op.now) }
    ensures short { IfOk result (λ p. length p ≤ STEP_LIMIT) }
{
    let plan = steps(alloc, op, b.element())?;
    Ok(plan)
}

/// A plan of the operation on these inputs, or its first fault as `mw_plan::shape_of` tells it, or `NoMemory` where memory
/// was refused.
pub fn plan_of(
    alloc: Global,
    op: &GranOp,
    a: Input<'_>,
    b: Input<'_>,
    c: Input<'_>,
) -> Result<Plan, PlanFault>
    ensures refused { IsRefusedBy (fault_in (Op.Gran op.now) a.entry b.entry c.entry) result }
    ensures plan { IfOk result (IsPlanOf (Op.Gran op.now) a.entry b.entry c.entry) }
    ensures steps { IfOk result (λ p. length p ≤ most_steps op.now) }
    ensures boxed { IfOk result (λ p. (box : OffsetBox) → FillsBox box (offsets_of_input b.entry) → HoldsOrigin (offsets_of_input b.entry) → length p ≤ most_steps_by_box op.now) }
    ensures short { IfOk result (λ p. length p ≤ STEP_LIMIT) }
{
    shape_of(&Op::Gran(*op), a, b, c)?;
    Ok(plan_of_legal_gran(alloc, op, a, b, c)?)
}

/// The plan of an operation of either kind with which `mw_plan::shape_of` finds no fault on these inputs, or `NoMemory`.
pub fn plan_of_legal(
    alloc: Global,
    op: &Op,
    a: Input<'_>,
    b: Input<'_>,
    c: Input<'_>,
) -> Result<Plan, NoMemory>
    requires legal { fault_in op.now a b c ≡ None }
    ensures plan { IfOk result (IsPlanOf op.now a.entry b.entry c.entry) }
{
    match op {
        Op::Flat(flat) => mw_plan::plan_of_legal(alloc, flat, a, b, c),
        Op::Gran(gran) => plan_of_legal_gran(alloc, gran, a, b, c),
    }
}

/// A plan of an operation of either kind on these inputs, or its first fault as `mw_plan::shape_of` tells it, or `NoMemory`
/// where memory was refused.
pub fn plan_of_any(
    alloc: Global,
    op: &Op,
    a: Input<'_>,
    b: Input<'_>,
    c: Input<'_>,
) -> Result<Plan, PlanFault>
    ensures refused { IsRefusedBy (fault_in op.now a.entry b.entry c.entry) result }
    ensures plan { IfOk result (IsPlanOf op.now a.entry b.entry c.entry) }
{
    match op {
        Op::Flat(flat) => mw_plan::plan_of(alloc, flat, a, b, c),
        Op::Gran(gran) => plan_of(alloc, gran, a, b, c),
    }
}
