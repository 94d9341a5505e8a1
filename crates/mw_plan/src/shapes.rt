//! The shape of a result, which is known before any of it is computed.

ghost use Rattle.std.specs.Prelude.{◌≡◌, ◌+◌, ◌∷◌, [], length, not, IfOk};
ghost use Rattle.std.specs.Arc.{arc_value};
ghost use Rattle.std.specs.Result.{result_err};
ghost use Rattle.mw_model.specs.Elements.{holds_origin, overlaps};
ghost use Rattle.mw_model.specs.Machine.{as_bits, as_grey};
ghost use Rattle.mw_model.specs.Refusals.{is_binary};
ghost use Rattle.mw_plan.specs.declared.inputs.Input.{Input};
ghost use Rattle.mw_plan.specs.Asked.{binary_fault, fault_in, first_fault, image_shape, is_element_input, is_image_input, number_fault, offsets_of_input, origin_fault, shape_made, unless};

use crate::{Input, PlanFault};
use mw_model::{FlatOp, GranOp, LEVEL_LIMIT, Op, SIZE_LIMIT, Shape, TURN_LIMIT};
use mw_step_task::element::Element;
use std::sync::Arc;

fn image(place: u8, input: Input<'_>) -> Result<Shape, PlanFault>
    ensures fault { result_err result ≡ unless (is_image_input input.entry) (PlanFault.Kind place) }
    ensures shape { IfOk result (λ s. s ≡ image_shape input.entry) }
{
    match input {
        Input::Image(Shape::Image(kind, width, height, maxval)) => {
            Ok(Shape::Image(kind, width, height, maxval))
        }
        _ => Err(PlanFault::Kind(place)),
    }
}

fn element<'a>(place: u8, input: Input<'a>) -> Result<&'a Arc<Element>, PlanFault>
    ensures fault { result_err result ≡ unless (is_element_input input.entry) (PlanFault.Kind place) }
    ensures offsets { IfOk result (λ e. (arc_value e.now).offsets ≡ offsets_of_input input.entry) }
{
    match input {
        Input::Element(element) => Ok(element),
        _ => Err(PlanFault::Kind(place)),
    }
}

/// An image and an element.
fn pair<'a>(a: Input<'_>, b: Input<'a>) -> Result<(Shape, &'a Arc<Element>), PlanFault>
    ensures fault { result_err result ≡ first_fault (unless (is_image_input a.entry) (PlanFault.Kind 0) ∷ unless (is_element_input b.entry) (PlanFault.Kind 1) ∷ []) }
    ensures shape { IfOk result (λ p. p.0 ≡ image_shape a.entry) }
    ensures offsets { IfOk result (λ p. (arc_value p.1.now).offsets ≡ offsets_of_input b.entry) }
{
    let shape = image(0, a)?;
    let element = element(1, b)?;
    Ok((shape, element))
}

fn number(first: usize, last: usize, k: u32) -> Result<(), PlanFault>
    ensures { result_err result ≡ number_fault first last k }
{
    if first <= k as usize && k as usize <= last {
        Ok(())
    } else {
        Err(PlanFault::Param)
    }
}

fn binary(shape: Shape) -> Result<(), PlanFault>
    ensures { result_err result ≡ unless (is_binary shape) PlanFault.Binary }
{
    if shape.is_binary() {
        Ok(())
    } else {
        Err(PlanFault::Binary)
    }
}

fn origin(element: &Element) -> Result<(), PlanFault>
    ensures { result_err result ≡ unless (holds_origin element.now.offsets) PlanFault.NoOrigin }
{
    if element.holds_origin() {
        Ok(())
    } else {
        Err(PlanFault::NoOrigin)
    }
}

fn of_rank(a: Input<'_>, b: Input<'_>, k: u32) -> Result<Shape, PlanFault>
    ensures fault { result_err result ≡ first_fault (unless (is_image_input a.entry) (PlanFault.Kind 0) ∷ unless (is_element_input b.entry) (PlanFault.Kind 1) ∷ origin_fault b.entry ∷ number_fault 1 (length (offsets_of_input b.entry)) k ∷ []) }
    ensures shape { IfOk result (λ s. s ≡ image_shape a.entry) }
{
    let (shape, element) = pair(a, b)?;
    origin(element)?;
    number(1, element.size(), k)?;
    Ok(shape)
}

fn of_threshold(a: Input<'_>, k: u32) -> Result<Shape, PlanFault>
    ensures fault { result_err result ≡ first_fault (unless (is_image_input a.entry) (PlanFault.Kind 0) ∷ number_fault 0 LEVEL_LIMIT k ∷ []) }
    ensures shape { IfOk result (λ s. s ≡ as_bits (image_shape a.entry)) }
{
    let shape = image(0, a)?;
    number(0, LEVEL_LIMIT as usize, k)?;
    Ok(shape.as_bits())
}

fn of_hit_miss(a: Input<'_>, b: Input<'_>, c: Input<'_>) -> Result<Shape, PlanFault>
    ensures fault { result_err result ≡ first_fault (unless (is_image_input a.entry) (PlanFault.Kind 0) ∷ unless (is_element_input b.entry) (PlanFault.Kind 1) ∷ unless (is_element_input c.entry) (PlanFault.Kind 2) ∷ unless (not (overlaps (offsets_of_input b.entry) (offsets_of_input c.entry))) PlanFault.Overlap ∷ []) }
    ensures shape { IfOk result (λ s. s ≡ image_shape a.entry) }
{
    let (shape, hit) = pair(a, b)?;
    let miss = element(2, c)?;
    if hit.overlaps(miss) {
        return Err(PlanFault::Overlap);
    }
    Ok(shape)
}

fn of_flat(op: &FlatOp, a: Input<'_>, b: Input<'_>, c: Input<'_>) -> Result<Shape, PlanFault>
    ensures fault { result_err result ≡ fault_in (Op.Flat op.now) a.entry b.entry c.entry }
    ensures shape { IfOk result (λ s. s ≡ shape_made (Op.Flat op.now) a.entry) }
{
    match op {
        FlatOp::Erode(_, _)
        | FlatOp::Dilate(_, _)
        | FlatOp::Opening(_, _)
        | FlatOp::Closing(_, _)
        | FlatOp::Gradient(_, _)
        | FlatOp::WhiteTopHat(_, _)
        | FlatOp::BlackTopHat(_, _) => {
            let (shape, _element) = pair(a, b)?;
            Ok(shape)
        }
        FlatOp::Rank(_, _, k) => of_rank(a, b, *k),
        FlatOp::Threshold(_, k) => of_threshold(a, *k),
        FlatOp::HitMiss(_, _, _) => of_hit_miss(a, b, c),
    }
}

fn of_skeleton(a: Input<'_>, b: Input<'_>, levels: u32) -> Result<Shape, PlanFault>
    ensures fault { result_err result ≡ first_fault (unless (is_image_input a.entry) (PlanFault.Kind 0) ∷ unless (is_element_input b.entry) (PlanFault.Kind 1) ∷ binary_fault a.entry ∷ origin_fault b.entry ∷ number_fault 1 TURN_LIMIT levels ∷ []) }
    ensures shape { IfOk result (λ s. s ≡ as_grey (levels + 1) (image_shape a.entry)) }
{
    let (shape, element) = pair(a, b)?;
    binary(shape)?;
    origin(element)?;
    number(1, TURN_LIMIT as usize, levels)?;
    Ok(shape.as_grey(levels as u16 + 1))
}

fn of_restore(a: Input<'_>, b: Input<'_>, levels: u32) -> Result<Shape, PlanFault>
    ensures fault { result_err result ≡ first_fault (unless (is_image_input a.entry) (PlanFault.Kind 0) ∷ unless (is_element_input b.entry) (PlanFault.Kind 1) ∷ number_fault 1 TURN_LIMIT levels ∷ []) }
    ensures shape { IfOk result (λ s. s ≡ as_bits (image_shape a.entry)) }
{
    let (shape, _element) = pair(a, b)?;
    number(1, TURN_LIMIT as usize, levels)?;
    Ok(shape.as_bits())
}

fn of_spectrum(a: Input<'_>, b: Input<'_>, levels: u32) -> Result<Shape, PlanFault>
    ensures fault { result_err result ≡ first_fault (unless (is_image_input a.entry) (PlanFault.Kind 0) ∷ unless (is_element_input b.entry) (PlanFault.Kind 1) ∷ number_fault 1 SIZE_LIMIT levels ∷ []) }
    ensures shape { IfOk result (λ s. s ≡ Shape.Curve (levels + 1)) }
{
    let (_shape, _element) = pair(a, b)?;
    number(1, SIZE_LIMIT as usize, levels)?;
    Ok(Shape::Curve(levels + 1))
}

fn of_gran(op: &GranOp, a: Input<'_>, b: Input<'_>) -> Result<Shape, PlanFault>
    ensures fault { (c : Input) → result_err result ≡ fault_in (Op.Gran op.now) a.entry b.entry c }
    ensures shape { IfOk result (λ s. s ≡ shape_made (Op.Gran op.now) a.entry) }
{
    match op {
        GranOp::Skeleton(_, _, levels) => of_skeleton(a, b, *levels),
        GranOp::Restore(_, _, levels) => of_restore(a, b, *levels),
        GranOp::Spectrum(_, _, levels) => of_spectrum(a, b, *levels),
    }
}

/// The shape of the result, or the first fault of the operation on these inputs, in argument order. `Absent` in the place
/// of an input is of the wrong kind there; what stands past the operation's inputs is not looked at. It takes no memory.
pub fn shape_of(op: &Op, a: Input<'_>, b: Input<'_>, c: Input<'_>) -> Result<Shape, PlanFault>
    ensures fault { result_err result ≡ fault_in op.now a.entry b.entry c.entry }
    ensures shape { IfOk result (λ s. s ≡ shape_made op.now a.entry) }
{
    match op {
        Op::Flat(op) => of_flat(op, a, b, c),
        Op::Gran(op) => of_gran(op, a, b),
    }
}
