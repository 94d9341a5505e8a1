//! Operations on whole images.

ghost use Rattle.std.specs.Prelude.{◌≡◌, true, Some, IfOk};
ghost use Rattle.mw_model.specs.declared.operations.FlatOp.{FlatOp};
ghost use Rattle.mw_model.specs.Pictures.{FitsKind, IsImage, IsPicture};
ghost use Rattle.mw_model.specs.Plans.{numbers_from};
ghost use Rattle.mw_model.specs.Refusals.{is_image};
ghost use Rattle.mw_model.specs.Values.{result_of, shape_of_picture};
ghost use Rattle.mw_plan.specs.Asked.{IsRefusedBy, fault_in, is_image_input, shape_made};
ghost use Rattle.mw_plan.specs.Steps.{operator_of};
ghost use Rattle.mw_c_direct.specs.Values.{IsImageMade, IsSoundMade, figure_given, input_given, offsets_given, value_of_made, values_given};

use crate::running::{last_plane, numbers};
use mw_element::Element;
use mw_gran::{Curve, plan_of_any};
use mw_model::{GranOp, Op};
use mw_pixel::Image;
use mw_plan::{Input, PlanFault};
use std::alloc::Global;
use std::sync::Arc;

/// What an operation gives: an image, or the volumes of a spectrum.
#[derive(Drop)]
pub enum Made {
    Image(Image),
    Curve(Curve),
}

/// Whether an operation on an image gives an image.
fn draws(op: &Op, a: Input<'_>) -> bool
    requires { is_image_input a ≡ true }
    ensures { result ≡ is_image (shape_made op.now a.entry) }
{
    match op {
        Op::Gran(GranOp::Spectrum(_, _, _)) => false,
        _ => true,
    }
}

/// What stands in the place of an element, if one is given.
fn input(element: Option<&Arc<Element>>) -> Input<'_>
    ensures { result ≡ input_given element.entry }
{
    match element {
        Some(element) => Input::Element(element),
        None => Input::Absent,
    }
}

/// What holds of every image. It does nothing.
fn facts_of(image: &Image)
    ensures picture { IsPicture image.now }
    ensures maxval { FitsKind image.now.kind image.now.maxval }
{
    let _maxval = image.maxval();
    let _view = image.view();
}

/// What the operation makes of the image and the elements, or its first fault as `shape_of` tells it, or
/// `NoMemory` where memory was refused. The names in the operation are not looked at.
pub fn apply(
    alloc: Global,
    op: &Op,
    image: &Image,
    b: Option<&Arc<Element>>,
    c: Option<&Arc<Element>>,
) -> Result<Made, PlanFault>
    requires { IsImage image.now }
    ensures refused { IsRefusedBy (fault_in op.now (Input.Image (shape_of_picture image.now)) (input_given b.entry) (input_given c.entry)) result }
    ensures value { IfOk result (λ m. result_of op.now (values_given image.now (figure_given b.entry) (figure_given c.entry)) ≡ Some (value_of_made m)) }
    // An image that was made may be given again.
    ensures sound { IfOk result IsSoundMade }
    ensures operator { (flat : FlatOp) → op.now ≡ Op.Flat flat → IfOk result (IsImageMade (operator_of flat (offsets_given (figure_given b.entry)) (offsets_given (figure_given c.entry)) image.now)) }
{
    let a = Input::Image(image.shape());
    let plan = plan_of_any(alloc, op, a, input(b), input(c))?;
    if draws(op, a) {
        let plane = last_plane(alloc, &plan, image)?;
        // for the maxval
        facts_of(&plane);
        Ok(Made::Image(plane))
    } else {
        Ok(Made::Curve(Curve::of(numbers(alloc, &plan, image)?)))
    }
}
