//! Of `mw_c_direct`.

ghost use Rattle.std.specs.Prelude.{◌≡◌, Some, IfOk};
ghost use Rattle.mw_model.specs.declared.operations.FlatOp.{FlatOp};
ghost use Rattle.mw_model.specs.Pictures.{IsImage};
ghost use Rattle.mw_model.specs.Values.{result_of, shape_of_picture};
ghost use Rattle.mw_plan.specs.Asked.{IsRefusedBy, fault_in};
ghost use Rattle.mw_plan.specs.Steps.{operator_of};
ghost use Rattle.mw_c_direct.specs.Values.{IsImageMade, IsSoundMade, figure_given, input_given, offsets_given, value_of_made, values_given};

use mw_c_direct::{Element, Image, Made, Op, PlanFault};
use mw_plan::Input;
use std::alloc::Global;
use std::sync::Arc;

/// `mw_c_direct::apply`.
pub fn apply(
    alloc: Global,
    op: &Op,
    image: &Image,
    b: Option<&Arc<Element>>,
    c: Option<&Arc<Element>>,
) -> Result<Made, PlanFault>
    requires { IsImage image.now }
    ensures refused { IsRefusedBy (fault_in op.now (Input.Image (shape_of_picture image.now)) (input_given b.entry) (input_given c.entry)) result }
    ensures value { IfOk result (λ m. result_of op.now (values_given image.now (figure_given b.entry) (figure_given c.entry)) ≡ Some (value_of_made m)) }
    ensures sound { IfOk result IsSoundMade }
    ensures operator { (flat : FlatOp) → op.now ≡ Op.Flat flat → IfOk result (IsImageMade (operator_of flat (offsets_given (figure_given b.entry)) (offsets_given (figure_given c.entry)) image.now)) }
{
    mw_c_direct::apply(alloc, op, image, b, c)
}
