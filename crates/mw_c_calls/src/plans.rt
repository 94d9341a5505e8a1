//! Plans of operations on an array with which nothing is wrong.

ghost use Rattle.std.specs.Prelude.{◌≡◌, ◌≤◌, [], None, true, IfOk};
ghost use Rattle.mw_model.specs.declared.limits.TheConstants.{LEVEL_LIMIT};
ghost use Rattle.mw_model.specs.declared.operations.Op.{Op};
ghost use Rattle.mw_model.specs.Flat.{threshold};
ghost use Rattle.mw_model.specs.Values.{shape_of_picture};
ghost use Rattle.mw_plan.specs.Forms.{has_rows, is_row_plan, is_strip_plan};
ghost use Rattle.mw_plan.specs.Steps.{last_plane, operator_of};
ghost use Rattle.mw_c_arrays.specs.Arrays.{element_in};
ghost use Rattle.mw_c_arrays.specs.Sound.{IsElementBitmap};
ghost use Rattle.mw_c_arrays.specs.Sources.{IsArrayImage, picture_in};
ghost use Rattle.mw_c_calls.specs.Answers.{IsTold};
ghost use Rattle.mw_c_calls.specs.Calls.{operation_fault, takes_one};

use crate::elements::element;
use crate::operations::name;
use mw_c_arrays::{ArrayImage, Bitmap, Code, NoMemory};
use mw_model::{FlatOp, Kind};
use mw_plan::{Input, Plan, Shape, plan_of, plan_of_legal};
use std::alloc::Global;

/// Whether it is a set or in levels of grey.
fn kind_of(f: ArrayImage<'_>) -> Kind
    ensures { result ≡ (picture_in f.entry).kind }
{
    match f {
        ArrayImage::Grey8(_) => Kind::Grey,
        ArrayImage::Grey16(_) => Kind::Grey,
        ArrayImage::Pixels(_) => Kind::Bit,
    }
}

/// The shape of an image.
fn shape_of(f: ArrayImage<'_>) -> Shape
    requires { IsArrayImage f }
    ensures { result ≡ shape_of_picture (picture_in f.entry) }
{
    Shape::Image(kind_of(f), f.width(), f.height(), f.maxval())
}

/// The plan of a flat operator by one element, unless it misses something in the element.
pub(crate) fn plan_by(
    alloc: Global,
    op: &FlatOp,
    f: ArrayImage<'_>,
    b: &Bitmap<'_>,
) -> Result<Plan, Code>
    requires image { IsArrayImage f }
    requires element { IsElementBitmap b.now }
    requires one { takes_one (Op.Flat op.now) ≡ true }
    ensures strips { IfOk result (λ p. is_strip_plan p ≡ true) }
    ensures rows { IfOk result (λ p. is_row_plan p ≡ has_rows op.now) }
    ensures plan { IfOk result (λ p. last_plane p (picture_in f.entry) ≡ operator_of op.now (element_in b.now) [] (picture_in f.entry)) }
    ensures told { IsTold None (operation_fault (Op.Flat op.now) (picture_in f.entry) (element_in b.now)) result }
{
    let Ok(element) = element(alloc, b) else {
        return Err(Code::Memory);
    };
    let shape = shape_of(f);
    match plan_of(
        alloc,
        op,
        Input::Image(shape),
        Input::Element(&element),
        Input::Absent,
    ) {
        Ok(plan) => Ok(plan),
        Err(fault) => Err(fault.code()),
    }
}

/// The plan of a threshold.
pub(crate) fn plan_of_threshold(alloc: Global, k: u32, f: ArrayImage<'_>) -> Result<Plan, NoMemory>
    requires image { IsArrayImage f }
    requires level { k ≤ LEVEL_LIMIT }
    ensures strips { IfOk result (λ p. is_strip_plan p ≡ true) }
    ensures plan { IfOk result (λ p. last_plane p (picture_in f.entry) ≡ threshold k (picture_in f.entry)) }
{
    let op = FlatOp::Threshold(name(), k);
    let shape = shape_of(f);
    plan_of_legal(
        alloc,
        &op,
        Input::Image(shape),
        Input::Absent,
        Input::Absent,
    )
}
