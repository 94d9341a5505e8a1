//! What operations make of arrays with which nothing is wrong.

ghost use Rattle.std.specs.Prelude.{◌≡◌, Some, None, [], ◌∷◌, true, false, IfOk};
ghost use Rattle.mw_model.specs.Flat.{hit_or_miss};
ghost use Rattle.mw_model.specs.Pictures.{IsImage};
ghost use Rattle.mw_model.specs.Values.{CurveValue, ElementValue, ImageValue, result_of};
ghost use Rattle.mw_c_arrays.specs.Arrays.{element_in};
ghost use Rattle.mw_c_arrays.specs.Sound.{IsElementBitmap};
ghost use Rattle.mw_c_arrays.specs.Sources.{IsArrayImage, picture_in};
ghost use Rattle.mw_c_direct.specs.Values.{IsSoundMade, value_of_made};
ghost use Rattle.mw_c_calls.specs.Answers.{IsTold};
ghost use Rattle.mw_c_calls.specs.Calls.{is_drawing, operation_fault, overlap_case, takes_one};
ghost use Rattle.mw_c_calls.specs.Sources.{bitmap_figure};

use crate::elements::element;
use crate::operations::name;
use mw_c_arrays::{ArrayImage, Bitmap, Code};
use mw_c_direct::{Curve, FlatOp, Image, Made, Op, apply};
use std::alloc::Global;

/// An operation that takes an image and an element, made of them.
fn made_by(alloc: Global, op: &Op, f: ArrayImage<'_>, b: &Bitmap<'_>) -> Result<Made, Code>
    requires image { IsArrayImage f }
    requires element { IsElementBitmap b.now }
    requires one { takes_one op.now ≡ true }
    ensures value { IfOk result (λ m. result_of op.now (Some (ImageValue (picture_in f.entry)) ∷ Some (ElementValue (bitmap_figure b.now)) ∷ None ∷ []) ≡ Some (value_of_made m)) }
    ensures sound { IfOk result IsSoundMade }
    ensures told { IsTold None (operation_fault op.now (picture_in f.entry) (element_in b.now)) result }
{
    let Ok(image) = f.image(alloc) else {
        return Err(Code::Memory);
    };
    let Ok(element) = element(alloc, b) else {
        return Err(Code::Memory);
    };
    match apply(alloc, op, &image, Some(&element), None) {
        Ok(made) => Ok(made),
        Err(fault) => Err(fault.code()),
    }
}

/// The image that such an operation makes.
pub(crate) fn drawn_by(
    alloc: Global,
    op: &Op,
    f: ArrayImage<'_>,
    b: &Bitmap<'_>,
) -> Result<Image, Code>
    requires image { IsArrayImage f }
    requires element { IsElementBitmap b.now }
    requires one { takes_one op.now ≡ true }
    requires drawing { is_drawing op.now ≡ true }
    ensures value { IfOk result (λ g. result_of op.now (Some (ImageValue (picture_in f.entry)) ∷ Some (ElementValue (bitmap_figure b.now)) ∷ None ∷ []) ≡ Some (ImageValue g)) }
    ensures sound { IfOk result IsImage }
    ensures told { IsTold None (operation_fault op.now (picture_in f.entry) (element_in b.now)) result }
{
    match made_by(alloc, op, f, b) {
        Ok(Made::Image(image)) => Ok(image),
        Ok(Made::Curve(_)) => unreachable!(),
        Err(code) => Err(code),
    }
}

/// The volumes that such an operation makes.
pub(crate) fn measured_by(
    alloc: Global,
    op: &Op,
    f: ArrayImage<'_>,
    b: &Bitmap<'_>,
) -> Result<Curve, Code>
    requires image { IsArrayImage f }
    requires element { IsElementBitmap b.now }
    requires one { takes_one op.now ≡ true }
    requires measuring { is_drawing op.now ≡ false }
    ensures value { IfOk result (λ v. result_of op.now (Some (ImageValue (picture_in f.entry)) ∷ Some (ElementValue (bitmap_figure b.now)) ∷ None ∷ []) ≡ Some (CurveValue v)) }
    ensures told { IsTold None (operation_fault op.now (picture_in f.entry) (element_in b.now)) result }
{
    match made_by(alloc, op, f, b) {
        Ok(Made::Curve(curve)) => Ok(curve),
        Ok(Made::Image(_)) => unreachable!(),
        Err(code) => Err(code),
    }
}

/// The hits and misses of two elements.
pub(crate) fn hits_of(
    alloc: Global,
    f: ArrayImage<'_>,
    hit: &Bitmap<'_>,
    miss: &Bitmap<'_>,
) -> Result<Image, Code>
    requires image { IsArrayImage f }
    requires hit { IsElementBitmap hit.now }
    requires miss { IsElementBitmap miss.now }
    ensures value { IfOk result (λ g. g ≡ hit_or_miss (element_in hit.now) (element_in miss.now) (picture_in f.entry)) }
    ensures sound { IfOk result IsImage }
    ensures told { IsTold None (overlap_case (element_in hit.now) (element_in miss.now)) result }
{
    let Ok(image) = f.image(alloc) else {
        return Err(Code::Memory);
    };
    let Ok(hit) = element(alloc, hit) else {
        return Err(Code::Memory);
    };
    let Ok(miss) = element(alloc, miss) else {
        return Err(Code::Memory);
    };
    let op = Op::Flat(FlatOp::HitMiss(name(), name(), name()));
    match apply(alloc, &op, &image, Some(&hit), Some(&miss)) {
        Ok(Made::Image(hits)) => Ok(hits),
        Ok(Made::Curve(_)) => unreachable!(),
        Err(fault) => Err(fault.code()),
    }
}
