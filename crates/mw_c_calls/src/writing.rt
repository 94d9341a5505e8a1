//! Flat operators and thresholds from an array of the caller into another: their plans, by strips.

ghost use Rattle.std.specs.Prelude.{◌≡◌, ◌≤◌, [], length, map, None, true, IfErr, IfOk};
ghost use Rattle.mw_model.specs.declared.limits.TheConstants.{LEVEL_LIMIT};
ghost use Rattle.mw_model.specs.declared.operations.Op.{Op};
ghost use Rattle.mw_model.specs.Flat.{threshold};
ghost use Rattle.mw_plan.specs.Forms.{has_rows};
ghost use Rattle.mw_plan.specs.Steps.{operator_of};
ghost use Rattle.mw_c_arrays.specs.Arrays.{element_in};
ghost use Rattle.mw_c_arrays.specs.Sound.{IsElementBitmap};
ghost use Rattle.mw_c_arrays.specs.Sources.{IsArrayImage, array_sample_count, picture_in};
ghost use Rattle.mw_c_strips.specs.Rows.{AreRows, rows_from};
ghost use Rattle.mw_c_calls.specs.Answers.{IsTold};
ghost use Rattle.mw_c_calls.specs.Calls.{operation_fault, takes_one};

use crate::plans::{plan_by, plan_of_threshold};
use mw_c_arrays::{ArrayImage, Bitmap, Code, NoMemory};
use mw_c_strips::{Sample, write_plan, write_plan_rows};
use mw_model::FlatOp;
use std::alloc::Global;

/// Writes a flat operator on arrays with which nothing is wrong, unless it misses something in the element.
pub(crate) fn write_by<P: Sample>(
    alloc: Global,
    op: &FlatOp,
    f: ArrayImage<'_>,
    b: &Bitmap<'_>,
    out: &mut [P],
) -> Result<(), Code>
    requires sound { IsArrayImage f }
    requires element { IsElementBitmap b.now }
    requires one { takes_one (Op.Flat op.now) ≡ true }
    requires room { length out.old ≡ array_sample_count f }
    requires stands { P.stands (picture_in f).maxval }
    ensures made { IfOk result (λ _. map P.level out.new ≡ (operator_of op.now (element_in b.now) [] (picture_in f.entry)).samples) }
    ensures kept { IfErr result (λ _. out.new ≡ out.old) }
    ensures told { IsTold None (operation_fault (Op.Flat op.now) (picture_in f.entry) (element_in b.now)) result }
{
    let plan = match plan_by(alloc, op, f, b) {
        Ok(plan) => plan,
        Err(code) => return Err(code),
    };
    match write_plan(alloc, &plan, f, out) {
        Ok(()) => Ok(()),
        Err(NoMemory) => Err(Code::Memory),
    }
}

/// Writes rows of a flat operator whose rows can be made alone, from row `first` on.
pub(crate) fn write_rows_by<P: Sample>(
    alloc: Global,
    op: &FlatOp,
    f: ArrayImage<'_>,
    b: &Bitmap<'_>,
    first: u32,
    out: &mut [P],
) -> Result<(), Code>
    requires sound { IsArrayImage f }
    requires element { IsElementBitmap b.now }
    requires one { takes_one (Op.Flat op.now) ≡ true }
    requires alone { has_rows op.now ≡ true }
    requires rows { AreRows first (length out.old) (picture_in f) }
    requires stands { P.stands (picture_in f).maxval }
    ensures made { IfOk result (λ _. map P.level out.new ≡ rows_from first (length out.old) (operator_of op.now (element_in b.now) [] (picture_in f.entry))) }
    ensures kept { IfErr result (λ _. out.new ≡ out.old) }
    ensures told { IsTold None (operation_fault (Op.Flat op.now) (picture_in f.entry) (element_in b.now)) result }
{
    let plan = match plan_by(alloc, op, f, b) {
        Ok(plan) => plan,
        Err(code) => return Err(code),
    };
    match write_plan_rows(alloc, &plan, f, first, out) {
        Ok(()) => Ok(()),
        Err(NoMemory) => Err(Code::Memory),
    }
}

/// Writes a threshold of an image with which nothing is wrong.
pub(crate) fn write_threshold(
    alloc: Global,
    k: u32,
    f: ArrayImage<'_>,
    out: &mut [u8],
) -> Result<(), NoMemory>
    requires sound { IsArrayImage f }
    requires level { k ≤ LEVEL_LIMIT }
    requires room { length out.old ≡ array_sample_count f }
    ensures made { IfOk result (λ _. out.new ≡ (threshold k (picture_in f.entry)).samples) }
    ensures kept { IfErr result (λ _. out.new ≡ out.old) }
{
    let plan = plan_of_threshold(alloc, k, f)?;
    write_plan(alloc, &plan, f, out)
}
