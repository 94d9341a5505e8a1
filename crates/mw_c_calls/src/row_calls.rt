//! Calls for some rows of what a flat operator of one step makes: what is wrong with them is told before anything is made.

ghost use Rattle.std.specs.Prelude.{◌≡◌, length, map, IfErr, IfOk};
ghost use Rattle.mw_c_arrays.specs.Arrays.{element_in};
ghost use Rattle.mw_c_arrays.specs.Faults.{bitmap_fault};
ghost use Rattle.mw_c_arrays.specs.Sources.{IsArrayImage, array_sample_count, picture_in, source_fault};
ghost use Rattle.mw_c_strips.specs.Rows.{rows_from};
ghost use Rattle.mw_c_calls.specs.Answers.{IsTold};
ghost use Rattle.mw_c_calls.specs.Calls.{call_fault, flat_asks, flat_of};
ghost use Rattle.mw_c_calls.specs.Rows.{has_one_step, row_operation_case, rows_case};

use crate::calls::refused;
use crate::operations::operation_of;
use crate::writing::write_rows_by;
use mw_c_arrays::{ArrayImage, Bitmap, Code, when};
use mw_c_strips::{Sample, are_rows};
use std::alloc::Global;

/// Whether the flat operator of the number has one step.
fn has_one_step(operation: u32) -> bool
    ensures { result ≡ has_one_step operation }
{
    (operation == 0 || operation == 1) || (operation == 4 || operation == 7)
}

/// Writes rows of a flat operator of one step, from row `first` on.
pub(crate) fn flat_rows<P: Sample>(
    alloc: Global,
    numbers: (u32, u32),
    first: u32,
    f: ArrayImage<'_>,
    b: &Bitmap<'_>,
    out: &mut [P],
) -> Result<(), Code>
    requires { IsArrayImage f → P.stands (picture_in f).maxval }
    ensures made { IfOk result (λ _. map P.level out.new ≡ rows_from first (length out.old) (flat_of numbers.0 numbers.1 (element_in b.now) (picture_in f.entry))) }
    ensures kept { IfErr result (λ _. out.new ≡ out.old) }
    ensures told { IsTold (call_fault (row_operation_case numbers.0) (source_fault f.entry) (rows_case first (length out.old) (picture_in f.entry).width (array_sample_count f.entry)) (bitmap_fault b.now)) (flat_asks numbers.0 numbers.1 (element_in b.now)) result }
{
    let (operation, k) = numbers;
    let one = has_one_step(operation);
    let number = when(!one, Code::Param);
    let image = f.fault();
    let fits = are_rows(f, first, out.len());
    let room = when(!fits, Code::Length);
    if let Some(code) = refused(number, image, room, b.fault()) {
        return Err(code);
    }
    write_rows_by(alloc, &operation_of(operation, k), f, b, first, out)
}
