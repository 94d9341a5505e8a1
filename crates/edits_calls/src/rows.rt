//! Of `mw_c_calls`: rows of a result.

ghost use Rattle.std.specs.Prelude.{◌≡◌, ◌≢◌, pos, length};
ghost use Rattle.mw_c_arrays.specs.Arrays.{element_in_bytes, grey_in_array};
ghost use Rattle.mw_c_arrays.specs.Faults.{levels_fault};
ghost use Rattle.mw_c_strips.specs.Rows.{rows_from};
ghost use Rattle.mw_c_calls.specs.CallAnswers.{IsRowsAnswer};
ghost use Rattle.mw_c_calls.specs.Calls.{flat_of};
ghost use Rattle.mw_c_calls.specs.Rows.{rows_case};

use std::alloc::Global;

/// `mw_c_calls::flat_rows_u8`.
pub fn flat_rows_u8(
    alloc: Global,
    operation: u32,
    k: u32,
    first_row: u32,
    width: u32,
    height: u32,
    maxval: u8,
    samples: &[u8],
    element: &[u8],
    element_width: u32,
    element_height: u32,
    element_x: u32,
    element_y: u32,
    out: &mut [u8],
) -> i32
    ensures made { result ≡ pos 0 → out.new ≡ rows_from first_row (length out.old) (flat_of operation k (element_in_bytes element_width element_height element_x element_y element.now) (grey_in_array width height maxval samples.now)) }
    ensures kept { result ≢ pos 0 → out.new ≡ out.old }
    ensures first { IsRowsAnswer operation k (levels_fault 1 255 width height maxval samples.now) (rows_case first_row (length out.old) width (length samples.now)) element_width element_height element_x element_y element.now result }
{
    mw_c_calls::flat_rows_u8(
        alloc,
        operation,
        k,
        first_row,
        width,
        height,
        maxval,
        samples,
        element,
        element_width,
        element_height,
        element_x,
        element_y,
        out,
    )
}
