//! Rows of flat operators of one step on arrays: erosions, dilations, gradients and ranks. Threads that share a picture each
//! make some.

ghost use Rattle.std.specs.Prelude.{◌≡◌, ◌≢◌, pos, length};
ghost use Rattle.mw_model.specs.declared.limits.TheConstants.{LEVEL_LIMIT};
ghost use Rattle.mw_c_arrays.specs.Arrays.{element_in_bytes, grey_in_array, set_in_bytes};
ghost use Rattle.mw_c_arrays.specs.Faults.{levels_fault, pixels_fault};
ghost use Rattle.mw_c_strips.specs.Rows.{rows_from};
ghost use Rattle.mw_c_calls.specs.CallAnswers.{IsRowsAnswer};
ghost use Rattle.mw_c_calls.specs.Calls.{flat_of};
ghost use Rattle.mw_c_calls.specs.Rows.{rows_case};

use mw_c_calls::{flat_rows_set, flat_rows_u8, flat_rows_u16};
use std::alloc::Global;

/// Rows of the flat operator of a number, from `first_row` on, on levels of one byte.
#[unsafe(no_mangle)]
pub extern "C" fn morphd_flat_rows_u8(
    alloc: Global,
    operation: u32,
    k: u32,
    first_row: u32,
    width: u32,
    height: u32,
    maxval: u8,
    samples: &[u8],
    element: &[u8],
    element_width: u32,
    element_height: u32,
    element_x: u32,
    element_y: u32,
    out: &mut [u8],
) -> i32
    ensures made { result ≡ pos 0 → out.new ≡ rows_from first_row (length out.old) (flat_of operation k (element_in_bytes element_width element_height element_x element_y element.now) (grey_in_array width height maxval samples.now)) }
    ensures kept { result ≢ pos 0 → out.new ≡ out.old }
    ensures first { IsRowsAnswer operation k (levels_fault 1 255 width height maxval samples.now) (rows_case first_row (length out.old) width (length samples.now)) element_width element_height element_x element_y element.now result }
{
    flat_rows_u8(
        alloc,
        operation,
        k,
        first_row,
        width,
        height,
        maxval,
        samples,
        element,
        element_width,
        element_height,
        element_x,
        element_y,
        out,
    )
}

/// Rows of the flat operator of a number, from `first_row` on, on levels of two bytes.
#[unsafe(no_mangle)]
pub extern "C" fn morphd_flat_rows_u16(
    alloc: Global,
    operation: u32,
    k: u32,
    first_row: u32,
    width: u32,
    height: u32,
    maxval: u16,
    samples: &[u16],
    element: &[u8],
    element_width: u32,
    element_height: u32,
    element_x: u32,
    element_y: u32,
    out: &mut [u16],
) -> i32
    ensures made { result ≡ pos 0 → out.new ≡ rows_from first_row (length out.old) (flat_of operation k (element_in_bytes element_width element_height element_x element_y element.now) (grey_in_array width height maxval samples.now)) }
    ensures kept { result ≢ pos 0 → out.new ≡ out.old }
    ensures first { IsRowsAnswer operation k (levels_fault 256 LEVEL_LIMIT width height maxval samples.now) (rows_case first_row (length out.old) width (length samples.now)) element_width element_height element_x element_y element.now result }
{
    flat_rows_u16(
        alloc,
        operation,
        k,
        first_row,
        width,
        height,
        maxval,
        samples,
        element,
        element_width,
        element_height,
        element_x,
        element_y,
        out,
    )
}

/// Rows of the flat operator of a number, from `first_row` on, on a set, whose pixels are made 1 and the others 0.
#[unsafe(no_mangle)]
pub extern "C" fn morphd_flat_rows_set(
    alloc: Global,
    operation: u32,
    k: u32,
    first_row: u32,
    width: u32,
    height: u32,
    pixels: &[u8],
    element: &[u8],
    element_width: u32,
    element_height: u32,
    element_x: u32,
    element_y: u32,
    out: &mut [u8],
) -> i32
    ensures made { result ≡ pos 0 → out.new ≡ rows_from first_row (length out.old) (flat_of operation k (element_in_bytes element_width element_height element_x element_y element.now) (set_in_bytes width height pixels.now)) }
    ensures kept { result ≢ pos 0 → out.new ≡ out.old }
    ensures first { IsRowsAnswer operation k (pixels_fault width height pixels.now) (rows_case first_row (length out.old) width (length pixels.now)) element_width element_height element_x element_y element.now result }
{
    flat_rows_set(
        alloc,
        operation,
        k,
        first_row,
        width,
        height,
        pixels,
        element,
        element_width,
        element_height,
        element_x,
        element_y,
        out,
    )
}
