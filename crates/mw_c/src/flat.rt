//! Flat operators on arrays: erosions, dilations, openings, closings, gradients, top-hats and ranks.

ghost use Rattle.std.specs.Prelude.{◌≡◌, ◌≢◌, pos, length};
ghost use Rattle.mw_model.specs.declared.limits.TheConstants.{LEVEL_LIMIT};
ghost use Rattle.mw_c_arrays.specs.Arrays.{element_in_bytes, grey_in_array, set_in_bytes};
ghost use Rattle.mw_c_arrays.specs.Faults.{levels_fault, pixels_fault};
ghost use Rattle.mw_c_calls.specs.CallAnswers.{IsFlatAnswer};
ghost use Rattle.mw_c_calls.specs.Calls.{flat_of, room_case};

use mw_c_calls::{flat_set, flat_u8, flat_u16};
use std::alloc::Global;

/// The flat operator of a number on levels of one byte.
#[unsafe(no_mangle)]
pub extern "C" fn morphd_flat_u8(
    alloc: Global,
    operation: u32,
    k: u32,
    width: u32,
    height: u32,
    maxval: u8,
    samples: &[u8],
    element: &[u8],
    element_width: u32,
    element_height: u32,
    element_x: u32,
    element_y: u32,
    out: &mut [u8],
) -> i32
    ensures made { result ≡ pos 0 → out.new ≡ (flat_of operation k (element_in_bytes element_width element_height element_x element_y element.now) (grey_in_array width height maxval samples.now)).samples }
    ensures kept { result ≢ pos 0 → out.new ≡ out.old }
    ensures first { IsFlatAnswer operation k (levels_fault 1 255 width height maxval samples.now) (room_case (length out.old) (length samples.now)) element_width element_height element_x element_y element.now result }
{
    flat_u8(
        alloc,
        operation,
        k,
        width,
        height,
        maxval,
        samples,
        element,
        element_width,
        element_height,
        element_x,
        element_y,
        out,
    )
}

/// The flat operator of a number on levels of two bytes.
#[unsafe(no_mangle)]
pub extern "C" fn morphd_flat_u16(
    alloc: Global,
    operation: u32,
    k: u32,
    width: u32,
    height: u32,
    maxval: u16,
    samples: &[u16],
    element: &[u8],
    element_width: u32,
    element_height: u32,
    element_x: u32,
    element_y: u32,
    out: &mut [u16],
) -> i32
    ensures made { result ≡ pos 0 → out.new ≡ (flat_of operation k (element_in_bytes element_width element_height element_x element_y element.now) (grey_in_array width height maxval samples.now)).samples }
    ensures kept { result ≢ pos 0 → out.new ≡ out.old }
    ensures first { IsFlatAnswer operation k (levels_fault 256 LEVEL_LIMIT width height maxval samples.now) (room_case (length out.old) (length samples.now)) element_width element_height element_x element_y element.now result }
{
    flat_u16(
        alloc,
        operation,
        k,
        width,
        height,
        maxval,
        samples,
        element,
        element_width,
        element_height,
        element_x,
        element_y,
        out,
    )
}

/// The flat operator of a number on a set, whose pixels are made 1 and the others 0.
#[unsafe(no_mangle)]
pub extern "C" fn morphd_flat_set(
    alloc: Global,
    operation: u32,
    k: u32,
    width: u32,
    height: u32,
    pixels: &[u8],
    element: &[u8],
    element_width: u32,
    element_height: u32,
    element_x: u32,
    element_y: u32,
    out: &mut [u8],
) -> i32
    ensures made { result ≡ pos 0 → out.new ≡ (flat_of operation k (element_in_bytes element_width element_height element_x element_y element.now) (set_in_bytes width height pixels.now)).samples }
    ensures kept { result ≢ pos 0 → out.new ≡ out.old }
    ensures first { IsFlatAnswer operation k (pixels_fault width height pixels.now) (room_case (length out.old) (length pixels.now)) element_width element_height element_x element_y element.now result }
{
    flat_set(
        alloc,
        operation,
        k,
        width,
        height,
        pixels,
        element,
        element_width,
        element_height,
        element_x,
        element_y,
        out,
    )
}
