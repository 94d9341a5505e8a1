//! Volumes of granulometries of arrays.

ghost use Rattle.std.specs.Prelude.{◌≡◌, ◌≢◌, ◌+◌, pos, length};
ghost use Rattle.mw_model.specs.Iterates.{spectrum};
ghost use Rattle.mw_model.specs.declared.limits.TheConstants.{LEVEL_LIMIT};
ghost use Rattle.mw_c_arrays.specs.Arrays.{element_in_bytes, grey_in_array, set_in_bytes};
ghost use Rattle.mw_c_arrays.specs.Faults.{levels_fault, pixels_fault};
ghost use Rattle.mw_c_calls.specs.CallAnswers.{IsSpectrumAnswer};
ghost use Rattle.mw_c_calls.specs.Calls.{room_case};

use mw_c_calls::{spectrum_set, spectrum_u8, spectrum_u16};
use std::alloc::Global;

/// The volumes of levels of one byte.
#[unsafe(no_mangle)]
pub extern "C" fn morphd_spectrum_u8(
    alloc: Global,
    levels: u32,
    width: u32,
    height: u32,
    maxval: u8,
    samples: &[u8],
    element: &[u8],
    element_width: u32,
    element_height: u32,
    element_x: u32,
    element_y: u32,
    out: &mut [u64],
) -> i32
    ensures made { result ≡ pos 0 → out.new ≡ spectrum (element_in_bytes element_width element_height element_x element_y element.now) levels (grey_in_array width height maxval samples.now) }
    ensures kept { result ≢ pos 0 → out.new ≡ out.old }
    ensures first { IsSpectrumAnswer levels (levels_fault 1 255 width height maxval samples.now) (room_case (length out.old) (levels + 1)) element_width element_height element_x element_y element.now result }
{
    spectrum_u8(
        alloc,
        levels,
        width,
        height,
        maxval,
        samples,
        element,
        element_width,
        element_height,
        element_x,
        element_y,
        out,
    )
}

/// The volumes of levels of two bytes.
#[unsafe(no_mangle)]
pub extern "C" fn morphd_spectrum_u16(
    alloc: Global,
    levels: u32,
    width: u32,
    height: u32,
    maxval: u16,
    samples: &[u16],
    element: &[u8],
    element_width: u32,
    element_height: u32,
    element_x: u32,
    element_y: u32,
    out: &mut [u64],
) -> i32
    ensures made { result ≡ pos 0 → out.new ≡ spectrum (element_in_bytes element_width element_height element_x element_y element.now) levels (grey_in_array width height maxval samples.now) }
    ensures kept { result ≢ pos 0 → out.new ≡ out.old }
    ensures first { IsSpectrumAnswer levels (levels_fault 256 LEVEL_LIMIT width height maxval samples.now) (room_case (length out.old) (levels + 1)) element_width element_height element_x element_y element.now result }
{
    spectrum_u16(
        alloc,
        levels,
        width,
        height,
        maxval,
        samples,
        element,
        element_width,
        element_height,
        element_x,
        element_y,
        out,
    )
}

/// The volumes of a set.
#[unsafe(no_mangle)]
pub extern "C" fn morphd_spectrum_set(
    alloc: Global,
    levels: u32,
    width: u32,
    height: u32,
    pixels: &[u8],
    element: &[u8],
    element_width: u32,
    element_height: u32,
    element_x: u32,
    element_y: u32,
    out: &mut [u64],
) -> i32
    ensures made { result ≡ pos 0 → out.new ≡ spectrum (element_in_bytes element_width element_height element_x element_y element.now) levels (set_in_bytes width height pixels.now) }
    ensures kept { result ≢ pos 0 → out.new ≡ out.old }
    ensures first { IsSpectrumAnswer levels (pixels_fault width height pixels.now) (room_case (length out.old) (levels + 1)) element_width element_height element_x element_y element.now result }
{
    spectrum_set(
        alloc,
        levels,
        width,
        height,
        pixels,
        element,
        element_width,
        element_height,
        element_x,
        element_y,
        out,
    )
}
