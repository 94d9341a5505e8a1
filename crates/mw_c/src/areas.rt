//! Levels of grey in arrays: area openings and closings.

ghost use Rattle.std.specs.Prelude.{◌≡◌, ◌≢◌, pos, length};
ghost use Rattle.mw_model.specs.declared.limits.TheConstants.{LEVEL_LIMIT};
ghost use Rattle.mw_c_arrays.specs.Arrays.{element_in_bytes, grey_in_array};
ghost use Rattle.mw_c_arrays.specs.Faults.{element_fault, levels_fault};
ghost use Rattle.mw_c_calls.specs.Calls.{call_fault, room_case};
ghost use Rattle.mw_c_geodesic.specs.Told.{IsSymmetricAnswer};
ghost use Rattle.mw_c_geodesic_levels.specs.Areas.{area_fault, area_filtered};

use mw_c_geodesic_levels::{area_u8, area_u16};
use std::alloc::Global;

/// The area opening or the area closing, of levels of one byte.
#[unsafe(no_mangle)]
pub extern "C" fn morphd_area_u8(
    alloc: Global,
    kind: u32,
    least: u32,
    width: u32,
    height: u32,
    maxval: u8,
    samples: &[u8],
    element: &[u8],
    element_width: u32,
    element_height: u32,
    element_x: u32,
    element_y: u32,
    out: &mut [u8],
) -> i32
    ensures made { result ≡ pos 0 → out.new ≡ (area_filtered kind (element_in_bytes element_width element_height element_x element_y element.now) least (grey_in_array width height maxval samples.now)).samples }
    ensures kept { result ≢ pos 0 → out.new ≡ out.old }
    ensures first { IsSymmetricAnswer (element_in_bytes element_width element_height element_x element_y element.now) (call_fault (area_fault kind least) (levels_fault 1 255 width height maxval samples.now) (room_case (length out.old) (length samples.now)) (element_fault element_width element_height element_x element_y element.now)) result }
{
    area_u8(
        alloc,
        kind,
        least,
        width,
        height,
        maxval,
        samples,
        element,
        element_width,
        element_height,
        element_x,
        element_y,
        out,
    )
}

/// The area opening or the area closing, of levels of two bytes.
#[unsafe(no_mangle)]
pub extern "C" fn morphd_area_u16(
    alloc: Global,
    kind: u32,
    least: u32,
    width: u32,
    height: u32,
    maxval: u16,
    samples: &[u16],
    element: &[u8],
    element_width: u32,
    element_height: u32,
    element_x: u32,
    element_y: u32,
    out: &mut [u16],
) -> i32
    ensures made { result ≡ pos 0 → out.new ≡ (area_filtered kind (element_in_bytes element_width element_height element_x element_y element.now) least (grey_in_array width height maxval samples.now)).samples }
    ensures kept { result ≢ pos 0 → out.new ≡ out.old }
    ensures first { IsSymmetricAnswer (element_in_bytes element_width element_height element_x element_y element.now) (call_fault (area_fault kind least) (levels_fault 256 LEVEL_LIMIT width height maxval samples.now) (room_case (length out.old) (length samples.now)) (element_fault element_width element_height element_x element_y element.now)) result }
{
    area_u16(
        alloc,
        kind,
        least,
        width,
        height,
        maxval,
        samples,
        element,
        element_width,
        element_height,
        element_x,
        element_y,
        out,
    )
}
