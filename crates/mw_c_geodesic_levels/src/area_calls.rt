//! Levels of grey in arrays: area openings and closings.

ghost use Rattle.std.specs.Prelude.{◌≡◌, ◌≢◌, pos, length};
ghost use Rattle.mw_model.specs.declared.limits.TheConstants.{LEVEL_LIMIT};
ghost use Rattle.mw_c_arrays.specs.Arrays.{element_in_bytes, grey_in_array};
ghost use Rattle.mw_c_arrays.specs.Faults.{element_fault, levels_fault};
ghost use Rattle.mw_c_calls.specs.Calls.{call_fault, room_case};
ghost use Rattle.mw_c_geodesic.specs.Told.{IsSymmetricAnswer};
ghost use Rattle.mw_c_geodesic_levels.specs.Areas.{area_fault, area_filtered};

use crate::areas::filter;
use mw_c_arrays::{ArrayImage, Bitmap, Grey8, Grey16};
use mw_c_geodesic::answer;
use std::alloc::Global;

/// The area opening or the area closing, of levels of one byte.
pub fn area_u8(
    alloc: Global,
    kind: u32,
    least: u32,
    width: u32,
    height: u32,
    maxval: u8,
    samples: &[u8],
    element: &[u8],
    element_width: u32,
    element_height: u32,
    element_x: u32,
    element_y: u32,
    out: &mut [u8],
) -> i32
    ensures made { result ≡ pos 0 → out.new ≡ (area_filtered kind (element_in_bytes element_width element_height element_x element_y element.now) least (grey_in_array width height maxval samples.now)).samples }
    ensures kept { result ≢ pos 0 → out.new ≡ out.old }
    ensures first { IsSymmetricAnswer (element_in_bytes element_width element_height element_x element_y element.now) (call_fault (area_fault kind least) (levels_fault 1 255 width height maxval samples.now) (room_case (length out.old) (length samples.now)) (element_fault element_width element_height element_x element_y element.now)) result }
{
    let image = Grey8 {
        samples,
        width,
        height,
        maxval: maxval as u32,
    };
    let element = Bitmap {
        pixels: element,
        width: element_width,
        height: element_height,
        origin_x: element_x,
        origin_y: element_y,
    };
    let source = ArrayImage::Grey8(image);
    let made = filter(alloc, (kind, least), source, samples, &element, out);
    answer(made)
}

/// The area opening or the area closing, of levels of two bytes.
pub fn area_u16(
    alloc: Global,
    kind: u32,
    least: u32,
    width: u32,
    height: u32,
    maxval: u16,
    samples: &[u16],
    element: &[u8],
    element_width: u32,
    element_height: u32,
    element_x: u32,
    element_y: u32,
    out: &mut [u16],
) -> i32
    ensures made { result ≡ pos 0 → out.new ≡ (area_filtered kind (element_in_bytes element_width element_height element_x element_y element.now) least (grey_in_array width height maxval samples.now)).samples }
    ensures kept { result ≢ pos 0 → out.new ≡ out.old }
    ensures first { IsSymmetricAnswer (element_in_bytes element_width element_height element_x element_y element.now) (call_fault (area_fault kind least) (levels_fault 256 LEVEL_LIMIT width height maxval samples.now) (room_case (length out.old) (length samples.now)) (element_fault element_width element_height element_x element_y element.now)) result }
{
    let image = Grey16 {
        samples,
        width,
        height,
        maxval: maxval as u32,
    };
    let element = Bitmap {
        pixels: element,
        width: element_width,
        height: element_height,
        origin_x: element_x,
        origin_y: element_y,
    };
    let source = ArrayImage::Grey16(image);
    let made = filter(alloc, (kind, least), source, samples, &element, out);
    answer(made)
}
