//! Skeletons of sets, and sets restored from their marks.

ghost use Rattle.std.specs.Prelude.{◌≡◌, ◌≢◌, pos, length};
ghost use Rattle.mw_model.specs.Iterates.{restoration, skeleton};
ghost use Rattle.mw_model.specs.declared.limits.TheConstants.{LEVEL_LIMIT};
ghost use Rattle.mw_c_arrays.specs.Arrays.{element_in_bytes, grey_in_array, set_in_bytes};
ghost use Rattle.mw_c_arrays.specs.Faults.{levels_fault, pixels_fault};
ghost use Rattle.mw_c_calls.specs.CallAnswers.{IsRestorationAnswer, IsSkeletonAnswer};
ghost use Rattle.mw_c_calls.specs.Calls.{room_case};

use crate::answers::answer_bytes;
use crate::calls::{marks, restored};
use mw_c_arrays::{ArrayImage, Bitmap, Grey8, Grey16, Set};
use std::alloc::Global;

/// The marks of a skeleton of a set.
pub fn skeleton(
    alloc: Global,
    levels: u32,
    width: u32,
    height: u32,
    pixels: &[u8],
    element: &[u8],
    element_width: u32,
    element_height: u32,
    element_x: u32,
    element_y: u32,
    out: &mut [u8],
) -> i32
    ensures made { result ≡ pos 0 → out.new ≡ (skeleton (element_in_bytes element_width element_height element_x element_y element.now) levels (set_in_bytes width height pixels.now)).samples }
    ensures kept { result ≢ pos 0 → out.new ≡ out.old }
    ensures first { IsSkeletonAnswer levels (pixels_fault width height pixels.now) (room_case (length out.old) (length pixels.now)) element_width element_height element_x element_y element.now result }
{
    let image = Set {
        pixels,
        width,
        height,
    };
    let element = Bitmap {
        pixels: element,
        width: element_width,
        height: element_height,
        origin_x: element_x,
        origin_y: element_y,
    };
    answer_bytes(marks(alloc, levels, image, &element, out.len()), out)
}

/// The set that the marks of a skeleton restore, from marks in levels of one byte.
pub fn restore_u8(
    alloc: Global,
    levels: u32,
    width: u32,
    height: u32,
    maxval: u8,
    samples: &[u8],
    element: &[u8],
    element_width: u32,
    element_height: u32,
    element_x: u32,
    element_y: u32,
    out: &mut [u8],
) -> i32
    ensures made { result ≡ pos 0 → out.new ≡ (restoration (element_in_bytes element_width element_height element_x element_y element.now) levels (grey_in_array width height maxval samples.now)).samples }
    ensures kept { result ≢ pos 0 → out.new ≡ out.old }
    ensures first { IsRestorationAnswer levels (levels_fault 1 255 width height maxval samples.now) (room_case (length out.old) (length samples.now)) element_width element_height element_x element_y element.now result }
{
    let image = Grey8 {
        samples,
        width,
        height,
        maxval: maxval as u32,
    };
    let element = Bitmap {
        pixels: element,
        width: element_width,
        height: element_height,
        origin_x: element_x,
        origin_y: element_y,
    };
    let source = ArrayImage::Grey8(image);
    answer_bytes(restored(alloc, levels, source, &element, out.len()), out)
}

/// The set that the marks of a skeleton restore, from marks in levels of two bytes.
pub fn restore_u16(
    alloc: Global,
    levels: u32,
    width: u32,
    height: u32,
    maxval: u16,
    samples: &[u16],
    element: &[u8],
    element_width: u32,
    element_height: u32,
    element_x: u32,
    element_y: u32,
    out: &mut [u8],
) -> i32
    ensures made { result ≡ pos 0 → out.new ≡ (restoration (element_in_bytes element_width element_height element_x element_y element.now) levels (grey_in_array width height maxval samples.now)).samples }
    ensures kept { result ≢ pos 0 → out.new ≡ out.old }
    ensures first { IsRestorationAnswer levels (levels_fault 256 LEVEL_LIMIT width height maxval samples.now) (room_case (length out.old) (length samples.now)) element_width element_height element_x element_y element.now result }
{
    let image = Grey16 {
        samples,
        width,
        height,
        maxval: maxval as u32,
    };
    let element = Bitmap {
        pixels: element,
        width: element_width,
        height: element_height,
        origin_x: element_x,
        origin_y: element_y,
    };
    let source = ArrayImage::Grey16(image);
    answer_bytes(restored(alloc, levels, source, &element, out.len()), out)
}
