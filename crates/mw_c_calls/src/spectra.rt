//! Volumes of granulometries of arrays.

ghost use Rattle.std.specs.Prelude.{◌≡◌, ◌≢◌, ◌+◌, pos, length};
ghost use Rattle.mw_model.specs.Iterates.{spectrum};
ghost use Rattle.mw_model.specs.declared.limits.TheConstants.{LEVEL_LIMIT};
ghost use Rattle.mw_c_arrays.specs.Arrays.{element_in_bytes, grey_in_array, set_in_bytes};
ghost use Rattle.mw_c_arrays.specs.Faults.{levels_fault, pixels_fault};
ghost use Rattle.mw_c_calls.specs.CallAnswers.{IsSpectrumAnswer};
ghost use Rattle.mw_c_calls.specs.Calls.{room_case};

use crate::answers::answer_volumes;
use crate::calls::volumes;
use mw_c_arrays::{ArrayImage, Bitmap, Grey8, Grey16, Set};
use std::alloc::Global;

/// The volumes of levels of one byte.
pub fn spectrum_u8(
    alloc: Global,
    levels: u32,
    width: u32,
    height: u32,
    maxval: u8,
    samples: &[u8],
    element: &[u8],
    element_width: u32,
    element_height: u32,
    element_x: u32,
    element_y: u32,
    out: &mut [u64],
) -> i32
    ensures made { result ≡ pos 0 → out.new ≡ spectrum (element_in_bytes element_width element_height element_x element_y element.now) levels (grey_in_array width height maxval samples.now) }
    ensures kept { result ≢ pos 0 → out.new ≡ out.old }
    ensures first { IsSpectrumAnswer levels (levels_fault 1 255 width height maxval samples.now) (room_case (length out.old) (levels + 1)) element_width element_height element_x element_y element.now result }
{
    let image = Grey8 {
        samples,
        width,
        height,
        maxval: maxval as u32,
    };
    let element = Bitmap {
        pixels: element,
        width: element_width,
        height: element_height,
        origin_x: element_x,
        origin_y: element_y,
    };
    let source = ArrayImage::Grey8(image);
    answer_volumes(volumes(alloc, levels, source, &element, out.len()), out)
}

/// The volumes of levels of two bytes.
pub fn spectrum_u16(
    alloc: Global,
    levels: u32,
    width: u32,
    height: u32,
    maxval: u16,
    samples: &[u16],
    element: &[u8],
    element_width: u32,
    element_height: u32,
    element_x: u32,
    element_y: u32,
    out: &mut [u64],
) -> i32
    ensures made { result ≡ pos 0 → out.new ≡ spectrum (element_in_bytes element_width element_height element_x element_y element.now) levels (grey_in_array width height maxval samples.now) }
    ensures kept { result ≢ pos 0 → out.new ≡ out.old }
    ensures first { IsSpectrumAnswer levels (levels_fault 256 LEVEL_LIMIT width height maxval samples.now) (room_case (length out.old) (levels + 1)) element_width element_height element_x element_y element.now result }
{
    let image = Grey16 {
        samples,
        width,
        height,
        maxval: maxval as u32,
    };
    let element = Bitmap {
        pixels: element,
        width: element_width,
        height: element_height,
        origin_x: element_x,
        origin_y: element_y,
    };
    let source = ArrayImage::Grey16(image);
    answer_volumes(volumes(alloc, levels, source, &element, out.len()), out)
}

/// The volumes of a set.
pub fn spectrum_set(
    alloc: Global,
    levels: u32,
    width: u32,
    height: u32,
    pixels: &[u8],
    element: &[u8],
    element_width: u32,
    element_height: u32,
    element_x: u32,
    element_y: u32,
    out: &mut [u64],
) -> i32
    ensures made { result ≡ pos 0 → out.new ≡ spectrum (element_in_bytes element_width element_height element_x element_y element.now) levels (set_in_bytes width height pixels.now) }
    ensures kept { result ≢ pos 0 → out.new ≡ out.old }
    ensures first { IsSpectrumAnswer levels (pixels_fault width height pixels.now) (room_case (length out.old) (levels + 1)) element_width element_height element_x element_y element.now result }
{
    let image = Set {
        pixels,
        width,
        height,
    };
    let element = Bitmap {
        pixels: element,
        width: element_width,
        height: element_height,
        origin_x: element_x,
        origin_y: element_y,
    };
    let source = ArrayImage::Pixels(image);
    answer_volumes(volumes(alloc, levels, source, &element, out.len()), out)
}
