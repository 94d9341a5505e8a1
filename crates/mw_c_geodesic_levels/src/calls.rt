//! Levels of grey in arrays: filled holes, and cleared borders.

ghost use Rattle.std.specs.Prelude.{◌≡◌, ◌≢◌, pos, length, None};
ghost use Rattle.mw_model.specs.declared.limits.TheConstants.{LEVEL_LIMIT};
ghost use Rattle.mw_geodesic.specs.Reconstructions.{border_cleared, holes_filled};
ghost use Rattle.mw_c_arrays.specs.Arrays.{element_in_bytes, grey_in_array};
ghost use Rattle.mw_c_arrays.specs.Faults.{element_fault, levels_fault};
ghost use Rattle.mw_c_calls.specs.Answers.{IsAnswer};
ghost use Rattle.mw_c_calls.specs.Calls.{call_fault, room_case};

use crate::changing::{LevelChange, levels_changed};
use mw_c_arrays::{ArrayImage, Bitmap, Grey8, Grey16};
use mw_c_geodesic::{Change, answer_bytes, answer_words};
use std::alloc::Global;

/// The image with its holes filled, of levels of one byte.
pub fn fill_u8(
    alloc: Global,
    width: u32,
    height: u32,
    maxval: u8,
    samples: &[u8],
    element: &[u8],
    element_width: u32,
    element_height: u32,
    element_x: u32,
    element_y: u32,
    out: &mut [u8],
) -> i32
    ensures made { result ≡ pos 0 → out.new ≡ (holes_filled (element_in_bytes element_width element_height element_x element_y element.now) (grey_in_array width height maxval samples.now)).samples }
    ensures kept { result ≢ pos 0 → out.new ≡ out.old }
    ensures first { IsAnswer (call_fault None (levels_fault 1 255 width height maxval samples.now) (room_case (length out.old) (length samples.now)) (element_fault element_width element_height element_x element_y element.now)) None result }
{
    let image = Grey8 {
        samples,
        width,
        height,
        maxval: maxval as u32,
    };
    let element = Bitmap {
        pixels: element,
        width: element_width,
        height: element_height,
        origin_x: element_x,
        origin_y: element_y,
    };
    let source = ArrayImage::Grey8(image);
    let change = LevelChange::Alone(Change::Filled);
    let made = levels_changed(alloc, change, None, source, &element, out.len());
    answer_bytes(made, out)
}

/// The image with its holes filled, of levels of two bytes.
pub fn fill_u16(
    alloc: Global,
    width: u32,
    height: u32,
    maxval: u16,
    samples: &[u16],
    element: &[u8],
    element_width: u32,
    element_height: u32,
    element_x: u32,
    element_y: u32,
    out: &mut [u16],
) -> i32
    ensures made { result ≡ pos 0 → out.new ≡ (holes_filled (element_in_bytes element_width element_height element_x element_y element.now) (grey_in_array width height maxval samples.now)).samples }
    ensures kept { result ≢ pos 0 → out.new ≡ out.old }
    ensures first { IsAnswer (call_fault None (levels_fault 256 LEVEL_LIMIT width height maxval samples.now) (room_case (length out.old) (length samples.now)) (element_fault element_width element_height element_x element_y element.now)) None result }
{
    let image = Grey16 {
        samples,
        width,
        height,
        maxval: maxval as u32,
    };
    let element = Bitmap {
        pixels: element,
        width: element_width,
        height: element_height,
        origin_x: element_x,
        origin_y: element_y,
    };
    let source = ArrayImage::Grey16(image);
    let change = LevelChange::Alone(Change::Filled);
    let made = levels_changed(alloc, change, None, source, &element, out.len());
    answer_words(made, out)
}

/// The image less what is reconstructed from its border, of levels of one byte.
pub fn clear_border_u8(
    alloc: Global,
    width: u32,
    height: u32,
    maxval: u8,
    samples: &[u8],
    element: &[u8],
    element_width: u32,
    element_height: u32,
    element_x: u32,
    element_y: u32,
    out: &mut [u8],
) -> i32
    ensures made { result ≡ pos 0 → out.new ≡ (border_cleared (element_in_bytes element_width element_height element_x element_y element.now) (grey_in_array width height maxval samples.now)).samples }
    ensures kept { result ≢ pos 0 → out.new ≡ out.old }
    ensures first { IsAnswer (call_fault None (levels_fault 1 255 width height maxval samples.now) (room_case (length out.old) (length samples.now)) (element_fault element_width element_height element_x element_y element.now)) None result }
{
    let image = Grey8 {
        samples,
        width,
        height,
        maxval: maxval as u32,
    };
    let element = Bitmap {
        pixels: element,
        width: element_width,
        height: element_height,
        origin_x: element_x,
        origin_y: element_y,
    };
    let source = ArrayImage::Grey8(image);
    let change = LevelChange::Alone(Change::Cleared);
    let made = levels_changed(alloc, change, None, source, &element, out.len());
    answer_bytes(made, out)
}

/// The image less what is reconstructed from its border, of levels of two bytes.
pub fn clear_border_u16(
    alloc: Global,
    width: u32,
    height: u32,
    maxval: u16,
    samples: &[u16],
    element: &[u8],
    element_width: u32,
    element_height: u32,
    element_x: u32,
    element_y: u32,
    out: &mut [u16],
) -> i32
    ensures made { result ≡ pos 0 → out.new ≡ (border_cleared (element_in_bytes element_width element_height element_x element_y element.now) (grey_in_array width height maxval samples.now)).samples }
    ensures kept { result ≢ pos 0 → out.new ≡ out.old }
    ensures first { IsAnswer (call_fault None (levels_fault 256 LEVEL_LIMIT width height maxval samples.now) (room_case (length out.old) (length samples.now)) (element_fault element_width element_height element_x element_y element.now)) None result }
{
    let image = Grey16 {
        samples,
        width,
        height,
        maxval: maxval as u32,
    };
    let element = Bitmap {
        pixels: element,
        width: element_width,
        height: element_height,
        origin_x: element_x,
        origin_y: element_y,
    };
    let source = ArrayImage::Grey16(image);
    let change = LevelChange::Alone(Change::Cleared);
    let made = levels_changed(alloc, change, None, source, &element, out.len());
    answer_words(made, out)
}
