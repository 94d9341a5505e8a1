//! Sets in arrays: filled holes, cleared borders, and components that are large enough.

ghost use Rattle.std.specs.Prelude.{◌≡◌, ◌≢◌, pos, length, None};
ghost use Rattle.mw_geodesic.specs.Components.{large_components};
ghost use Rattle.mw_geodesic.specs.Reconstructions.{border_cleared, holes_filled};
ghost use Rattle.mw_c_arrays.specs.Arrays.{element_in_bytes, set_in_bytes};
ghost use Rattle.mw_c_arrays.specs.Faults.{element_fault, pixels_fault};
ghost use Rattle.mw_c_calls.specs.Answers.{IsAnswer};
ghost use Rattle.mw_c_calls.specs.Calls.{call_fault, room_case};
ghost use Rattle.mw_c_geodesic.specs.CallFaults.{nothing_case};
ghost use Rattle.mw_c_geodesic.specs.Told.{IsSymmetricAnswer};

use crate::answers::{answer, answer_bytes};
use crate::area::large;
use crate::changing::{Change, changed};
use mw_c_arrays::{Bitmap, Set};
use std::alloc::Global;

/// The set with its holes: what no path outside of it leads to from the border.
pub fn fill_set(
    alloc: Global,
    width: u32,
    height: u32,
    pixels: &[u8],
    element: &[u8],
    element_width: u32,
    element_height: u32,
    element_x: u32,
    element_y: u32,
    out: &mut [u8],
) -> i32
    ensures made { result ≡ pos 0 → out.new ≡ (holes_filled (element_in_bytes element_width element_height element_x element_y element.now) (set_in_bytes width height pixels.now)).samples }
    ensures kept { result ≢ pos 0 → out.new ≡ out.old }
    ensures first { IsAnswer (call_fault None (pixels_fault width height pixels.now) (room_case (length out.old) (length pixels.now)) (element_fault element_width element_height element_x element_y element.now)) None result }
{
    let image = Set {
        pixels,
        width,
        height,
    };
    let element = Bitmap {
        pixels: element,
        width: element_width,
        height: element_height,
        origin_x: element_x,
        origin_y: element_y,
    };
    let made = changed(alloc, Change::Filled, image, &element, out.len());
    answer_bytes(made, out)
}

/// The set without what hangs together with the border.
pub fn clear_border_set(
    alloc: Global,
    width: u32,
    height: u32,
    pixels: &[u8],
    element: &[u8],
    element_width: u32,
    element_height: u32,
    element_x: u32,
    element_y: u32,
    out: &mut [u8],
) -> i32
    ensures made { result ≡ pos 0 → out.new ≡ (border_cleared (element_in_bytes element_width element_height element_x element_y element.now) (set_in_bytes width height pixels.now)).samples }
    ensures kept { result ≢ pos 0 → out.new ≡ out.old }
    ensures first { IsAnswer (call_fault None (pixels_fault width height pixels.now) (room_case (length out.old) (length pixels.now)) (element_fault element_width element_height element_x element_y element.now)) None result }
{
    let image = Set {
        pixels,
        width,
        height,
    };
    let element = Bitmap {
        pixels: element,
        width: element_width,
        height: element_height,
        origin_x: element_x,
        origin_y: element_y,
    };
    let made = changed(alloc, Change::Cleared, image, &element, out.len());
    answer_bytes(made, out)
}

/// The components of a set of `least` pixels and more.
pub fn area_set(
    alloc: Global,
    least: u32,
    width: u32,
    height: u32,
    pixels: &[u8],
    element: &[u8],
    element_width: u32,
    element_height: u32,
    element_x: u32,
    element_y: u32,
    out: &mut [u8],
) -> i32
    ensures made { result ≡ pos 0 → out.new ≡ (large_components (element_in_bytes element_width element_height element_x element_y element.now) least (set_in_bytes width height pixels.now)).samples }
    ensures kept { result ≢ pos 0 → out.new ≡ out.old }
    ensures first { IsSymmetricAnswer (element_in_bytes element_width element_height element_x element_y element.now) (call_fault (nothing_case least) (pixels_fault width height pixels.now) (room_case (length out.old) (length pixels.now)) (element_fault element_width element_height element_x element_y element.now)) result }
{
    let image = Set {
        pixels,
        width,
        height,
    };
    let element = Bitmap {
        pixels: element,
        width: element_width,
        height: element_height,
        origin_x: element_x,
        origin_y: element_y,
    };
    answer(large(alloc, least, image, &element, out))
}
