//! Labels of the components of sets in arrays, and what is told of each.

ghost use Rattle.std.specs.Prelude.{◌≡◌, ◌≢◌, ◌⊎◌, pos, length, None};
ghost use Rattle.mw_geodesic.specs.Labels.{IsLabelling};
ghost use Rattle.mw_c_arrays.specs.Arrays.{element_in_bytes, set_in_bytes};
ghost use Rattle.mw_c_arrays.specs.Faults.{element_fault, pixels_fault};
ghost use Rattle.mw_c_calls.specs.Answers.{refusal_number};
ghost use Rattle.mw_c_calls.specs.Calls.{call_fault, room_case};
ghost use Rattle.mw_c_geodesic.specs.Regions.{AreRegionsWritten, HasComponents, IsRegionsAnswer};

use crate::measuring::measured;
use crate::region_rows::answer_regions;
use mw_c_arrays::{Bitmap, Code, Set};
use std::alloc::Global;

/// The labels of the components of a set, from 1 by first places, and 0 outside; of each component the seven numbers that
/// `regions_set` writes; and how many components there are, also where there is no room for those numbers.
pub fn components_set(
    alloc: Global,
    width: u32,
    height: u32,
    pixels: &[u8],
    element: &[u8],
    element_width: u32,
    element_height: u32,
    element_x: u32,
    element_y: u32,
    out: &mut [u32],
    regions: &mut [u32],
    components: &mut u32,
) -> i32
    ensures labels { result ≡ pos 0 → IsLabelling (element_in_bytes element_width element_height element_x element_y element.now) (set_in_bytes width height pixels.now) components.new out.new }
    ensures regions { result ≡ pos 0 → AreRegionsWritten (element_in_bytes element_width element_height element_x element_y element.now) (set_in_bytes width height pixels.now) components.new regions.old regions.new }
    ensures counted { call_fault None (pixels_fault width height pixels.now) (room_case (length out.old) (length pixels.now)) (element_fault element_width element_height element_x element_y element.now) ≡ None → result ≡ refusal_number Code.Length → HasComponents (element_in_bytes element_width element_height element_x element_y element.now) (set_in_bytes width height pixels.now) components.new }
    ensures kept { result ≢ pos 0 → (out.new ≡ out.old) × (regions.new ≡ regions.old) }
    ensures uncounted { result ≢ pos 0 → (call_fault None (pixels_fault width height pixels.now) (room_case (length out.old) (length pixels.now)) (element_fault element_width element_height element_x element_y element.now) ≢ None) ⊎ (result ≢ refusal_number Code.Length) → components.new ≡ components.old }
    ensures first { IsRegionsAnswer (element_in_bytes element_width element_height element_x element_y element.now) (call_fault None (pixels_fault width height pixels.now) (room_case (length out.old) (length pixels.now)) (element_fault element_width element_height element_x element_y element.now)) (length regions.old) components.new result }
{
    let image = Set {
        pixels,
        width,
        height,
    };
    let element = Bitmap {
        pixels: element,
        width: element_width,
        height: element_height,
        origin_x: element_x,
        origin_y: element_y,
    };
    let room = regions.len();
    answer_regions(
        measured(alloc, image, &element, regions, out),
        room,
        components,
    )
}
