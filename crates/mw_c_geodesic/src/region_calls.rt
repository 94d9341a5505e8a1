//! What is told of the components of sets in arrays.

ghost use Rattle.std.specs.Prelude.{◌≡◌, ◌≢◌, ◌⊎◌, pos, length, None};
ghost use Rattle.mw_c_arrays.specs.Arrays.{element_in_bytes, set_in_bytes};
ghost use Rattle.mw_c_arrays.specs.Faults.{element_fault, pixels_fault};
ghost use Rattle.mw_c_calls.specs.Answers.{refusal_number};
ghost use Rattle.mw_c_calls.specs.Calls.{call_fault};
ghost use Rattle.mw_c_geodesic.specs.Regions.{AreRegionsWritten, HasComponents, IsRegionsAnswer};

use crate::region_rows::answer_regions;
use crate::regions::regions;
use mw_c_arrays::{Bitmap, Code, Set};
use std::alloc::Global;

/// Of each component of a set seven numbers, by first places: column and row of that place, the area, and the first and the
/// last column and row, as left, top, right and bottom; and how many components there are, also where there is no room.
pub fn regions_set(
    alloc: Global,
    width: u32,
    height: u32,
    pixels: &[u8],
    element: &[u8],
    element_width: u32,
    element_height: u32,
    element_x: u32,
    element_y: u32,
    out: &mut [u32],
    components: &mut u32,
) -> i32
    ensures made { result ≡ pos 0 → AreRegionsWritten (element_in_bytes element_width element_height element_x element_y element.now) (set_in_bytes width height pixels.now) components.new out.old out.new }
    ensures counted { call_fault None (pixels_fault width height pixels.now) None (element_fault element_width element_height element_x element_y element.now) ≡ None → result ≡ refusal_number Code.Length → HasComponents (element_in_bytes element_width element_height element_x element_y element.now) (set_in_bytes width height pixels.now) components.new }
    ensures kept { result ≢ pos 0 → out.new ≡ out.old }
    ensures uncounted { result ≢ pos 0 → (call_fault None (pixels_fault width height pixels.now) None (element_fault element_width element_height element_x element_y element.now) ≢ None) ⊎ (result ≢ refusal_number Code.Length) → components.new ≡ components.old }
    ensures first { IsRegionsAnswer (element_in_bytes element_width element_height element_x element_y element.now) (call_fault None (pixels_fault width height pixels.now) None (element_fault element_width element_height element_x element_y element.now)) (length out.old) components.new result }
{
    let image = Set {
        pixels,
        width,
        height,
    };
    let element = Bitmap {
        pixels: element,
        width: element_width,
        height: element_height,
        origin_x: element_x,
        origin_y: element_y,
    };
    let room = out.len();
    answer_regions(regions(alloc, image, &element, out), room, components)
}
