//! Distances of sets in arrays.

ghost use Rattle.std.specs.Prelude.{◌≡◌, ◌≢◌, pos, length, None};
ghost use Rattle.mw_geodesic_distances.specs.Metrics.{metric_distance};
ghost use Rattle.mw_c_arrays.specs.Arrays.{set_in_bytes};
ghost use Rattle.mw_c_arrays.specs.Faults.{pixels_fault};
ghost use Rattle.mw_c_calls.specs.Answers.{IsAnswer};
ghost use Rattle.mw_c_calls.specs.Calls.{call_fault, room_case};
ghost use Rattle.mw_c_geodesic.specs.DistanceCalls.{metric_case, metric_of};

use crate::answers::answer_numbers;
use crate::distances::distances;
use mw_c_arrays::Set;
use std::alloc::Global;

/// How far each pixel of a set is from the nearest place of the frame that is not in it, by the metric of a number: by city
/// blocks (0), by the chessboard (1) or squared (2); 0 outside the set, and the top where none is nearer.
pub fn distance_set(
    alloc: Global,
    metric: u32,
    top: u32,
    width: u32,
    height: u32,
    pixels: &[u8],
    out: &mut [u32],
) -> i32
    ensures made { result ≡ pos 0 → out.new ≡ (metric_distance (metric_of metric) top (set_in_bytes width height pixels.now)).samples }
    ensures kept { result ≢ pos 0 → out.new ≡ out.old }
    ensures first { IsAnswer (call_fault (metric_case metric top) (pixels_fault width height pixels.now) (room_case (length out.old) (length pixels.now)) None) None result }
{
    let image = Set {
        pixels,
        width,
        height,
    };
    answer_numbers(distances(alloc, metric, top, image, out.len()), out)
}
