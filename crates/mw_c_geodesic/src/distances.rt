//! Distances of sets that stand in arrays.

ghost use Rattle.std.specs.Prelude.{◌≡◌, length, None, IfOk};
ghost use Rattle.mw_model.specs.Pictures.{IsImage};
ghost use Rattle.mw_geodesic_distances.specs.Metrics.{metric_distance};
ghost use Rattle.mw_c_arrays.specs.Arrays.{set_picture};
ghost use Rattle.mw_c_arrays.specs.Faults.{set_fault};
ghost use Rattle.mw_c_calls.specs.Calls.{call_fault, room_case};
ghost use Rattle.mw_c_geodesic.specs.DistanceCalls.{metric_case, metric_of};
ghost use Rattle.mw_c_geodesic.specs.Told.{IsToldFirst, of_code};

use crate::faults::{refused, room_fault};
use crate::refusals::Refusal;
use mw_c_arrays::{Code, NoMemory, Set, first_of, when};
use mw_geodesic_distances::{Metric, distances_of};
use std::alloc::Global;

/// The metric of a number.
fn metric_of(number: u32) -> Metric
    ensures { result ≡ metric_of number }
{
    if number == 0 {
        return Metric::CityBlock;
    }
    if number == 1 {
        return Metric::Chessboard;
    }
    Metric::SquaredEuclid
}

/// The distances of a set in an array. It may want memory (`NoMemory`).
fn distances_in(alloc: Global, metric: Metric, top: u32, f: Set<'_>) -> Result<Vec<u32>, NoMemory>
    requires { IsImage (set_picture f) }
    ensures { IfOk result (λ r. r.items ≡ (metric_distance metric top (set_picture f.entry)).samples) }
{
    let set = f.plane(alloc)?;
    distances_of(alloc, &set, metric, top)
}

/// The distances of a set by the metric of a number, for an array of so many places.
pub(crate) fn distances(
    alloc: Global,
    number: u32,
    top: u32,
    f: Set<'_>,
    room: usize,
) -> Result<Vec<u32>, Refusal>
    ensures value { IfOk result (λ r. r.items ≡ (metric_distance (metric_of number) top (set_picture f.entry)).samples) }
    ensures size { IfOk result (λ r. length r.items ≡ room) }
    ensures told { IsToldFirst (of_code (call_fault (metric_case number top) (set_fault f.entry) (room_case room (length f.entry.pixels.now)) None)) result }
{
    let metric = first_of(&[when(number >= 3, Code::Param), when(top == 0, Code::Param)]);
    let image = f.fault();
    let places = room_fault(room, f.pixels.len());
    if let Some(code) = refused(metric, image, places, None) {
        return Err(Refusal::Of(code));
    }
    match distances_in(alloc, metric_of(number), top, f) {
        Ok(made) => Ok(made),
        Err(NoMemory) => Err(Refusal::Of(Code::Memory)),
    }
}
