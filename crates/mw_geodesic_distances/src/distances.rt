//! The distances of a set by a metric.

ghost use Rattle.std.specs.Prelude.{◌≡◌, IfOk};
ghost use Rattle.mw_pixel.specs.Images.{set_of};
ghost use Rattle.mw_geodesic_distances.specs.Metrics.{metric_distance};

use crate::Metric;
use crate::parabolas::by_parabolas;
use crate::steps::by_steps;
use mw_geodesic::Neighbours;
use mw_model::NoMemory;
use mw_pixel::{Bit, Plane};
use std::alloc::Global;

/// How far each place of a set is from the nearest one of the frame that is not in it, by rows from the top: 0 outside the
/// set, and the top where none is nearer. It may want memory (`NoMemory`).
pub fn distances_of(
    alloc: Global,
    set: &Plane<Bit>,
    metric: Metric,
    top: u32,
) -> Result<Vec<u32>, NoMemory>
    ensures { IfOk result (λ r. r.items ≡ (metric_distance metric top (set_of set.now)).samples) }
{
    match metric {
        Metric::CityBlock => by_steps(alloc, set, Neighbours::Four, top),
        Metric::Chessboard => by_steps(alloc, set, Neighbours::Eight, top),
        Metric::SquaredEuclid => by_parabolas(alloc, set, top),
    }
}
