//! How far neighbours reach.

ghost use Rattle.std.specs.Prelude.{◌≡◌, ◌≤◌};
ghost use Rattle.mw_geodesic_distances.specs.Metrics.{diagonal_reach};

use mw_geodesic::Neighbours;

/// How many columns further than above and below a place reaches in the next row.
pub(crate) fn reach(neighbours: Neighbours) -> u32
    ensures value { result ≡ diagonal_reach neighbours }
    ensures small { result ≤ 1 }
{
    match neighbours {
        Neighbours::Four => 0,
        Neighbours::Eight => 1,
    }
}
