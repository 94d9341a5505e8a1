//! How far neighbours reach.

ghost use Rattle.std.specs.Prelude.{◌≡◌};
ghost use Rattle.mw_geodesic_runs.specs.Touching.{columns_reached};

use mw_geodesic::Neighbours;

/// How many columns further than above and below a place reaches in the next row.
pub(crate) fn reach(neighbours: Neighbours) -> u32
    ensures { result ≡ columns_reached neighbours }
{
    match neighbours {
        Neighbours::Four => 0,
        Neighbours::Eight => 1,
    }
}
