//! Which places are neighbours.

ghost use Rattle.std.specs.Prelude.{◌≡◌};
ghost use Rattle.mw_geodesic.specs.Neighbours.{neighbours_of};
ghost use Rattle.mw_geodesic_levels.specs.Pictures.{element_with_corners};

use mw_geodesic::Neighbours;

/// Whether places that touch at a corner are neighbours.
pub fn corners(neighbours: Neighbours) -> bool
    ensures { element_with_corners result ≡ neighbours_of neighbours }
{
    match neighbours {
        Neighbours::Four => false,
        Neighbours::Eight => true,
    }
}
