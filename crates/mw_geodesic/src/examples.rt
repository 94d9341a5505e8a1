//! Worked examples: what the operators give on small images. Each function is a computed row, and does nothing.

ghost use Rattle.std.specs.Prelude.{◌≡◌, ◌∷◌, []};
ghost use Rattle.mw_geodesic.specs.Examples.{row_of_levels, row_of_set, three_rows, left_and_right, bar, gapped, two_places};
ghost use Rattle.mw_geodesic.specs.Neighbours.{four_neighbours};
ghost use Rattle.mw_geodesic.specs.Geodesics.{geodesic_dilation, geodesic_erosion, reconstruction, reconstruction_by_erosion};
ghost use Rattle.mw_geodesic.specs.Reconstructions.{opening_by_reconstruction, closing_by_reconstruction, holes_filled, border_cleared};
ghost use Rattle.mw_geodesic.specs.Extrema.{h_maxima, h_minima, regional_maxima, regional_minima};
ghost use Rattle.mw_geodesic.specs.Components.{area, component, regions, large_components, area_opening, area_closing};
ghost use Rattle.mw_geodesic.specs.Distances.{distance, squared_distance};

/// One step: each sample rises to its neighbours, and no higher than the mask; or falls to them, and no lower.
pub fn one_step()
    ensures dilated { geodesic_dilation left_and_right (row_of_levels 9 (3 ∷ 4 ∷ 6 ∷ 2 ∷ 5 ∷ [])) (row_of_levels 9 (0 ∷ 0 ∷ 5 ∷ 0 ∷ 0 ∷ [])) ≡ row_of_levels 9 (0 ∷ 4 ∷ 5 ∷ 2 ∷ 0 ∷ []) }
    ensures eroded { geodesic_erosion left_and_right (row_of_levels 9 (3 ∷ 4 ∷ 1 ∷ 2 ∷ 0 ∷ [])) (row_of_levels 9 (9 ∷ 9 ∷ 3 ∷ 9 ∷ 9 ∷ [])) ≡ row_of_levels 9 (9 ∷ 4 ∷ 3 ∷ 3 ∷ 9 ∷ []) }
{}

/// A marker of one sample spreads within the mask: behind the sample of 2 it is 2. By erosion it falls, and behind the
/// sample of 4 it is 4.
pub fn reconstruction_of_a_row()
    ensures dilated { reconstruction left_and_right (row_of_levels 9 (3 ∷ 4 ∷ 6 ∷ 2 ∷ 5 ∷ [])) (row_of_levels 9 (0 ∷ 0 ∷ 7 ∷ 0 ∷ 0 ∷ [])) ≡ row_of_levels 9 (3 ∷ 4 ∷ 6 ∷ 2 ∷ 2 ∷ []) }
    ensures eroded { reconstruction_by_erosion left_and_right (row_of_levels 9 (3 ∷ 4 ∷ 1 ∷ 2 ∷ 0 ∷ [])) (row_of_levels 9 (9 ∷ 9 ∷ 1 ∷ 9 ∷ 9 ∷ [])) ≡ row_of_levels 9 (4 ∷ 4 ∷ 1 ∷ 2 ∷ 2 ∷ []) }
{}

/// The erosion keeps the middle of the line of three, which is built again whole; the single pixel is gone. The
/// closing fills the single gap, and not that of three.
pub fn opening_by_reconstruction_of_a_set()
    ensures opened { opening_by_reconstruction left_and_right bar 1 (row_of_set (0 ∷ 1 ∷ 1 ∷ 1 ∷ 0 ∷ 1 ∷ 0 ∷ [])) ≡ row_of_set (0 ∷ 1 ∷ 1 ∷ 1 ∷ 0 ∷ 0 ∷ 0 ∷ []) }
    ensures closed { closing_by_reconstruction left_and_right bar 1 (row_of_set (1 ∷ 0 ∷ 0 ∷ 0 ∷ 1 ∷ 0 ∷ 1 ∷ [])) ≡ row_of_set (1 ∷ 0 ∷ 0 ∷ 0 ∷ 1 ∷ 1 ∷ 1 ∷ []) }
{}

/// By an element with a gap it is not idempotent: the pixel that stands for two is left, and then goes too.
pub fn opening_by_reconstruction_with_a_gap()
    ensures once { opening_by_reconstruction left_and_right gapped 1 (row_of_set (1 ∷ 0 ∷ 1 ∷ 0 ∷ 0 ∷ [])) ≡ row_of_set (1 ∷ 0 ∷ 0 ∷ 0 ∷ 0 ∷ []) }
    ensures twice { opening_by_reconstruction left_and_right gapped 1 (row_of_set (1 ∷ 0 ∷ 0 ∷ 0 ∷ 0 ∷ [])) ≡ row_of_set (0 ∷ 0 ∷ 0 ∷ 0 ∷ 0 ∷ []) }
{}

/// A pond is filled up to the lowest place of its bank. A peak that does not touch the border stays, less the level at
/// which it hangs together with the border.
pub fn filled_pond()
    ensures filled { holes_filled four_neighbours (three_rows (9 ∷ 5 ∷ 9 ∷ 7 ∷ 1 ∷ 8 ∷ 0 ∷ 6 ∷ 0 ∷ [])) ≡ three_rows (9 ∷ 5 ∷ 9 ∷ 7 ∷ 5 ∷ 8 ∷ 0 ∷ 6 ∷ 0 ∷ []) }
    ensures cleared { border_cleared four_neighbours (three_rows (0 ∷ 3 ∷ 0 ∷ 1 ∷ 7 ∷ 2 ∷ 0 ∷ 1 ∷ 0 ∷ [])) ≡ three_rows (0 ∷ 0 ∷ 0 ∷ 0 ∷ 4 ∷ 0 ∷ 0 ∷ 0 ∷ 0 ∷ []) }
{}

/// The dome of height 2 is gone, and 2 is cut off that of height 5; basins likewise.
pub fn domes_and_basins()
    ensures maxima { h_maxima left_and_right 2 (row_of_levels 9 (0 ∷ 2 ∷ 0 ∷ 5 ∷ 1 ∷ [])) ≡ row_of_levels 9 (0 ∷ 0 ∷ 0 ∷ 3 ∷ 1 ∷ []) }
    ensures minima { h_minima left_and_right 2 (row_of_levels 9 (9 ∷ 7 ∷ 9 ∷ 4 ∷ 8 ∷ [])) ≡ row_of_levels 9 (9 ∷ 9 ∷ 9 ∷ 6 ∷ 8 ∷ []) }
{}

/// The plateau of two and the last sample have no higher neighbour; the first sample and that of 1 no lower one.
pub fn regional_extrema()
    ensures maxima { regional_maxima left_and_right (row_of_levels 9 (2 ∷ 4 ∷ 4 ∷ 1 ∷ 3 ∷ [])) ≡ row_of_set (0 ∷ 1 ∷ 1 ∷ 0 ∷ 1 ∷ []) }
    ensures minima { regional_minima left_and_right (row_of_levels 9 (2 ∷ 4 ∷ 4 ∷ 1 ∷ 3 ∷ [])) ≡ row_of_set (1 ∷ 0 ∷ 0 ∷ 1 ∷ 0 ∷ []) }
{}

/// Two components: one of three places, and one of one.
pub fn components_of_a_row()
    ensures first { component left_and_right (row_of_set (1 ∷ 1 ∷ 1 ∷ 0 ∷ 1 ∷ [])) 1 0 ≡ row_of_set (1 ∷ 1 ∷ 1 ∷ 0 ∷ 0 ∷ []) }
    ensures area { area (row_of_set (1 ∷ 1 ∷ 1 ∷ 0 ∷ 0 ∷ [])) ≡ 3 }
    ensures regions { regions left_and_right (row_of_set (1 ∷ 1 ∷ 0 ∷ [])) ≡ two_places ∷ [] }
    ensures large { large_components left_and_right 2 (row_of_set (1 ∷ 1 ∷ 0 ∷ 1 ∷ [])) ≡ row_of_set (1 ∷ 1 ∷ 0 ∷ 0 ∷ []) }
{}

/// At each level the components of two places or more are kept.
pub fn area_opening_of_a_row()
    ensures opened { area_opening left_and_right 2 (row_of_levels 2 (2 ∷ 2 ∷ 1 ∷ 2 ∷ [])) ≡ row_of_levels 2 (2 ∷ 2 ∷ 1 ∷ 1 ∷ []) }
    ensures closed { area_closing left_and_right 2 (row_of_levels 2 (0 ∷ 0 ∷ 1 ∷ 0 ∷ [])) ≡ row_of_levels 2 (0 ∷ 0 ∷ 1 ∷ 1 ∷ []) }
{}

/// How many erosions a place survives, and how far it is from the nearest place outside, squared. Outside of the frame
/// nothing is near.
pub fn distances_of_a_row()
    ensures erosions { distance bar 9 (row_of_set (0 ∷ 1 ∷ 1 ∷ 1 ∷ 0 ∷ [])) ≡ row_of_levels 9 (0 ∷ 1 ∷ 2 ∷ 1 ∷ 0 ∷ []) }
    ensures squared { squared_distance 9 (row_of_set (0 ∷ 1 ∷ 1 ∷ 1 ∷ 1 ∷ [])) ≡ row_of_levels 9 (0 ∷ 1 ∷ 4 ∷ 9 ∷ 9 ∷ []) }
{}
