//! Domes that are cut off, basins that are filled up, and regional extrema.

ghost use Rattle.std.specs.Prelude.{◌≡◌, ℕ, ◌≤◌, All, IfOk};
ghost use Rattle.mw_pixel.specs.Images.{set_of};
ghost use Rattle.mw_geodesic.specs.Extrema.{h_maxima, h_minima, regional_maxima, regional_minima};
ghost use Rattle.mw_geodesic.specs.Neighbours.{neighbours_of};
ghost use Rattle.mw_geodesic_levels.specs.Pictures.{picture_by};

use crate::marks::places_over;
use crate::planes::{complement, copy, lowered_by};
use mw_geodesic_levels::{Neighbours, reconstruct};
use mw_model::NoMemory;
use mw_pixel::{Bit, Grey, Plane};
use std::alloc::Global;

/// The image with h cut off each of its domes, and without those of a height up to h. It may want memory (`NoMemory`).
pub fn h_maxima<P: Grey>(
    alloc: Global,
    image: &Plane<P>,
    h: u16,
    neighbours: Neighbours,
) -> Result<Plane<P>, NoMemory>
    ensures { (maxval : ℕ) → IfOk result (λ r. picture_by P.level maxval r ≡ h_maxima (neighbours_of neighbours) h (picture_by P.level maxval image.now)) }
{
    let marker = lowered_by(copy(alloc, image)?, h);
    reconstruct(alloc, marker, image, neighbours)
}

/// The image with each of its basins filled up by h, and without those of a depth up to h. It may want memory
/// (`NoMemory`), for one plane and of what `mw_geodesic_levels` takes.
pub fn fill_basins<P: Grey>(
    alloc: Global,
    image: Plane<P>,
    h: u16,
    maxval: u16,
    neighbours: Neighbours,
) -> Result<Plane<P>, NoMemory>
    requires top { maxval ≤ P.top_level }
    requires image { All (λ s. P.level s ≤ maxval) image.cells }
    ensures { IfOk result (λ r. picture_by P.level maxval r ≡ h_minima (neighbours_of neighbours) h (picture_by P.level maxval image)) }
{
    // for the number of samples
    let _size = image.width();
    let below = complement(image, maxval);
    let cut = h_maxima(alloc, &below, h, neighbours)?;
    Ok(complement(cut, maxval))
}

/// The same in memory of its own, for which it may want some more (`NoMemory`).
pub fn h_minima<P: Grey>(
    alloc: Global,
    image: &Plane<P>,
    h: u16,
    maxval: u16,
    neighbours: Neighbours,
) -> Result<Plane<P>, NoMemory>
    requires top { maxval ≤ P.top_level }
    requires image { All (λ s. P.level s ≤ maxval) image.now.cells }
    ensures { IfOk result (λ r. picture_by P.level maxval r ≡ h_minima (neighbours_of neighbours) h (picture_by P.level maxval image.now)) }
{
    let image = copy(alloc, image)?;
    fill_basins(alloc, image, h, maxval, neighbours)
}

/// The plateaus of a level over 0 that have no higher neighbour. It may want memory (`NoMemory`).
pub fn regional_maxima<P: Grey>(
    alloc: Global,
    image: &Plane<P>,
    neighbours: Neighbours,
) -> Result<Plane<Bit>, NoMemory>
    ensures { (maxval : ℕ) → IfOk result (λ r. set_of r ≡ regional_maxima (neighbours_of neighbours) (picture_by P.level maxval image.now)) }
{
    let cut = h_maxima(alloc, image, 1, neighbours)?;
    places_over(alloc, image, &cut)
}

/// The plateaus of a level under the maxval that have no lower neighbour. It may want memory (`NoMemory`), for one plane and
/// of what `mw_geodesic_levels` takes.
pub fn find_minima<P: Grey>(
    alloc: Global,
    image: Plane<P>,
    maxval: u16,
    neighbours: Neighbours,
) -> Result<Plane<Bit>, NoMemory>
    requires top { maxval ≤ P.top_level }
    requires image { All (λ s. P.level s ≤ maxval) image.cells }
    ensures { IfOk result (λ r. set_of r ≡ regional_minima (neighbours_of neighbours) (picture_by P.level maxval image)) }
{
    // for the number of samples
    let _size = image.width();
    let below = complement(image, maxval);
    regional_maxima(alloc, &below, neighbours)
}

/// The same beside the image, for which it may want some more memory (`NoMemory`).
pub fn regional_minima<P: Grey>(
    alloc: Global,
    image: &Plane<P>,
    maxval: u16,
    neighbours: Neighbours,
) -> Result<Plane<Bit>, NoMemory>
    requires top { maxval ≤ P.top_level }
    requires image { All (λ s. P.level s ≤ maxval) image.now.cells }
    ensures { IfOk result (λ r. set_of r ≡ regional_minima (neighbours_of neighbours) (picture_by P.level maxval image.now)) }
{
    let image = copy(alloc, image)?;
    find_minima(alloc, image, maxval, neighbours)
}
