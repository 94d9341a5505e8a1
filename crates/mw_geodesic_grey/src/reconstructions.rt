//! Reconstruction by erosion, and what reconstruction from the border makes.

ghost use Rattle.std.specs.Prelude.{◌≡◌, ℕ, ◌≤◌, All, IfOk};
ghost use Rattle.mw_geodesic.specs.Geodesics.{reconstruction, reconstruction_by_erosion};
ghost use Rattle.mw_geodesic.specs.Neighbours.{neighbours_of};
ghost use Rattle.mw_geodesic.specs.Reconstructions.{border_cleared, border_over, holes_filled};
ghost use Rattle.mw_geodesic_levels.specs.Pictures.{picture_by};

use crate::border::border_over_nothing;
use crate::planes::{complement, copy, minus};
use mw_geodesic_levels::{Neighbours, reconstruct};
use mw_model::NoMemory;
use mw_pixel::{Grey, Plane};
use std::alloc::Global;

/// The marker, raised to a mask of its size, eroded above the mask until nothing changes, in the memory of the marker. It may
/// want memory (`NoMemory`) of what `mw_geodesic_levels` takes.
pub fn reconstruct_by_erosion<P: Grey>(
    alloc: Global,
    marker: Plane<P>,
    mask: Plane<P>,
    maxval: u16,
    neighbours: Neighbours,
) -> Result<Plane<P>, NoMemory>
    requires width { marker.width ≡ mask.width }
    requires height { marker.height ≡ mask.height }
    requires top { maxval ≤ P.top_level }
    requires marker { All (λ s. P.level s ≤ maxval) marker.cells }
    requires mask { All (λ s. P.level s ≤ maxval) mask.cells }
    ensures { IfOk result (λ r. picture_by P.level maxval r ≡ reconstruction_by_erosion (neighbours_of neighbours) (picture_by P.level maxval mask) (picture_by P.level maxval marker)) }
{
    // for the numbers of samples
    let (_marker_size, _mask_size) = (marker.width(), mask.width());
    let below = complement(marker, maxval);
    let within = complement(mask, maxval);
    let rebuilt = reconstruct(alloc, below, &within, neighbours)?;
    Ok(complement(rebuilt, maxval))
}

/// The same in memory of its own, for which it may want some more (`NoMemory`).
pub fn reconstruction_by_erosion<P: Grey>(
    alloc: Global,
    marker: &Plane<P>,
    mask: &Plane<P>,
    maxval: u16,
    neighbours: Neighbours,
) -> Result<Plane<P>, NoMemory>
    requires width { marker.now.width ≡ mask.now.width }
    requires height { marker.now.height ≡ mask.now.height }
    requires top { maxval ≤ P.top_level }
    requires marker { All (λ s. P.level s ≤ maxval) marker.now.cells }
    requires mask { All (λ s. P.level s ≤ maxval) mask.now.cells }
    ensures { IfOk result (λ r. picture_by P.level maxval r ≡ reconstruction_by_erosion (neighbours_of neighbours) (picture_by P.level maxval mask.now) (picture_by P.level maxval marker.now)) }
{
    let marker = copy(alloc, marker)?;
    let mask = copy(alloc, mask)?;
    reconstruct_by_erosion(alloc, marker, mask, maxval, neighbours)
}

/// What is reconstructed of an image from its border.
fn rebuilt_from_border<P: Grey>(
    alloc: Global,
    image: &Plane<P>,
    neighbours: Neighbours,
) -> Result<Plane<P>, NoMemory>
    ensures { (maxval : ℕ) → IfOk result (λ r. picture_by P.level maxval r ≡ reconstruction (neighbours_of neighbours) (picture_by P.level maxval image.now) (border_over 0 (picture_by P.level maxval image.now))) }
{
    let border = border_over_nothing(copy(alloc, image)?);
    reconstruct(alloc, border, image, neighbours)
}

/// The image with its holes filled: each place comes to the least level that a path from it to the border has to reach.
/// It may want memory (`NoMemory`), for one plane and of what `mw_geodesic_levels` takes.
pub fn fill_holes<P: Grey>(
    alloc: Global,
    image: Plane<P>,
    maxval: u16,
    neighbours: Neighbours,
) -> Result<Plane<P>, NoMemory>
    requires top { maxval ≤ P.top_level }
    requires image { All (λ s. P.level s ≤ maxval) image.cells }
    ensures { IfOk result (λ r. picture_by P.level maxval r ≡ holes_filled (neighbours_of neighbours) (picture_by P.level maxval image)) }
{
    // for the number of samples
    let _size = image.width();
    let below = complement(image, maxval);
    let outside = rebuilt_from_border(alloc, &below, neighbours)?;
    Ok(complement(outside, maxval))
}

/// The same in memory of its own, for which it may want some more (`NoMemory`).
pub fn holes_filled<P: Grey>(
    alloc: Global,
    image: &Plane<P>,
    maxval: u16,
    neighbours: Neighbours,
) -> Result<Plane<P>, NoMemory>
    requires top { maxval ≤ P.top_level }
    requires image { All (λ s. P.level s ≤ maxval) image.now.cells }
    ensures { IfOk result (λ r. picture_by P.level maxval r ≡ holes_filled (neighbours_of neighbours) (picture_by P.level maxval image.now)) }
{
    let image = copy(alloc, image)?;
    fill_holes(alloc, image, maxval, neighbours)
}

/// The image less what is reconstructed from its border. It may want memory (`NoMemory`).
pub fn border_cleared<P: Grey>(
    alloc: Global,
    image: &Plane<P>,
    neighbours: Neighbours,
) -> Result<Plane<P>, NoMemory>
    ensures { (maxval : ℕ) → IfOk result (λ r. picture_by P.level maxval r ≡ border_cleared (neighbours_of neighbours) (picture_by P.level maxval image.now)) }
{
    let touching = rebuilt_from_border(alloc, image, neighbours)?;
    Ok(minus(image, touching))
}
