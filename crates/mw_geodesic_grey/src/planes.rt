//! Passes over planes, each in the memory of the plane that it is given.

ghost use Rattle.std.specs.Prelude.{◌≡◌, ℕ, ◌*◌, ◌≤◌, length, IfOk};
ghost use Rattle.mw_model.specs.Flat.{complement, minus};
ghost use Rattle.mw_geodesic.specs.Extrema.{lowered_by};
ghost use Rattle.mw_geodesic_levels.specs.Pictures.{picture_by};

use crate::passes::{lower, take_from, turn};
use mw_model::NoMemory;
use mw_pixel::{Grey, Plane};
use std::alloc::Global;

/// A plane with the same samples. It may want memory (`NoMemory`).
pub(crate) fn copy<P: Grey>(alloc: Global, plane: &Plane<P>) -> Result<Plane<P>, NoMemory>
    ensures same { IfOk result (λ r. r ≡ plane.now) }
    ensures size { length plane.now.cells ≡ plane.now.height * plane.now.width }
{
    let (width, height) = (plane.width(), plane.height());
    let samples = Vec::from_slice(alloc, plane.samples())?;
    Ok(Plane::new(width, height, samples))
}

/// The complement of an image within a maxval.
pub(crate) fn complement<P: Grey>(plane: Plane<P>, maxval: u16) -> Plane<P>
    requires { maxval ≤ P.top_level }
    ensures width { result.width ≡ plane.width }
    ensures height { result.height ≡ plane.height }
    ensures picture { picture_by P.level maxval result ≡ complement (picture_by P.level maxval plane) }
{
    let (width, height) = (plane.width(), plane.height());
    let mut samples = plane.into_samples();
    turn(samples.as_mut_slice(), maxval);
    Plane::new(width, height, samples)
}

/// The image lowered by h.
pub(crate) fn lowered_by<P: Grey>(plane: Plane<P>, h: u16) -> Plane<P>
    ensures width { result.width ≡ plane.width }
    ensures height { result.height ≡ plane.height }
    ensures picture { (maxval : ℕ) → picture_by P.level maxval result ≡ lowered_by h (picture_by P.level maxval plane) }
{
    let (width, height) = (plane.width(), plane.height());
    let mut samples = plane.into_samples();
    lower(samples.as_mut_slice(), h);
    Plane::new(width, height, samples)
}

/// The image less another of its size, in the memory of the other.
pub(crate) fn minus<P: Grey>(image: &Plane<P>, other: Plane<P>) -> Plane<P>
    requires width { other.width ≡ image.now.width }
    requires height { other.height ≡ image.now.height }
    ensures { (maxval : ℕ) → picture_by P.level maxval result ≡ minus (picture_by P.level maxval image.now) (picture_by P.level maxval other) }
{
    let (width, height) = (image.width(), image.height());
    let mut samples = other.into_samples();
    take_from(image.samples(), samples.as_mut_slice());
    Plane::new(width, height, samples)
}
