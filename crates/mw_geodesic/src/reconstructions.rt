//! Reconstruction by erosion, and what reconstruction from a marker of the image itself makes.

ghost use Rattle.std.specs.Prelude.{◌≡◌, ◌≤◌, ◌+◌, ◌==◌, ◌||◌, IfOk, if◌then◌else◌};
ghost use Rattle.mw_model.specs.Pictures.{sample};
ghost use Rattle.mw_model.specs.Laws.{SameShape};
ghost use Rattle.mw_geodesic.specs.Geodesics.{reconstruction_by_erosion};
ghost use Rattle.mw_geodesic.specs.Reconstructions.{at_border, border_cleared, border_over, closing_by_reconstruction, holes_filled, opening_by_reconstruction};

use crate::drawings::{Drawing, redraw};
use crate::flood::reconstruction;
use mw_model::{NoMemory, Offset};
use mw_reference::{ReferenceImage, complement, eroded_times, minus};
use std::alloc::Global;

/// The marker, raised to the mask, eroded above the mask until nothing changes.
pub fn reconstruction_by_erosion(
    alloc: Global,
    marker: &ReferenceImage,
    mask: &ReferenceImage,
    element: &[Offset],
) -> Result<ReferenceImage, NoMemory>
    requires { SameShape marker.now mask.now }
    ensures { IfOk result (λ r. r ≡ reconstruction_by_erosion element.now mask.now marker.now) }
{
    marker.is_small();
    mask.is_small();
    let below = complement(alloc, marker)?;
    let within = complement(alloc, mask)?;
    let rebuilt = reconstruction(alloc, &below, &within, element)?;
    complement(alloc, &rebuilt)
}

/// n erosions, and the reconstruction of the image from what they leave.
pub fn opening_by_reconstruction(
    alloc: Global,
    image: &ReferenceImage,
    element: &[Offset],
    n: u32,
    around: &[Offset],
) -> Result<ReferenceImage, NoMemory>
    ensures { IfOk result (λ r. r ≡ opening_by_reconstruction around.now element.now n image.now) }
{
    let eroded = eroded_times(alloc, image, element, n)?;
    reconstruction(alloc, &eroded, image, around)
}

/// n dilations, and the reconstruction by erosion of the image from what they make: of the complement the opening, and
/// its complement.
pub fn closing_by_reconstruction(
    alloc: Global,
    image: &ReferenceImage,
    element: &[Offset],
    n: u32,
    around: &[Offset],
) -> Result<ReferenceImage, NoMemory>
    ensures { IfOk result (λ r. r ≡ closing_by_reconstruction around.now element.now n image.now) }
{
    image.is_small();
    let below = complement(alloc, image)?;
    let opened = opening_by_reconstruction(alloc, &below, element, n, around)?;
    complement(alloc, &opened)
}

/// The samples at the border, and one value within.
#[derive(Drop)]
struct BorderOver<'a> {
    image: &'a ReferenceImage,
    value: u16,
}

impl Drawing for BorderOver<'_> {
    ghost value = { λ a x y. if at_border a.image.now x y then sample a.image.now x y else a.value };

    fn at(&self, x: u32, y: u32) -> u16 {
        let right = u64::from(x) + 1 == u64::from(self.image.width());
        let bottom = u64::from(y) + 1 == u64::from(self.image.height());
        if x == 0 || y == 0 || right || bottom {
            self.image.sample(x, y)
        } else {
            self.value
        }
    }
}

/// The image at the border of the frame, and one value within.
fn border_over(
    alloc: Global,
    image: &ReferenceImage,
    value: u16,
) -> Result<ReferenceImage, NoMemory>
    requires { value ≤ image.now.maxval }
    ensures { IfOk result (λ r. r ≡ border_over value image.now) }
{
    redraw(alloc, image, &BorderOver { image, value })
}

/// The image with its holes filled: what a path from the border does not lead to without going higher.
pub fn holes_filled(
    alloc: Global,
    image: &ReferenceImage,
    around: &[Offset],
) -> Result<ReferenceImage, NoMemory>
    ensures { IfOk result (λ r. r ≡ holes_filled around.now image.now) }
{
    let border = border_over(alloc, image, image.maxval())?;
    reconstruction_by_erosion(alloc, &border, image, around)
}

/// The image less what is reconstructed from its border.
pub fn border_cleared(
    alloc: Global,
    image: &ReferenceImage,
    around: &[Offset],
) -> Result<ReferenceImage, NoMemory>
    ensures { IfOk result (λ r. r ≡ border_cleared around.now image.now) }
{
    let border = border_over(alloc, image, 0)?;
    let touching = reconstruction(alloc, &border, image, around)?;
    minus(alloc, image, &touching)
}
