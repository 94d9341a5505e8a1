//! Domes that are cut off, basins that are filled up, and regional extrema.

ghost use Rattle.std.specs.Prelude.{◌≡◌, ◌+◌, ◌-◌, ◌≤◌, min, IfOk};
ghost use Rattle.mw_model.specs.Pictures.{sample};
ghost use Rattle.mw_geodesic.specs.Extrema.{h_maxima, h_minima, lowered_by, raised_by, regional_maxima, regional_minima};

use crate::drawings::{Drawing, redraw};
use crate::flood::reconstruction;
use crate::reconstructions::reconstruction_by_erosion;
use mw_model::{NoMemory, Offset};
use mw_reference::{ReferenceImage, minus, threshold};
use std::alloc::Global;

#[derive(Drop)]
struct Lowered<'a> {
    image: &'a ReferenceImage,
    h: u16,
}

impl Drawing for Lowered<'_> {
    ghost value = { λ a x y. sample a.image.now x y - a.h };

    fn at(&self, x: u32, y: u32) -> u16 {
        self.image.sample(x, y).saturating_sub(self.h)
    }
}

#[derive(Drop)]
struct Raised<'a> {
    image: &'a ReferenceImage,
    h: u16,
}

impl Drawing for Raised<'_> {
    ghost value = { λ a x y. min (sample a.image.now x y + a.h) a.image.now.maxval };

    fn at(&self, x: u32, y: u32) -> u16 {
        let level = u32::from(self.image.sample(x, y)) + u32::from(self.h);
        level.min(u32::from(self.image.maxval())) as u16
    }
}

/// Each sample less h, stopping at 0.
fn lowered_by(alloc: Global, image: &ReferenceImage, h: u16) -> Result<ReferenceImage, NoMemory>
    ensures { IfOk result (λ r. r ≡ lowered_by h image.now) }
{
    redraw(alloc, image, &Lowered { image, h })
}

/// Each sample and h, stopping at the maxval.
fn raised_by(alloc: Global, image: &ReferenceImage, h: u16) -> Result<ReferenceImage, NoMemory>
    ensures { IfOk result (λ r. r ≡ raised_by h image.now) }
{
    redraw(alloc, image, &Raised { image, h })
}

/// The image with h cut off each of its domes.
pub fn h_maxima(
    alloc: Global,
    image: &ReferenceImage,
    h: u16,
    around: &[Offset],
) -> Result<ReferenceImage, NoMemory>
    ensures { IfOk result (λ r. r ≡ h_maxima around.now h image.now) }
{
    let marker = lowered_by(alloc, image, h)?;
    reconstruction(alloc, &marker, image, around)
}

/// The image with each of its basins filled up by h.
pub fn h_minima(
    alloc: Global,
    image: &ReferenceImage,
    h: u16,
    around: &[Offset],
) -> Result<ReferenceImage, NoMemory>
    ensures { IfOk result (λ r. r ≡ h_minima around.now h image.now) }
{
    let marker = raised_by(alloc, image, h)?;
    reconstruction_by_erosion(alloc, &marker, image, around)
}

/// The plateaus of a level over 0 that have no higher neighbour.
pub fn regional_maxima(
    alloc: Global,
    image: &ReferenceImage,
    around: &[Offset],
) -> Result<ReferenceImage, NoMemory>
    ensures { IfOk result (λ r. r ≡ regional_maxima around.now image.now) }
{
    let cut = h_maxima(alloc, image, 1, around)?;
    let domes = minus(alloc, image, &cut)?;
    threshold(alloc, &domes, 1)
}

/// The plateaus of a level under the maxval that have no lower neighbour.
pub fn regional_minima(
    alloc: Global,
    image: &ReferenceImage,
    around: &[Offset],
) -> Result<ReferenceImage, NoMemory>
    ensures { IfOk result (λ r. r ≡ regional_minima around.now image.now) }
{
    let filled_up = h_minima(alloc, image, 1, around)?;
    let basins = minus(alloc, &filled_up, image)?;
    threshold(alloc, &basins, 1)
}
