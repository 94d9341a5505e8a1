//! The one loop over the pixels of an image.

ghost use Rattle.std.specs.Prelude.{◌≡◌, ℕ, ◌<◌, ◌≤◌, IfOk};
ghost use Rattle.mw_model.specs.Pictures.{drawn, redrawn, IsPicture};

use crate::ReferenceImage;
use mw_model::{Kind, NoMemory};
use std::alloc::Global;

/// A sample for each place.
pub trait Pixels {
    ghost value: { Self → ℕ → ℕ → ℕ };

    /// The sample in column x of row y.
    fn at(&self, x: u32, y: u32) -> u16
        ensures { result ≡ value self.now x y };
}

/// The image with these samples, of the size of another, one pixel after the other.
pub fn draw<P: Pixels>(
    alloc: Global,
    kind: Kind,
    maxval: u16,
    like: &ReferenceImage,
    pixels: &P,
) -> Result<ReferenceImage, NoMemory>
    requires bounded { IsPicture like.now → (x y : ℕ) → x < like.now.width → y < like.now.height → P.value pixels.now x y ≤ maxval }
    ensures { IfOk result (λ r. r ≡ drawn kind like.now.width like.now.height maxval (P.value pixels.now)) }
{
    let width = like.width();
    let height = like.height();
    let mut samples = Vec::new(alloc);
    for y in 0..height {
        for x in 0..width {
            samples.push(pixels.at(x, y))?;
        }
    }
    Ok(ReferenceImage::new(kind, width, height, maxval, samples))
}

/// The image with these samples, of the kind, size and maxval of another.
pub fn redraw<P: Pixels>(
    alloc: Global,
    like: &ReferenceImage,
    pixels: &P,
) -> Result<ReferenceImage, NoMemory>
    requires bounded { IsPicture like.now → (x y : ℕ) → x < like.now.width → y < like.now.height → P.value pixels.now x y ≤ like.now.maxval }
    ensures { IfOk result (λ r. r ≡ redrawn like.now (P.value pixels.now)) }
{
    draw(alloc, like.kind(), like.maxval(), like, pixels)
}
