//! Levels of grey of which images are made.

ghost use Rattle.std.specs.Prelude.{◌≡◌, ◌*◌, ◌≤◌, All, length, map, vec_len, IfOk};
ghost use Rattle.mw_model.specs.declared.limits.TheConstants.{LEVEL_LIMIT};
ghost use Rattle.mw_model.specs.declared.shapes.Kind.TheVariants as kind;
ghost use Rattle.mw_model.specs.Pictures.{picture};
ghost use Rattle.mw_geodesic_levels.specs.Pictures.{picture_by};

use mw_c_arrays::{NoMemory, put_bytes, put_words};
use mw_pixel::{Grey, Image, Plane};
use std::alloc::Global;
use std::sync::Arc;

/// A level of grey of which images are made: one of one byte, or of two.
pub trait GreyLevel: Grey {
    ghost use Rattle.std.specs.Prelude.{ℕ};

    /// An image of such levels may have this maxval.
    ghost stands: { ℕ → Type 0 };

    /// The image with these samples, by rows. It may want memory (`NoMemory`).
    fn image(
        alloc: Global,
        width: u32,
        height: u32,
        maxval: u16,
        samples: Vec<Self>,
    ) -> Result<Image, NoMemory>
        requires stands { stands maxval }
        requires size { vec_len samples ≡ height * width }
        requires within { All (λ s. Self.level s ≤ maxval) samples.items }
        ensures { IfOk result (λ g. g ≡ picture kind.Grey width height maxval (map Self.level samples.items)) };

    /// Writes the samples of an image to an array.
    fn put(image: &Image, out: &mut [Self])
        requires stands { stands image.now.maxval }
        requires size { length image.now.samples ≡ length out.old }
        ensures { map Self.level out.new ≡ image.now.samples };

    ghost stands_within: { (m : ℕ) → stands m → m ≤ Self.top_level };
}

impl GreyLevel for u8 {
    ghost use Rattle.std.specs.Prelude.{◌≤◌};

    ghost stands = { λ m. (1 ≤ m) × (m ≤ 255) };

    fn image(
        alloc: Global,
        width: u32,
        height: u32,
        maxval: u16,
        samples: Vec<u8>,
    ) -> Result<Image, NoMemory>
        requires stands { (1 ≤ maxval) × (maxval ≤ 255) }
        requires size { vec_len samples ≡ height * width }
        requires within { All (λ s. s ≤ maxval) samples.items }
        ensures { IfOk result (λ g. g ≡ picture kind.Grey width height maxval (map (λ s. s) samples.items)) }
    {
        let plane = Plane::new(width, height, samples);
        Ok(Image::grey8(Arc::new(alloc, plane)?, maxval as u8))
    }

    fn put(image: &Image, out: &mut [u8])
        requires stands { (1 ≤ image.now.maxval) × (image.now.maxval ≤ 255) }
        requires size { length image.now.samples ≡ length out.old }
        ensures { map (λ s. s) out.new ≡ image.now.samples }
    {
        put_bytes(image, out);
    }

    ghost stands_within = { λ m e. e.1 };
}

impl GreyLevel for u16 {
    ghost use Rattle.std.specs.Prelude.{◌≤◌};
    ghost use Rattle.mw_model.specs.declared.limits.TheConstants.{LEVEL_LIMIT};

    ghost stands = { λ m. (256 ≤ m) × (m ≤ LEVEL_LIMIT) };

    fn image(
        alloc: Global,
        width: u32,
        height: u32,
        maxval: u16,
        samples: Vec<u16>,
    ) -> Result<Image, NoMemory>
        requires stands { (256 ≤ maxval) × (maxval ≤ LEVEL_LIMIT) }
        requires size { vec_len samples ≡ height * width }
        requires within { All (λ s. s ≤ maxval) samples.items }
        ensures { IfOk result (λ g. g ≡ picture kind.Grey width height maxval (map (λ s. s) samples.items)) }
    {
        let plane = Plane::new(width, height, samples);
        Ok(Image::grey16(Arc::new(alloc, plane)?, maxval))
    }

    fn put(image: &Image, out: &mut [u16])
        requires stands { (256 ≤ image.now.maxval) × (image.now.maxval ≤ LEVEL_LIMIT) }
        requires size { length image.now.samples ≡ length out.old }
        ensures { map (λ s. s) out.new ≡ image.now.samples }
    {
        put_words(image, out);
    }

    ghost stands_within = { λ m e. e.1 };
}

/// The image of a plane. It may want memory (`NoMemory`).
pub(crate) fn image_of<P: GreyLevel>(
    alloc: Global,
    plane: Plane<P>,
    maxval: u16,
) -> Result<Image, NoMemory>
    requires stands { P.stands maxval }
    requires within { All (λ s. P.level s ≤ maxval) plane.cells }
    ensures { IfOk result (λ g. g ≡ picture_by P.level maxval plane) }
{
    let (width, height) = (plane.width(), plane.height());
    P::image(alloc, width, height, maxval, plane.into_samples())
}
