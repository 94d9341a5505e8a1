//! Rows of a caller's image, copied into an image of their own.

ghost use Rattle.std.specs.Prelude.{◌≡◌, ◌*◌, ◌+◌, ◌≤◌, length, slice_range, IfOk};
ghost use Rattle.mw_c_arrays.specs.Sources.{IsArrayImage, picture_in};
ghost use Rattle.mw_c_layers.specs.Parts.{IsStrip, part_of};

use mw_c_arrays::{ArrayImage, Set};
use mw_model::{NoMemory, Rect};
use mw_pixel::{Image, Plane};
use std::alloc::Global;
use std::sync::Arc;

/// The samples of the rows of a strip.
fn in_strip<T>(samples: &[T], strip: Rect) -> &[T]
    requires within { strip.y * strip.width + strip.height * strip.width ≤ length samples.now }
    ensures value { result.now ≡ slice_range samples.entry.now (strip.y * strip.width) (strip.y * strip.width + strip.height * strip.width) }
    ensures count { length result.now ≡ strip.height * strip.width }
{
    let first = strip.y as usize * strip.width as usize;
    let count = strip.height as usize * strip.width as usize;
    &samples[first..first + count]
}

/// The rows of a strip.
pub(crate) fn rows(alloc: Global, f: ArrayImage<'_>, strip: Rect) -> Result<Image, NoMemory>
    requires sound { IsArrayImage f }
    requires strip { IsStrip strip (picture_in f) }
    ensures { IfOk result (λ g. g ≡ part_of (picture_in f.entry) strip) }
{
    let (width, height) = (strip.width, strip.height);
    match f {
        ArrayImage::Grey8(f) => {
            let samples = Vec::from_slice(alloc, in_strip(f.samples, strip))?;
            let plane = Plane::new(width, height, samples);
            Ok(Image::grey8(Arc::new(alloc, plane)?, f.maxval as u8))
        }
        ArrayImage::Grey16(f) => {
            let samples = Vec::from_slice(alloc, in_strip(f.samples, strip))?;
            let plane = Plane::new(width, height, samples);
            Ok(Image::grey16(Arc::new(alloc, plane)?, f.maxval as u16))
        }
        ArrayImage::Pixels(f) => {
            let pixels = in_strip(f.pixels, strip);
            let set = Set {
                pixels,
                width,
                height,
            };
            set.image(alloc)
        }
    }
}
