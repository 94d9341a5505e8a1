//! Images of arrays for the plain programs of `mw_geodesic`, and images of what those make.

ghost use Rattle.std.specs.Prelude.{◌≡◌, ◌≤◌, All, IfOk};
ghost use Rattle.mw_model.specs.Pictures.{FitsKind};
ghost use Rattle.mw_model.specs.declared.shapes.Kind.TheVariants as kind;
ghost use Rattle.mw_pixel.specs.Images.{set_of};
ghost use Rattle.mw_c_arrays.specs.Sources.{IsArrayImage, picture_in};

use mw_c_arrays::{ArrayImage, NoMemory, Set};
use mw_model::Kind;
use mw_pixel::{Bit, Image, Plane};
use mw_reference::ReferenceImage;
use std::alloc::Global;
use std::sync::Arc;

/// The samples of an image, by rows.
fn samples_of(alloc: Global, f: ArrayImage<'_>) -> Result<Vec<u16>, NoMemory>
    ensures { IfOk result (λ r. r.items ≡ (picture_in f.entry).samples) }
{
    let mut samples = Vec::new(alloc);
    for at in 0..f.count() {
        samples.push(f.level(at))?;
    }
    Ok(samples)
}

/// Whether it is a set or an image in levels of grey.
fn kind_of(f: ArrayImage<'_>) -> Kind
    ensures { result ≡ (picture_in f.entry).kind }
{
    match f {
        ArrayImage::Grey8(_) => Kind::Grey,
        ArrayImage::Grey16(_) => Kind::Grey,
        ArrayImage::Pixels(_) => Kind::Bit,
    }
}

/// The image for a plain program. It may want memory (`NoMemory`).
pub fn plain(alloc: Global, f: ArrayImage<'_>) -> Result<ReferenceImage, NoMemory>
    requires { IsArrayImage f }
    ensures { IfOk result (λ r. r ≡ picture_in f.entry) }
{
    let samples = samples_of(alloc, f)?;
    Ok(ReferenceImage::new(kind_of(f), f.width(), f.height(), f.maxval(), samples))
}

/// Samples of one byte each.
fn bytes_of(alloc: Global, samples: &[u16]) -> Result<Vec<u8>, NoMemory>
    requires { All (λ s. s ≤ 255) samples.now }
    ensures { IfOk result (λ r. r.items ≡ samples.now) }
{
    let mut bytes = Vec::new(alloc);
    for i in 0..samples.len() {
        bytes.push(samples[i] as u8)?;
    }
    Ok(bytes)
}

/// A set that a plain program made.
fn set_made(alloc: Global, made: &ReferenceImage) -> Result<Image, NoMemory>
    requires kind { made.now.kind ≡ kind.Bit }
    requires maxval { made.now.maxval ≡ 1 }
    ensures { IfOk result (λ g. g ≡ made.now) }
{
    let bytes = bytes_of(alloc, made.samples())?;
    let set = Set {
        pixels: &bytes,
        width: made.width(),
        height: made.height(),
    };
    set.image(alloc)
}

/// Levels of one byte that a plain program made.
fn grey8_made(alloc: Global, made: &ReferenceImage) -> Result<Image, NoMemory>
    requires kind { made.now.kind ≡ kind.Grey }
    requires some { 1 ≤ made.now.maxval }
    requires low { made.now.maxval ≤ 255 }
    ensures { IfOk result (λ g. g ≡ made.now) }
{
    let bytes = bytes_of(alloc, made.samples())?;
    let plane = Plane::new(made.width(), made.height(), bytes);
    Ok(Image::grey8(Arc::new(alloc, plane)?, made.maxval() as u8))
}

/// Levels of two bytes that a plain program made.
fn grey16_made(alloc: Global, made: &ReferenceImage) -> Result<Image, NoMemory>
    requires kind { made.now.kind ≡ kind.Grey }
    requires high { 256 ≤ made.now.maxval }
    ensures { IfOk result (λ g. g ≡ made.now) }
{
    let samples = Vec::from_slice(alloc, made.samples())?;
    let plane = Plane::new(made.width(), made.height(), samples);
    Ok(Image::grey16(Arc::new(alloc, plane)?, made.maxval()))
}

/// What a plain program made, as an image. It may want memory (`NoMemory`).
pub fn image_made(alloc: Global, made: &ReferenceImage) -> Result<Image, NoMemory>
    requires { FitsKind made.now.kind made.now.maxval }
    ensures { IfOk result (λ g. g ≡ made.now) }
{
    match made.kind() {
        Kind::Bit => set_made(alloc, made),
        Kind::Grey => {
            if made.maxval() <= 255 {
                grey8_made(alloc, made)
            } else {
                grey16_made(alloc, made)
            }
        }
    }
}

/// A set that a kernel made, as an image.
pub fn bits(alloc: Global, set: Plane<Bit>) -> Result<Image, NoMemory>
    ensures { IfOk result (λ g. g ≡ set_of set) }
{
    // for its samples, which are 0 or 1
    let _words = set.words();
    Ok(Image::bits(Arc::new(alloc, set)?))
}
