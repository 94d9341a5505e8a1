//! Samples of which planes are made.

ghost use Rattle.std.specs.Prelude.{◌≡◌, ◌*◌, vec_len};
ghost use Rattle.mw_model.specs.Rasters.{raster};

use crate::{Bit, Listed, Pixel, Samples};
use mw_pixel_words::Words;

/// A sample of which planes are made.
pub trait Planar: Pixel {
    /// What holds the samples of a plane: words of 64 pixels for a set, else each sample by itself.
    type Held: Samples<Self>;
}

/// A level of grey: a plane has each sample by itself.
pub trait Grey: Planar {
    /// Holds so many columns and rows of samples.
    fn hold(width: u32, height: u32, samples: Vec<Self>) -> Self::Held
        requires { vec_len samples ≡ height * width }
        ensures { Self.Held.shown result ≡ raster width height samples.items };

    /// The samples that are held.
    fn samples_in(held: &Self::Held) -> &[Self]
        ensures { result.now ≡ (Self.Held.shown held.now).cells };

    /// The samples that were held.
    fn samples_of(held: Self::Held) -> Vec<Self>
        ensures { result.items ≡ (Self.Held.shown held).cells };
}

impl Planar for Bit {
    type Held = Words;
}

impl Planar for u8 {
    type Held = Listed<u8>;
}

impl Planar for u16 {
    type Held = Listed<u16>;
}

impl Grey for u8 {
    fn hold(width: u32, height: u32, samples: Vec<u8>) -> Listed<u8>
        requires { vec_len samples ≡ height * width }
        ensures { result ≡ raster width height samples.items }
    {
        Listed::new(width, height, samples)
    }

    fn samples_in(held: &Listed<u8>) -> &[u8]
        ensures { result.now ≡ held.now.cells }
    {
        held.samples()
    }

    fn samples_of(held: Listed<u8>) -> Vec<u8>
        ensures { result.items ≡ held.cells }
    {
        held.into_samples()
    }
}

impl Grey for u16 {
    fn hold(width: u32, height: u32, samples: Vec<u16>) -> Listed<u16>
        requires { vec_len samples ≡ height * width }
        ensures { result ≡ raster width height samples.items }
    {
        Listed::new(width, height, samples)
    }

    fn samples_in(held: &Listed<u16>) -> &[u16]
        ensures { result.now ≡ held.now.cells }
    {
        held.samples()
    }

    fn samples_of(held: Listed<u16>) -> Vec<u16>
        ensures { result.items ≡ held.cells }
    {
        held.into_samples()
    }
}
