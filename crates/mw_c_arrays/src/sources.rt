//! Images that stand in arrays, whatever their samples.

use crate::{Grey8, Grey16, Set};
use mw_model::{Code, NoMemory};
use mw_pixel::Image;
use std::alloc::Global;

/// An image that stands in an array.
#[derive(Clone, Copy)]
pub enum ArrayImage<'a> {
    Grey8(Grey8<'a>),
    Grey16(Grey16<'a>),
    Pixels(Set<'a>),
}

impl<'a> ArrayImage<'a> {
    ghost use Rattle.std.specs.Prelude.{◌≡◌, ◌<◌, IfNone, IfOk, slice_index};
    ghost use Rattle.mw_c_arrays.specs.Sources.{IsArrayImage, array_sample_count, picture_in, source_fault};

    /// The first thing that is wrong with it, if anything is.
    pub fn fault(self) -> Option<Code>
        ensures first { result ≡ source_fault self.entry }
        ensures sound { IfNone result (IsArrayImage self.entry) }
    {
        match self {
            ArrayImage::Grey8(f) => f.fault(),
            ArrayImage::Grey16(f) => f.fault(),
            ArrayImage::Pixels(f) => f.fault(),
        }
    }

    /// The image. It may want memory (`NoMemory`).
    pub fn image(self, alloc: Global) -> Result<Image, NoMemory>
        requires { IsArrayImage self }
        ensures { IfOk result (λ f. f ≡ picture_in self.entry) }
    {
        match self {
            ArrayImage::Grey8(f) => f.image(alloc),
            ArrayImage::Grey16(f) => f.image(alloc),
            ArrayImage::Pixels(f) => f.image(alloc),
        }
    }

    /// How many samples it has.
    pub fn count(self) -> usize
        ensures { result ≡ array_sample_count self.entry }
    {
        match self {
            ArrayImage::Grey8(f) => f.samples.len(),
            ArrayImage::Grey16(f) => f.samples.len(),
            ArrayImage::Pixels(f) => f.pixels.len(),
        }
    }

    /// The columns.
    pub fn width(self) -> u32
        ensures { result ≡ (picture_in self.entry).width }
    {
        match self {
            ArrayImage::Grey8(f) => f.width,
            ArrayImage::Grey16(f) => f.width,
            ArrayImage::Pixels(f) => f.width,
        }
    }

    /// The rows.
    pub fn height(self) -> u32
        ensures { result ≡ (picture_in self.entry).height }
    {
        match self {
            ArrayImage::Grey8(f) => f.height,
            ArrayImage::Grey16(f) => f.height,
            ArrayImage::Pixels(f) => f.height,
        }
    }

    /// The greatest level that a sample may have.
    pub fn maxval(self) -> u16
        requires { IsArrayImage self }
        ensures { result ≡ (picture_in self.entry).maxval }
    {
        match self {
            ArrayImage::Grey8(f) => f.maxval as u16,
            ArrayImage::Grey16(f) => f.maxval as u16,
            ArrayImage::Pixels(_) => 1,
        }
    }

    /// The level of the sample of this number, which are counted by rows.
    pub fn level(self, at: usize) -> u16
        requires { at < array_sample_count self }
        ensures { result ≡ slice_index (picture_in self.entry).samples at }
    {
        match self {
            ArrayImage::Grey8(f) => u16::from(f.samples[at]),
            ArrayImage::Grey16(f) => f.samples[at],
            ArrayImage::Pixels(f) => u16::from(f.pixels[at] != 0),
        }
    }
}
