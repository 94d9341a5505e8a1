//! Images: sets, and pictures in levels of grey.

ghost use Rattle.std.specs.Prelude.{◌≡◌, ◌↔◌, ◌≤◌, ◌<◌, ◌*◌, ◌+◌, All, IsTrue, length};
ghost use Rattle.mw_model.specs.Pictures.{IsPicture, sample};

use crate::{Bit, Pixel, Plane};
use mw_model::{Kind, NoMemory, Shape};
use std::marker::Model;
use std::sync::Arc;

/// The samples of an image, to be looked at; beside them the maxval.
#[derive(Clone, Copy)]
pub enum View<'a> {
    Bits(&'a Plane<Bit>),
    Grey8(&'a Plane<u8>, u8),
    Grey16(&'a Plane<u16>, u16),
}

/// The samples of an image, with one more owner; beside them the maxval.
#[derive(Drop)]
pub enum SharedView {
    Bits(Arc<Plane<Bit>>),
    Grey8(Arc<Plane<u8>>, u8),
    Grey16(Arc<Plane<u16>>, u16),
}

#[derive(Drop)]
enum Samples {
    Bits(Arc<Plane<Bit>>),
    Grey8(Arc<Plane<u8>>, u8),
    Grey16(Arc<Plane<u16>>, u16),
}

/// A set, or a picture in levels of grey up to its maxval. No sample is over the maxval. Others may own its plane too.
#[derive(Drop)]
pub struct Image {
    content: Samples,
}

impl Model for Image {
    ghost use Rattle.mw_model.specs.Pictures.{Picture};

    ghost Value = { Picture };

    ghost use Rattle.mw_pixel.specs.Images.{picture_of, IsHeld};

    ghost view = { λ a. picture_of a.content };

    ghost invariant = { λ a. IsHeld a.content };
}

impl Image {
    ghost use Rattle.std.specs.Prelude.{◌≡◌, ◌↔◌, ◌≤◌, ◌<◌, ◌*◌, ◌+◌, All, IfOk, IsTrue, length};
    ghost use Rattle.std.specs.Arc.{arc_value};
    ghost use Rattle.mw_model.specs.Pictures.{IsPicture, sample};
    ghost use Rattle.mw_pixel.specs.Images.{grey_of, set_of, Shows, SharesAs};

    /// A set: 1 for its pixels, 0 for the others, with the maxval 1.
    pub fn bits(plane: Arc<Plane<Bit>>) -> Image
        requires { All (λ s. s ≤ 1) (arc_value plane).cells }
        ensures { result ≡ set_of (arc_value plane) }
    {
        Image {
            content: Samples::Bits(plane),
        }
    }

    /// A grey image of samples up to a maxval from 1 to 255.
    pub fn grey8(plane: Arc<Plane<u8>>, maxval: u8) -> Image
        requires some { 1 ≤ maxval }
        requires within { All (λ s. s ≤ maxval) (arc_value plane).cells }
        ensures { result ≡ grey_of (arc_value plane) maxval }
    {
        Image {
            content: Samples::Grey8(plane, maxval),
        }
    }

    /// A grey image of samples up to a maxval from 256 to 65,535.
    pub fn grey16(plane: Arc<Plane<u16>>, maxval: u16) -> Image
        requires high { 256 ≤ maxval }
        requires within { All (λ s. s ≤ maxval) (arc_value plane).cells }
        ensures { result ≡ grey_of (arc_value plane) maxval }
    {
        Image {
            content: Samples::Grey16(plane, maxval),
        }
    }

    /// What is inside, to be looked at.
    pub fn view(&self) -> View<'_>
        ensures shows { Shows self.now result }
        ensures picture { IsPicture self.now }
    {
        // `width` is called for the number of samples, which it ensures.
        match &self.content {
            Samples::Bits(plane) => {
                let _width = plane.width();
                View::Bits(plane)
            }
            Samples::Grey8(plane, maxval) => {
                let _width = plane.width();
                View::Grey8(plane, *maxval)
            }
            Samples::Grey16(plane, maxval) => {
                let _width = plane.width();
                View::Grey16(plane, *maxval)
            }
        }
    }

    /// This image once more, as one more owner of its plane. No sample is copied.
    pub fn share(&self) -> Result<Image, NoMemory>
        ensures { IfOk result (λ i. i ≡ self.now) }
    {
        Ok(match &self.content {
            Samples::Bits(plane) => Image::bits(Arc::try_clone(plane)?),
            Samples::Grey8(plane, maxval) => Image::grey8(Arc::try_clone(plane)?, *maxval),
            Samples::Grey16(plane, maxval) => Image::grey16(Arc::try_clone(plane)?, *maxval),
        })
    }

    /// What is inside, with one more owner.
    pub fn shared(&self) -> Result<SharedView, NoMemory>
        ensures { IfOk result (SharesAs self.now) }
    {
        Ok(match &self.content {
            Samples::Bits(plane) => SharedView::Bits(Arc::try_clone(plane)?),
            Samples::Grey8(plane, maxval) => SharedView::Grey8(Arc::try_clone(plane)?, *maxval),
            Samples::Grey16(plane, maxval) => SharedView::Grey16(Arc::try_clone(plane)?, *maxval),
        })
    }

    /// Whether it is a set or a grey image.
    pub fn kind(&self) -> Kind
        ensures { result ≡ self.now.kind }
    {
        match &self.content {
            Samples::Bits(_) => Kind::Bit,
            Samples::Grey8(_, _) => Kind::Grey,
            Samples::Grey16(_, _) => Kind::Grey,
        }
    }

    /// The columns, in pixels.
    pub fn width(&self) -> u32
        ensures { result ≡ self.now.width }
    {
        match &self.content {
            Samples::Bits(plane) => plane.width(),
            Samples::Grey8(plane, _) => plane.width(),
            Samples::Grey16(plane, _) => plane.width(),
        }
    }

    /// The rows, in pixels.
    pub fn height(&self) -> u32
        ensures { result ≡ self.now.height }
    {
        match &self.content {
            Samples::Bits(plane) => plane.height(),
            Samples::Grey8(plane, _) => plane.height(),
            Samples::Grey16(plane, _) => plane.height(),
        }
    }

    /// The greatest level that a sample may have.
    pub fn maxval(&self) -> u16
        ensures value { result ≡ self.now.maxval }
        ensures some { 1 ≤ result }
    {
        match &self.content {
            Samples::Bits(_) => 1,
            Samples::Grey8(_, maxval) => u16::from(*maxval),
            Samples::Grey16(_, maxval) => *maxval,
        }
    }

    /// The level in column x of row y.
    pub fn sample(&self, x: u32, y: u32) -> u16
        requires across { x < self.now.width }
        requires down { y < self.now.height }
        ensures value { result ≡ sample self.now x y }
        ensures small { result ≤ self.now.maxval }
    {
        match &self.content {
            Samples::Bits(plane) => plane.at(x, y).value(),
            Samples::Grey8(plane, _) => plane.at(x, y).value(),
            Samples::Grey16(plane, _) => plane.at(x, y).value(),
        }
    }

    /// The kind, sides and maxval.
    pub fn shape(&self) -> Shape
        ensures { result ≡ Shape.Image self.now.kind self.now.width self.now.height self.now.maxval }
    {
        Shape::Image(self.kind(), self.width(), self.height(), self.maxval())
    }

    /// Whether both are the same image: kind, sides, maxval and samples.
    pub fn same(&self, other: &Image) -> bool
        ensures { IsTrue result ↔ (self.now ≡ other.now) }
    {
        match (&self.content, &other.content) {
            (Samples::Bits(a), Samples::Bits(b)) => a.same(b),
            (Samples::Grey8(a, m), Samples::Grey8(b, n)) => *m == *n && a.same(b),
            (Samples::Grey16(a, m), Samples::Grey16(b, n)) => *m == *n && a.same(b),
            _ => false,
        }
    }
}
