//! Images whose samples are raised.

ghost use Rattle.std.specs.Prelude.{◌≡◌, ◌<◌, ◌≤◌, IfOk};
ghost use Rattle.mw_model.specs.Pictures.{sample, picture, IsPicture, IsSmallPicture};
ghost use Rattle.mw_geodesic.specs.Floods.{with_sample};

use mw_model::{Kind, NoMemory};
use mw_reference::ReferenceImage;
use std::alloc::Global;
use std::marker::Model;

/// An image whose samples are set one by one.
#[derive(Debug, Drop)]
pub struct Canvas {
    kind: Kind,
    width: u32,
    height: u32,
    maxval: u16,
    samples: Vec<u16>,
}

impl Model for Canvas {
    ghost use Rattle.mw_model.specs.Pictures.{Picture, picture, IsSmallPicture};

    ghost Value = { Picture };

    ghost view = { λ a. picture a.kind a.width a.height a.maxval a.samples.items };

    ghost invariant = { λ a. IsSmallPicture (picture a.kind a.width a.height a.maxval a.samples.items) };
}

impl Canvas {
    /// The canvas of an image.
    pub fn of_image(alloc: Global, image: &ReferenceImage) -> Result<Canvas, NoMemory>
        ensures is { IfOk result (λ r. r ≡ image.now) }
        ensures picture { IfOk result (λ r. IsPicture r) }
    {
        let kind = image.kind();
        let width = image.width();
        let height = image.height();
        let maxval = image.maxval();
        let mut samples = Vec::new(alloc);
        samples.extend_from_slice(image.samples())?;
        Ok(Canvas {
            kind,
            width,
            height,
            maxval,
            samples,
        })
    }

    /// The image that it shows.
    pub fn into_image(self) -> ReferenceImage
        ensures { result ≡ self }
    {
        ReferenceImage::new(
            self.kind,
            self.width,
            self.height,
            self.maxval,
            self.samples,
        )
    }

    pub fn width(&self) -> u32
        ensures { result ≡ self.now.width }
    {
        self.width
    }

    pub fn height(&self) -> u32
        ensures { result ≡ self.now.height }
    {
        self.height
    }

    /// The sample in column x of row y; behind the last sample it is 0.
    pub fn sample(&self, x: u32, y: u32) -> u16
        ensures { result ≡ sample self.now x y }
    {
        match self
            .samples
            .get(y as usize * self.width as usize + x as usize)
        {
            Some(s) => *s,
            None => 0,
        }
    }

    /// Sets the sample in column x of row y.
    pub fn set(&mut self, x: u32, y: u32, s: u16)
        requires column { x < self.old.width }
        requires row { y < self.old.height }
        requires bounded { s ≤ self.old.maxval }
        ensures { self.new ≡ with_sample self.old x y s }
    {
        let i = y as usize * self.width as usize + x as usize;
        self.samples[i] = s;
    }
}
