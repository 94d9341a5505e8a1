//! Images of what stands in arrays: levels of grey are copied, and the pixels of a set packed into words.

use crate::{Grey8, Grey16, Set};
use mw_model::NoMemory;
use mw_pixel::{Image, Plane};
use std::alloc::Global;
use std::sync::Arc;

impl<'a> Grey8<'a> {
    ghost use Rattle.std.specs.Prelude.{◌≡◌, IfOk};
    ghost use Rattle.mw_c_arrays.specs.Arrays.{grey8_picture};
    ghost use Rattle.mw_c_arrays.specs.Sound.{IsGrey8};

    /// The image. It may want memory (`NoMemory`).
    pub fn image(&self, alloc: Global) -> Result<Image, NoMemory>
        requires { IsGrey8 self.now }
        ensures { IfOk result (λ f. f ≡ grey8_picture self.now) }
    {
        let samples = Vec::from_slice(alloc, self.samples)?;
        let plane = Plane::new(self.width, self.height, samples);
        Ok(Image::grey8(Arc::new(alloc, plane)?, self.maxval as u8))
    }
}

impl<'a> Grey16<'a> {
    ghost use Rattle.std.specs.Prelude.{◌≡◌, IfOk};
    ghost use Rattle.mw_c_arrays.specs.Arrays.{grey16_picture};
    ghost use Rattle.mw_c_arrays.specs.Sound.{IsGrey16};

    /// The image. It may want memory (`NoMemory`).
    pub fn image(&self, alloc: Global) -> Result<Image, NoMemory>
        requires { IsGrey16 self.now }
        ensures { IfOk result (λ f. f ≡ grey16_picture self.now) }
    {
        let samples = Vec::from_slice(alloc, self.samples)?;
        let plane = Plane::new(self.width, self.height, samples);
        Ok(Image::grey16(Arc::new(alloc, plane)?, self.maxval as u16))
    }
}

impl<'a> Set<'a> {
    ghost use Rattle.std.specs.Prelude.{◌≡◌, ◌*◌, length, IfOk};
    ghost use Rattle.mw_c_arrays.specs.Arrays.{set_picture};

    /// The image. It may want memory (`NoMemory`).
    pub fn image(&self, alloc: Global) -> Result<Image, NoMemory>
        requires { length self.now.pixels.now ≡ self.now.height * self.now.width }
        ensures { IfOk result (λ f. f ≡ set_picture self.now) }
    {
        let plane = self.plane(alloc)?;
        // for its pixels, which are 0 or 1
        let _words = plane.words();
        Ok(Image::bits(Arc::new(alloc, plane)?))
    }
}
