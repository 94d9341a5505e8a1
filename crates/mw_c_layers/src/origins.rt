//! Images that strips are cut from.

use mw_c_arrays::ArrayImage;
use mw_pixel::Image;

/// An image that strips are cut from.
#[derive(Clone, Copy)]
pub enum Origin<'a> {
    /// One that stands in a caller's array.
    Array(ArrayImage<'a>),
    /// What a first step made.
    Made(&'a Image),
}

impl<'a> Origin<'a> {
    ghost use Rattle.std.specs.Prelude.{◌≡◌};
    ghost use Rattle.mw_c_layers.specs.Origins.{origin_picture};

    /// The columns.
    pub fn width(self) -> u32
        ensures { result ≡ (origin_picture self.entry).width }
    {
        match self {
            Origin::Array(f) => f.width(),
            Origin::Made(f) => f.width(),
        }
    }

    /// The rows.
    pub fn height(self) -> u32
        ensures { result ≡ (origin_picture self.entry).height }
    {
        match self {
            Origin::Array(f) => f.height(),
            Origin::Made(f) => f.height(),
        }
    }
}
