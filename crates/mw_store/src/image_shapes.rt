//! The shapes of images that are kept.

ghost use Rattle.std.specs.Prelude.{◌≡◌};
ghost use Rattle.mw_model.specs.Pictures.{IsPicture};
ghost use Rattle.mw_store.specs.ImageShapes.{image_shape_of};

use mw_model::Kind;
use mw_tile_planes::WholePlane;
use mw_tile_planes::pixel::Image;

/// The shape of an image, part by part.
#[derive(Clone, Copy)]
pub struct ImageShape {
    pub kind: Kind,
    pub width: u32,
    pub height: u32,
    pub maxval: u16,
}

impl ImageShape {
    /// The shape of an image in one piece.
    pub(crate) fn of_image(image: &Image) -> ImageShape
        ensures value { result ≡ image_shape_of image.now }
        ensures picture { IsPicture image.now }
    {
        // Each place has a sample, as a look at it tells.
        let _picture = image.view();
        ImageShape {
            kind: image.kind(),
            width: image.width(),
            height: image.height(),
            maxval: image.maxval(),
        }
    }

    /// The shape of an image in tiles.
    pub(crate) fn of_tiles(plane: &WholePlane) -> ImageShape
        ensures value { result ≡ image_shape_of plane.now }
        ensures picture { IsPicture plane.now }
    {
        ImageShape {
            kind: plane.kind(),
            width: plane.width(),
            height: plane.height(),
            maxval: plane.maxval(),
        }
    }
}
