//! Laws of images.

ghost use Rattle.std.specs.Prelude.{◌≡◌, ℕ};
ghost use Rattle.mw_model.specs.Flat.{under};
ghost use Rattle.mw_model.specs.Rasters.{cell_at, seen_under};
ghost use Rattle.mw_pixel.specs.Images.{raster_of};

use crate::Image;
use mw_model::Offset;

/// What is seen of an image's samples under an element is what stands under the element in the image.
pub fn samples_are_seen(image: &Image, element: &[Offset])
    ensures { (x y : ℕ) → seen_under (cell_at (raster_of image.now)) element.now x y ≡ under image.now element.now x y }
{
    // for what holds of every image, and the range of the length
    let _view = image.view();
    let _size = element.len();
}
