//! Of the reference.

ghost use Rattle.std.specs.Prelude.{◌≡◌, IfOk};
ghost use Rattle.mw_model.specs.Flat.{erosion, opening};
ghost use Rattle.mw_model.specs.Iterates.{times};

use mw_model::{NoMemory, Offset};
use mw_reference::ReferenceImage;
use std::alloc::Global;

/// `mw_reference::opening`.
pub fn opening(
    alloc: Global,
    image: &ReferenceImage,
    element: &[Offset],
) -> Result<ReferenceImage, NoMemory>
    ensures { IfOk result (λ r. r ≡ opening element.now image.now) }
{
    mw_reference::opening(alloc, image, element)
}

/// `mw_reference::eroded_times`.
pub fn eroded_times(
    alloc: Global,
    image: &ReferenceImage,
    element: &[Offset],
    n: u32,
) -> Result<ReferenceImage, NoMemory>
    ensures { IfOk result (λ r. r ≡ times n (erosion element.now) image.now) }
{
    mw_reference::eroded_times(alloc, image, element, n)
}
