//! Elements of bitmaps.

ghost use Rattle.std.specs.Prelude.{◌≡◌, IfOk};
ghost use Rattle.mw_c_arrays.specs.Sound.{IsElementBitmap};
ghost use Rattle.mw_c_calls.specs.Sources.{bitmap_figure};

use mw_c_arrays::{Bitmap, NoMemory, Set};
use mw_element::Element;
use std::alloc::Global;

/// The element of a bitmap. It may want memory (`NoMemory`).
pub fn element(alloc: Global, b: &Bitmap<'_>) -> Result<Element, NoMemory>
    requires { IsElementBitmap b.now }
    ensures { IfOk result (λ e. e ≡ bitmap_figure b.now) }
{
    let set = Set {
        pixels: b.pixels,
        width: b.width,
        height: b.height,
    };
    let pixels = set.plane(alloc)?;
    match Element::of_bitmap(alloc, &pixels, b.origin_x, b.origin_y) {
        Ok(element) => Ok(element),
        Err(_refused) => Err(NoMemory),
    }
}
