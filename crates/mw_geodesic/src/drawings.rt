//! Images that are drawn anew, one sample after the other.

ghost use Rattle.std.specs.Prelude.{◌≡◌, ℕ, ◌<◌, ◌≤◌, IfOk};
ghost use Rattle.mw_model.specs.Pictures.{redrawn, IsPicture};

use crate::canvas::Canvas;
use mw_model::NoMemory;
use mw_reference::ReferenceImage;
use std::alloc::Global;

/// A sample for each place.
pub trait Drawing {
    ghost value: { Self → ℕ → ℕ → ℕ };

    /// The sample in column x of row y.
    fn at(&self, x: u32, y: u32) -> u16
        ensures { result ≡ value self.now x y };
}

/// The image with these samples, of the kind, size and maxval of another.
pub fn redraw<D: Drawing>(
    alloc: Global,
    like: &ReferenceImage,
    drawing: &D,
) -> Result<ReferenceImage, NoMemory>
    requires bounded { IsPicture like.now → (x y : ℕ) → x < like.now.width → y < like.now.height → D.value drawing.now x y ≤ like.now.maxval }
    ensures { IfOk result (λ r. r ≡ redrawn like.now (D.value drawing.now)) }
{
    let width = like.width();
    let height = like.height();
    let mut canvas = Canvas::of_image(alloc, like)?;
    for y in 0..height {
        for x in 0..width {
            canvas.set(x, y, drawing.at(x, y));
        }
    }
    Ok(canvas.into_image())
}
