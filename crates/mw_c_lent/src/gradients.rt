//! Gradients by full rectangles of few rows: the greatest less the least under the same rectangle, made in one pass where the rows
//! stand, without rows in between.

ghost use Rattle.std.specs.Prelude.{◌≡◌, ◌*◌, length, map, IfErr, IfNone, IfOk, IfSome, false, true};
ghost use Rattle.mw_model.specs.declared.offsets.OffsetBox.{OffsetBox};
ghost use Rattle.mw_model.specs.Flat.{dilation, erosion, minus};
ghost use Rattle.mw_model.specs.Pictures.{Picture};
ghost use Rattle.mw_model.specs.Rectangles.{box_offsets};
ghost use Rattle.mw_c_arrays.specs.Sources.{IsArrayImage, picture_in};
ghost use Rattle.mw_c_lent.specs.Slides.{IsRange, slide_picture};
ghost use Rattle.mw_c_lent.specs.Suited.{SuitGradient};

use crate::lendable::Lendable;
use crate::slides::Slide;
use mw_c_arrays::ArrayImage;
use mw_grid::whole_frame;
use mw_model::{NoMemory, OffsetBox};
use mw_rank_lent::Lent;
use std::alloc::Global;

/// The rectangle of a gradient, if these two extrema make one.
fn gradient_box(upper: Slide, lower: Slide) -> Option<OffsetBox>
    ensures picture { IfSome result (λ b. (f : Picture) → minus (dilation (box_offsets b) f) (erosion (box_offsets b) f) ≡ minus (slide_picture upper f) (slide_picture lower f)) }
    ensures range { IfSome result (λ b. IsRange upper lower b) }
    ensures none { IfNone result ((b : OffsetBox) → IsRange upper lower b → ⊥) }
{
    let Slide::Greatest(offsets) = upper else {
        return None;
    };
    let Slide::Least(others) = lower else {
        return None;
    };
    if offsets == others {
        return Some(offsets);
    }
    None
}

/// Writes the gradient of an image by a rectangle, if it can.
fn put_gradient<P: Lendable>(
    alloc: Global,
    offsets: OffsetBox,
    f: ArrayImage<'_>,
    out: &mut [P],
) -> Result<bool, NoMemory>
    requires sound { IsArrayImage f }
    requires room { length out.old ≡ (picture_in f).height * (picture_in f).width }
    ensures made { IfOk result (λ done. done ≡ true → map P.level out.new ≡ (minus (dilation (box_offsets offsets) (picture_in f.entry)) (erosion (box_offsets offsets) (picture_in f.entry))).samples) }
    ensures taken { SuitGradient P.top_level offsets f.entry → IfOk result (λ done. done ≡ true) }
    ensures left_out { IfOk result (λ done. done ≡ false → out.new ≡ out.old) }
    ensures kept { IfErr result (λ _. out.new ≡ out.old) }
{
    let Some(samples) = P::grey(f) else {
        return Ok(false);
    };
    let Some(top) = P::of(f.maxval()) else {
        return Ok(false);
    };
    let (width, height) = (f.width(), f.height());
    let frame = whole_frame(width, height);
    let lent = Lent::new(width, height, frame, samples);
    P::gradient_into(alloc, &lent, offsets, top, frame, out)
}

/// Writes one extremum of an image less another in one pass, if both are under the same rectangle and it has few rows. Says whether
/// it did: where not, it writes nothing. It may want memory (`NoMemory`), but only before it writes.
pub(crate) fn put_range<P: Lendable>(
    alloc: Global,
    upper: Slide,
    lower: Slide,
    f: ArrayImage<'_>,
    out: &mut [P],
) -> Result<bool, NoMemory>
    requires sound { IsArrayImage f }
    requires room { length out.old ≡ (picture_in f).height * (picture_in f).width }
    ensures made { IfOk result (λ done. done ≡ true → map P.level out.new ≡ (minus (slide_picture upper (picture_in f.entry)) (slide_picture lower (picture_in f.entry))).samples) }
    ensures taken { (b : OffsetBox) → IsRange upper lower b → SuitGradient P.top_level b f.entry → IfOk result (λ done. done ≡ true) }
    ensures left_out { IfOk result (λ done. done ≡ false → out.new ≡ out.old) }
    ensures kept { IfErr result (λ _. out.new ≡ out.old) }
{
    let Some(offsets) = gradient_box(upper, lower) else {
        return Ok(false);
    };
    put_gradient(alloc, offsets, f, out)
}
