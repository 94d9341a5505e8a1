//! The set of the places where one image is over another.

ghost use Rattle.std.specs.Prelude.{◌≡◌, ℕ, ◌+◌, ◌*◌, ◌<◌, length, slice_index, IfOk};
ghost use Rattle.mw_model.specs.Flat.{minus, threshold};
ghost use Rattle.mw_pixel.specs.Images.{set_of};
ghost use Rattle.mw_pixel.specs.mw_pixel_words.Packed.{bit_of, stride_of, IsPacked};
ghost use Rattle.mw_geodesic_grey.specs.Places.{over_mark, mark_over};
ghost use Rattle.mw_geodesic_levels.specs.Levels.{level_numbered};
ghost use Rattle.mw_geodesic_levels.specs.Pictures.{picture_by};

use mw_bits_rows::pack_row;
use mw_model::NoMemory;
use mw_pixel::words::{repeated, stride};
use mw_pixel::{Bit, Grey, Pixel, Plane, Words, copies};
use std::alloc::Global;

/// Puts those places of a row into the line where the upper one is over the lower one.
fn mark_row<P: Pixel>(upper: &[P], lower: &[P], line: &mut [Bit])
    requires upper { length upper.now ≡ length line.old }
    requires lower { length lower.now ≡ length line.old }
    ensures { (x : ℕ) → x < length line.old → slice_index line.new x ≡ over_mark (level_numbered P.level upper.now x) (level_numbered P.level lower.now x) }
{
    for x in 0..line.len() {
        line[x] = Bit::new(lower[x].value() < upper[x].value());
    }
}

/// Marks and packs each row.
fn mark_rows<P: Grey>(upper: &Plane<P>, lower: &Plane<P>, line: &mut [Bit], out: &mut [u64])
    requires width { lower.now.width ≡ upper.now.width }
    requires height { lower.now.height ≡ upper.now.height }
    requires line { length line.old ≡ upper.now.width }
    requires room { length out.old ≡ upper.now.height * stride_of upper.now.width }
    ensures packed { IsPacked upper.now.width upper.now.height out.new }
    ensures marked { (x y : ℕ) → x < upper.now.width → y < upper.now.height → bit_of out.new (y * (64 * stride_of upper.now.width) + x) ≡ mark_over P.level upper.now lower.now x y }
{
    let stride = stride(upper.width());
    for y in 0..upper.height() {
        let start = y as usize * stride;
        mark_row(upper.row(y), lower.row(y), line);
        pack_row(line, &mut out[start..start + stride]);
    }
}

/// The places where an image is over another of its size. It may want memory (`NoMemory`): for the set, and for a row.
pub(crate) fn places_over<P: Grey>(
    alloc: Global,
    upper: &Plane<P>,
    lower: &Plane<P>,
) -> Result<Plane<Bit>, NoMemory>
    requires width { lower.now.width ≡ upper.now.width }
    requires height { lower.now.height ≡ upper.now.height }
    ensures { (maxval : ℕ) → IfOk result (λ r. set_of r ≡ threshold 1 (minus (picture_by P.level maxval upper.now) (picture_by P.level maxval lower.now))) }
{
    let (width, height) = (upper.width(), upper.height());
    let mut line = copies(alloc, width as usize, Bit::new(false))?;
    let mut words = repeated(alloc, height as usize * stride(width), 0u64)?;
    mark_rows(upper, lower, line.as_mut_slice(), words.as_mut_slice());
    Ok(Plane::of_words(Words::new(width, height, words)))
}
