//! The complement of a set.

ghost use Rattle.std.specs.Prelude.{◌≡◌, IfOk};
ghost use Rattle.mw_model.specs.Flat.{complement};
ghost use Rattle.mw_pixel.specs.Images.{set_of};

use mw_bits_rows::flip_words;
use mw_model::NoMemory;
use mw_pixel::words::{Words, stride, trimmed};
use mw_pixel::{Bit, Plane};
use std::alloc::Global;

/// The places that are not in the set. It may want memory (`NoMemory`).
pub(crate) fn flipped(alloc: Global, set: &Plane<Bit>) -> Result<Plane<Bit>, NoMemory>
    ensures width { IfOk result (λ r. r.width ≡ set.now.width) }
    ensures height { IfOk result (λ r. r.height ≡ set.now.height) }
    ensures complement { IfOk result (λ r. set_of r ≡ complement (set_of set.now)) }
{
    let (width, height) = (set.width(), set.height());
    let mut turned = Vec::from_slice(alloc, set.words().words())?;
    flip_words(turned.as_mut_slice());
    let words = trimmed(alloc, turned.as_slice(), stride(width), width, height)?;
    Ok(Plane::of_words(Words::new(width, height, words)))
}
