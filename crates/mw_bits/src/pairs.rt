//! Sets that are put together place by place, 64 pixels at a time, and the complement of a set.
ghost use Rattle.std.specs.Prelude.{◌≡◌, ◌↔◌, ℕ, ◌-◌, ◌*◌, min, max, length, map, IfOk, IsTrue};
ghost use lib.Lanes.{zip2};
ghost use Rattle.mw_offset.specs.mw_pixel_words.Packed.{bit_of};
ghost use Rattle.mw_bits.specs.Uniform.{HasOnly};

use crate::held::{plane_of, words_of};
use mw_bits_rows::{Both, Either, Less, PairOfWords, flip_words, merge_words};
use mw_model::NoMemory;
use mw_offset::pixel::{Bit, Plane};
use mw_offset::tile::Window;
use mw_offset::words::{stride, trimmed};
use std::alloc::Global;

/// What becomes of the pixels of two windows of one place.
fn paired<O: PairOfWords>(
    alloc: Global,
    a: &Window<Bit>,
    b: &Window<Bit>,
) -> Result<Plane<Bit>, NoMemory>
    requires { a.now.place ≡ b.now.place }
    ensures width { IfOk result (λ p. p.width ≡ a.now.place.width) }
    ensures height { IfOk result (λ p. p.height ≡ a.now.place.height) }
    ensures cells { IfOk result (λ p. p.cells ≡ zip2 O.of_two a.now.cells b.now.cells) }
    ensures first { length a.now.cells ≡ a.now.place.height * a.now.place.width }
    ensures second { length b.now.cells ≡ a.now.place.height * a.now.place.width }
{
    let place = a.place();
    let (first, other) = (words_of(a), words_of(b));
    let mut words = Vec::from_slice(alloc, first)?;
    merge_words::<O>(words.as_mut_slice(), other);
    Ok(plane_of(place.width, place.height, words))
}

/// Each pixel less that of the other window of this place: what is in the first set and not in the second. It may want
/// memory (`NoMemory`).
pub fn minus(alloc: Global, a: &Window<Bit>, b: &Window<Bit>) -> Result<Plane<Bit>, NoMemory>
    requires { a.now.place ≡ b.now.place }
    ensures width { IfOk result (λ p. p.width ≡ a.now.place.width) }
    ensures height { IfOk result (λ p. p.height ≡ a.now.place.height) }
    ensures cells { IfOk result (λ p. p.cells ≡ zip2 (λ m n. m - n) a.now.cells b.now.cells) }
    ensures first { length a.now.cells ≡ a.now.place.height * a.now.place.width }
    ensures second { length b.now.cells ≡ a.now.place.height * a.now.place.width }
{
    paired::<Less>(alloc, a, b)
}

/// Whether each bit of the words is one of the others, which are as many.
fn are_within(words: &[u64], others: &[u64]) -> bool
    requires { length words.now ≡ length others.now }
    ensures { IsTrue result ↔ ((q : ℕ) → bit_of words.now q - bit_of others.now q ≡ 0) }
{
    for k in 0..words.len() {
        if Less::of_words(words[k], others[k]) != 0 {
            return false;
        }
    }
    true
}

/// Whether nothing of the window is outside the other window of this place, so that `minus` would be blank. The first
/// word that tells otherwise ends the look.
pub fn is_within(a: &Window<Bit>, b: &Window<Bit>) -> bool
    requires { a.now.place ≡ b.now.place }
    ensures within { IsTrue result ↔ HasOnly 0 (zip2 (λ m n. m - n) a.now.cells b.now.cells) }
    ensures first { length a.now.cells ≡ a.now.place.height * a.now.place.width }
    ensures second { length b.now.cells ≡ a.now.place.height * a.now.place.width }
{
    are_within(words_of(a), words_of(b))
}

/// The lesser of each two pixels of two windows of one place: what is in both sets. It may want memory (`NoMemory`).
pub fn meet(alloc: Global, a: &Window<Bit>, b: &Window<Bit>) -> Result<Plane<Bit>, NoMemory>
    requires { a.now.place ≡ b.now.place }
    ensures width { IfOk result (λ p. p.width ≡ a.now.place.width) }
    ensures height { IfOk result (λ p. p.height ≡ a.now.place.height) }
    ensures cells { IfOk result (λ p. p.cells ≡ zip2 min a.now.cells b.now.cells) }
    ensures first { length a.now.cells ≡ a.now.place.height * a.now.place.width }
    ensures second { length b.now.cells ≡ a.now.place.height * a.now.place.width }
{
    paired::<Both>(alloc, a, b)
}

/// The greater of each two pixels of two windows of one place: what is in either set. It may want memory (`NoMemory`).
pub fn join(alloc: Global, a: &Window<Bit>, b: &Window<Bit>) -> Result<Plane<Bit>, NoMemory>
    requires { a.now.place ≡ b.now.place }
    ensures width { IfOk result (λ p. p.width ≡ a.now.place.width) }
    ensures height { IfOk result (λ p. p.height ≡ a.now.place.height) }
    ensures cells { IfOk result (λ p. p.cells ≡ zip2 max a.now.cells b.now.cells) }
    ensures first { length a.now.cells ≡ a.now.place.height * a.now.place.width }
    ensures second { length b.now.cells ≡ a.now.place.height * a.now.place.width }
{
    paired::<Either>(alloc, a, b)
}

/// What is not in the set. It may want memory (`NoMemory`).
pub fn invert(alloc: Global, set: &Window<Bit>) -> Result<Plane<Bit>, NoMemory>
    ensures width { IfOk result (λ p. p.width ≡ set.now.place.width) }
    ensures height { IfOk result (λ p. p.height ≡ set.now.place.height) }
    ensures cells { IfOk result (λ p. p.cells ≡ map (λ n. 1 - n) set.now.cells) }
    ensures size { length set.now.cells ≡ set.now.place.height * set.now.place.width }
{
    let place = set.place();
    let held = words_of(set);
    let mut flipped = Vec::from_slice(alloc, held)?;
    flip_words(flipped.as_mut_slice());
    let words = trimmed(
        alloc,
        flipped.as_slice(),
        stride(place.width),
        place.width,
        place.height,
    )?;
    Ok(plane_of(place.width, place.height, words))
}
