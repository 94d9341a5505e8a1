//! Levels that are put into the places of a set, and sets less other sets. Of a word of 64
//! places with few pixels only these are looked at.

ghost use Rattle.std.specs.Prelude.{◌≡◌, ℕ, ◌*◌, ◌<◌, ◌≤◌, ◌==◌, ◌&&◌, length, slice_index_or, IfOk, if◌then◌else◌};
ghost use Rattle.std.specs.Int.{bit_at};
ghost use lib.Lanes.{zip2};
ghost use Rattle.mw_step_task.specs.mw_pixel_words.Packed.{bit_of, stride_of};

use crate::thresholds::is_sound;
use mw_model::NoMemory;
use mw_rank_bits::bits::{join, minus, row_of};
use mw_step_task::pixel::{Bit, Grey, Pixel, Plane};
use mw_step_task::tile::Window;
use std::alloc::Global;

/// The places of the first set that are not in the second.
pub(crate) fn without(
    alloc: Global,
    a: &Window<Bit>,
    b: &Window<Bit>,
) -> Result<Window<Bit>, NoMemory>
    requires { a.now.place ≡ b.now.place }
    ensures place { IfOk result (λ w. w.place ≡ a.now.place) }
    ensures places { IfOk result (λ w. w.cells ≡ zip2 (λ m n. if m == 1 && n == 0 then 1 else 0) a.now.cells b.now.cells) }
    ensures first { length a.now.cells ≡ a.now.place.height * a.now.place.width }
    ensures second { length b.now.cells ≡ a.now.place.height * a.now.place.width }
{
    is_sound(a);
    is_sound(b);
    let place = a.place();
    let rest = minus(alloc, a, b)?;
    Ok(Window::new(a.frame_width(), a.frame_height(), place, rest))
}

fn chosen<P: Pixel>(mark: bool, v: P, s: P) -> P
    ensures { result ≡ (if mark then v else s) }
{
    if mark { v } else { s }
}

/// Puts the level into each place of a word of a set, which has none past the samples: one place after another.
fn mark_few<P: Pixel>(acc: &mut [P], word: u64, v: P)
    requires short { length acc.old ≤ 64 }
    requires clean { (x : ℕ) → x < 64 → length acc.old ≤ x → bit_at word x ≡ 0 }
    ensures { (x : ℕ) (d : P) → x < length acc.old → slice_index_or acc.new x d ≡ (if bit_at word x == 1 then v else slice_index_or acc.old x d) }
{
    let mut left = word;
    while left != 0 {
        let place = left.trailing_zeros();
        acc[place as usize] = v;
        left &= !(1 << place);
    }
}

/// Puts the level into each place of a word of a set, and looks at all of them.
fn mark_many<P: Pixel>(acc: &mut [P], word: u64, v: P)
    requires { length acc.old ≤ 64 }
    ensures { (x : ℕ) (d : P) → x < length acc.old → slice_index_or acc.new x d ≡ (if bit_at word x == 1 then v else slice_index_or acc.old x d) }
{
    for i in 0..acc.len() {
        acc[i] = chosen((word >> i) & 1 == 1, v, acc[i]);
    }
}

/// Puts the level into each place of a word of a set, which has none past the samples.
#[inline]
fn mark_word<P: Pixel>(acc: &mut [P], word: u64, v: P)
    requires short { length acc.old ≤ 64 }
    requires clean { (x : ℕ) → x < 64 → length acc.old ≤ x → bit_at word x ≡ 0 }
    ensures { (x : ℕ) (d : P) → x < length acc.old → slice_index_or acc.new x d ≡ (if bit_at word x == 1 then v else slice_index_or acc.old x d) }
{
    if word.count_ones() <= 16 {
        mark_few(acc, word, v);
    } else {
        mark_many(acc, word, v);
    }
}

/// Puts the level into each place of a row of a set.
fn mark_row<P: Pixel>(acc: &mut [P], words: &[u64], v: P)
    requires words { length words.now ≡ stride_of (length acc.old) }
    requires clean { (x : ℕ) → length acc.old ≤ x → bit_of words.now x ≡ 0 }
    ensures { (x : ℕ) (d : P) → x < length acc.old → slice_index_or acc.new x d ≡ (if bit_of words.now x == 1 then v else slice_index_or acc.old x d) }
{
    for k in 0..words.len() {
        let start = 64 * k;
        let count = (acc.len() - start).min(64);
        mark_word(&mut acc[start..start + count], words[k], v);
    }
}

/// Puts the level into each place of a set, row by row.
fn mark_rows<P: Pixel>(acc: &mut [P], set: &Window<Bit>, v: P)
    requires { length acc.old ≡ set.now.place.height * set.now.place.width }
    ensures { acc.new ≡ zip2 (λ s m. if m == 1 then v else s) acc.old set.now.cells }
{
    is_sound(set);
    let place = set.place();
    let width = place.width as usize;
    for y in 0..place.height {
        let start = y as usize * width;
        mark_row(&mut acc[start..start + width], row_of(set, y), v);
    }
}

/// The samples of the window, with the level in each place of the set.
pub(crate) fn marked<P: Grey>(
    alloc: Global,
    v: P,
    a: &Window<P>,
    set: &Window<Bit>,
) -> Result<Plane<P>, NoMemory>
    requires { a.now.place ≡ set.now.place }
    ensures width { IfOk result (λ p. p.width ≡ a.now.place.width) }
    ensures height { IfOk result (λ p. p.height ≡ a.now.place.height) }
    ensures cells { IfOk result (λ p. p.cells ≡ zip2 (λ s m. if m == 1 then v else s) a.now.cells set.now.cells) }
    ensures size { length a.now.cells ≡ a.now.place.height * a.now.place.width }
{
    let place = a.place();
    let mut samples = Vec::from_slice(alloc, a.samples())?;
    mark_rows(&mut samples, set, v);
    Ok(Plane::new(place.width, place.height, samples))
}

/// The set, with the pixel `v`, 0 or 1, in each place of another set.
pub(crate) fn marked_set(
    alloc: Global,
    v: u16,
    a: &Window<Bit>,
    set: &Window<Bit>,
) -> Result<Plane<Bit>, NoMemory>
    requires place { a.now.place ≡ set.now.place }
    requires level { v ≤ 1 }
    ensures width { IfOk result (λ p. p.width ≡ a.now.place.width) }
    ensures height { IfOk result (λ p. p.height ≡ a.now.place.height) }
    ensures cells { IfOk result (λ p. p.cells ≡ zip2 (λ s m. if m == 1 then v else s) a.now.cells set.now.cells) }
    ensures size { length a.now.cells ≡ a.now.place.height * a.now.place.width }
{
    is_sound(a);
    is_sound(set);
    if v == 1 {
        return Ok(join(alloc, a, set)?);
    }
    Ok(minus(alloc, a, set)?)
}
