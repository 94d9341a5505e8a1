//! Flat operators.

ghost use Rattle.std.specs.Prelude.{◌≡◌, ◌-◌, ◌≤◌, ◌&&◌, ◌==◌, IfOk, max, nat_le, if◌then◌else◌};
ghost use Rattle.std.specs.Option.{option_to_list};
ghost use Rattle.mw_model.specs.Pictures.{sample};
ghost use Rattle.mw_model.specs.Flat.{under, least, greatest, erosion, dilation, opening, closing, minus, gradient, white_top_hat, black_top_hat, threshold, complement, hit_or_miss, intersection, set_hit_or_miss};

use crate::ReferenceImage;
use crate::elements::Element;
use crate::pixels::{Pixels, draw, redraw};
use mw_model::{Kind, NoMemory, Offset};
use std::alloc::Global;

/// The least of a number and a sample, where there is one.
fn lesser(best: u16, seen: Option<u16>) -> u16
    ensures { result ≡ least best (option_to_list seen) }
{
    match seen {
        Some(s) if s < best => s,
        _ => best,
    }
}

/// The greatest of a number and a sample, where there is one.
fn greater(best: u16, seen: Option<u16>) -> u16
    ensures { result ≡ max best (greatest (option_to_list seen)) }
{
    match seen {
        Some(s) if s > best => s,
        _ => best,
    }
}

#[derive(Drop)]
struct Least<'a> {
    image: &'a ReferenceImage,
    element: &'a Element<'a>,
}

impl Pixels for Least<'_> {
    ghost value = { λ a x y. least a.image.now.maxval (under a.image.now a.element.now x y) };

    #[tactic(auto, using(crate::proofs::Loops::all_samples))]
    fn at(&self, x: u32, y: u32) -> u16 {
        let mut best = self.image.maxval();
        for i in 0..self.element.size() {
            best = lesser(best, self.element.sample_under(i, self.image, x, y));
        }
        best
    }
}

#[derive(Drop)]
struct Greatest<'a> {
    image: &'a ReferenceImage,
    element: &'a Element<'a>,
}

impl Pixels for Greatest<'_> {
    ghost value = { λ a x y. greatest (under a.image.now a.element.now x y) };

    #[tactic(auto, using(crate::proofs::Loops::all_samples))]
    fn at(&self, x: u32, y: u32) -> u16 {
        let mut best = 0;
        for i in 0..self.element.size() {
            best = greater(best, self.element.sample_under(i, self.image, x, y));
        }
        best
    }
}

#[derive(Drop)]
struct Less<'a> {
    image: &'a ReferenceImage,
    other: &'a ReferenceImage,
}

impl Pixels for Less<'_> {
    ghost value = { λ a x y. sample a.image.now x y - sample a.other.now x y };

    fn at(&self, x: u32, y: u32) -> u16 {
        self.image
            .sample(x, y)
            .saturating_sub(self.other.sample(x, y))
    }
}

#[derive(Drop)]
struct AtLeast<'a> {
    image: &'a ReferenceImage,
    level: u32,
}

impl Pixels for AtLeast<'_> {
    ghost value = { λ a x y. if nat_le a.level (sample a.image.now x y) then 1 else 0 };

    fn at(&self, x: u32, y: u32) -> u16 {
        if self.level <= u32::from(self.image.sample(x, y)) {
            1
        } else {
            0
        }
    }
}

#[derive(Drop)]
struct Rest<'a> {
    image: &'a ReferenceImage,
}

impl Pixels for Rest<'_> {
    ghost value = { λ a x y. a.image.now.maxval - sample a.image.now x y };

    fn at(&self, x: u32, y: u32) -> u16 {
        self.image.maxval().saturating_sub(self.image.sample(x, y))
    }
}

#[derive(Drop)]
struct Both<'a> {
    image: &'a ReferenceImage,
    other: &'a ReferenceImage,
}

impl Pixels for Both<'_> {
    ghost value = { λ a x y. if sample a.image.now x y == 1 && sample a.other.now x y == 1 then 1 else 0 };

    fn at(&self, x: u32, y: u32) -> u16 {
        if self.image.sample(x, y) == 1 && self.other.sample(x, y) == 1 {
            1
        } else {
            0
        }
    }
}

/// The erosion by an element as it lies.
pub fn least_under(
    alloc: Global,
    image: &ReferenceImage,
    element: &Element,
) -> Result<ReferenceImage, NoMemory>
    ensures { IfOk result (λ r. r ≡ erosion element.now image.now) }
{
    redraw(alloc, image, &Least { image, element })
}

/// The dilation by an element as it lies.
pub fn greatest_under(
    alloc: Global,
    image: &ReferenceImage,
    element: &Element,
) -> Result<ReferenceImage, NoMemory>
    ensures { IfOk result (λ r. r ≡ dilation element.now image.now) }
{
    redraw(alloc, image, &Greatest { image, element })
}

/// At each pixel the least sample under the element, or the maxval where there is none.
pub fn erosion(
    alloc: Global,
    image: &ReferenceImage,
    element: &[Offset],
) -> Result<ReferenceImage, NoMemory>
    ensures { IfOk result (λ r. r ≡ erosion element.now image.now) }
{
    least_under(alloc, image, &Element::upright(element))
}

/// At each pixel the greatest sample under the element, or 0 where there is none.
pub fn dilation(
    alloc: Global,
    image: &ReferenceImage,
    element: &[Offset],
) -> Result<ReferenceImage, NoMemory>
    ensures { IfOk result (λ r. r ≡ dilation element.now image.now) }
{
    greatest_under(alloc, image, &Element::upright(element))
}

/// An erosion, and then a dilation by the element turned round.
pub fn opening(
    alloc: Global,
    image: &ReferenceImage,
    element: &[Offset],
) -> Result<ReferenceImage, NoMemory>
    ensures { IfOk result (λ r. r ≡ opening element.now image.now) }
{
    let eroded = erosion(alloc, image, element)?;
    greatest_under(alloc, &eroded, &Element::turned(element))
}

/// A dilation, and then an erosion by the element turned round.
pub fn closing(
    alloc: Global,
    image: &ReferenceImage,
    element: &[Offset],
) -> Result<ReferenceImage, NoMemory>
    ensures { IfOk result (λ r. r ≡ closing element.now image.now) }
{
    let dilated = dilation(alloc, image, element)?;
    least_under(alloc, &dilated, &Element::turned(element))
}

/// One image less another at each pixel, stopping at 0. The result has the shape of the first.
pub fn minus(
    alloc: Global,
    image: &ReferenceImage,
    other: &ReferenceImage,
) -> Result<ReferenceImage, NoMemory>
    ensures { IfOk result (λ r. r ≡ minus image.now other.now) }
{
    redraw(alloc, image, &Less { image, other })
}

/// The dilation less the erosion.
pub fn gradient(
    alloc: Global,
    image: &ReferenceImage,
    element: &[Offset],
) -> Result<ReferenceImage, NoMemory>
    ensures { IfOk result (λ r. r ≡ gradient element.now image.now) }
{
    let dilated = dilation(alloc, image, element)?;
    let eroded = erosion(alloc, image, element)?;
    minus(alloc, &dilated, &eroded)
}

/// What an opening takes away.
pub fn white_top_hat(
    alloc: Global,
    image: &ReferenceImage,
    element: &[Offset],
) -> Result<ReferenceImage, NoMemory>
    ensures { IfOk result (λ r. r ≡ white_top_hat element.now image.now) }
{
    let opened = opening(alloc, image, element)?;
    minus(alloc, image, &opened)
}

/// What a closing adds.
pub fn black_top_hat(
    alloc: Global,
    image: &ReferenceImage,
    element: &[Offset],
) -> Result<ReferenceImage, NoMemory>
    ensures { IfOk result (λ r. r ≡ black_top_hat element.now image.now) }
{
    let closed = closing(alloc, image, element)?;
    minus(alloc, &closed, image)
}

/// The set of the pixels with a sample of `level` or more.
pub fn threshold(
    alloc: Global,
    image: &ReferenceImage,
    level: u32,
) -> Result<ReferenceImage, NoMemory>
    ensures { IfOk result (λ r. r ≡ threshold level image.now) }
{
    draw(alloc, Kind::Bit, 1, image, &AtLeast { image, level })
}

/// The maxval less each sample.
pub fn complement(alloc: Global, image: &ReferenceImage) -> Result<ReferenceImage, NoMemory>
    ensures { IfOk result (λ r. r ≡ complement image.now) }
{
    redraw(alloc, image, &Rest { image })
}

/// The erosion by the first element less the dilation by the second.
pub fn hit_or_miss(
    alloc: Global,
    image: &ReferenceImage,
    hit: &[Offset],
    miss: &[Offset],
) -> Result<ReferenceImage, NoMemory>
    ensures { IfOk result (λ r. r ≡ hit_or_miss hit.now miss.now image.now) }
{
    let eroded = erosion(alloc, image, hit)?;
    let dilated = dilation(alloc, image, miss)?;
    minus(alloc, &eroded, &dilated)
}

/// Of two sets of one size, the pixels that are in both.
pub fn intersection(
    alloc: Global,
    image: &ReferenceImage,
    other: &ReferenceImage,
) -> Result<ReferenceImage, NoMemory>
    requires { 1 ≤ image.now.maxval }
    ensures { IfOk result (λ r. r ≡ intersection image.now other.now) }
{
    redraw(alloc, image, &Both { image, other })
}

/// Of a set, the pixels where the first element fits in it and the second in its complement.
pub fn set_hit_or_miss(
    alloc: Global,
    image: &ReferenceImage,
    hit: &[Offset],
    miss: &[Offset],
) -> Result<ReferenceImage, NoMemory>
    requires { 1 ≤ image.now.maxval }
    ensures { IfOk result (λ r. r ≡ set_hit_or_miss hit.now miss.now image.now) }
{
    let fits = erosion(alloc, image, hit)?;
    let outside = complement(alloc, image)?;
    let misses = erosion(alloc, &outside, miss)?;
    intersection(alloc, &fits, &misses)
}
