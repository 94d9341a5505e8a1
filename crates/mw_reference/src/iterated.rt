//! Operators done again and again.

ghost use Rattle.std.specs.Prelude.{◌≡◌, ◌+◌, ◌<◌, ◌≤◌, ◌&&◌, ◌==◌, not, IfOk, max, if◌then◌else◌};
ghost use Rattle.mw_model.specs.Pictures.{sample, redrawn};
ghost use Rattle.mw_model.specs.Flat.{erosion, dilation, reflected};
ghost use Rattle.mw_model.specs.Iterates.{times, is_residue, skeleton, level_set, union, restoration, volume, spectrum};

use crate::ReferenceImage;
use crate::elements::Element;
use crate::flat::{erosion, greatest_under, opening};
use crate::pixels::{Pixels, draw, redraw};
use mw_model::{Kind, NoMemory, Offset};
use std::alloc::Global;

#[derive(Drop)]
struct Same<'a> {
    image: &'a ReferenceImage,
}

impl Pixels for Same<'_> {
    ghost value = { λ a x y. sample a.image.now x y };

    fn at(&self, x: u32, y: u32) -> u16 {
        self.image.sample(x, y)
    }
}

#[derive(Drop)]
struct Level<'a> {
    image: &'a ReferenceImage,
    level: u32,
}

impl Pixels for Level<'_> {
    ghost value = { λ a x y. if sample a.image.now x y == a.level then 1 else 0 };

    fn at(&self, x: u32, y: u32) -> u16 {
        if u32::from(self.image.sample(x, y)) == self.level {
            1
        } else {
            0
        }
    }
}

#[derive(Drop)]
struct Greater<'a> {
    image: &'a ReferenceImage,
    other: &'a ReferenceImage,
}

impl Pixels for Greater<'_> {
    ghost value = { λ a x y. max (sample a.image.now x y) (sample a.other.now x y) };

    fn at(&self, x: u32, y: u32) -> u16 {
        self.image.sample(x, y).max(self.other.sample(x, y))
    }
}

/// A mark for the pixels of a set that are not in another; for the rest, what was marked before.
#[derive(Drop)]
struct Residue<'a> {
    eroded: &'a ReferenceImage,
    opened: &'a ReferenceImage,
    before: &'a ReferenceImage,
    mark: u16,
}

impl Pixels for Residue<'_> {
    ghost value = { λ a x y. if sample a.eroded.now x y == 1 && not (sample a.opened.now x y == 1) then a.mark else sample a.before.now x y };

    fn at(&self, x: u32, y: u32) -> u16 {
        if self.eroded.sample(x, y) == 1 && self.opened.sample(x, y) != 1 {
            self.mark
        } else {
            self.before.sample(x, y)
        }
    }
}

/// A mark for the pixels of a set; for the rest, what was marked before.
#[derive(Drop)]
struct Last<'a> {
    eroded: &'a ReferenceImage,
    before: &'a ReferenceImage,
    mark: u16,
}

impl Pixels for Last<'_> {
    ghost value = { λ a x y. if sample a.eroded.now x y == 1 then a.mark else sample a.before.now x y };

    fn at(&self, x: u32, y: u32) -> u16 {
        if self.eroded.sample(x, y) == 1 {
            self.mark
        } else {
            self.before.sample(x, y)
        }
    }
}

#[derive(Drop)]
struct NoMark;

impl Pixels for NoMark {
    ghost value = { λ _ _ _. 0 };

    fn at(&self, _x: u32, _y: u32) -> u16 {
        0
    }
}

/// A copy of the image.
pub fn copy(alloc: Global, image: &ReferenceImage) -> Result<ReferenceImage, NoMemory>
    ensures { IfOk result (λ r. r ≡ image.now) }
{
    image.is_small();
    redraw(alloc, image, &Same { image })
}

/// n erosions.
pub fn eroded_times(
    alloc: Global,
    image: &ReferenceImage,
    element: &[Offset],
    n: u32,
) -> Result<ReferenceImage, NoMemory>
    ensures { IfOk result (λ r. r ≡ times n (erosion element.now) image.now) }
{
    let mut f = copy(alloc, image)?;
    for _i in 0..n {
        f = erosion(alloc, &f, element)?;
    }
    Ok(f)
}

/// n dilations by the element turned round.
pub fn dilated_back_times(
    alloc: Global,
    image: &ReferenceImage,
    element: &[Offset],
    n: u32,
) -> Result<ReferenceImage, NoMemory>
    ensures { IfOk result (λ r. r ≡ times n (dilation (reflected element.now)) image.now) }
{
    let turned = Element::turned(element);
    let mut f = copy(alloc, image)?;
    for _i in 0..n {
        f = greatest_under(alloc, &f, &turned)?;
    }
    Ok(f)
}

/// The marks, and over them a mark for the pixels of a set that are not in its opening.
fn with_residue(
    alloc: Global,
    marks: &ReferenceImage,
    eroded: &ReferenceImage,
    element: &[Offset],
    mark: u16,
) -> Result<ReferenceImage, NoMemory>
    requires { mark ≤ marks.now.maxval }
    ensures { IfOk result (λ r. r ≡ redrawn marks.now (λ x y. if is_residue element.now eroded.now x y then mark else sample marks.now x y)) }
{
    let opened = opening(alloc, eroded, element)?;
    redraw(
        alloc,
        marks,
        &Residue {
            eroded,
            opened: &opened,
            before: marks,
            mark,
        },
    )
}

/// The residues of the erosions below the depth, marked by their number of erosions and 1, and what the last erosion
/// leaves.
pub fn skeleton(
    alloc: Global,
    image: &ReferenceImage,
    element: &[Offset],
    depth: u16,
) -> Result<ReferenceImage, NoMemory>
    requires { depth < 65535 }
    ensures { IfOk result (λ r. r ≡ skeleton element.now depth image.now) }
{
    let mut marks = draw(alloc, Kind::Grey, depth + 1, image, &NoMark)?;
    let mut eroded = copy(alloc, image)?;
    for n in 0..depth {
        marks = with_residue(alloc, &marks, &eroded, element, n + 1)?;
        eroded = erosion(alloc, &eroded, element)?;
    }
    redraw(
        alloc,
        &marks,
        &Last {
            eroded: &eroded,
            before: &marks,
            mark: depth + 1,
        },
    )
}

/// The set of the pixels with this sample.
pub fn level_set(
    alloc: Global,
    image: &ReferenceImage,
    level: u32,
) -> Result<ReferenceImage, NoMemory>
    ensures { IfOk result (λ r. r ≡ level_set level image.now) }
{
    draw(alloc, Kind::Bit, 1, image, &Level { image, level })
}

/// The greater of the two samples at each pixel.
pub fn union(
    alloc: Global,
    image: &ReferenceImage,
    other: &ReferenceImage,
) -> Result<ReferenceImage, NoMemory>
    requires { other.now.maxval ≤ image.now.maxval }
    ensures { IfOk result (λ r. r ≡ union image.now other.now) }
{
    other.is_small();
    redraw(alloc, image, &Greater { image, other })
}

/// The union, for n up to the depth, of the n-fold dilation of the pixels marked n + 1, by the element turned round.
pub fn restoration(
    alloc: Global,
    marks: &ReferenceImage,
    element: &[Offset],
    depth: u16,
) -> Result<ReferenceImage, NoMemory>
    ensures { IfOk result (λ r. r ≡ restoration element.now depth marks.now) }
{
    let mut restored = level_set(alloc, marks, 1)?;
    for n in 0..u32::from(depth) {
        let level = level_set(alloc, marks, n + 2)?;
        let part = dilated_back_times(alloc, &level, element, n + 1)?;
        restored = union(alloc, &restored, &part)?;
    }
    Ok(restored)
}

/// The sum of all samples after n erosions and then n dilations by the element turned round.
pub fn volume(
    alloc: Global,
    image: &ReferenceImage,
    element: &[Offset],
    n: u32,
) -> Result<u64, NoMemory>
    ensures { IfOk result (λ r. r ≡ volume element.now n image.now) }
{
    let eroded = eroded_times(alloc, image, element, n)?;
    let opened = dilated_back_times(alloc, &eroded, element, n)?;
    Ok(opened.sum())
}

/// The volumes from 0 to the depth.
pub fn spectrum(
    alloc: Global,
    image: &ReferenceImage,
    element: &[Offset],
    depth: u32,
) -> Result<Vec<u64>, NoMemory>
    ensures { IfOk result (λ r. r.items ≡ spectrum element.now depth image.now) }
{
    let mut volumes = Vec::new(alloc);
    for n in 0..depth {
        let v = volume(alloc, image, element, n)?;
        volumes.push(v)?;
    }
    let last = volume(alloc, image, element, depth)?;
    volumes.push(last)?;
    Ok(volumes)
}
