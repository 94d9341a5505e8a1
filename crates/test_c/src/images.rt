//! Images of the reference, and planes of their samples.

ghost use Rattle.std.specs.Prelude.{◌≤◌, ◌↔◌, IsTrue, All};

use mw_model::Kind;
use mw_pixel::{Pixel, Planar, Plane};
use mw_reference::ReferenceImage;
use std::alloc::Global;
use std::test::Fail;

fn are_at_most(samples: &[u16], maxval: u16) -> bool
    ensures { IsTrue result ↔ All (λ s. s ≤ maxval) samples.now }
{
    samples.iter().all(|s| *s <= maxval)
}

/// The image with these samples, by rows; an `Err` where there is none, or no memory.
pub(crate) fn image(
    alloc: Global,
    kind: Kind,
    width: u32,
    height: u32,
    maxval: u16,
    samples: &[u16],
) -> Result<ReferenceImage, Fail> {
    if width > 8192 || height > 8192 || samples.len() != height as usize * width as usize {
        return Err("other sides".into());
    }
    if !are_at_most(samples, maxval) {
        return Err("a sample over the maxval".into());
    }
    let samples = samples.to_vec(alloc)?;
    Ok(ReferenceImage::new(kind, width, height, maxval, samples))
}

/// So many samples without a pattern, the same at each run.
fn mixed(alloc: Global, count: u64, maxval: u16) -> Result<Vec<u16>, Fail> {
    let levels = u32::from(maxval) + 1;
    let mut samples = Vec::new(alloc);
    let mut state = u32::from(maxval);
    for _ in 0..count {
        state = state.wrapping_mul(1664525).wrapping_add(1013904223);
        samples.push(((state >> 16) % levels) as u16)?;
    }
    Ok(samples)
}

/// An image without a pattern, the same at each run.
pub(crate) fn noise(
    alloc: Global,
    kind: Kind,
    width: u32,
    height: u32,
    maxval: u16,
) -> Result<ReferenceImage, Fail> {
    let samples = mixed(alloc, u64::from(width) * u64::from(height), maxval)?;
    image(alloc, kind, width, height, maxval, &samples)
}

/// The sample of this level, where the type has it.
fn sample_of<P: Pixel>(level: u16) -> Result<P, Fail> {
    Ok(P::of(level).ok_or("a level of the type")?)
}

/// Writes the only sample of a plane over that of a place.
fn put<P: Planar>(plane: &mut Plane<P>, x: u32, y: u32, dot: &Plane<P>) {
    if x < plane.width() && y < plane.height() && dot.width() == 1 && dot.height() == 1 {
        plane.copy_run(x, y, dot, 0, 0, 1);
    }
}

/// A plane of one sample, of this level.
fn dot<P: Planar>(alloc: Global, level: u16) -> Result<Plane<P>, Fail> {
    Ok(Plane::filled(alloc, 1, 1, sample_of::<P>(level)?)?)
}

/// The place behind this one, in rows of so many columns.
fn next(x: u32, y: u32, width: u32) -> (u32, u32) {
    if x.wrapping_add(1) == width {
        (0, y.wrapping_add(1))
    } else {
        (x.wrapping_add(1), y)
    }
}

/// The samples of an image, in a type that has its levels.
pub(crate) fn plane_of<P: Planar>(alloc: Global, image: &ReferenceImage) -> Result<Plane<P>, Fail> {
    let mut plane = Plane::blank(alloc, image.width(), image.height())?;
    let (mut x, mut y) = (0, 0);
    for level in image.samples() {
        put(&mut plane, x, y, &dot::<P>(alloc, *level)?);
        (x, y) = next(x, y, image.width());
    }
    Ok(plane)
}

/// Whether these are the levels of the samples.
pub(crate) fn are_levels<P: Pixel>(samples: &[P], levels: &[u16]) -> bool {
    if samples.len() != levels.len() {
        return false;
    }
    for at in 0..samples.len() {
        if samples[at].value() != levels[at] {
            return false;
        }
    }
    true
}
