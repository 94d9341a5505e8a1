//! What reconstruction makes of grey images without a pattern: by erosion from the same turned round, and from markers of the
//! image itself. Which samples, their contracts say.

ghost use Rattle.std.specs.Prelude.{◌≤◌, IsTrue, All};

use crate::geodesic_given::{WAYS, is_made, made};
use crate::geodesic_levels::plane_in;
use crate::images::{image, noise};
use mw_geodesic_grey::{
    border_cleared, h_maxima, h_minima, holes_filled, reconstruction_by_erosion, regional_maxima,
    regional_minima,
};
use mw_geodesic_labels::Neighbours;
use mw_model::Kind;
use mw_pixel::{Grey, Plane};
use mw_reference::ReferenceImage;
use std::alloc::Global;
use std::process::Abort;

/// Whether no sample is over the maxval, and the type has it.
pub(crate) fn is_within<P: Grey>(plane: &Plane<P>, maxval: u16) -> bool
    ensures samples { IsTrue result → All (λ s. P.level s ≤ maxval) plane.now.cells }
    ensures top { IsTrue result → maxval ≤ P.top_level }
{
    P::of(maxval).is_some() && plane.samples().iter().all(|s| s.value() <= maxval)
}

/// Stops where memory is wanting to an operator that takes no height.
fn are_derived<P: Grey>(
    rt: &impl Abort,
    alloc: Global,
    image: &ReferenceImage,
    neighbours: Neighbours,
) {
    let plane = plane_in::<P>(rt, alloc, image);
    let maxval = image.maxval();
    if !is_within(&plane, maxval) {
        panic!(rt; "levels up to the maxval");
    }
    is_made(rt, border_cleared::<P>(alloc, &plane, neighbours));
    is_made(rt, holes_filled::<P>(alloc, &plane, maxval, neighbours));
    is_made(rt, regional_maxima::<P>(alloc, &plane, neighbours));
    is_made(rt, regional_minima::<P>(alloc, &plane, maxval, neighbours));
}

/// Stops where memory is wanting to what cuts domes or fills basins up.
fn are_cut<P: Grey>(
    rt: &impl Abort,
    alloc: Global,
    image: &ReferenceImage,
    h: u16,
    neighbours: Neighbours,
) {
    let plane = plane_in::<P>(rt, alloc, image);
    let maxval = image.maxval();
    if !is_within(&plane, maxval) {
        panic!(rt; "levels up to the maxval");
    }
    is_made(rt, h_maxima::<P>(alloc, &plane, h, neighbours));
    is_made(rt, h_minima::<P>(alloc, &plane, h, maxval, neighbours));
}

/// The image with its last sample first.
fn turned(rt: &impl Abort, alloc: Global, given: &ReferenceImage) -> ReferenceImage {
    let mut levels = Vec::new(alloc);
    for level in given.samples().iter().rev() {
        levels.push(*level).ok().expect(rt, "memory");
    }
    let (width, height, maxval) = (given.width(), given.height(), given.maxval());
    made(rt, image(alloc, Kind::Grey, width, height, maxval, &levels))
}

/// Stops where memory is wanting to the reconstruction by erosion from the image turned round.
fn is_worn_down<P: Grey>(
    rt: &impl Abort,
    alloc: Global,
    mask: &ReferenceImage,
    neighbours: Neighbours,
) {
    let marker = turned(rt, alloc, mask);
    let maxval = mask.maxval();
    let (f, g) = (
        plane_in::<P>(rt, alloc, &marker),
        plane_in::<P>(rt, alloc, mask),
    );
    assert!(rt; f.width() == g.width() && f.height() == g.height());
    if !is_within(&f, maxval) || !is_within(&g, maxval) {
        panic!(rt; "levels up to the maxval");
    }
    is_made(
        rt,
        reconstruction_by_erosion::<P>(alloc, &f, &g, maxval, neighbours),
    );
}

/// Stops where anything of an image without a pattern finds no memory.
fn noise_is_derived<P: Grey>(
    rt: &impl Abort,
    alloc: Global,
    sides: (u32, u32),
    maxval: u16,
    h: u16,
) {
    let image = made(rt, noise(alloc, Kind::Grey, sides.0, sides.1, maxval));
    for neighbours in WAYS {
        are_derived::<P>(rt, alloc, &image, neighbours);
        are_cut::<P>(rt, alloc, &image, h, neighbours);
        is_worn_down::<P>(rt, alloc, &image, neighbours);
    }
}

#[test]
fn derived_of_images_without_a_pattern(rt: HostRuntime) {
    for sides in [(24, 24), (1, 24), (24, 1), (17, 5), (2, 2)] {
        noise_is_derived::<u8>(&rt, rt.alloc(), sides, 9, 2);
        noise_is_derived::<u8>(&rt, rt.alloc(), sides, 255, 90);
        noise_is_derived::<u16>(&rt, rt.alloc(), sides, 300, 400);
    }
}
