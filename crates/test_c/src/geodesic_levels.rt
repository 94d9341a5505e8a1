//! Reconstructions of grey images: of all masks of 3 x 3 pixels and two levels from each place, and of images without a pattern
//! from what lies under their peaks. Which they are, their contract says.

use crate::geodesic_given::{WAYS, is_made, made};
use crate::images::{image, noise, plane_of};
use mw_geodesic_levels::{Neighbours, reconstruction};
use mw_model::Kind;
use mw_pixel::{Grey, Plane};
use mw_reference::ReferenceImage;
use std::alloc::Global;
use std::process::Abort;

pub(crate) fn plane_in<P: Grey>(
    rt: &impl Abort,
    alloc: Global,
    image: &ReferenceImage,
) -> Plane<P> {
    match plane_of::<P>(alloc, image) {
        Ok(plane) => plane,
        Err(_fault) => panic!(rt; "samples"),
    }
}

/// Stops where memory is wanting to the reconstruction.
fn is_rebuilt<P: Grey>(
    rt: &impl Abort,
    alloc: Global,
    marker: &ReferenceImage,
    mask: &ReferenceImage,
    neighbours: Neighbours,
) {
    let (f, g) = (
        plane_in::<P>(rt, alloc, marker),
        plane_in::<P>(rt, alloc, mask),
    );
    assert!(rt; f.width() == g.width() && f.height() == g.height());
    is_made(rt, reconstruction::<P>(alloc, &f, &g, neighbours));
}

/// An image of nine levels.
fn square(rt: &impl Abort, alloc: Global, levels: &[u16; 9]) -> ReferenceImage {
    made(rt, image(alloc, Kind::Grey, 3, 3, 2, levels))
}

/// The image less so many levels, and nothing below 0.
fn lowered(
    rt: &impl Abort,
    alloc: Global,
    image_given: &ReferenceImage,
    by: u16,
) -> ReferenceImage {
    let mut levels = Vec::new(alloc);
    for level in image_given.samples() {
        levels
            .push(level.saturating_sub(by))
            .ok()
            .expect(rt, "memory");
    }
    let (width, height) = (image_given.width(), image_given.height());
    made(
        rt,
        image(
            alloc,
            Kind::Grey,
            width,
            height,
            image_given.maxval(),
            &levels,
        ),
    )
}

#[test]
fn all_masks_of_three_by_three(rt: HostRuntime) {
    let alloc = rt.alloc();
    for number in 0..512u16 {
        let mut levels = [1u16; 9];
        for (place, level) in levels.iter_mut().enumerate() {
            *level = 1 + (number >> place & 1);
        }
        let mask = square(&rt, alloc, &levels);
        for place in 0..9usize {
            let mut levels = [0u16; 9];
            levels[place] = 2;
            let marker = square(&rt, alloc, &levels);
            for neighbours in WAYS {
                is_rebuilt::<u8>(&rt, alloc, &marker, &mask, neighbours);
            }
        }
    }
}

/// Stops where memory is wanting to a reconstruction of an image without a pattern.
fn noise_is_rebuilt<P: Grey>(
    rt: &impl Abort,
    alloc: Global,
    sides: (u32, u32),
    levels: (u16, u16),
) {
    let mask = made(rt, noise(alloc, Kind::Grey, sides.0, sides.1, levels.0));
    let marker = lowered(rt, alloc, &mask, levels.1);
    for neighbours in WAYS {
        is_rebuilt::<P>(rt, alloc, &marker, &mask, neighbours);
    }
}

#[test]
fn images_without_a_pattern(rt: HostRuntime) {
    // rows of 150 pixels have whole blocks, and many of their places wait after the first sweeps
    for sides in [(24, 24), (1, 24), (24, 1), (17, 5), (2, 2), (150, 12)] {
        noise_is_rebuilt::<u8>(&rt, rt.alloc(), sides, (9, 3));
        noise_is_rebuilt::<u8>(&rt, rt.alloc(), sides, (255, 90));
        noise_is_rebuilt::<u16>(&rt, rt.alloc(), sides, (300, 40));
    }
}
