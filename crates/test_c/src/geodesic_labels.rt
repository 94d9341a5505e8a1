//! Labels and regions of all sets of 3 x 3 pixels, and of sets without a pattern, which end before, at and behind the ends of
//! words. Which they are, their contracts say.

use crate::geodesic_given::{WAYS, made};
use crate::images::{image, noise, plane_of};
use mw_geodesic_labels::{NUMBERS, Neighbours, labels_of, write_regions};
use mw_model::Kind;
use mw_pixel::{Bit, Plane};
use mw_reference::ReferenceImage;
use std::alloc::Global;
use std::process::Abort;

pub(crate) fn pixels_of(rt: &impl Abort, alloc: Global, set: &ReferenceImage) -> Plane<Bit> {
    match plane_of::<Bit>(alloc, set) {
        Ok(plane) => plane,
        Err(_fault) => panic!(rt; "pixels"),
    }
}

/// Stops where there are no labels, another number of regions, or rows behind them that are written.
fn is_told(rt: &impl Abort, alloc: Global, set: &ReferenceImage, neighbours: Neighbours) {
    let plane = pixels_of(rt, alloc, set);
    let count = u64::from(plane.height()) * u64::from(plane.width());
    assert!(rt; plane.width() < 65536 && count < 4_294_967_296);
    let found = labels_of(alloc, &plane, neighbours)
        .ok()
        .expect(rt, "memory");
    let size = NUMBERS * found.count as usize + 1;
    let mut rows = vec![in alloc; 9u32; size].ok().expect(rt, "memory");
    let told = write_regions(alloc, &plane, neighbours, &mut rows)
        .ok()
        .expect(rt, "memory");
    assert!(rt; told == found.count && rows.last() == Some(&9));
}

fn is_told_in_each_way(rt: &impl Abort, alloc: Global, set: &ReferenceImage) {
    for neighbours in WAYS {
        is_told(rt, alloc, set, neighbours);
    }
}

#[test]
fn all_sets_of_three_by_three(rt: HostRuntime) {
    let alloc = rt.alloc();
    for number in 0..512u16 {
        let mut pixels = [0u16; 9];
        for (place, pixel) in pixels.iter_mut().enumerate() {
            *pixel = number >> place & 1;
        }
        let set = made(&rt, image(alloc, Kind::Bit, 3, 3, 1, &pixels));
        is_told_in_each_way(&rt, alloc, &set);
    }
}

#[test]
fn sets_without_a_pattern(rt: HostRuntime) {
    for (width, height) in [
        (24, 24),
        (1, 24),
        (24, 1),
        (63, 5),
        (64, 5),
        (65, 5),
        (130, 3),
    ] {
        let set = made(&rt, noise(rt.alloc(), Kind::Bit, width, height, 1));
        is_told_in_each_way(&rt, rt.alloc(), &set);
    }
}
