//! Distances of all sets of 3 x 3 pixels, and of sets without a pattern. Which they are, their contract says.

use crate::geodesic_given::made;
use crate::geodesic_labels::pixels_of;
use crate::images::{image, noise};
use mw_geodesic_distances::{Metric, distances_of};
use mw_model::Kind;
use mw_reference::ReferenceImage;
use std::alloc::Global;
use std::process::Abort;

const METRICS: &[Metric] = &[Metric::CityBlock, Metric::Chessboard, Metric::SquaredEuclid];

/// Stops where memory is wanting.
fn are_made(rt: &impl Abort, alloc: Global, set: &ReferenceImage, metric: Metric, top: u32) {
    let plane = pixels_of(rt, alloc, set);
    let found = distances_of(alloc, &plane, metric, top)
        .ok()
        .expect(rt, "memory");
    assert_eq!(rt; found.len(), set.samples().len());
}

fn are_made_by_each_metric(rt: &impl Abort, alloc: Global, set: &ReferenceImage) {
    for metric in METRICS {
        for top in [1, 3, u32::MAX] {
            are_made(rt, alloc, set, *metric, top);
        }
    }
}

#[test]
fn distances_in_all_sets_of_three_by_three(rt: HostRuntime) {
    let alloc = rt.alloc();
    for number in 0..512u16 {
        let mut pixels = [0u16; 9];
        for (place, pixel) in pixels.iter_mut().enumerate() {
            *pixel = number >> place & 1;
        }
        let set = made(&rt, image(alloc, Kind::Bit, 3, 3, 1, &pixels));
        are_made_by_each_metric(&rt, alloc, &set);
    }
}

/// A set without a pattern, of which a half is in it, or nine of ten.
fn thinned(rt: &impl Abort, alloc: Global, sides: (u32, u32), of_ten: u16) -> ReferenceImage {
    let levels = made(rt, noise(alloc, Kind::Grey, sides.0, sides.1, 9));
    let mut pixels = Vec::new(alloc);
    for level in levels.samples() {
        pixels
            .push(u16::from(*level < of_ten))
            .ok()
            .expect(rt, "memory");
    }
    made(rt, image(alloc, Kind::Bit, sides.0, sides.1, 1, &pixels))
}

#[test]
fn distances_in_sets_without_a_pattern(rt: HostRuntime) {
    for sides in [(24, 24), (1, 24), (24, 1), (65, 5), (130, 3)] {
        for of_ten in [5, 9] {
            let set = thinned(&rt, rt.alloc(), sides, of_ten);
            are_made_by_each_metric(&rt, rt.alloc(), &set);
        }
    }
}
