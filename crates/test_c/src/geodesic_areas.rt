//! Area openings of grey images without a pattern. Which they are, their contract says.

use crate::geodesic_given::{WAYS, is_made, made};
use crate::geodesic_levels::plane_in;
use crate::images::noise;
use mw_geodesic_areas::area_opening;
use mw_geodesic_labels::Neighbours;
use mw_model::Kind;
use mw_pixel::Grey;
use mw_reference::ReferenceImage;
use std::alloc::Global;
use std::process::Abort;

/// Stops where memory is wanting to the area opening.
fn is_opened<P: Grey>(
    rt: &impl Abort,
    alloc: Global,
    given: &ReferenceImage,
    least: u32,
    neighbours: Neighbours,
) {
    let plane = plane_in::<P>(rt, alloc, given);
    let count = u64::from(plane.height()) * u64::from(plane.width());
    assert!(rt; plane.width() < 65536 && count < 4_294_967_296);
    is_made(rt, area_opening::<P>(alloc, &plane, neighbours, least));
}

#[test]
fn openings_of_images_without_a_pattern(rt: HostRuntime) {
    for (width, height) in [(24, 24), (1, 24), (24, 1), (17, 5), (2, 2)] {
        let given = made(&rt, noise(rt.alloc(), Kind::Grey, width, height, 7));
        for neighbours in WAYS {
            for least in [0, 1, 2, 5, 20, 600] {
                is_opened::<u8>(&rt, rt.alloc(), &given, least, neighbours);
                is_opened::<u16>(&rt, rt.alloc(), &given, least, neighbours);
            }
        }
    }
}
