//! Sets of whole components of all sets of 3 x 3 pixels, and of sets without a pattern. Which they are, their contracts say.

use crate::geodesic_given::{WAYS, is_made, made};
use crate::geodesic_labels::pixels_of;
use crate::images::{image, noise};
use mw_geodesic_kept::{
    border_cleared_of_set, holes_filled_of_set, reconstruction_of_set, write_large_components,
};
use mw_geodesic_labels::Neighbours;
use mw_model::Kind;
use mw_reference::ReferenceImage;
use std::alloc::Global;
use std::process::Abort;

/// Every fifth pixel of the set.
fn sparse(rt: &impl Abort, alloc: Global, set: &ReferenceImage) -> ReferenceImage {
    let mut pixels = Vec::new(alloc);
    let mut turn = 0u32;
    for pixel in set.samples() {
        turn = turn.wrapping_add(1) % 5;
        let kept = if turn == 0 { *pixel } else { 0 };
        pixels.push(kept).ok().expect(rt, "memory");
    }
    made(
        rt,
        image(alloc, Kind::Bit, set.width(), set.height(), 1, &pixels),
    )
}

/// Stops where memory is wanting to an operator.
fn are_kept(rt: &impl Abort, alloc: Global, set: &ReferenceImage, neighbours: Neighbours) {
    let plane = pixels_of(rt, alloc, set);
    let count = u64::from(plane.height()) * u64::from(plane.width());
    assert!(rt; plane.width() < 65536 && count < 4_294_967_296);
    is_made(rt, border_cleared_of_set(alloc, &plane, neighbours));
    is_made(rt, holes_filled_of_set(alloc, &plane, neighbours));
    let size = plane.height() as usize * plane.width() as usize;
    let mut out = vec![in alloc; 9u8; size].ok().expect(rt, "memory");
    let large = write_large_components(alloc, plane, neighbours, 3, &mut out);
    assert!(rt; large.is_ok() && out.iter().all(|pixel| *pixel <= 1));
}

/// Stops where memory is wanting to the reconstruction from every fifth pixel.
fn is_rebuilt(rt: &impl Abort, alloc: Global, set: &ReferenceImage, neighbours: Neighbours) {
    let dots = sparse(rt, alloc, set);
    let (marker, mask) = (pixels_of(rt, alloc, &dots), pixels_of(rt, alloc, set));
    let count = u64::from(mask.height()) * u64::from(mask.width());
    assert!(rt; mask.width() < 65536 && count < 4_294_967_296);
    assert!(rt; marker.width() == mask.width() && marker.height() == mask.height());
    is_made(rt, reconstruction_of_set(alloc, &marker, &mask, neighbours));
}

fn are_kept_in_each_way(rt: &impl Abort, alloc: Global, set: &ReferenceImage) {
    for neighbours in WAYS {
        are_kept(rt, alloc, set, neighbours);
        is_rebuilt(rt, alloc, set, neighbours);
    }
}

#[test]
fn all_sets_of_three_by_three(rt: HostRuntime) {
    let alloc = rt.alloc();
    for number in 0..512u16 {
        let mut pixels = [0u16; 9];
        for (place, pixel) in pixels.iter_mut().enumerate() {
            *pixel = number >> place & 1;
        }
        let set = made(&rt, image(alloc, Kind::Bit, 3, 3, 1, &pixels));
        are_kept_in_each_way(&rt, alloc, &set);
    }
}

#[test]
fn sets_without_a_pattern(rt: HostRuntime) {
    for (width, height) in [(24, 24), (1, 24), (24, 1), (64, 5), (65, 5), (130, 3)] {
        let set = made(&rt, noise(rt.alloc(), Kind::Bit, width, height, 1));
        are_kept_in_each_way(&rt, rt.alloc(), &set);
    }
}
