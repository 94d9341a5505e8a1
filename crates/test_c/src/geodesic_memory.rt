//! What is made where memory was refused before. Where memory is refused a call is made once more, so each test passes
//! whichever allocation is refused.

use crate::geodesic_derived::is_within;
use mw_geodesic_areas::area_opening;
use mw_geodesic_distances::{Metric, distances_of};
use mw_geodesic_grey::{h_minima, regional_maxima};
use mw_geodesic_kept::{
    border_cleared_of_set, holes_filled_of_set, reconstruction_of_set, write_large_components,
};
use mw_geodesic_labels::{Labelled, Neighbours, NoMemory, labels_of, write_regions};
use mw_geodesic_levels::reconstruction;
use mw_pixel::{Bit, Plane};
use std::alloc::Global;
use std::process::Abort;

/// What a call gives, made once more where it was refused for want of memory.
macro_rules! once_more {
    ($rt:expr, $call:expr) => {
        match $call {
            Ok(made) => made,
            Err(NoMemory) => match $call {
                Ok(made) => made,
                Err(NoMemory) => panic!($rt; "there is memory"),
            },
        }
    };
}

/// Three rows of 70 pixels, all of them in the set.
fn plane(rt: &impl Abort, alloc: Global) -> Plane<Bit> {
    let plane = once_more!(rt, Plane::filled(alloc, 70, 3, Bit::new(true)));
    assert!(rt; plane.width() == 70 && plane.height() == 3);
    plane
}

#[test]
fn labels_once_more(rt: HostRuntime) {
    let plane = plane(&rt, rt.alloc());
    assert!(&rt; plane.width() == 70 && plane.height() == 3);
    let found: Labelled = once_more!(&rt, labels_of(rt.alloc(), &plane, Neighbours::Four));
    assert_eq!(&rt; found.count, 1);
    assert!(&rt; found.labels.len() == 210 && found.labels.iter().all(|label| *label == 1));
}

#[test]
fn regions_once_more(rt: HostRuntime) {
    let plane = plane(&rt, rt.alloc());
    assert!(&rt; plane.width() == 70 && plane.height() == 3);
    let mut rows = [9u32; 8];
    let found = once_more!(
        &rt,
        write_regions(rt.alloc(), &plane, Neighbours::Four, &mut rows)
    );
    assert!(&rt; found == 1);
    assert_eq!(&rt; rows.as_slice(), [0, 0, 210, 0, 0, 69, 2, 9].as_slice());
}

/// Stops where the set isn't that of three rows of 70 pixels, all of them in it or none.
fn is_filled(rt: &impl Abort, set: &Plane<Bit>, wanted: bool) {
    assert!(rt; set.width() == 70 && set.height() == 3);
    for y in 0..3 {
        for x in 0..70 {
            assert!(rt; set.at(x, y) == Bit::new(wanted));
        }
    }
}

#[test]
fn rebuilt_once_more(rt: HostRuntime) {
    let plane = plane(&rt, rt.alloc());
    assert!(&rt; plane.width() == 70 && plane.height() == 3);
    let four = Neighbours::Four;
    let rebuilt = once_more!(&rt, reconstruction_of_set(rt.alloc(), &plane, &plane, four));
    is_filled(&rt, &rebuilt, true);
}

#[test]
fn cleared_once_more(rt: HostRuntime) {
    let plane = plane(&rt, rt.alloc());
    assert!(&rt; plane.width() == 70 && plane.height() == 3);
    let cleared = once_more!(
        &rt,
        border_cleared_of_set(rt.alloc(), &plane, Neighbours::Four)
    );
    is_filled(&rt, &cleared, false);
}

#[test]
fn filled_once_more(rt: HostRuntime) {
    let plane = plane(&rt, rt.alloc());
    assert!(&rt; plane.width() == 70 && plane.height() == 3);
    let filled = once_more!(
        &rt,
        holes_filled_of_set(rt.alloc(), &plane, Neighbours::Four)
    );
    is_filled(&rt, &filled, true);
}

/// The components of 211 pixels and more of three rows of 70.
fn large(rt: &impl Abort, alloc: Global, out: &mut [u8; 210]) -> Result<(), NoMemory> {
    let plane = plane(rt, alloc);
    assert!(rt; plane.width() == 70 && plane.height() == 3);
    write_large_components(alloc, plane, Neighbours::Four, 211, out)
}

#[test]
fn large_once_more(rt: HostRuntime) {
    let mut out = [9u8; 210];
    once_more!(&rt, large(&rt, rt.alloc(), &mut out));
    assert!(&rt; out.iter().all(|pixel| *pixel == 0));
}

/// Three rows of 70 samples of this level.
fn level(rt: &impl Abort, alloc: Global, level: u8) -> Plane<u8> {
    once_more!(rt, Plane::filled(alloc, 70, 3, level))
}

#[test]
fn reconstruction_once_more(rt: HostRuntime) {
    let (marker, mask) = (level(&rt, rt.alloc(), 3), level(&rt, rt.alloc(), 5));
    assert!(&rt; marker.width() == mask.width() && marker.height() == mask.height());
    let found = once_more!(
        &rt,
        reconstruction::<u8>(rt.alloc(), &marker, &mask, Neighbours::Four)
    );
    assert!(&rt; found.samples().len() == 210 && found.samples().iter().all(|it| *it == 3));
}

#[test]
fn basins_and_peaks_once_more(rt: HostRuntime) {
    let plane = level(&rt, rt.alloc(), 3);
    if !is_within(&plane, 9) {
        panic!(&rt; "levels up to the maxval");
    }
    let filled = once_more!(
        &rt,
        h_minima::<u8>(rt.alloc(), &plane, 2, 9, Neighbours::Eight)
    );
    assert!(&rt; filled.samples().len() == 210 && filled.samples().iter().all(|it| *it == 5));
    let peaks = once_more!(
        &rt,
        regional_maxima::<u8>(rt.alloc(), &plane, Neighbours::Eight)
    );
    is_filled(&rt, &peaks, true);
}

#[test]
fn areas_once_more(rt: HostRuntime) {
    let plane = level(&rt, rt.alloc(), 3);
    let count = u64::from(plane.height()) * u64::from(plane.width());
    assert!(&rt; plane.width() < 65536 && count < 4_294_967_296);
    let gone = once_more!(
        &rt,
        area_opening::<u8>(rt.alloc(), &plane, Neighbours::Eight, 211)
    );
    assert!(&rt; gone.samples().len() == 210 && gone.samples().iter().all(|it| *it == 0));
}

#[test]
fn distances_once_more(rt: HostRuntime) {
    let plane = plane(&rt, rt.alloc());
    let steps = once_more!(&rt, distances_of(rt.alloc(), &plane, Metric::CityBlock, 7));
    assert!(&rt; steps.len() == 210 && steps.iter().all(|distance| *distance == 7));
    let squares = once_more!(
        &rt,
        distances_of(rt.alloc(), &plane, Metric::SquaredEuclid, 7)
    );
    assert!(&rt; squares.len() == 210 && squares.iter().all(|distance| *distance == 7));
}
