//! Each call beside the reference, on small images of each type without a pattern.

use crate::called::Called;
use crate::given::{
    Call, Figure, Job, Sort, Way, first_call, is_set, with_element, with_elements, with_job,
};
use crate::images::noise;
use crate::made::{made_is, volumes_are};
use crate::reference_ways::{volumes, wanted};
use mw_model::Kind;
use mw_reference::ReferenceImage;
use std::alloc::Global;
use std::process::Abort;

/// The sides of images.
const FRAMES: [(u32, u32); 4] = [(1, 40), (40, 1), (17, 9), (1, 1)];

/// The sides of images whose rows are made one by one and together.
const SMALL_FRAMES: [(u32, u32); 3] = [(1, 7), (7, 1), (7, 5)];

/// Sorts of images, and their maxvals.
const SORTS: [(Sort, u16); 3] = [(Sort::Bytes, 200), (Sort::Words, 4095), (Sort::Pixels, 1)];

/// Elements that have no symmetry, with gaps, or with the origin in a corner. Each has four pixels or more, and its origin.
const ELEMENTS: [Figure<'static>; 3] = [
    (&[1, 0, 0, 2, 0, 255, 0, 0, 0, 0, 1, 1], (4, 3), (1, 1)),
    (&[7, 7, 0, 0, 0, 0, 0, 0, 0, 7, 0, 7], (3, 4), (0, 0)),
    (&[7, 7, 0, 0, 0, 0, 0, 0, 0, 7, 0, 7], (3, 4), (2, 3)),
];

/// Three pixels without the origin.
const AROUND: Figure<'static> = (&[1, 0, 0, 3, 0, 1, 0, 0, 0, 0], (5, 2), (4, 0));

/// All operators, and ranks at both ends and between them.
const FLAT: [Job; 10] = [
    (0, 0),
    (1, 0),
    (2, 0),
    (3, 0),
    (4, 0),
    (5, 0),
    (6, 0),
    (7, 1),
    (7, 2),
    (7, 4),
];

/// Operators of one step.
const ROWS: [Job; 5] = [(0, 0), (1, 0), (4, 0), (7, 1), (7, 3)];

const LEVELS: [Job; 6] = [(0, 0), (0, 1), (0, 100), (0, 200), (0, 4095), (0, 65535)];

/// Numbers of levels of skeletons.
const COUNTS: [Job; 4] = [(0, 1), (0, 2), (0, 5), (0, 254)];

/// Numbers of levels of marks.
const MARKS: [Job; 3] = [(0, 1), (0, 2), (0, 5)];

/// Numbers of sizes of spectra.
const SIZES: [Job; 3] = [(0, 1), (0, 3), (0, 32)];

fn jobs_of(way: Way) -> &'static [Job] {
    match way {
        Way::Flat => &FLAT,
        Way::Rows => &ROWS,
        Way::Threshold => &LEVELS,
        Way::Spectrum => &SIZES,
        Way::Skeleton => &COUNTS,
        _ => &MARKS,
    }
}

/// The samples from one row to another.
fn rows_of(samples: &[u16], width: u32, first: u32, end: u32) -> &[u16] {
    let width = width as usize;
    samples
        .get(first as usize * width..end as usize * width)
        .unwrap_or(&[])
}

/// Stops where some rows are others than those of the whole result.
fn rows_are<P: Called>(rt: &impl Abort, alloc: Global, call: Call<'_>, f: &[P], whole: &[u16]) {
    let mut call = call;
    for last in 0..call.height {
        for first in 0..last.saturating_add(1) {
            call.first = first;
            let wanted = rows_of(whole, call.width, first, last.saturating_add(1));
            made_is(rt, alloc, call, f, wanted);
        }
    }
}

fn spectrum_is_plain<P: Called>(
    rt: &impl Abort,
    alloc: Global,
    call: Call<'_>,
    image: &ReferenceImage,
    f: &[P],
) {
    let wanted = volumes(rt, alloc, call, image);
    volumes_are(rt, alloc, call, f, &wanted);
}

fn image_is_plain<P: Called>(
    rt: &impl Abort,
    alloc: Global,
    call: Call<'_>,
    image: &ReferenceImage,
    f: &[P],
) {
    let wanted = wanted(rt, alloc, call, image);
    match call.way {
        Way::Rows => rows_are(rt, alloc, call, f, wanted.samples()),
        _ => made_is(rt, alloc, call, f, wanted.samples()),
    }
}

fn is_plain<P: Called>(
    rt: &impl Abort,
    alloc: Global,
    call: Call<'_>,
    image: &ReferenceImage,
    f: &[P],
) {
    match call.way {
        Way::Spectrum => spectrum_is_plain(rt, alloc, call, image, f),
        _ => image_is_plain(rt, alloc, call, image, f),
    }
}

/// By elements that have their origin.
fn by_elements<P: Called>(
    rt: &impl Abort,
    alloc: Global,
    call: Call<'_>,
    image: &ReferenceImage,
    f: &[P],
) {
    for element in ELEMENTS {
        for job in jobs_of(call.way) {
            let call = with_job(with_element(call, element), *job);
            is_plain(rt, alloc, call, image, f);
        }
    }
}

/// Whether an element without its origin is refused.
fn wants_origin(call: Call<'_>) -> bool {
    call.operation == 7 || matches!(call.way, Way::Skeleton)
}

fn by_pixels_around<P: Called>(
    rt: &impl Abort,
    alloc: Global,
    call: Call<'_>,
    image: &ReferenceImage,
    f: &[P],
) {
    for job in jobs_of(call.way) {
        let call = with_job(with_element(call, AROUND), *job);
        if !wants_origin(call) {
            is_plain(rt, alloc, call, image, f);
        }
    }
}

/// Elements that share no offset.
const PAIRS: [(Figure<'static>, Figure<'static>); 3] = [
    (
        (&[5, 0, 1, 1], (2, 2), (0, 1)),
        (&[1, 0, 0, 1, 1, 0], (3, 2), (1, 0)),
    ),
    (AROUND, (&[1, 1, 0, 255], (2, 2), (0, 0))),
    ((&[1], (1, 1), (0, 0)), AROUND),
];

fn by_pairs<P: Called>(
    rt: &impl Abort,
    alloc: Global,
    call: Call<'_>,
    image: &ReferenceImage,
    f: &[P],
) {
    for (hit, miss) in PAIRS {
        is_plain(rt, alloc, with_elements(call, hit, miss), image, f);
    }
}

fn push<P: Called>(rt: &impl Abort, samples: &mut Vec<P>, level: u16) {
    let sample = P::of(level).expect(rt, "a level of the type");
    samples.push(sample).ok().expect(rt, "memory");
}

/// The levels as samples. Of a set each pixel is an odd number.
fn samples_of<P: Called>(
    rt: &impl Abort,
    alloc: Global,
    sort: Sort,
    image: &ReferenceImage,
) -> Vec<P> {
    let step = if is_set(sort) { 2u8 } else { 0 };
    let mut samples = Vec::new(alloc);
    let mut number = 1u8;
    for level in image.samples() {
        push(rt, &mut samples, level.saturating_mul(u16::from(number)));
        number = number.wrapping_add(step);
    }
    samples
}

fn all_are_plain<P: Called>(
    rt: &impl Abort,
    alloc: Global,
    call: Call<'_>,
    image: &ReferenceImage,
) {
    let f = samples_of::<P>(rt, alloc, call.sort, image);
    match call.way {
        Way::Hits => by_pairs(rt, alloc, call, image, &f),
        _ => {
            by_elements(rt, alloc, call, image, &f);
            by_pixels_around(rt, alloc, call, image, &f);
        }
    }
}

/// Stops where calls of this way make something else of the image than the reference.
fn ways_are_plain(rt: &impl Abort, alloc: Global, way: Way, sort: Sort, image: &ReferenceImage) {
    let sides = (image.width(), image.height());
    let call = first_call(way, sort, sides, image.maxval());
    match sort {
        Sort::Words => all_are_plain::<u16>(rt, alloc, call, image),
        _ => all_are_plain::<u8>(rt, alloc, call, image),
    }
}

/// An image without a pattern.
fn scene(
    rt: &impl Abort,
    alloc: Global,
    kind: Kind,
    sides: (u32, u32),
    maxval: u16,
) -> ReferenceImage {
    let (width, height) = sides;
    match noise(alloc, kind, width, height, maxval) {
        Ok(image) => image,
        Err(_fault) => panic!(rt; "an image"),
    }
}

/// An image of this frame with other samples.
fn changed(
    rt: &impl Abort,
    alloc: Global,
    image: &ReferenceImage,
    kind: Kind,
    maxval: u16,
    samples: &[u16],
) -> ReferenceImage {
    match crate::images::image(alloc, kind, image.width(), image.height(), maxval, samples) {
        Ok(image) => image,
        Err(_fault) => panic!(rt; "an image"),
    }
}

fn scene_is_plain(
    rt: &impl Abort,
    alloc: Global,
    way: Way,
    sort: Sort,
    sides: (u32, u32),
    maxval: u16,
) {
    let kind = if is_set(sort) { Kind::Bit } else { Kind::Grey };
    ways_are_plain(rt, alloc, way, sort, &scene(rt, alloc, kind, sides, maxval));
}

fn scenes_are_plain(
    rt: &impl Abort,
    alloc: Global,
    way: Way,
    frames: &[(u32, u32)],
    sorts: &[(Sort, u16)],
) {
    for sides in frames {
        for (sort, maxval) in sorts {
            scene_is_plain(rt, alloc, way, *sort, *sides, *maxval);
        }
    }
}

#[test]
fn flat_operators(rt: HostRuntime) {
    scenes_are_plain(&rt, rt.alloc(), Way::Flat, &FRAMES, &SORTS);
}

#[test]
fn rows_of_flat_operators(rt: HostRuntime) {
    scenes_are_plain(&rt, rt.alloc(), Way::Rows, &SMALL_FRAMES, &SORTS);
}

#[test]
fn hits_and_misses(rt: HostRuntime) {
    scenes_are_plain(&rt, rt.alloc(), Way::Hits, &FRAMES, &SORTS);
}

#[test]
fn thresholds(rt: HostRuntime) {
    let sorts = [(Sort::Bytes, 200), (Sort::Words, 4095)];
    scenes_are_plain(&rt, rt.alloc(), Way::Threshold, &FRAMES, &sorts);
}

#[test]
fn spectra(rt: HostRuntime) {
    scenes_are_plain(&rt, rt.alloc(), Way::Spectrum, &FRAMES, &SORTS);
}

/// The pixels of levels under the maxval: a set with few gaps.
fn most_of(rt: &impl Abort, alloc: Global, sides: (u32, u32)) -> ReferenceImage {
    let levels = scene(rt, alloc, Kind::Grey, sides, 12);
    let mut pixels = Vec::new(alloc);
    for level in levels.samples() {
        push(rt, &mut pixels, u16::from(*level < 12));
    }
    changed(rt, alloc, &levels, Kind::Bit, 1, &pixels)
}

#[test]
fn skeletons(rt: HostRuntime) {
    let alloc = rt.alloc();
    for sides in FRAMES {
        let set = most_of(&rt, alloc, sides);
        ways_are_plain(&rt, alloc, Way::Skeleton, Sort::Pixels, &set);
    }
}

/// From marks in bytes and in words.
fn marks_are_plain(rt: &impl Abort, alloc: Global, marks: &ReferenceImage) {
    ways_are_plain(rt, alloc, Way::Restoration, Sort::Bytes, marks);
    let wide = changed(rt, alloc, marks, Kind::Grey, 300, marks.samples());
    ways_are_plain(rt, alloc, Way::Restoration, Sort::Words, &wide);
}

#[test]
fn restorations(rt: HostRuntime) {
    for sides in FRAMES {
        let marks = scene(&rt, rt.alloc(), Kind::Grey, sides, 40);
        marks_are_plain(&rt, rt.alloc(), &marks);
    }
}
