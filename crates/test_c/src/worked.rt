//! Worked rows: each function once on levels of one byte, on levels of two and on a set, and what it makes, by hand.

use crate::called::Called;
use crate::given::{
    Call, DOT, Job, LEFT, PAIR, Sort, Way, first_call, with_element, with_elements, with_job,
};
use crate::made::{made_is, volumes_are};
use mw_c_calls::version;
use std::alloc::Global;
use std::process::Abort;

const FIVE: [u8; 5] = [3, 1, 4, 1, 5];

/// A thousand times as great.
const WIDE_FIVE: [u16; 5] = [3000, 1000, 4000, 1000, 5000];

/// What operators make of the five, by three pixels in a row and by the origin and the pixel at its right.
const FLAT: [(Job, [u16; 5], [u16; 5]); 9] = [
    ((0, 0), [1, 1, 1, 1, 1], [1, 1, 1, 1, 5]),
    ((1, 0), [3, 4, 4, 5, 5], [3, 4, 4, 5, 5]),
    ((2, 0), [1, 1, 1, 1, 1], [1, 1, 1, 1, 5]),
    ((3, 0), [3, 3, 4, 4, 5], [3, 3, 4, 4, 5]),
    ((4, 0), [2, 3, 3, 4, 4], [2, 3, 3, 4, 0]),
    ((5, 0), [2, 0, 3, 0, 4], [2, 0, 3, 0, 0]),
    ((6, 0), [0, 2, 0, 3, 0], [0, 2, 0, 3, 0]),
    ((7, 1), [1, 1, 1, 1, 1], [1, 1, 1, 1, 5]),
    ((7, 2), [3, 3, 1, 4, 5], [3, 4, 4, 5, 5]),
];

const SIX_PIXELS: [u8; 6] = [0, 1, 7, 255, 0, 2];

/// What operators make of the six pixels by three in a row.
const FLAT_OF_SET: [(Job, [u16; 6]); 9] = [
    ((0, 0), [0, 0, 1, 0, 0, 0]),
    ((1, 0), [1, 1, 1, 1, 1, 1]),
    ((2, 0), [0, 1, 1, 1, 0, 0]),
    ((3, 0), [1, 1, 1, 1, 1, 1]),
    ((4, 0), [1, 1, 0, 1, 1, 1]),
    ((5, 0), [0, 0, 0, 0, 0, 1]),
    ((6, 0), [1, 0, 0, 0, 1, 0]),
    ((7, 1), [0, 0, 1, 0, 0, 0]),
    ((7, 2), [1, 1, 1, 1, 1, 1]),
];

/// A call on the five.
fn of_five(way: Way) -> Call<'static> {
    first_call(way, Sort::Bytes, (5, 1), 9)
}

fn of_wide_five(way: Way) -> Call<'static> {
    first_call(way, Sort::Words, (5, 1), 9000)
}

fn of_six_pixels(way: Way) -> Call<'static> {
    first_call(way, Sort::Pixels, (6, 1), 1)
}

/// Levels so many times as great.
fn greater(levels: [u16; 5], times: u16) -> [u16; 5] {
    let mut levels = levels;
    for at in 0..5usize {
        levels[at] = levels[at].saturating_mul(times);
    }
    levels
}

/// Stops where the operator makes another row, as a whole or as a part of the result.
fn makes<P: Called>(rt: &impl Abort, alloc: Global, call: Call<'_>, f: &[P], wanted: &[u16]) {
    made_is(rt, alloc, call, f, wanted);
    let mut call = call;
    call.way = Way::Rows;
    if matches!(call.operation, 0 | 1 | 4 | 7) {
        made_is(rt, alloc, call, f, wanted);
    }
}

/// Stops where an operator makes other levels of the five, or of so many times as great levels.
fn all_make<P: Called>(rt: &impl Abort, alloc: Global, call: Call<'_>, f: &[P], times: u16) {
    for (job, by_bar, by_pair) in FLAT {
        let call = with_job(call, job);
        makes(rt, alloc, call, f, &greater(by_bar, times));
        makes(
            rt,
            alloc,
            with_element(call, PAIR),
            f,
            &greater(by_pair, times),
        );
    }
}

#[test]
fn flat_operators_on_levels_of_one_byte(rt: HostRuntime) {
    all_make(&rt, rt.alloc(), of_five(Way::Flat), &FIVE, 1);
}

#[test]
fn flat_operators_on_levels_of_two_bytes(rt: HostRuntime) {
    all_make(&rt, rt.alloc(), of_wide_five(Way::Flat), &WIDE_FIVE, 1000);
}

#[test]
fn flat_operators_on_a_set(rt: HostRuntime) {
    for (job, wanted) in FLAT_OF_SET {
        let call = with_job(of_six_pixels(Way::Flat), job);
        makes(&rt, rt.alloc(), call, &SIX_PIXELS, &wanted);
    }
}

/// What the origin hits and the pixel at its left misses.
fn rises<P: Called>(rt: &impl Abort, alloc: Global, call: Call<'_>, f: &[P], wanted: &[u16]) {
    made_is(rt, alloc, with_elements(call, DOT, LEFT), f, wanted);
}

#[test]
fn hits_and_misses(rt: HostRuntime) {
    let alloc = rt.alloc();
    rises(&rt, alloc, of_five(Way::Hits), &FIVE, &[3, 0, 3, 0, 4]);
    rises(
        &rt,
        alloc,
        of_wide_five(Way::Hits),
        &WIDE_FIVE,
        &[3000, 0, 3000, 0, 4000],
    );
    rises(
        &rt,
        alloc,
        of_six_pixels(Way::Hits),
        &SIX_PIXELS,
        &[0, 1, 0, 0, 0, 1],
    );
}

/// Levels of one byte and of two, and the places of the five that have them.
const THRESHOLDS: [(u32, u32, [u16; 5]); 5] = [
    (0, 0, [1, 1, 1, 1, 1]),
    (2, 1001, [1, 0, 1, 0, 1]),
    (4, 4000, [0, 0, 1, 0, 1]),
    (6, 5001, [0, 0, 0, 0, 0]),
    (65535, 65535, [0, 0, 0, 0, 0]),
];

#[test]
fn thresholds(rt: HostRuntime) {
    for (k, wide_k, wanted) in THRESHOLDS {
        let call = with_job(of_five(Way::Threshold), (0, k));
        made_is(&rt, rt.alloc(), call, &FIVE, &wanted);
        let call = with_job(of_wide_five(Way::Threshold), (0, wide_k));
        made_is(&rt, rt.alloc(), call, &WIDE_FIVE, &wanted);
    }
}

const LINE: [u8; 8] = [0, 1, 1, 1, 1, 1, 0, 1];

/// Of what the line has under three in a row.
const MARKS: [u8; 8] = [0, 0, 0, 3, 0, 0, 0, 1];

const WIDE_MARKS: [u16; 8] = [0, 0, 0, 3, 0, 0, 0, 1];

/// By three in a row, up to two sizes.
fn of_eight(way: Way, sort: Sort, maxval: u16) -> Call<'static> {
    with_job(first_call(way, sort, (8, 1), maxval), (0, 2))
}

#[test]
fn a_skeleton_and_what_is_restored_of_it(rt: HostRuntime) {
    let alloc = rt.alloc();
    let line = [0, 1, 1, 1, 1, 1, 0, 1];
    let skeleton = of_eight(Way::Skeleton, Sort::Pixels, 1);
    made_is(&rt, alloc, skeleton, &LINE, &WIDE_MARKS);
    made_is(
        &rt,
        alloc,
        of_eight(Way::Restoration, Sort::Bytes, 3),
        &MARKS,
        &line,
    );
    made_is(
        &rt,
        alloc,
        of_eight(Way::Restoration, Sort::Words, 300),
        &WIDE_MARKS,
        &line,
    );
}

/// The volumes of two openings by three in a row.
fn opened<P: Called>(rt: &impl Abort, alloc: Global, call: Call<'_>, f: &[P], wanted: [u64; 3]) {
    volumes_are(rt, alloc, with_job(call, (0, 2)), f, &wanted);
}

#[test]
fn spectra(rt: HostRuntime) {
    let alloc = rt.alloc();
    opened(&rt, alloc, of_five(Way::Spectrum), &FIVE, [14, 5, 5]);
    opened(
        &rt,
        alloc,
        of_wide_five(Way::Spectrum),
        &WIDE_FIVE,
        [14000, 5000, 5000],
    );
    opened(
        &rt,
        alloc,
        of_six_pixels(Way::Spectrum),
        &SIX_PIXELS,
        [4, 3, 0],
    );
}

#[test]
fn the_version(rt: HostRuntime) {
    assert_eq!(rt; version(), 1);
}
