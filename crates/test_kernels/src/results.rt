//! What kernels make that no session reaches: each result is exactly as it is to be where memory was refused before, by the same
//! windows.

use crate::rising::{Rising, square, window_of};
use mw_bits::{WordExtremum, at_least, equal};
use mw_line::{Steps, line};
use mw_model::{NoMemory, Offset, Rect};
use mw_offset::extremum;
use mw_pixel::{Bit, Extremum, Max, Min, Plane};
use mw_rank_rows::rank_by_rows;
use mw_tile::Window;
use std::alloc::Global;
use std::process::Abort;

const BAR: [Offset; 3] = [
    Offset { dx: -1, dy: 0 },
    Offset { dx: 0, dy: 0 },
    Offset { dx: 1, dy: 0 },
];

const RIGHT: [Offset; 1] = [Offset { dx: 1, dy: 0 }];

/// The first two see the row from a tile that lies 2,000 columns further on, and the last sees nothing there.
const FAR_APART: [Offset; 3] = [
    Offset { dx: -2000, dy: 0 },
    Offset { dx: -1999, dy: 0 },
    Offset { dx: 0, dy: 0 },
];

const FIVE: [u8; 5] = [3, 1, 4, 1, 5];

/// So many columns of a row from this one on. From 2,000 on the kernels take the offsets above one after another, since they lie
/// more than 1,024 columns apart.
fn in_a_row(x: u32, width: u32) -> Rect {
    Rect {
        x,
        y: 0,
        width,
        height: 1,
    }
}

/// The window that has a whole row of bytes.
fn row_of(rt: &impl Abort, alloc: Global, samples: &[u8]) -> Window<u8> {
    assert!(rt; samples.len() < 8192);
    let copied = once_more!(rt, samples.to_vec(alloc));
    let width = samples.len() as u32;
    assert!(rt; copied.len() == width as usize);
    Window::whole(Plane::new(width, 1, copied))
}

/// Whether the line is made.
fn is_slid(rt: &impl Abort, alloc: Global, out: &mut [u8], steps: &mut Steps) -> bool {
    assert!(rt; out.len() == 5 && steps.count == 100);
    line::<u8, Min>(alloc, &FIVE, -1, 1, 9, out, steps).is_ok()
}

#[test]
fn lines(rt: HostRuntime) {
    let mut out = [7u8; 5];
    let mut steps = Steps { count: 100 };
    if !is_slid(&rt, rt.alloc(), &mut out, &mut steps) {
        assert_eq!(rt; out, [7, 7, 7, 7, 7]);
        assert!(rt; is_slid(&rt, rt.alloc(), &mut out, &mut steps));
    }
    assert_eq!(rt; out, [1, 1, 1, 1, 1]);
    // two blocks of three places, and two combines for each of five samples
    assert_eq!(rt; steps.count, 116);
}

fn listed<E: Extremum<u8>>(
    alloc: Global,
    window: &Window<u8>,
    offsets: &[Offset],
    neutral: u8,
    tile: Rect,
) -> Result<Plane<u8>, NoMemory> {
    extremum::<u8, E>(alloc, window, offsets, neutral, tile)
}

/// Offsets, where the tile begins, and both extrema of the five samples.
const EXTREMA: [(&[Offset], u32, [u8; 5], [u8; 5]); 2] = [
    (&RIGHT, 0, [1, 4, 1, 5, 9], [1, 4, 1, 5, 0]),
    (&FAR_APART, 2000, [1, 1, 1, 1, 5], [3, 4, 4, 5, 5]),
];

#[test]
fn extrema_by_offsets(rt: HostRuntime) {
    let five = row_of(&rt, rt.alloc(), &FIVE);
    for (offsets, x, least, greatest) in EXTREMA {
        let tile = in_a_row(x, 5);
        let made = once_more!(&rt, listed::<Min>(rt.alloc(), &five, offsets, 9, tile));
        assert_eq!(rt; made.samples(), least.as_slice());
        let made = once_more!(&rt, listed::<Max>(rt.alloc(), &five, offsets, 0, tile));
        assert_eq!(rt; made.samples(), greatest.as_slice());
    }
}

fn places_once(alloc: Global, levels: &Window<u8>, is_just: bool) -> Result<Plane<Bit>, NoMemory> {
    if is_just {
        equal(alloc, levels, 4)
    } else {
        at_least(alloc, levels, 4)
    }
}

/// The places of level 4 in a row of seven samples, or of level 4 or more.
fn places_of(rt: &impl Abort, alloc: Global, is_just: bool) -> Plane<Bit> {
    let levels = row_of(rt, alloc, &[0, 4, 9, 5, 3, 4, 1]);
    once_more!(rt, places_once(alloc, &levels, is_just))
}

/// Stops where the row of a set has other pixels: the leftmost stands in the lowest bit.
fn are(rt: &impl Abort, made: &Plane<Bit>, pixels: u64) {
    assert!(rt; made.words().words() == [pixels].as_slice());
}

#[test]
fn sets_of_levels(rt: HostRuntime) {
    are(&rt, &places_of(&rt, rt.alloc(), false), 0b0101110);
    are(&rt, &places_of(&rt, rt.alloc(), true), 0b0100010);
}

fn listed_set<E: WordExtremum>(
    alloc: Global,
    set: &Window<Bit>,
    offsets: &[Offset],
    tile: Rect,
) -> Result<Plane<Bit>, NoMemory> {
    mw_bits::extremum::<E>(alloc, set, offsets, tile)
}

/// Stops where an extremum of the places of level 4 or more has other pixels.
fn is_listed<E: WordExtremum>(
    rt: &impl Abort,
    alloc: Global,
    offsets: &[Offset],
    x: u32,
    pixels: u64,
) {
    let set = Window::whole(places_of(rt, alloc, false));
    let tile = in_a_row(x, 7);
    are(
        rt,
        &once_more!(rt, listed_set::<E>(alloc, &set, offsets, tile)),
        pixels,
    );
}

#[test]
fn sets_as_words(rt: HostRuntime) {
    is_listed::<Min>(&rt, rt.alloc(), &BAR, 0, 0b0000100);
    is_listed::<Max>(&rt, rt.alloc(), &RIGHT, 0, 0b0010111);
    is_listed::<Min>(&rt, rt.alloc(), &FAR_APART, 2000, 0b0000110);
    is_listed::<Max>(&rt, rt.alloc(), &FAR_APART, 2000, 0b0111111);
}

/// A frame of levels of 16 bits and a rank. Under larger squares levels are numbered; those of rows that lie far from one another
/// go another way.
fn frame(width: u32, height: u32, by_rows: bool, step: u16, reach: u32, k: u32) -> Rising {
    Rising {
        width,
        height,
        by_rows,
        step,
        reach,
        k,
    }
}

fn frames() -> [Rising; 5] {
    [
        frame(40, 9, false, 1620, 1, 5),
        frame(40, 20, false, 1620, 4, 41),
        frame(40, 20, true, 3240, 4, 41),
        frame(20, 9, false, 3240, 1, 2),
        frame(150, 24, false, 400, 7, 113),
    ]
}

fn ranked(
    rt: &impl Abort,
    alloc: Global,
    window: &Window<u16>,
    offsets: &[Offset],
    case: Rising,
) -> Result<Plane<u16>, NoMemory> {
    assert!(rt; offsets.len() < 65536);
    rank_by_rows(alloc, window, offsets, case.k, case.frame())
}

#[test]
fn ranks_of_far_words(rt: HostRuntime) {
    for case in frames() {
        let window = window_of::<u16>(&rt, rt.alloc(), case);
        let offsets = square(&rt, rt.alloc(), case);
        let made = once_more!(&rt, ranked(&rt, rt.alloc(), &window, &offsets, case));
        case.is_ranked(&rt, &made);
    }
}
