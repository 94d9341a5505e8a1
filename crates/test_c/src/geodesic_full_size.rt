//! Images of 4096 x 4096 pixels.

use crate::geodesic_derived::is_within;
use mw_geodesic_areas::area_opening;
use mw_geodesic_distances::{Metric, distances_of};
use mw_geodesic_grey::{border_cleared, h_maxima, holes_filled, regional_minima};
use mw_geodesic_kept::{
    border_cleared_of_set, holes_filled_of_set, reconstruction_of_set, write_large_components,
};
use mw_geodesic_labels::{NUMBERS, Neighbours, labels_of, write_regions};
use mw_geodesic_levels::reconstruction;
use mw_netpbm::read;
use mw_pixel::{Bit, Image, Pixel, Plane, View};
use std::alloc::Global;
use std::process::Abort;

/// Pixels in a row, and rows.
const SIDE: u32 = 4096;

/// A raw file of a set: rows of these two bytes by turns.
fn striped(rt: &impl Abort, alloc: Global, even: u8, odd: u8) -> Image {
    let mut bytes = b"P4\n4096 4096\n".to_vec(alloc).ok().expect(rt, "memory");
    for y in 0..SIDE {
        let row = [if y % 2 == 0 { even } else { odd }; 512];
        bytes.extend_from_slice(&row).ok().expect(rt, "memory");
    }
    read(alloc, &bytes).ok().expect(rt, "a set")
}

/// How many components the set has.
fn count_of(rt: &impl Abort, alloc: Global, set: &Image, neighbours: Neighbours) -> u32 {
    match set.view() {
        View::Bits(plane) => {
            assert!(rt; plane.width() == SIDE && plane.height() == SIDE);
            labels_of(alloc, plane, neighbours)
                .ok()
                .expect(rt, "memory")
                .count
        }
        _ => panic!(rt; "a set"),
    }
}

/// What is told of its components, which are so many: seven numbers of each.
fn told(
    rt: &impl Abort,
    alloc: Global,
    set: &Image,
    neighbours: Neighbours,
    count: u32,
) -> Vec<u32> {
    match set.view() {
        View::Bits(plane) => {
            assert!(rt; plane.width() == SIDE && plane.height() == SIDE);
            let size = NUMBERS * count as usize;
            let mut rows = vec![in alloc; 9u32; size].ok().expect(rt, "memory");
            let found = write_regions(alloc, plane, neighbours, &mut rows)
                .ok()
                .expect(rt, "memory");
            assert!(rt; found == count);
            rows
        }
        _ => panic!(rt; "a set"),
    }
}

#[test]
fn a_board_of_squares(rt: HostRuntime) {
    let board = striped(&rt, rt.alloc(), 0b01010101, 0b10101010);
    assert_eq!(&rt;
        count_of(&rt, rt.alloc(), &board, Neighbours::Four),
        SIDE * SIDE / 2
    );
    assert_eq!(&rt; count_of(&rt, rt.alloc(), &board, Neighbours::Eight), 1);
    let rows = told(&rt, rt.alloc(), &board, Neighbours::Four, 8_388_608);
    let last = [4094, 4095, 1, 4094, 4095, 4094, 4095];
    let rows = rows.as_slice();
    assert!(&rt; rows.len() == 58_720_256);
    assert_eq!(&rt; &rows[58_720_249..], last.as_slice());
}

/// The pixels of a set.
fn pixels_of<'a>(rt: &impl Abort, image: &'a Image) -> &'a Plane<Bit> {
    match image.view() {
        View::Bits(plane) => plane,
        _ => panic!(rt; "a set"),
    }
}

/// Whether the set has the pixel in column x of row y.
fn has(set: &Plane<Bit>, x: u32, y: u32) -> bool {
    x < set.width() && y < set.height() && set.at(x, y).value() == 1
}

/// Whether no component of the set has two pixels or more, by the bytes that are written of those that have.
fn has_none_large(rt: &impl Abort, alloc: Global, set: Plane<Bit>, out: &mut [u8]) -> bool {
    assert!(rt; set.width() == SIDE && set.height() == SIDE);
    assert!(rt; out.len() == set.height() as usize * set.width() as usize);
    let written = write_large_components(alloc, set, Neighbours::Four, 2, out);
    assert!(rt; written.is_ok());
    out.iter().all(|pixel| *pixel == 0)
}

/// Of 8,388,608 components, those with a marker, those within, the holes between them, and those of two pixels.
#[test]
fn whole_components_of_a_board(rt: HostRuntime) {
    let four = Neighbours::Four;
    let board = striped(&rt, rt.alloc(), 0b01010101, 0b10101010);
    let all = striped(&rt, rt.alloc(), 0xff, 0xff);
    let (board, all) = (pixels_of(&rt, &board), pixels_of(&rt, &all));
    assert!(&rt; board.width() == SIDE && board.height() == SIDE);
    assert!(&rt; all.width() == SIDE && all.height() == SIDE);
    let rebuilt = reconstruction_of_set(rt.alloc(), all, board, four);
    let rebuilt = rebuilt.ok().expect(&rt, "memory");
    assert!(&rt; has(&rebuilt, 1, 0) && has(&rebuilt, 4094, 4095) && !has(&rebuilt, 1, 1));
    let cleared = border_cleared_of_set(rt.alloc(), board, four);
    let cleared = cleared.ok().expect(&rt, "memory");
    assert!(&rt; has(&cleared, 2, 1) && has(&cleared, 4093, 4094) && !has(&cleared, 1, 0));
    let filled = holes_filled_of_set(rt.alloc(), board, four);
    let filled = filled.ok().expect(&rt, "memory");
    assert!(&rt; has(&filled, 1, 1) && has(&filled, 4094, 4094) && !has(&filled, 0, 0));
    let size = SIDE as usize * SIDE as usize;
    let alloc = rt.alloc();
    let mut out = vec![in alloc; 9u8; size].ok().expect(&rt, "memory");
    assert!(&rt; has_none_large(&rt, alloc, rebuilt, &mut out));
}

#[test]
fn lines(rt: HostRuntime) {
    let rows = striped(&rt, rt.alloc(), 0xff, 0);
    assert_eq!(&rt;
        count_of(&rt, rt.alloc(), &rows, Neighbours::Eight),
        SIDE / 2
    );
    let columns = striped(&rt, rt.alloc(), 0b10001000, 0b10001000);
    assert_eq!(&rt;
        count_of(&rt, rt.alloc(), &columns, Neighbours::Eight),
        SIDE / 4
    );
}

#[test]
fn all_of_the_frame(rt: HostRuntime) {
    let rows = told(
        &rt,
        rt.alloc(),
        &striped(&rt, rt.alloc(), 0xff, 0xff),
        Neighbours::Four,
        1,
    );
    let whole = [0, 0, SIDE * SIDE, 0, 0, 4095, 4095];
    assert_eq!(&rt; rows.as_slice(), whole.as_slice());
    assert!(&rt;
        told(
            &rt,
            rt.alloc(),
            &striped(&rt, rt.alloc(), 0, 0),
            Neighbours::Four,
            0
        )
        .is_empty()
    );
}

/// Where the samples are not 0.
#[derive(Clone, Copy)]
enum Drawing {
    /// All of every other row, and in those between only the last or the first, by turns.
    Winding,
    /// The first.
    Dot,
}

impl Drawing {
    fn has(self, x: u32, y: u32) -> bool {
        match self {
            Drawing::Winding => y % 2 == 0 || x == if y % 4 == 1 { SIDE - 1 } else { 0 },
            Drawing::Dot => x == 0 && y == 0,
        }
    }
}

/// How many bytes a sample has.
#[derive(Clone, Copy, PartialEq)]
enum Depth {
    One,
    Two,
}

/// A file of levels, which are this byte, or this byte twice, where the drawing is.
fn drawn(rt: &impl Abort, alloc: Global, drawing: Drawing, depth: Depth, byte: u8) -> Image {
    let head: &[u8] = match depth {
        Depth::One => b"P5\n4096 4096\n255\n",
        Depth::Two => b"P5\n4096 4096\n65535\n",
    };
    let mut bytes = head.to_vec(alloc).ok().expect(rt, "memory");
    for y in 0..SIDE {
        for x in 0..SIDE {
            let level = if drawing.has(x, y) { byte } else { 0 };
            bytes.push(level).ok().expect(rt, "memory");
            if depth == Depth::Two {
                bytes.push(level).ok().expect(rt, "memory");
            }
        }
    }
    read(alloc, &bytes).ok().expect(rt, "levels")
}

fn bytes_of<'a>(rt: &impl Abort, image: &'a Image) -> &'a Plane<u8> {
    match image.view() {
        View::Grey8(plane, _) => plane,
        _ => panic!(rt; "bytes"),
    }
}

fn words_of<'a>(rt: &impl Abort, image: &'a Image) -> &'a Plane<u16> {
    match image.view() {
        View::Grey16(plane, _) => plane,
        _ => panic!(rt; "two bytes each"),
    }
}

#[test]
fn along_a_winding(rt: HostRuntime) {
    let mask = drawn(&rt, rt.alloc(), Drawing::Winding, Depth::One, 200);
    let marker = drawn(&rt, rt.alloc(), Drawing::Dot, Depth::One, 150);
    let (mask, marker) = (bytes_of(&rt, &mask), bytes_of(&rt, &marker));
    assert!(&rt; marker.width() == mask.width() && marker.height() == mask.height());
    let found = reconstruction::<u8>(rt.alloc(), marker, mask, Neighbours::Four);
    let wanted = drawn(&rt, rt.alloc(), Drawing::Winding, Depth::One, 150);
    assert!(&rt; found.ok().expect(&rt, "memory").samples() == bytes_of(&rt, &wanted).samples());
}

#[test]
fn along_a_winding_of_two_bytes(rt: HostRuntime) {
    let mask = drawn(&rt, rt.alloc(), Drawing::Winding, Depth::Two, 200);
    let marker = drawn(&rt, rt.alloc(), Drawing::Dot, Depth::Two, 150);
    let (mask, marker) = (words_of(&rt, &mask), words_of(&rt, &marker));
    assert!(&rt; marker.width() == mask.width() && marker.height() == mask.height());
    let found = reconstruction::<u16>(rt.alloc(), marker, mask, Neighbours::Eight);
    let wanted = drawn(&rt, rt.alloc(), Drawing::Winding, Depth::Two, 150);
    assert!(&rt; found.ok().expect(&rt, "memory").samples() == words_of(&rt, &wanted).samples());
}

/// How many pixels the winding has.
const WINDING: u32 = 2048 * 4096 + 2048;

/// The winding is one dome, which touches the frame, as each gap between its rows does.
#[test]
fn derived_of_a_winding(rt: HostRuntime) {
    let given = drawn(&rt, rt.alloc(), Drawing::Winding, Depth::One, 200);
    let lower = drawn(&rt, rt.alloc(), Drawing::Winding, Depth::One, 150);
    let (given, lower) = (bytes_of(&rt, &given), bytes_of(&rt, &lower));
    if !is_within(given, 255) {
        panic!(&rt; "levels up to the maxval");
    }
    let cut = h_maxima::<u8>(rt.alloc(), given, 50, Neighbours::Four);
    assert!(&rt; cut.ok().expect(&rt, "memory").samples() == lower.samples());
    let filled = holes_filled::<u8>(rt.alloc(), given, 255, Neighbours::Four);
    assert!(&rt; filled.ok().expect(&rt, "memory").samples() == given.samples());
    let cleared = border_cleared::<u8>(rt.alloc(), given, Neighbours::Four);
    assert!(&rt;
        cleared
            .ok()
            .expect(&rt, "memory")
            .samples()
            .iter()
            .all(|s| *s == 0)
    );
    let minima = regional_minima::<u8>(rt.alloc(), given, 255, Neighbours::Four);
    let minima = minima.ok().expect(&rt, "memory");
    assert!(&rt; has(&minima, 0, 1) && has(&minima, 4094, 4093) && !has(&minima, 4095, 4095 - 2));
}

#[test]
fn areas_of_a_winding(rt: HostRuntime) {
    let given = drawn(&rt, rt.alloc(), Drawing::Winding, Depth::Two, 200);
    let given = words_of(&rt, &given);
    assert!(&rt; given.width() == SIDE && given.height() == SIDE);
    let kept = area_opening::<u16>(rt.alloc(), given, Neighbours::Four, WINDING);
    assert!(&rt; kept.ok().expect(&rt, "memory").samples() == given.samples());
    let gone = area_opening::<u16>(rt.alloc(), given, Neighbours::Four, WINDING + 1);
    assert!(&rt;
        gone.ok()
            .expect(&rt, "memory")
            .samples()
            .iter()
            .all(|s| *s == 0)
    );
}

#[test]
fn distances_in_a_board(rt: HostRuntime) {
    let board = striped(&rt, rt.alloc(), 0b01010101, 0b10101010);
    let all = striped(&rt, rt.alloc(), 0xff, 0xff);
    for metric in [Metric::CityBlock, Metric::Chessboard, Metric::SquaredEuclid] {
        let near = distances_of(rt.alloc(), pixels_of(&rt, &board), metric, 9);
        assert!(&rt; near.ok().expect(&rt, "memory").iter().all(|d| *d < 2));
        let far = distances_of(rt.alloc(), pixels_of(&rt, &all), metric, 9);
        assert!(&rt; far.ok().expect(&rt, "memory").iter().all(|d| *d == 9));
    }
}
