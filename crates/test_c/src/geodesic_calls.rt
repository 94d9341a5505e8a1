//! What C calls for grains: worked rows, the numbers of refusals that leave arrays as they were, and full size.

use mw_c_geodesic::{
    area_set, clear_border_set, components_set, distance_set, fill_set, label_set, reconstruct_set,
    reconstruct_u8, regions_set,
};
use mw_c_geodesic_levels::{extrema_h_u8, extrema_regional_u8};
use mw_pixel::copies;
use std::alloc::Global;
use std::process::Abort;

/// The neighbours to the left and to the right, in a bitmap of three columns with its origin in the middle.
const SIDES: [u8; 3] = [1, 0, 1];

/// The square of 3 x 3, with its origin in the middle.
const SQUARE: [u8; 9] = [1; 9];

/// The middle of it and the pixels beside, above and below that.
const CROSS: [u8; 9] = [0, 1, 0, 1, 1, 1, 0, 1, 0];

/// What stands in an array before a call.
const UNTOUCHED: u32 = 165;

/// `label_set` of a row of five pixels, by a bitmap of three columns.
fn label_row(alloc: Global, set: &[u8], sides: &[u8], labels: &mut [u32], count: &mut u32) -> i32 {
    label_set(alloc, 5, 1, set, sides, 3, 1, 1, 0, labels, count)
}

/// `regions_set` of a row of five pixels, by the neighbours to both sides.
fn tell_row(alloc: Global, set: &[u8], told: &mut [u32], count: &mut u32) -> i32 {
    regions_set(alloc, 5, 1, set, &SIDES, 3, 1, 1, 0, told, count)
}

#[test]
fn labels_and_regions_of_a_row(rt: HostRuntime) {
    let (mut labels, mut count) = ([UNTOUCHED; 5], UNTOUCHED);
    let set = [7u8, 0, 1, 255, 0];
    let answer = label_row(rt.alloc(), &set, &SIDES, &mut labels, &mut count);
    assert!(&rt; answer == 0 && count == 2);
    assert_eq!(&rt; labels.as_slice(), [1, 0, 2, 2, 0].as_slice());
    let (mut told, mut count) = ([UNTOUCHED; 15], UNTOUCHED);
    let answer = tell_row(rt.alloc(), &set, &mut told, &mut count);
    assert!(&rt; answer == 0 && count == 2);
    let wanted = [0, 0, 1, 0, 0, 0, 0, 2, 0, 2, 2, 0, 3, 0, UNTOUCHED];
    assert_eq!(&rt; told.as_slice(), wanted.as_slice());
}

/// `reconstruct_set` of a row of seven pixels, by dilation and the neighbours to both sides.
fn rebuild_row(alloc: Global, marker: &[u8], set: &[u8], made: &mut [u8]) -> i32 {
    reconstruct_set(alloc, 0, 7, 1, marker, 7, 1, set, &SIDES, 3, 1, 1, 0, made)
}

#[test]
fn both_of_a_row(rt: HostRuntime) {
    let set = [7u8, 0, 1, 255, 0];
    let (mut labels, mut told, mut count) = ([UNTOUCHED; 5], [UNTOUCHED; 15], UNTOUCHED);
    let answer = components_set(
        rt.alloc(),
        5,
        1,
        &set,
        &SIDES,
        3,
        1,
        1,
        0,
        &mut labels,
        &mut told[..13],
        &mut count,
    );
    assert!(&rt; answer == 11 && count == 2 && labels.iter().all(|label| *label == UNTOUCHED));
    assert!(&rt; told.iter().all(|number| *number == UNTOUCHED));
    let answer = components_set(
        rt.alloc(),
        5,
        1,
        &set,
        &SIDES,
        3,
        1,
        1,
        0,
        &mut labels,
        &mut told,
        &mut count,
    );
    assert!(&rt; answer == 0 && count == 2);
    assert_eq!(&rt; labels.as_slice(), [1, 0, 2, 2, 0].as_slice());
    let wanted = [0, 0, 1, 0, 0, 0, 0, 2, 0, 2, 2, 0, 3, 0, UNTOUCHED];
    assert_eq!(&rt; told.as_slice(), wanted.as_slice());
}

#[test]
fn sets_of_a_row(rt: HostRuntime) {
    let mut made = [9u8; 7];
    let set = [0u8, 1, 1, 0, 1, 0, 1];
    let answer = area_set(rt.alloc(), 2, 7, 1, &set, &SIDES, 3, 1, 1, 0, &mut made);
    assert!(&rt; answer == 0);
    assert_eq!(&rt; made.as_slice(), [0u8, 1, 1, 0, 0, 0, 0].as_slice());
    let answer = rebuild_row(rt.alloc(), &[0u8, 0, 1, 1, 0, 0, 0], &set, &mut made);
    assert!(&rt; answer == 0);
    assert_eq!(&rt; made.as_slice(), [0u8, 1, 1, 0, 0, 0, 0].as_slice());
}

#[test]
fn distances_of_a_row(rt: HostRuntime) {
    let mut far = [UNTOUCHED; 7];
    let answer = distance_set(rt.alloc(), 2, 9, 7, 1, &[0, 1, 1, 1, 1, 1, 0], &mut far);
    assert!(&rt; answer == 0);
    assert_eq!(&rt; far.as_slice(), [0, 1, 4, 9, 4, 1, 0].as_slice());
}

#[test]
fn holes_and_borders_of_a_ring(rt: HostRuntime) {
    let mut made = [9u8; 25];
    let ring = [
        0u8, 0, 0, 0, 0, 0, 1, 1, 1, 0, 0, 1, 0, 1, 0, 0, 1, 1, 1, 0, 0, 0, 0, 0, 1,
    ];
    let answer = fill_set(rt.alloc(), 5, 5, &ring, &SQUARE, 3, 3, 1, 1, &mut made);
    assert!(&rt; answer == 0 && made[12] == 1 && made[0] == 0 && made[24] == 1);
    let answer = clear_border_set(rt.alloc(), 5, 5, &ring, &SQUARE, 3, 3, 1, 1, &mut made);
    assert!(&rt; answer == 0 && made.iter().all(|pixel| *pixel == 0));
}

/// What `reconstruct_u8` is given beside levels: the method, the sides and the maxval of the marker, and the length of the mask, a row.
#[derive(Clone, Copy)]
struct Given {
    method: u32,
    width: u32,
    height: u32,
    maxval: u8,
    long: u32,
}

/// `reconstruct_u8` by the neighbours to both sides, with a mask of maxval 9.
fn rebuild(alloc: Global, given: Given, marker: &[u8], mask: &[u8], made: &mut [u8]) -> i32 {
    reconstruct_u8(
        alloc,
        given.method,
        given.width,
        given.height,
        given.maxval,
        marker,
        given.long,
        1,
        9,
        mask,
        &SIDES,
        3,
        1,
        1,
        0,
        made,
    )
}

/// A marker that is as long as the mask.
const ALIKE: Given = Given {
    method: 0,
    width: 5,
    height: 1,
    maxval: 9,
    long: 5,
};

/// A marker of two rows, and a mask of one.
const IN_TWO_ROWS: Given = Given {
    method: 0,
    width: 2,
    height: 2,
    maxval: 9,
    long: 4,
};

#[test]
fn levels_of_a_row(rt: HostRuntime) {
    let mut made = [99u8; 5];
    let (marker, mask) = ([0u8, 0, 7, 0, 0], [3u8, 4, 6, 2, 5]);
    let answer = rebuild(rt.alloc(), ALIKE, &marker, &mask, &mut made);
    assert!(&rt; answer == 0);
    assert_eq!(&rt; made.as_slice(), [3, 4, 6, 2, 2].as_slice());
}

#[test]
fn extrema_of_a_row(rt: HostRuntime) {
    let mut made = [99u8; 5];
    let image = [0u8, 2, 0, 5, 1];
    let answer = extrema_h_u8(
        rt.alloc(),
        0,
        2,
        5,
        1,
        9,
        &image,
        &SQUARE,
        3,
        3,
        1,
        1,
        &mut made,
    );
    assert!(&rt; answer == 0);
    assert_eq!(&rt; made.as_slice(), [0, 0, 0, 3, 1].as_slice());
    let answer = extrema_regional_u8(
        rt.alloc(),
        1,
        5,
        1,
        9,
        &image,
        &SQUARE,
        3,
        3,
        1,
        1,
        &mut made,
    );
    assert!(&rt; answer == 0);
    assert_eq!(&rt; made.as_slice(), [1, 0, 1, 0, 1].as_slice());
}

#[test]
fn refusals_leave_arrays(rt: HostRuntime) {
    let alloc = rt.alloc();
    let (mut labels, mut count) = ([UNTOUCHED; 5], UNTOUCHED);
    let set = [1u8, 0, 1, 1, 0];
    let one_way = label_row(alloc, &set, &[0, 1, 1], &mut labels, &mut count);
    let empty = label_row(alloc, &set, &[0, 0, 0], &mut labels, &mut count);
    let short = label_row(alloc, &set, &SIDES, &mut labels[..4], &mut count);
    let metric = distance_set(alloc, 3, 9, 5, 1, &set, &mut labels);
    let top = distance_set(alloc, 0, 0, 5, 1, &set, &mut labels);
    assert!(&rt; one_way == 55 && empty == 32 && short == 11 && metric == 47 && top == 47);
    assert!(&rt; count == UNTOUCHED && labels.iter().all(|label| *label == UNTOUCHED));
    let none = tell_row(alloc, &set, &mut labels, &mut count);
    assert!(&rt; none == 11 && count == 2 && labels.iter().all(|label| *label == UNTOUCHED));
}

#[test]
fn refusals_of_pairs(rt: HostRuntime) {
    let alloc = rt.alloc();
    let mut made = [99u8; 4];
    let levels = [0u8, 1, 2, 3];
    let lower = Given {
        method: 1,
        width: 4,
        height: 1,
        maxval: 8,
        long: 4,
    };
    let unknown = Given {
        method: 2,
        ..IN_TWO_ROWS
    };
    let frame = rebuild(alloc, IN_TWO_ROWS, &levels, &levels, &mut made);
    let maxvals = rebuild(alloc, lower, &levels, &levels, &mut made);
    let method = rebuild(alloc, unknown, &levels, &levels, &mut made);
    assert!(&rt; frame == 53 && maxvals == 54 && method == 47);
    assert!(&rt; made.iter().all(|level| *level == 99));
}

/// A set of 4096 x 4096 bytes, of which every other one is in it, as on a board.
fn board(rt: &impl Abort, alloc: Global) -> Vec<u8> {
    let mut bytes = Vec::new(alloc);
    for y in 0..4096u32 {
        for x in 0..4096u32 {
            bytes.push(((x + y) % 2) as u8).ok().expect(rt, "memory");
        }
    }
    bytes
}

/// Room for the labels of such a set.
fn blank(rt: &impl Abort, alloc: Global) -> Vec<u32> {
    let mut labels = Vec::new(alloc);
    for _ in 0..16_777_216u32 {
        labels.push(0u32).ok().expect(rt, "memory");
    }
    labels
}

/// `label_set` of the board, by a bitmap of nine pixels.
fn label_board(
    alloc: Global,
    set: &[u8],
    cross: &[u8],
    labels: &mut [u32],
    count: &mut u32,
) -> i32 {
    label_set(alloc, 4096, 4096, set, cross, 3, 3, 1, 1, labels, count)
}

#[test]
fn labels_of_a_board_as_c_has_it(rt: HostRuntime) {
    let set = board(&rt, rt.alloc());
    let mut count = UNTOUCHED;
    let mut labels = blank(&rt, rt.alloc());
    let answer = label_board(rt.alloc(), &set, &CROSS, &mut labels, &mut count);
    assert!(&rt; answer == 0 && count == 8_388_608);
}

#[test]
fn a_board_as_c_has_it(rt: HostRuntime) {
    let alloc = rt.alloc();
    let set = board(&rt, alloc);
    let mut kept = copies(alloc, set.len(), 9u8).ok().expect(&rt, "memory");
    let answer = area_set(alloc, 2, 4096, 4096, &set, &CROSS, 3, 3, 1, 1, &mut kept);
    assert!(&rt; answer == 0 && kept.iter().all(|pixel| *pixel == 0));
    let answer = fill_set(alloc, 4096, 4096, &set, &SQUARE, 3, 3, 1, 1, &mut kept);
    assert!(&rt; answer == 0 && kept.as_slice() == set.as_slice());
}
