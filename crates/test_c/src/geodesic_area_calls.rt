//! What C calls for area openings and closings: worked rows by the kernel and by the plain program, and refusals.

use mw_c_geodesic_levels::{area_u8, area_u16};

/// The neighbours to the left and to the right, which have no kernel, and those that share a side.
const SIDES: [u8; 9] = [0, 0, 0, 1, 0, 1, 0, 0, 0];

const CROSS: [u8; 9] = [0, 1, 0, 1, 1, 1, 0, 1, 0];

#[test]
fn peaks_and_pits_of_a_row(rt: HostRuntime) {
    let alloc = rt.alloc();
    let mut made = [99u8; 5];
    for around in [&SIDES, &CROSS] {
        let peaks = [2u8, 9, 4, 4, 3];
        let answer = area_u8(alloc, 0, 2, 5, 1, 9, &peaks, around, 3, 3, 1, 1, &mut made);
        assert!(&rt; answer == 0);
        assert_eq!(&rt; made.as_slice(), [2, 4, 4, 4, 3].as_slice());
        let pits = [7u8, 0, 5, 5, 6];
        let answer = area_u8(alloc, 1, 2, 5, 1, 9, &pits, around, 3, 3, 1, 1, &mut made);
        assert!(&rt; answer == 0);
        assert_eq!(&rt; made.as_slice(), [7, 5, 5, 5, 6].as_slice());
    }
}

#[test]
fn a_row_of_levels_of_two_bytes(rt: HostRuntime) {
    let alloc = rt.alloc();
    let mut made = [99u16; 5];
    let levels = [200u16, 900, 400, 400, 300];
    for around in [&SIDES, &CROSS] {
        let answer = area_u16(
            alloc, 0, 4, 5, 1, 1000, &levels, around, 3, 3, 1, 1, &mut made,
        );
        assert!(&rt; answer == 0);
        assert_eq!(&rt; made.as_slice(), [200, 300, 300, 300, 300].as_slice());
        let answer = area_u16(
            alloc, 1, 6, 5, 1, 1000, &levels, around, 3, 3, 1, 1, &mut made,
        );
        assert!(&rt; answer == 0 && made.iter().all(|level| *level == 1000));
    }
}

#[test]
fn refusals_of_area_operators(rt: HostRuntime) {
    let alloc = rt.alloc();
    let mut made = [99u8; 3];
    let levels = [4u8, 7, 2];
    let kind = area_u8(alloc, 2, 1, 3, 1, 9, &levels, &CROSS, 3, 3, 1, 1, &mut made);
    let least = area_u8(alloc, 0, 0, 3, 1, 9, &levels, &CROSS, 3, 3, 1, 1, &mut made);
    let sample = area_u8(alloc, 1, 1, 3, 1, 6, &levels, &CROSS, 3, 3, 1, 1, &mut made);
    let one_way = area_u8(
        alloc,
        0,
        1,
        3,
        1,
        9,
        &levels,
        &SIDES[3..5],
        2,
        1,
        1,
        0,
        &mut made,
    );
    assert!(&rt; kind == 47 && least == 47 && sample == 25 && one_way == 55);
    assert!(&rt; made.iter().all(|level| *level == 99));
}
