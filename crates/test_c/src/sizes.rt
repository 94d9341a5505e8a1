//! Calls at full size on levels of one byte and on sets.

use crate::given::{Sort, Way};
use crate::large::{
    edges_are_hit, level_is_left, level_is_left_by_a_comb, levels_are_left,
    levels_are_left_in_strips, nothing_is_restored, point_is_shown, points_are_shown,
    rows_of_points_are_shown, squares_are_restored, thresholds_are, volumes_of_level_are,
    volumes_of_square_are,
};
use crate::made::{expect, set_made};
use crate::scenes::{
    BYTES, CORNER, COUNT, INNER, LAST_RANK, PIXELS, SIDES, Shown, large_call, ones, shows_mark,
    squared,
};
use std::alloc::Global;
use std::process::Abort;

#[test]
fn points_in_bytes(rt: HostRuntime) {
    points_are_shown::<u8>(&rt, rt.alloc(), BYTES);
}

#[test]
fn points_in_sets(rt: HostRuntime) {
    points_are_shown::<u8>(&rt, rt.alloc(), PIXELS);
}

#[test]
fn ranks_of_points(rt: HostRuntime) {
    let alloc = rt.alloc();
    point_is_shown::<u8>(&rt, alloc, LAST_RANK, CORNER, Shown::Square, BYTES);
    point_is_shown::<u8>(&rt, alloc, LAST_RANK, INNER, Shown::Square, PIXELS);
}

#[test]
fn rows_of_points_in_bytes(rt: HostRuntime) {
    rows_of_points_are_shown::<u8>(&rt, rt.alloc(), BYTES);
}

#[test]
fn rows_of_points_in_sets(rt: HostRuntime) {
    rows_of_points_are_shown::<u8>(&rt, rt.alloc(), PIXELS);
}

#[test]
fn one_level_in_bytes(rt: HostRuntime) {
    levels_are_left::<u8>(&rt, rt.alloc(), BYTES);
}

#[test]
fn one_level_in_sets(rt: HostRuntime) {
    levels_are_left::<u8>(&rt, rt.alloc(), PIXELS);
}

#[test]
fn strips_of_one_level_in_bytes(rt: HostRuntime) {
    levels_are_left_in_strips::<u8>(&rt, rt.alloc(), BYTES);
}

#[test]
fn strips_of_one_level_in_sets(rt: HostRuntime) {
    levels_are_left_in_strips::<u8>(&rt, rt.alloc(), PIXELS);
}

#[test]
fn one_level_by_a_comb(rt: HostRuntime) {
    level_is_left_by_a_comb::<u8>(&rt, rt.alloc(), BYTES);
    level_is_left_by_a_comb::<u8>(&rt, rt.alloc(), PIXELS);
}

#[test]
fn a_rank_of_one_level(rt: HostRuntime) {
    let alloc = rt.alloc();
    level_is_left::<u8>(&rt, alloc, (7, 300), (4096, 4096), true, BYTES);
    level_is_left::<u8>(&rt, alloc, (7, 300), (8192, 2048), true, PIXELS);
}

#[test]
fn thresholds(rt: HostRuntime) {
    let counts = [(0, 16777216), (200, 1), (201, 0)];
    thresholds_are::<u8>(&rt, rt.alloc(), BYTES, &counts);
}

#[test]
fn hits_and_misses_in_bytes(rt: HostRuntime) {
    edges_are_hit::<u8>(&rt, rt.alloc(), BYTES);
}

#[test]
fn hits_and_misses_in_sets(rt: HostRuntime) {
    edges_are_hit::<u8>(&rt, rt.alloc(), PIXELS);
}

/// The skeleton of the square by itself is a mark.
fn skeleton_is_mark(rt: &impl Abort, alloc: Global, sides: (u32, u32)) {
    let (width, _) = sides;
    let (pixels, f) = (ones(rt, alloc), squared::<u8>(rt, alloc, width, 9));
    let call = large_call(Way::Skeleton, (0, 2), sides, PIXELS, &pixels);
    let out = set_made(rt, alloc, call, &f, COUNT);
    expect(rt, call, 0, shows_mark(&out, width));
}

#[test]
fn skeletons(rt: HostRuntime) {
    for sides in SIDES {
        skeleton_is_mark(&rt, rt.alloc(), sides);
    }
}

#[test]
fn restorations(rt: HostRuntime) {
    squares_are_restored::<u8>(&rt, rt.alloc(), (Sort::Bytes, 3, 0, 0));
    nothing_is_restored::<u8>(&rt, rt.alloc(), (Sort::Bytes, 255, 0, 0));
}

#[test]
fn spectra(rt: HostRuntime) {
    let alloc = rt.alloc();
    volumes_of_square_are::<u8>(&rt, alloc, BYTES, 13005000);
    volumes_of_square_are::<u8>(&rt, alloc, PIXELS, 65025);
    volumes_of_level_are::<u8>(&rt, alloc, BYTES, 3355443200);
    volumes_of_level_are::<u8>(&rt, alloc, PIXELS, 16777216);
}
