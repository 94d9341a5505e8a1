//! Calls at full size on levels of two bytes.

use crate::given::Sort;
use crate::large::{
    edges_are_hit, level_is_left_by_a_comb, levels_are_left, levels_are_left_in_strips,
    nothing_is_restored, point_is_shown, points_are_shown, rows_of_points_are_shown,
    squares_are_restored, thresholds_are, volumes_of_level_are, volumes_of_square_are,
};
use crate::scenes::{CORNER, LAST_RANK, Shown, WORDS};

#[test]
fn points(rt: HostRuntime) {
    points_are_shown::<u16>(&rt, rt.alloc(), WORDS);
}

#[test]
fn a_rank_of_a_point(rt: HostRuntime) {
    point_is_shown::<u16>(&rt, rt.alloc(), LAST_RANK, CORNER, Shown::Square, WORDS);
}

#[test]
fn rows_of_points(rt: HostRuntime) {
    rows_of_points_are_shown::<u16>(&rt, rt.alloc(), WORDS);
}

#[test]
fn one_level(rt: HostRuntime) {
    levels_are_left::<u16>(&rt, rt.alloc(), WORDS);
}

#[test]
fn strips_of_one_level(rt: HostRuntime) {
    levels_are_left_in_strips::<u16>(&rt, rt.alloc(), WORDS);
}

#[test]
fn one_level_by_a_comb(rt: HostRuntime) {
    level_is_left_by_a_comb::<u16>(&rt, rt.alloc(), WORDS);
}

#[test]
fn thresholds(rt: HostRuntime) {
    let counts = [(0, 16777216), (1, 1), (60000, 1), (60001, 0)];
    thresholds_are::<u16>(&rt, rt.alloc(), WORDS, &counts);
}

#[test]
fn hits_and_misses(rt: HostRuntime) {
    edges_are_hit::<u16>(&rt, rt.alloc(), WORDS);
}

#[test]
fn restorations(rt: HostRuntime) {
    squares_are_restored::<u16>(&rt, rt.alloc(), (Sort::Words, 300, 0, 0));
    nothing_is_restored::<u16>(&rt, rt.alloc(), (Sort::Words, 300, 0, 0));
}

#[test]
fn spectra(rt: HostRuntime) {
    volumes_of_square_are::<u16>(&rt, rt.alloc(), WORDS, 3901500000);
    volumes_of_level_are::<u16>(&rt, rt.alloc(), WORDS, 1006632960000);
}
