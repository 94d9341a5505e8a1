//! What is made of pictures at full size, of each type of samples. Each stops where something else is made.

use crate::called::Called;
use crate::given::{Call, Job, Way, with_elements, with_job};
use crate::made::{even, expect, image_made, set_made, volumes_are};
use crate::scenes::{
    CORNER, COUNT, INNER, Levels, OF_LEVEL, OF_POINT, OF_ROWS, SIDES, STRIPS, Scene, Shown, comb,
    count_of, dotted, halved, hit, hit_pixels, is_even, large_call, marked, miss, one_level, ones,
    sample, shows, shows_edge, shows_square, squared,
};
use std::alloc::Global;
use std::process::Abort;

/// One operator shows this of a point.
pub(crate) fn point_is_shown<P: Called>(
    rt: &impl Abort,
    alloc: Global,
    job: Job,
    scene: Scene,
    shown: Shown,
    levels: Levels,
) {
    let (_, _, level, wanted) = levels;
    let (pixels, f) = (ones(rt, alloc), dotted::<P>(rt, alloc, scene, level));
    let call = large_call(Way::Flat, job, scene.sides, levels, &pixels);
    let out = image_made(rt, alloc, call, &f, COUNT);
    expect(rt, call, 0, shows(&out, scene, shown, wanted));
}

pub(crate) fn points_are_shown<P: Called>(rt: &impl Abort, alloc: Global, levels: Levels) {
    for (job, scene, shown) in OF_POINT {
        point_is_shown::<P>(rt, alloc, job, scene, shown, levels);
    }
}

/// The samples of some rows that are made, counted.
fn rows_have<P: Called>(
    rt: &impl Abort,
    alloc: Global,
    call: Call<'_>,
    f: &[P],
    end: u32,
    level: u16,
) -> Option<u64> {
    let count = end.saturating_sub(call.first) as usize * call.width as usize;
    count_of(&image_made(rt, alloc, call, f, count), level)
}

fn rows_are_shown<P: Called>(
    rt: &impl Abort,
    alloc: Global,
    job: Job,
    scene: Scene,
    levels: Levels,
) {
    let (_, _, level, wanted) = levels;
    let (pixels, f) = (ones(rt, alloc), dotted::<P>(rt, alloc, scene, level));
    let mut call = large_call(Way::Rows, job, scene.sides, levels, &pixels);
    let (first, end) = scene.rows;
    call.first = first;
    let count = rows_have(rt, alloc, call, &f, end, wanted);
    expect(rt, call, 0, count == Some(scene.count_of_rows));
}

/// Operators of one step show the square around a point in some rows.
pub(crate) fn rows_of_points_are_shown<P: Called>(rt: &impl Abort, alloc: Global, levels: Levels) {
    for (job, scene) in OF_ROWS {
        rows_are_shown::<P>(rt, alloc, job, scene, levels);
    }
}

/// One operator leaves a picture of one level, or else nothing of it.
pub(crate) fn level_is_left<P: Called>(
    rt: &impl Abort,
    alloc: Global,
    job: Job,
    sides: (u32, u32),
    is_left: bool,
    levels: Levels,
) {
    let (_, _, level, wanted) = levels;
    let (pixels, f) = (ones(rt, alloc), one_level::<P>(rt, alloc, level));
    let call = large_call(Way::Flat, job, sides, levels, &pixels);
    let out = image_made(rt, alloc, call, &f, COUNT);
    expect(rt, call, 0, is_even(&out, if is_left { wanted } else { 0 }));
}

pub(crate) fn levels_are_left<P: Called>(rt: &impl Abort, alloc: Global, levels: Levels) {
    for (job, sides, is_left) in OF_LEVEL {
        level_is_left::<P>(rt, alloc, job, sides, is_left, levels);
    }
}

/// One operator leaves a frame of several strips of one level, or else nothing of it.
fn strips_are_left<P: Called>(
    rt: &impl Abort,
    alloc: Global,
    job: Job,
    sides: (u32, u32),
    is_left: bool,
    levels: Levels,
) {
    let (_, _, level, wanted) = levels;
    let (width, height) = sides;
    let count = width as usize * height as usize;
    let (pixels, f) = (
        ones(rt, alloc),
        even(rt, alloc, count, sample::<P>(rt, level)),
    );
    let call = large_call(Way::Flat, job, sides, levels, &pixels);
    let out = image_made(rt, alloc, call, &f, count);
    expect(rt, call, 0, is_even(&out, if is_left { wanted } else { 0 }));
}

pub(crate) fn levels_are_left_in_strips<P: Called>(rt: &impl Abort, alloc: Global, levels: Levels) {
    for sides in STRIPS {
        for (job, _, is_left) in OF_LEVEL {
            strips_are_left::<P>(rt, alloc, job, sides, is_left, levels);
        }
    }
}

/// An opening by over 20,000 runs leaves a frame of one level.
pub(crate) fn level_is_left_by_a_comb<P: Called>(rt: &impl Abort, alloc: Global, levels: Levels) {
    let (_, _, level, wanted) = levels;
    let (pixels, f) = (
        comb(rt, alloc),
        even(rt, alloc, 90000, sample::<P>(rt, level)),
    );
    let call = large_call(Way::Flat, (2, 0), (300, 300), levels, &pixels);
    let out = image_made(rt, alloc, call, &f, 90000);
    expect(rt, call, 0, is_even(&out, wanted));
}

/// So many places have level `k` or more.
fn reach(rt: &impl Abort, alloc: Global, call: Call<'_>, f: &[impl Called], k: u32, count: u64) {
    let call = with_job(call, (0, k));
    let found = count_of(&set_made(rt, alloc, call, f, COUNT), 1);
    expect(rt, call, 0, found == Some(count));
}

/// Thresholds of a point at these levels have so many places.
pub(crate) fn thresholds_are<P: Called>(
    rt: &impl Abort,
    alloc: Global,
    levels: Levels,
    counts: &[(u32, u64)],
) {
    let (_, _, level, _) = levels;
    for scene in [INNER, CORNER] {
        let f = dotted::<P>(rt, alloc, scene, level);
        let call = large_call(Way::Threshold, (0, 0), scene.sides, levels, &[]);
        for (k, count) in counts {
            reach(rt, alloc, call, &f, *k, *count);
        }
    }
}

fn edge_is_hit<P: Called>(
    rt: &impl Abort,
    alloc: Global,
    call: Call<'_>,
    sides: (u32, u32),
    levels: Levels,
) {
    let (_, _, level, wanted) = levels;
    let f = halved::<P>(rt, alloc, sides, level);
    let out = image_made(rt, alloc, call, &f, COUNT);
    expect(rt, call, 0, shows_edge(&out, sides, wanted));
}

/// Of a picture in halves, two elements hit and miss the edge.
pub(crate) fn edges_are_hit<P: Called>(rt: &impl Abort, alloc: Global, levels: Levels) {
    let (full, pixels) = (ones(rt, alloc), hit_pixels(rt, alloc));
    for sides in SIDES {
        let call = large_call(Way::Hits, (0, 0), sides, levels, &full);
        let call = with_elements(call, hit(&pixels), miss(&full));
        edge_is_hit::<P>(rt, alloc, call, sides, levels);
    }
}

fn square_is_restored<P: Called>(rt: &impl Abort, alloc: Global, call: Call<'_>) {
    let f = marked::<P>(rt, alloc, call.width);
    let out = set_made(rt, alloc, call, &f, COUNT);
    expect(rt, call, 0, shows_square(&out, call.width));
}

/// The square is restored of its mark.
pub(crate) fn squares_are_restored<P: Called>(rt: &impl Abort, alloc: Global, levels: Levels) {
    let pixels = ones(rt, alloc);
    for sides in SIDES {
        let call = large_call(Way::Restoration, (0, 2), sides, levels, &pixels);
        square_is_restored::<P>(rt, alloc, call);
    }
}

/// Of no marks nothing is restored, by as many levels as there may be.
pub(crate) fn nothing_is_restored<P: Called>(rt: &impl Abort, alloc: Global, levels: Levels) {
    let (pixels, f) = (ones(rt, alloc), even(rt, alloc, 600, sample::<P>(rt, 0)));
    let call = large_call(Way::Restoration, (0, 254), (600, 1), levels, &pixels);
    let out = set_made(rt, alloc, call, &f, 600);
    expect(rt, call, 0, is_even(&out, 0));
}

/// Openings by the square leave the square, and those of the next size nothing.
pub(crate) fn volumes_of_square_are<P: Called>(
    rt: &impl Abort,
    alloc: Global,
    levels: Levels,
    volume: u64,
) {
    let (_, _, level, _) = levels;
    let (pixels, f) = (ones(rt, alloc), squared::<P>(rt, alloc, 4096, level));
    let call = large_call(Way::Spectrum, (0, 2), (4096, 4096), levels, &pixels);
    volumes_are(rt, alloc, call, &f, &[volume, volume, 0]);
}

/// They leave one level as it is.
pub(crate) fn volumes_of_level_are<P: Called>(
    rt: &impl Abort,
    alloc: Global,
    levels: Levels,
    volume: u64,
) {
    let (_, _, level, _) = levels;
    let (pixels, f) = (ones(rt, alloc), one_level::<P>(rt, alloc, level));
    let call = large_call(Way::Spectrum, (0, 2), (8192, 2048), levels, &pixels);
    volumes_are(rt, alloc, call, &f, &[volume; 3]);
}
