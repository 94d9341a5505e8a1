//! Pictures as large as there may be, and what is made of them by squares of 255 x 255 pixels, as a person can reckon it.

use crate::given::{Call, Figure, Job, Sort, Way, first_call, with_element, with_job};
use crate::made::even;
use mw_pixel::Pixel;
use std::alloc::Global;
use std::process::Abort;

/// The pixels of each picture.
pub(crate) const COUNT: usize = 16777216;

/// A sort of images with its maxval, the level of what stands in a picture, and that of what is made of it.
pub(crate) type Levels = (Sort, u16, u16, u16);

pub(crate) const BYTES: Levels = (Sort::Bytes, 200, 200, 200);

pub(crate) const WORDS: Levels = (Sort::Words, 60000, 60000, 60000);

pub(crate) const PIXELS: Levels = (Sort::Pixels, 1, 9, 1);

/// A picture of one point, what shows of a square around it, some rows, and how much of the square these show.
#[derive(Clone, Copy)]
pub(crate) struct Scene {
    pub(crate) sides: (u32, u32),
    pub(crate) point: (u32, u32),
    pub(crate) corners: [(u32, u32); 4],
    pub(crate) outside: [(u32, u32); 4],
    pub(crate) count: u64,
    pub(crate) rows: (u32, u32),
    pub(crate) count_of_rows: u64,
}

/// A point from which the square is seen whole. The origin of the square stands in column 100 of row 30, so a point is seen
/// from up to 154 columns at its left and 100 at its right, 224 rows above and 30 below.
pub(crate) const INNER: Scene = Scene {
    sides: (4096, 4096),
    point: (2000, 1000),
    corners: [(1846, 776), (2100, 776), (1846, 1030), (2100, 1030)],
    outside: [(1845, 1000), (2101, 1000), (2000, 775), (2000, 1031)],
    count: 65025,
    rows: (900, 1100),
    count_of_rows: 33405,
};

/// A point in the last corner.
pub(crate) const CORNER: Scene = Scene {
    sides: (8192, 2048),
    point: (8191, 2047),
    corners: [(8037, 1823), (8191, 1823), (8037, 2047), (8191, 2047)],
    outside: [(8036, 2047), (8191, 1822), (8036, 1822), (0, 0)],
    count: 34875,
    rows: (2000, 2048),
    count_of_rows: 7440,
};

/// What shows of a point.
#[derive(Clone, Copy)]
pub(crate) enum Shown {
    Nothing,
    Point,
    Square,
}

/// Operators, and what they show of a point. Ranks take longer, and stand apart.
pub(crate) const OF_POINT: [(Job, Scene, Shown); 7] = [
    ((0, 0), INNER, Shown::Nothing),
    ((1, 0), CORNER, Shown::Square),
    ((2, 0), CORNER, Shown::Nothing),
    ((3, 0), INNER, Shown::Point),
    ((4, 0), INNER, Shown::Square),
    ((5, 0), CORNER, Shown::Point),
    ((6, 0), INNER, Shown::Nothing),
];

/// The rank that is the greatest sample.
pub(crate) const LAST_RANK: Job = (7, 65025);

/// Operators of one step that show all of the square.
pub(crate) const OF_ROWS: [(Job, Scene); 4] = [
    ((1, 0), INNER),
    ((4, 0), CORNER),
    (LAST_RANK, INNER),
    (LAST_RANK, CORNER),
];

pub(crate) const SIDES: [(u32, u32); 2] = [(4096, 4096), (8192, 2048)];

/// Operators, sides, and whether the operator leaves a picture of one level as it is; else nothing is left.
pub(crate) const OF_LEVEL: [(Job, (u32, u32), bool); 7] = [
    ((0, 0), (8192, 2048), true),
    ((1, 0), (4096, 4096), true),
    ((2, 0), (4096, 4096), true),
    ((3, 0), (8192, 2048), true),
    ((4, 0), (8192, 2048), false),
    ((5, 0), (4096, 4096), false),
    ((6, 0), (8192, 2048), false),
];

/// Frames of several strips. In the first two the last word of a row of a set is not full.
pub(crate) const STRIPS: [(u32, u32); 3] = [(8190, 264), (201, 8192), (96, 5632)];

/// The pixels of a full square.
pub(crate) fn ones(rt: &impl Abort, alloc: Global) -> Vec<u8> {
    even(rt, alloc, 65025, 1)
}

/// The square without each third column, with its origin: no other element has so many runs.
pub(crate) fn comb(rt: &impl Abort, alloc: Global) -> Vec<u8> {
    let mut pixels = ones(rt, alloc);
    for y in 0..255u32 {
        for x in 0..85u32 {
            let column = x.saturating_mul(3).saturating_add(2);
            put(pixels.as_mut_slice(), place(255, column, y), 0u8);
        }
    }
    pixels
}

/// The full square of these pixels, from column 100 of row 30.
pub(crate) fn square(pixels: &[u8]) -> Figure<'_> {
    (pixels, (255, 255), (100, 30))
}

/// A call on a picture of these sides by the full square of these pixels.
pub(crate) fn large_call<'a>(
    way: Way,
    job: Job,
    sides: (u32, u32),
    levels: Levels,
    pixels: &'a [u8],
) -> Call<'a> {
    let (sort, maxval, _, _) = levels;
    let call = first_call(way, sort, sides, maxval);
    with_element(with_job(call, job), square(pixels))
}

/// The sample of a level.
pub(crate) fn sample<P: Pixel>(rt: &impl Abort, level: u16) -> P {
    P::of(level).expect(rt, "a level of the type")
}

fn place(width: u32, x: u32, y: u32) -> usize {
    y as usize * width as usize + x as usize
}

fn put<P: Pixel>(samples: &mut [P], at: usize, sample: P) {
    if at < samples.len() {
        samples[at] = sample;
    }
}

/// A picture of one level.
pub(crate) fn one_level<P: Pixel>(rt: &impl Abort, alloc: Global, level: u16) -> Vec<P> {
    even(rt, alloc, COUNT, sample(rt, level))
}

/// The picture of one point.
pub(crate) fn dotted<P: Pixel>(rt: &impl Abort, alloc: Global, scene: Scene, level: u16) -> Vec<P> {
    let dot = sample(rt, level);
    let mut samples = one_level(rt, alloc, 0);
    let (width, _) = scene.sides;
    let (x, y) = scene.point;
    put(samples.as_mut_slice(), place(width, x, y), dot);
    samples
}

/// Whether this level stands in each of these places.
fn stands_at<P: Pixel>(samples: &[P], width: u32, places: &[(u32, u32)], level: u16) -> bool {
    for (x, y) in places {
        let at = place(width, *x, *y);
        if at >= samples.len() || samples[at].value() != level {
            return false;
        }
    }
    true
}

/// How many samples have the level; nothing where one has another and is not 0.
pub(crate) fn count_of<P: Pixel>(samples: &[P], level: u16) -> Option<u64> {
    let mut count = 0u64;
    for s in samples {
        if s.value() == level {
            count = count.saturating_add(1);
        } else if s.value() != 0 {
            return None;
        }
    }
    Some(count)
}

/// Whether samples show the square around the point.
fn shows_square_of<P: Pixel>(samples: &[P], scene: Scene, level: u16) -> bool {
    let (width, _) = scene.sides;
    count_of(samples, level) == Some(scene.count)
        && stands_at(samples, width, &scene.corners, level)
        && stands_at(samples, width, &scene.outside, 0)
}

/// Whether samples show this of a point of this level.
pub(crate) fn shows<P: Pixel>(samples: &[P], scene: Scene, shown: Shown, level: u16) -> bool {
    let (width, _) = scene.sides;
    match shown {
        Shown::Nothing => count_of(samples, level) == Some(0),
        Shown::Point => {
            count_of(samples, level) == Some(1) && stands_at(samples, width, &[scene.point], level)
        }
        Shown::Square => shows_square_of(samples, scene, level),
    }
}

/// Whether all samples have this level.
pub(crate) fn is_even<P: Pixel>(samples: &[P], level: u16) -> bool {
    count_of(samples, level) == Some(samples.len() as u64)
}

fn put_run<P: Pixel>(samples: &mut [P], first: usize, count: usize, sample: P) {
    let end = first.saturating_add(count);
    for at in first..end {
        put(samples, at, sample);
    }
}

/// The picture whose right part, from column 2048 on, has a level.
pub(crate) fn halved<P: Pixel>(
    rt: &impl Abort,
    alloc: Global,
    sides: (u32, u32),
    level: u16,
) -> Vec<P> {
    let (width, height) = sides;
    let dark = sample(rt, 0);
    let mut samples = one_level(rt, alloc, level);
    for y in 0..height {
        put_run(samples.as_mut_slice(), place(width, 0, y), 2048, dark);
    }
    samples
}

/// The square without its first column, which the origin stands in: it hits what stands at the right of a place.
pub(crate) fn hit_pixels(rt: &impl Abort, alloc: Global) -> Vec<u8> {
    let mut pixels = ones(rt, alloc);
    for y in 0..255u32 {
        put(pixels.as_mut_slice(), place(255, 0, y), 0u8);
    }
    pixels
}

pub(crate) fn hit(pixels: &[u8]) -> Figure<'_> {
    (pixels, (255, 255), (0, 30))
}

/// The full square that has its origin in the last column: it misses what stands at the left of a place, and there.
pub(crate) fn miss(pixels: &[u8]) -> Figure<'_> {
    (pixels, (255, 255), (254, 30))
}

/// Whether column 2047 alone is left: it has the left part at its left, and the right part at its right.
pub(crate) fn shows_edge<P: Pixel>(samples: &[P], sides: (u32, u32), level: u16) -> bool {
    let (width, height) = sides;
    let places = [(2047, 0), (2047, 1000), (2047, height.saturating_sub(1))];
    count_of(samples, level) == Some(u64::from(height)) && stands_at(samples, width, &places, level)
}

/// The picture of the square from column 1000 and row 500 on. The square fits into it from one place alone.
pub(crate) fn squared<P: Pixel>(rt: &impl Abort, alloc: Global, width: u32, level: u16) -> Vec<P> {
    let light = sample(rt, level);
    let mut samples = one_level(rt, alloc, 0);
    for y in 500..755u32 {
        put_run(samples.as_mut_slice(), place(width, 1000, y), 255, light);
    }
    samples
}

/// The mark of that place: one erosion leaves it.
pub(crate) fn marked<P: Pixel>(rt: &impl Abort, alloc: Global, width: u32) -> Vec<P> {
    let mark = sample(rt, 2);
    let mut samples = one_level(rt, alloc, 0);
    put(samples.as_mut_slice(), place(width, 1100, 530), mark);
    samples
}

/// Whether samples show that mark alone.
pub(crate) fn shows_mark(samples: &[u8], width: u32) -> bool {
    count_of(samples, 2) == Some(1) && stands_at(samples, width, &[(1100, 530)], 2)
}

/// Whether samples show that square alone.
pub(crate) fn shows_square(samples: &[u8], width: u32) -> bool {
    let corners = [(1000, 500), (1254, 500), (1000, 754), (1254, 754)];
    count_of(samples, 1) == Some(65025) && stands_at(samples, width, &corners, 1)
}
