//! Kernels on whole pictures of 4096 x 4096 and 8192 x 2048 samples, as one tile. No contract can rule out that a call tells want of
//! memory from some size on; here it would fail a test. What is made of one level throughout is one level. Steps reach most
//! kernels, and those that none reaches are called by themselves.

use crate::given::{BAR, Even, Sides, filled, push, window, work};
use mw_bits::WordExtremum;
use mw_grid::whole_frame;
use mw_model::{Offset, OffsetBox};
use mw_pixel::{Bit, Extremum, Grey, Max, Min, Plane};
use mw_rank_bits::rank_by_words;
use mw_rank_medians::{Vectored, median_of_grey};
use mw_step::compute;
use mw_step_task::{Element, Step, TileResult};
use mw_tile::{Window, cut};
use std::alloc::Global;
use std::process::Abort;
use std::sync::Arc;

const SIDES: [Sides; 2] = [(4096, 4096), (8192, 2048)];

const SEVEN: OffsetBox = OffsetBox {
    x0: -7,
    x1: 7,
    y0: -7,
    y1: 7,
};

/// A square so far to the right that no place sees the frame.
const OUTSIDE: OffsetBox = OffsetBox {
    x0: 9000,
    x1: 9014,
    y0: 0,
    y1: 14,
};

const FULL: &[Even] = &[(1, 1)];

const BYTES: &[Even] = &[(255, 7)];

const WORDS: &[Even] = &[(65535, 700)];

/// A full set and one without pixels.
const FULL_AND_BLANK: &[Even] = &[(1, 1), (1, 0)];

/// Whether all samples of a whole picture are this one.
fn is_filled<P: Grey>(made: &Plane<P>, sample: P) -> bool {
    made.samples().len() == 16777216 && made.samples().iter().all(|s| *s == sample)
}

/// Whether all pixels of a whole picture, whose rows are whole words, are in the set, or none is.
fn is_set(made: &Plane<Bit>, is_full: bool) -> bool {
    let word = if is_full { u64::MAX } else { 0 };
    let words = made.words().words();
    words.len() == 262144 && words.iter().all(|w| *w == word)
}

fn is_level(made: &TileResult, level: u16) -> bool {
    match made {
        TileResult::Bits(plane) => is_set(plane, level == 1),
        TileResult::Grey8(plane, _) => is_filled(plane, (level & 255) as u8),
        TileResult::Grey16(plane, _) => is_filled(plane, level),
        TileResult::Number(_) => false,
    }
}

/// Stops where a step makes something else of pictures than this level throughout.
fn makes(rt: &impl Abort, alloc: Global, sides: Sides, step: Step, pictures: &[Even], level: u16) {
    let mut windows = Vec::new(alloc);
    for picture in pictures {
        push(rt, &mut windows, window(rt, alloc, sides, *picture));
    }
    let work = work(rt, sides, step, windows);
    let made = compute(alloc, &work).expect(rt, "memory");
    assert!(rt; is_level(&made, level));
}

#[test]
fn extrema_by_boxes(rt: HostRuntime) {
    let alloc = rt.alloc();
    for sides in SIDES {
        makes(&rt, alloc, sides, Step::DilateBox(SEVEN), BYTES, 7);
        makes(&rt, alloc, sides, Step::ErodeBox(OUTSIDE), BYTES, 255);
        makes(&rt, alloc, sides, Step::ErodeBox(SEVEN), WORDS, 700);
        makes(&rt, alloc, sides, Step::DilateBox(SEVEN), FULL, 1);
    }
}

#[test]
fn pairs_of_sets_and_sets_of_levels(rt: HostRuntime) {
    let alloc = rt.alloc();
    for sides in SIDES {
        makes(&rt, alloc, sides, Step::Invert, FULL, 0);
        makes(&rt, alloc, sides, Step::Join, FULL_AND_BLANK, 1);
        makes(&rt, alloc, sides, Step::Minus, FULL_AND_BLANK, 1);
        makes(&rt, alloc, sides, Step::AtLeast(7), BYTES, 1);
        makes(&rt, alloc, sides, Step::Equal(7), BYTES, 1);
    }
}

/// The full square of this side, from its middle.
fn square(rt: &impl Abort, alloc: Global, side: u32) -> Arc<Element> {
    let pixels = filled(rt, alloc, (side, side), Bit::SET);
    let element = Element::of_bitmap(alloc, &pixels, side / 2, side / 2);
    let element = element.expect(rt, "an element");
    Arc::new(alloc, element).ok().expect(rt, "memory")
}

/// Pictures, the side of a square, and the number of a rank under it. Medians of levels under small squares go by vectors, other
/// ranks eight rows at a time; those of sets by words.
const RANKS: [(&[Even], u32, u32, u16); 9] = [
    (BYTES, 3, 5, 7),
    (BYTES, 5, 13, 7),
    (BYTES, 15, 5, 7),
    (WORDS, 3, 5, 700),
    (WORDS, 5, 13, 700),
    (WORDS, 15, 5, 700),
    (FULL, 15, 113, 1),
    (FULL, 63, 113, 1),
    (FULL, 255, 113, 1),
];

#[test]
fn ranks_by_squares(rt: HostRuntime) {
    for (pictures, side, k, level) in RANKS {
        for sides in SIDES {
            let step = Step::Rank(square(&rt, rt.alloc(), side), k);
            makes(&rt, rt.alloc(), sides, step, pictures, level);
        }
    }
}

/// The offsets of a full square of this side, from its middle.
fn square_offsets(rt: &impl Abort, alloc: Global, side: i16) -> Vec<Offset> {
    let mut offsets = Vec::new(alloc);
    for y in 0..side {
        for x in 0..side {
            let offset = Offset {
                dx: x.wrapping_sub(side / 2),
                dy: y.wrapping_sub(side / 2),
            };
            offsets.push(offset).ok().expect(rt, "memory");
        }
    }
    offsets
}

/// A median by vectors. Where they give up, a step makes the same in many times as long.
fn median<P: Vectored>(
    rt: &impl Abort,
    alloc: Global,
    sides: Sides,
    sample: P,
    (offsets, k): (&[Offset], u32),
) {
    let window = Window::whole(filled(rt, alloc, sides, sample));
    if offsets.len() >= 65536 {
        panic!(rt; "fewer offsets");
    }
    let made = median_of_grey(alloc, &window, offsets, k, window.place());
    let made = made.expect(rt, "memory").expect(rt, "vectors");
    assert!(rt; is_filled(&made, sample));
}

#[test]
fn medians_by_vectors(rt: HostRuntime) {
    let alloc = rt.alloc();
    for (side, k) in [(3i16, 5u32), (5, 13)] {
        let offsets = square_offsets(&rt, alloc, side);
        for sides in SIDES {
            median::<u8>(&rt, alloc, sides, 7, (&offsets, k));
            median::<u16>(&rt, alloc, sides, 700, (&offsets, k));
        }
    }
}

/// A rank of a set by words. Where they give up, a step makes the same in many times as long.
fn ranked_set(rt: &impl Abort, alloc: Global, sides: Sides, offsets: &[Offset]) {
    let window = Window::whole(filled(rt, alloc, sides, Bit::SET));
    if offsets.len() >= 65536 {
        panic!(rt; "fewer offsets");
    }
    let made = rank_by_words(alloc, &window, offsets, 113, window.place());
    let made = made.expect(rt, "memory").expect(rt, "words");
    assert!(rt; is_set(&made, true));
}

#[test]
fn ranks_of_sets_by_words(rt: HostRuntime) {
    let alloc = rt.alloc();
    for side in [15i16, 63, 255] {
        let offsets = square_offsets(&rt, alloc, side);
        for sides in SIDES {
            ranked_set(&rt, alloc, sides, &offsets);
        }
    }
}

fn listed<P: Grey, E: Extremum<P>>(rt: &impl Abort, alloc: Global, sides: Sides, sample: P) {
    let window = Window::whole(filled(rt, alloc, sides, sample));
    let made = mw_offset::extremum::<P, E>(alloc, &window, &BAR, sample, window.place());
    assert!(rt; is_filled(&made.expect(rt, "memory"), sample));
}

/// A rank by the moving histogram.
fn moved<P: Grey>(rt: &impl Abort, alloc: Global, sides: Sides, sample: P) {
    let window = Window::whole(filled(rt, alloc, sides, sample));
    let made = mw_rank::rank(alloc, &window, &BAR, 2, window.place());
    assert!(rt; is_filled(&made.expect(rt, "memory"), sample));
}

fn listed_set<E: WordExtremum>(rt: &impl Abort, alloc: Global, sides: Sides) {
    let window = Window::whole(filled(rt, alloc, sides, Bit::SET));
    let made = mw_bits::extremum::<E>(alloc, &window, &BAR, window.place());
    assert!(rt; is_set(&made.expect(rt, "memory"), true));
}

/// Stops where a whole frame cannot be cut out of a plane.
fn is_cut(rt: &impl Abort, alloc: Global, sides: Sides) {
    let plane = filled(rt, alloc, sides, 7u8);
    let made = cut(alloc, &plane, whole_frame(plane.width(), plane.height()));
    assert!(rt; is_filled(&made.expect(rt, "memory"), 7));
}

#[test]
fn calls_that_no_step_makes(rt: HostRuntime) {
    for sides in SIDES {
        listed::<u8, Min>(&rt, rt.alloc(), sides, 7);
        listed::<u16, Max>(&rt, rt.alloc(), sides, 700);
        moved::<u8>(&rt, rt.alloc(), sides, 7);
        moved::<u16>(&rt, rt.alloc(), sides, 700);
        listed_set::<Min>(&rt, rt.alloc(), sides);
        is_cut(&rt, rt.alloc(), sides);
    }
}
