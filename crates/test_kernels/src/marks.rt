//! Who owns what a marking step makes: where no place is marked, it is one more owner of what was read, and nothing is copied.

use crate::given::{push, whole, window, work};
use mw_pixel::{Bit, Plane};
use mw_step::compute;
use mw_step_task::{SharedWindow, Step, TileResult};
use std::alloc::Global;
use std::process::Abort;
use std::sync::Arc;
use std::test::Fail;

/// Whether a set, whose row is a word and one column more, has its first pixel, those between, and its last one.
type Pixels = (bool, bool, bool);

/// Writes a pixel over that in a column of a row.
fn put(row: &mut Plane<Bit>, x: u32, dot: &Plane<Bit>) {
    if x < row.width() && row.height() == 1 && dot.width() == 1 && dot.height() == 1 {
        row.copy_run(x, 0, dot, 0, 0, 1);
    }
}

fn dot(alloc: Global, is_set: bool) -> Result<Plane<Bit>, Fail> {
    Ok(Plane::filled(alloc, 1, 1, Bit::new(is_set))?)
}

fn row(alloc: Global, pixels: Pixels) -> Result<Plane<Bit>, Fail> {
    let (first, between, last) = pixels;
    let mut row = Plane::filled(alloc, 65, 1, Bit::new(between))?;
    put(&mut row, 0, &dot(alloc, first)?);
    put(&mut row, 64, &dot(alloc, last)?);
    Ok(row)
}

fn set(rt: &impl Abort, alloc: Global, pixels: Pixels) -> SharedWindow {
    match row(alloc, pixels) {
        Ok(plane) => SharedWindow::bits(whole(rt, alloc, plane)),
        Err(_fault) => panic!(rt; "memory"),
    }
}

fn owners(made: &TileResult) -> usize {
    match made {
        TileResult::Bits(plane) => Arc::strong_count(plane),
        TileResult::Grey8(plane, _) => Arc::strong_count(plane),
        TileResult::Grey16(plane, _) => Arc::strong_count(plane),
        TileResult::Number(_) => 0,
    }
}

/// How many own what a step makes of a row and these sets, while its windows are there.
fn owners_of(rt: &impl Abort, alloc: Global, step: Step, maxval: u16, sets: &[Pixels]) -> usize {
    let mut windows = Vec::new(alloc);
    push(rt, &mut windows, window(rt, alloc, (65, 1), (maxval, 0)));
    for pixels in sets {
        push(rt, &mut windows, set(rt, alloc, *pixels));
    }
    let work = work(rt, (65, 1), step, windows);
    owners(&compute(alloc, &work).expect(rt, "memory"))
}

const MAXVALS: [u16; 3] = [1, 255, 65535];

const NONE: Pixels = (false, false, false);

const FIRST: Pixels = (true, false, false);

const LAST: Pixels = (false, false, true);

const ENDS: Pixels = (true, false, true);

const ALL: Pixels = (true, true, true);

/// Sets that are marked where another one beside it has no pixel, or alone, and whether a place is marked.
const MARKED: [(&[Pixels], bool); 18] = [
    (&[NONE, NONE], false),
    (&[NONE, ALL], false),
    (&[FIRST, FIRST], false),
    (&[FIRST, ENDS], false),
    (&[LAST, ENDS], false),
    (&[ENDS, ALL], false),
    (&[ALL, ALL], false),
    (&[NONE], false),
    (&[FIRST, NONE], true),
    (&[LAST, FIRST], true),
    (&[FIRST, LAST], true),
    (&[ENDS, LAST], true),
    (&[ALL, ENDS], true),
    (&[ALL, NONE], true),
    (&[FIRST], true),
    (&[LAST], true),
    (&[ENDS], true),
    (&[ALL], true),
];

#[test]
fn marks_alone_have_samples_of_their_own(rt: HostRuntime) {
    for maxval in MAXVALS {
        for (sets, is_marked) in MARKED {
            let step = if sets.len() == 1 {
                Step::MarkLast(1)
            } else {
                Step::Mark(1)
            };
            let wanted = if is_marked { 1 } else { 2 };
            assert_eq!(rt; owners_of(&rt, rt.alloc(), step, maxval, sets), wanted);
        }
    }
}
