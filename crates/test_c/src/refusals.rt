//! Refusals of what is looked at behind the arrays: a call may ask for memory before, so its contract lets it tell want of memory in
//! their place. Where there is memory, the fault is told by its number, and the array is as it was.

use crate::faulty::answer;
use crate::given::{
    BAR, Call, Figure, Job, Sort, Way, first_call, is_set, with_elements, with_job,
};
use crate::made::expect;
use std::alloc::Global;
use std::process::Abort;

/// What is given to a call: columns and rows, a maxval, how many places there are for what is made, and an element. Of levels
/// of two bytes the maxval is 300 times as great.
type Given = ((u32, u32), u8, usize, Figure<'static>);

/// The pixel at the right of the origin alone.
const RIGHT: Figure<'static> = (&[0, 1], (2, 1), (0, 0));

/// The pixel two columns at the left of the origin.
const FAR_LEFT: Figure<'static> = (&[1, 0, 0], (3, 1), (2, 0));

/// Nothing is wrong with these.
const SOUND: Given = ((3, 2), 200, 6, BAR);

/// By the given element, and by one that shares no offset with it.
fn asked(way: Way, sort: Sort, given: Given) -> Call<'static> {
    let (sides, maxval, _, element) = given;
    let maxval = match sort {
        Sort::Words => u16::from(maxval).saturating_mul(300),
        _ => u16::from(maxval),
    };
    with_elements(first_call(way, sort, sides, maxval), element, FAR_LEFT)
}

/// Stops where the call answers something else.
fn answers(rt: &impl Abort, alloc: Global, call: Call<'_>, room: usize, wanted: i32) {
    let answer = answer(rt, alloc, call, room);
    expect(rt, call, answer, answer == wanted);
}

const SORTS: [Sort; 3] = [Sort::Bytes, Sort::Words, Sort::Pixels];

/// Whether there is such a call.
fn is_called(way: Way, sort: Sort) -> bool {
    match way {
        Way::Threshold | Way::Restoration => !is_set(sort),
        Way::Skeleton => is_set(sort),
        _ => true,
    }
}

/// Stops where one of these calls, of each sort that there is, answers something else.
fn ways_answer(rt: &impl Abort, alloc: Global, ways: &[Way], job: Job, given: Given, wanted: i32) {
    let (_, _, room, _) = given;
    for way in ways {
        for sort in SORTS {
            if is_called(*way, sort) {
                let call = with_job(asked(*way, sort, given), job);
                answers(rt, alloc, call, room, wanted);
            }
        }
    }
}

/// Stops where hits and misses by two elements answer something else.
fn hits_answer(
    rt: &impl Abort,
    alloc: Global,
    given: Given,
    hit: Figure<'_>,
    miss: Figure<'_>,
    wanted: i32,
) {
    let (_, _, room, _) = given;
    for sort in SORTS {
        let call = with_elements(asked(Way::Hits, sort, given), hit, miss);
        answers(rt, alloc, call, room, wanted);
    }
}

fn flat_and_rows(rt: &impl Abort, alloc: Global, job: Job, given: Given, wanted: [i32; 2]) {
    let [flat, rows] = wanted;
    ways_answer(rt, alloc, &[Way::Flat], job, given, flat);
    ways_answer(rt, alloc, &[Way::Rows], job, given, rows);
}

/// Jobs, elements, and what they answer: a rank wants the origin, and behind that its number.
const ASKED: [(Job, Figure<'static>, i32); 8] = [
    ((7, 0), RIGHT, 45),
    ((7, 1), RIGHT, 45),
    ((7, 0), BAR, 47),
    ((7, 4), BAR, 47),
    ((7, 4294967295), BAR, 47),
    ((7, 1), BAR, 0),
    ((7, 3), BAR, 0),
    ((0, 0), RIGHT, 0),
];

#[test]
fn what_is_asked_of_elements(rt: HostRuntime) {
    for (job, b, answer) in ASKED {
        flat_and_rows(&rt, rt.alloc(), job, ((3, 2), 200, 6, b), [answer; 2]);
    }
}

#[test]
fn elements_that_share_an_offset(rt: HostRuntime) {
    for (miss, answer) in [(BAR, 46), (RIGHT, 46), (FAR_LEFT, 0)] {
        hits_answer(&rt, rt.alloc(), SOUND, BAR, miss, answer);
    }
}

/// A skeleton wants the origin, and what is restored of one does not.
#[test]
fn levels_of_skeletons(rt: HostRuntime) {
    let given = ((3, 2), 200, 6, RIGHT);
    ways_answer(&rt, rt.alloc(), &[Way::Skeleton], (0, 1), given, 45);
    ways_answer(&rt, rt.alloc(), &[Way::Restoration], (0, 1), given, 0);
}
