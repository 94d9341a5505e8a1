//! Results that are late, doubled, of another core or made by hand; tasks that find no memory; and tasks of several tiles,
//! which end in any order.

use crate::desk::Ask::{Cancel, Run, Status};
use crate::desk::Word::{Dilate, Erode, Open};
use crate::desk::{ERODED, Hands, ROW, lay_out, new_core};
use crate::play::Job::{Bring, BringTile, ByHand, GiveUp, GiveUpByHand, Rest, Take};
use crate::play::Sight::{Keeps, Last, Left, Tasks};
use crate::play::Turn::{Call, Do, Fetch, See};
use crate::play::{Turn, play, plays};
use mw_core::{Finish, Refusal};
use mw_model::{Kind, LogItem, Reply, Shape, TaskId};
use mw_step_task::Work;
use std::alloc::Global;
use std::process::Abort;

const OTHER_ROW: &[u8] = b"P2\n5 1\n9\n3 1 4 1 6\n";

const TAKEN: &[Turn] = &[
    Call(Run(Erode, b"e", b"f", b"b"), Reply::Accepted(2)),
    Do(Take(0, 2)),
];

/// The task of another core is brought first.
const EXCHANGED: &[Turn] = &[
    Do(Bring(Finish::Stranger)),
    See(Tasks(0, 1)),
    Do(Bring(Finish::Settled(2))),
    See(Tasks(0, 0)),
    Fetch(b"e", Reply::Shown(2), ERODED),
];

/// A task that another core gave; none where that found no memory.
fn strange_work(rt: &impl Abort, alloc: Global) -> Option<Work> {
    let mut hands = Hands::new(alloc);
    let mut core = new_core(rt, alloc, &mut hands);
    lay_out(rt, alloc, &mut core, &mut hands, OTHER_ROW);
    if play(rt, alloc, &mut core, &mut hands, TAKEN) {
        hands.taken.pop()
    } else {
        None
    }
}

/// False where some task found no memory.
fn exchanges(rt: &impl Abort, alloc: Global, strange: Work) -> bool {
    let mut hands = Hands::new(alloc);
    let mut core = new_core(rt, alloc, &mut hands);
    lay_out(rt, alloc, &mut core, &mut hands, ROW);
    let is_taken = play(rt, alloc, &mut core, &mut hands, TAKEN);
    hands.keep(rt, strange);
    is_taken && play(rt, alloc, &mut core, &mut hands, EXCHANGED)
}

fn exchanged(rt: &impl Abort, alloc: Global) -> bool {
    match strange_work(rt, alloc) {
        Some(strange) => exchanges(rt, alloc, strange),
        None => false,
    }
}

#[test]
fn a_result_of_another_core_is_strange(rt: HostRuntime) {
    assert!(rt; exchanged(&rt, rt.alloc()) || exchanged(&rt, rt.alloc()));
}

pub(crate) const CANCELLED: &[Turn] = &[
    Call(Run(Erode, b"a", b"f", b"b"), Reply::Accepted(2)),
    See(Tasks(1, 0)),
    Do(Take(0, 2)),
    See(Tasks(0, 1)),
    Call(Cancel(b"a"), Reply::Accepted(2)),
    See(Tasks(0, 0)),
    See(Left(2, None)),
    Do(Rest),
    Do(Bring(Finish::Late)),
    Fetch(b"a", Reply::Cancelled(2), b""),
];

#[test]
fn a_result_after_the_cancel_is_late(rt: HostRuntime) {
    plays(&rt, rt.alloc(), ROW, CANCELLED);
}

/// The only task of the command under a ticket.
const OF_2: TaskId = TaskId {
    ticket: 2,
    step: 0,
    tile: 0,
};

const OF_STEP_1: TaskId = TaskId {
    ticket: 2,
    step: 1,
    tile: 0,
};

const OF_TILE_1: TaskId = TaskId {
    ticket: 2,
    step: 0,
    tile: 1,
};

const OF_0: TaskId = TaskId {
    ticket: 0,
    step: 0,
    tile: 0,
};

const OF_1: TaskId = TaskId {
    ticket: 1,
    step: 0,
    tile: 0,
};

const OF_3: TaskId = TaskId {
    ticket: 3,
    step: 0,
    tile: 0,
};

const OF_4: TaskId = TaskId {
    ticket: 4,
    step: 0,
    tile: 0,
};

const OF_9: TaskId = TaskId {
    ticket: 9,
    step: 0,
    tile: 0,
};

/// The task of ticket 2 runs, that of 3 is cancelled while it runs, and that of 4 is ready.
pub(crate) const BY_HAND: &[Turn] = &[
    Call(Run(Erode, b"e", b"f", b"b"), Reply::Accepted(2)),
    Do(ByHand(OF_2, 5, Finish::Stranger)),
    Call(Run(Erode, b"c", b"f", b"b"), Reply::Accepted(3)),
    Call(Run(Erode, b"d", b"f", b"b"), Reply::Accepted(4)),
    Do(Take(0, 2)),
    Do(Take(0, 3)),
    Call(Cancel(b"c"), Reply::Accepted(3)),
    // Other samples, another step, tile or ticket, and a task that is ready only.
    Do(ByHand(OF_2, 6, Finish::Stranger)),
    Do(ByHand(OF_STEP_1, 5, Finish::Stranger)),
    Do(ByHand(OF_TILE_1, 5, Finish::Stranger)),
    Do(ByHand(OF_9, 5, Finish::Stranger)),
    Do(ByHand(OF_4, 5, Finish::Stranger)),
    // Tickets that are done, and the one that is cancelled.
    Do(ByHand(OF_0, 5, Finish::Late)),
    Do(ByHand(OF_1, 5, Finish::Late)),
    Do(ByHand(OF_3, 5, Finish::Late)),
    // Tasks of each of these kinds that find no memory.
    Do(GiveUpByHand(OF_STEP_1, Refusal::Stranger)),
    Do(GiveUpByHand(OF_TILE_1, Refusal::Stranger)),
    Do(GiveUpByHand(OF_9, Refusal::Stranger)),
    Do(GiveUpByHand(OF_4, Refusal::Stranger)),
    Do(GiveUpByHand(OF_0, Refusal::Late)),
    Do(GiveUpByHand(OF_1, Refusal::Late)),
    Do(GiveUpByHand(OF_3, Refusal::Late)),
    // The one that was taken for the ticket that is cancelled.
    Do(Bring(Finish::Late)),
    See(Tasks(1, 1)),
    // The very task that runs.
    Do(ByHand(OF_2, 5, Finish::Settled(2))),
    See(Last(LogItem::Finished(2))),
    Do(ByHand(OF_2, 5, Finish::Late)),
    Do(Bring(Finish::Late)),
    Fetch(b"e", Reply::Shown(2), ERODED),
];

#[test]
fn results_by_hand_are_compared(rt: HostRuntime) {
    plays(&rt, rt.alloc(), ROW, BY_HAND);
}

pub(crate) const PLACES: &[Turn] = &[
    Call(Run(Erode, b"a", b"f", b"b"), Reply::Accepted(2)),
    Call(Run(Dilate, b"c", b"a", b"b"), Reply::Accepted(3)),
    Call(Run(Dilate, b"d", b"f", b"b"), Reply::Accepted(4)),
    // Those of tickets 2 and 4.
    See(Tasks(2, 0)),
    Do(Take(5, 4)),
    Do(Take(5, 2)),
    Do(Rest),
    Do(Bring(Finish::Settled(2))),
    See(Tasks(1, 1)),
    Do(Take(0, 3)),
    Do(Bring(Finish::Settled(3))),
    Do(Bring(Finish::Settled(4))),
    Fetch(b"c", Reply::Shown(3), ERODED),
    Fetch(b"d", Reply::Shown(4), b"P5\n5 1\n9\n\x03\x04\x04\x05\x05"),
];

#[test]
fn places_count_ready_tasks_in_ticket_order(rt: HostRuntime) {
    plays(&rt, rt.alloc(), ROW, PLACES);
}

const ROW_OF_FIVE: Shape = Shape::Image(Kind::Grey, 5, 1, 9);

/// `e` and `h` of the row, `g` and `i` of `e`, `j` of `g`, `k` of `h`. The task of `h` runs while `e` dies.
pub(crate) const DEATH: &[Turn] = &[
    Call(Run(Erode, b"e", b"f", b"b"), Reply::Accepted(2)),
    Call(Run(Erode, b"h", b"f", b"b"), Reply::Accepted(3)),
    Call(Run(Erode, b"g", b"e", b"b"), Reply::Accepted(4)),
    Call(Run(Erode, b"i", b"e", b"b"), Reply::Accepted(5)),
    Call(Run(Erode, b"j", b"g", b"b"), Reply::Accepted(6)),
    Call(Run(Erode, b"k", b"h", b"b"), Reply::Accepted(7)),
    Do(Take(1, 3)),
    Do(Take(0, 2)),
    Do(GiveUp(Refusal::Killed(2))),
    See(Last(LogItem::Killed(2))),
    See(Tasks(0, 1)),
    See(Left(2, None)),
    See(Left(3, Some(1))),
    See(Left(4, None)),
    See(Left(5, None)),
    See(Left(6, None)),
    See(Left(7, Some(1))),
    Call(Status(b"h"), Reply::Pending(3)),
    Call(Status(b"k"), Reply::Pending(7)),
    Do(Bring(Finish::Settled(3))),
    Do(Take(0, 7)),
    Do(Bring(Finish::Settled(7))),
    Call(Status(b"e"), Reply::OutOfMemory(2)),
    Call(Status(b"h"), Reply::Done(3, ROW_OF_FIVE)),
    Call(Status(b"g"), Reply::BadInput(4, 2)),
    Call(Status(b"i"), Reply::BadInput(5, 2)),
    // The first dead input of `j` is `g`, which has no value either.
    Call(Status(b"j"), Reply::BadInput(6, 4)),
    Call(Status(b"k"), Reply::Done(7, ROW_OF_FIVE)),
    See(Keeps(0, true)),
    See(Keeps(1, true)),
    See(Keeps(2, false)),
    See(Keeps(3, true)),
    See(Keeps(4, false)),
    See(Keeps(5, false)),
    See(Keeps(6, false)),
    See(Keeps(7, true)),
];

#[test]
fn a_death_takes_exactly_its_dependents(rt: HostRuntime) {
    plays(&rt, rt.alloc(), ROW, DEATH);
}

/// A row of three tiles, dark at a seam, at another and at its end.
pub(crate) const LONG_ROW: &[u8] =
    b"P5\n130 1\n122\nzzzzzzzzzzzzzzzzzzzzzzzzzzzzzzzzzzzzzzzzzzzzzzzzzzzzzzzzzzzzzzzbzzzzzzzzzzzzzzzzzzzzzzzzzzzzzzzzzzzzzzzzzzzzzzzzzzzzzzzzzzzzzzzczd";

const LONG_ERODED: &[u8] =
    b"P5\n130 1\n122\nzzzzzzzzzzzzzzzzzzzzzzzzzzzzzzzzzzzzzzzzzzzzzzzzzzzzzzzzzzzzzzbbbzzzzzzzzzzzzzzzzzzzzzzzzzzzzzzzzzzzzzzzzzzzzzzzzzzzzzzzzzzzzzcccd";

const LONG_OPENED: &[u8] =
    b"P5\n130 1\n122\nzzzzzzzzzzzzzzzzzzzzzzzzzzzzzzzzzzzzzzzzzzzzzzzzzzzzzzzzzzzzzzzbzzzzzzzzzzzzzzzzzzzzzzzzzzzzzzzzzzzzzzzzzzzzzzzzzzzzzzzzzzzzzzzcdd";

pub(crate) const FORTH: &[Turn] = &[
    Call(Run(Erode, b"e", b"f", b"b"), Reply::Accepted(2)),
    See(Tasks(3, 0)),
    See(Left(2, Some(3))),
    Do(Take(0, 2)),
    Do(Take(0, 2)),
    Do(Take(0, 2)),
    See(Tasks(0, 3)),
    See(Left(2, Some(3))),
    Do(BringTile(0, Finish::Placed)),
    See(Tasks(0, 2)),
    See(Left(2, Some(2))),
    Do(BringTile(1, Finish::Placed)),
    See(Tasks(0, 1)),
    See(Left(2, Some(1))),
    Do(BringTile(2, Finish::Settled(2))),
    See(Tasks(0, 0)),
    See(Left(2, None)),
    Fetch(b"e", Reply::Shown(2), LONG_ERODED),
];

pub(crate) const BACK: &[Turn] = &[
    Call(Run(Erode, b"e", b"f", b"b"), Reply::Accepted(2)),
    Do(Take(2, 2)),
    Do(Take(1, 2)),
    Do(Take(0, 2)),
    Do(BringTile(2, Finish::Placed)),
    See(Left(2, Some(2))),
    Do(BringTile(1, Finish::Placed)),
    See(Left(2, Some(1))),
    Do(BringTile(0, Finish::Settled(2))),
    Fetch(b"e", Reply::Shown(2), LONG_ERODED),
];

#[test]
fn tiles_end_in_either_order(rt: HostRuntime) {
    plays(&rt, rt.alloc(), LONG_ROW, FORTH);
    plays(&rt, rt.alloc(), LONG_ROW, BACK);
}

/// The second step starts in the first tile once the two tiles under it are done, while the third is running still.
pub(crate) const SECOND_STEP: &[Turn] = &[
    Call(Run(Open, b"o", b"f", b"b"), Reply::Accepted(2)),
    See(Tasks(3, 0)),
    See(Left(2, Some(6))),
    Do(Take(0, 2)),
    Do(Take(0, 2)),
    Do(Take(0, 2)),
    See(Tasks(0, 3)),
    Do(BringTile(0, Finish::Placed)),
    See(Tasks(0, 2)),
    See(Left(2, Some(5))),
    Do(BringTile(1, Finish::Placed)),
    See(Tasks(1, 1)),
    See(Left(2, Some(4))),
    Do(Take(0, 2)),
    Do(BringTile(0, Finish::Placed)),
    See(Tasks(0, 1)),
    See(Left(2, Some(3))),
    Do(BringTile(2, Finish::Placed)),
    See(Tasks(2, 0)),
    See(Left(2, Some(2))),
    Do(Take(1, 2)),
    Do(Bring(Finish::Placed)),
    Do(Take(0, 2)),
    Do(Bring(Finish::Settled(2))),
    Fetch(b"o", Reply::Shown(2), LONG_OPENED),
];

#[test]
fn a_second_step_starts_over_the_tiles_that_are_done(rt: HostRuntime) {
    plays(&rt, rt.alloc(), LONG_ROW, SECOND_STEP);
}
