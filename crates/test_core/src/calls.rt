//! What cancellation, release and refusals do.

use crate::desk::Ask::{Cancel, Element, Load, Release, Run, Status};
use crate::desk::Word::{Dilate, Erode};
use crate::desk::{BAR, ERODED, ROW};
use crate::play::Job::{Bring, Take};
use crate::play::Sight::{Keeps, Left, Tasks};
use crate::play::Turn::{Call, Do, Fetch, See};
use crate::play::{Turn, plays};
use mw_core::Finish;
use mw_model::{Code, Reply, Shape};

pub(crate) const CASCADE: &[Turn] = &[
    Call(Run(Erode, b"a", b"f", b"b"), Reply::Accepted(2)),
    Call(Run(Dilate, b"c", b"a", b"b"), Reply::Accepted(3)),
    Call(Run(Erode, b"d", b"c", b"b"), Reply::Accepted(4)),
    Call(Run(Dilate, b"e", b"f", b"b"), Reply::Accepted(5)),
    Call(Run(Erode, b"g", b"d", b"b"), Reply::Accepted(6)),
    Call(Cancel(b"a"), Reply::Accepted(2)),
    Call(Status(b"a"), Reply::Cancelled(2)),
    Call(Status(b"c"), Reply::BadInput(3, 2)),
    Call(Status(b"d"), Reply::BadInput(4, 3)),
    Call(Status(b"e"), Reply::Pending(5)),
    Call(Status(b"g"), Reply::BadInput(6, 4)),
    See(Left(4, None)),
    See(Left(5, Some(1))),
    See(Tasks(1, 0)),
    Call(Cancel(b"c"), Reply::Refused(Code::Settled)),
    Call(Run(Erode, b"h", b"c", b"b"), Reply::Refused(Code::Dead)),
];

#[test]
fn cancel_fails_dependents(rt: HostRuntime) {
    plays(&rt, rt.alloc(), ROW, CASCADE);
}

pub(crate) const WANTED: &[Turn] = &[
    Call(Run(Erode, b"e", b"f", b"b"), Reply::Accepted(2)),
    Call(Release(b"e"), Reply::Refused(Code::Pending)),
    Call(Release(b"f"), Reply::Accepted(0)),
    Call(Release(b"b"), Reply::Accepted(1)),
    Call(Run(Erode, b"g", b"f", b"b"), Reply::Refused(Code::Released)),
    Fetch(b"f", Reply::Released(0), b""),
    See(Keeps(0, true)),
    See(Keeps(1, true)),
    See(Keeps(2, false)),
    See(Keeps(3, false)),
    Do(Take(0, 2)),
    Do(Bring(Finish::Settled(2))),
    See(Keeps(0, false)),
    See(Keeps(1, false)),
    See(Keeps(2, true)),
    Fetch(b"e", Reply::Shown(2), ERODED),
    Call(Release(b"e"), Reply::Accepted(2)),
    Call(Release(b"e"), Reply::Refused(Code::Released)),
    See(Keeps(2, false)),
];

#[test]
fn a_released_value_stays_while_it_is_wanted(rt: HostRuntime) {
    plays(&rt, rt.alloc(), ROW, WANTED);
}

pub(crate) const LET_GO: &[Turn] = &[
    Call(Run(Erode, b"e", b"f", b"b"), Reply::Accepted(2)),
    Call(Release(b"f"), Reply::Accepted(0)),
    See(Keeps(0, true)),
    See(Keeps(1, true)),
    Call(Cancel(b"e"), Reply::Accepted(2)),
    Call(Release(b"e"), Reply::Refused(Code::Dead)),
    See(Keeps(0, false)),
    See(Keeps(1, true)),
];

#[test]
fn a_cancelled_command_lets_released_inputs_go(rt: HostRuntime) {
    plays(&rt, rt.alloc(), ROW, LET_GO);
}

pub(crate) const WANTED_TWICE: &[Turn] = &[
    Call(Run(Erode, b"e", b"f", b"b"), Reply::Accepted(2)),
    Call(Run(Dilate, b"g", b"f", b"b"), Reply::Accepted(3)),
    Call(Run(Erode, b"h", b"f", b"b"), Reply::Accepted(4)),
    Call(Release(b"f"), Reply::Accepted(0)),
    Do(Take(0, 2)),
    Do(Bring(Finish::Settled(2))),
    See(Keeps(0, true)),
    Call(Cancel(b"g"), Reply::Accepted(3)),
    See(Keeps(0, true)),
    Call(Release(b"b"), Reply::Accepted(1)),
    Do(Take(0, 4)),
    See(Keeps(0, true)),
    See(Keeps(1, true)),
    Do(Bring(Finish::Settled(4))),
    See(Keeps(0, false)),
    See(Keeps(1, false)),
    Fetch(b"h", Reply::Shown(4), ERODED),
];

#[test]
fn a_value_stays_until_the_last_that_wants_it_ends(rt: HostRuntime) {
    plays(&rt, rt.alloc(), ROW, WANTED_TWICE);
}

pub(crate) const FAILS_TWO: &[Turn] = &[
    Call(Run(Erode, b"e", b"f", b"b"), Reply::Accepted(2)),
    Call(Run(Erode, b"g", b"e", b"b"), Reply::Accepted(3)),
    Call(Run(Dilate, b"h", b"f", b"b"), Reply::Accepted(4)),
    Call(Release(b"b"), Reply::Accepted(1)),
    Call(Cancel(b"e"), Reply::Accepted(2)),
    See(Keeps(1, true)),
    Call(Cancel(b"h"), Reply::Accepted(4)),
    See(Keeps(0, true)),
    See(Keeps(1, false)),
];

#[test]
fn what_a_cascade_fails_wants_nothing_any_more(rt: HostRuntime) {
    plays(&rt, rt.alloc(), ROW, FAILS_TWO);
}

pub(crate) const REFUSED: &[Turn] = &[
    Call(
        Run(Erode, b"f", b"zz", b"zz"),
        Reply::Refused(Code::NameTaken),
    ),
    Call(Run(Erode, b"r", b"zz", b"f"), Reply::Refused(Code::Unknown)),
    Call(Run(Erode, b"r", b"b", b"zz"), Reply::Refused(Code::Kind)),
    Call(Load(b"f", b"x"), Reply::Refused(Code::NameTaken)),
    Call(Load(b"f", ROW), Reply::Refused(Code::NameTaken)),
    Call(Load(b"r", b"x"), Reply::Refused(Code::Magic)),
    Call(Element(b"r", b"x", 0), Reply::Refused(Code::NotPlain)),
    Call(Element(b"r", BAR, 3), Reply::Refused(Code::Origin)),
    Call(
        Element(b"r", b"P1\n3 1\n000\n", 0),
        Reply::Refused(Code::Empty),
    ),
    Call(Status(b"r"), Reply::Refused(Code::Unknown)),
    // Of each input all that is asked goes before the next input.
    Call(Run(Erode, b"a", b"f", b"b"), Reply::Accepted(2)),
    Call(Cancel(b"a"), Reply::Accepted(2)),
    Call(Release(b"f"), Reply::Accepted(0)),
    Call(
        Run(Erode, b"r", b"f", b"zz"),
        Reply::Refused(Code::Released),
    ),
    Call(Run(Erode, b"r", b"a", b"zz"), Reply::Refused(Code::Dead)),
    Call(Run(Erode, b"r", b"zz", b"a"), Reply::Refused(Code::Unknown)),
    Call(Status(b"b"), Reply::Done(1, Shape::Element(3, 1))),
    Fetch(b"b", Reply::Refused(Code::Kind), b""),
];

#[test]
fn refusals_come_in_order(rt: HostRuntime) {
    plays(&rt, rt.alloc(), ROW, REFUSED);
}
