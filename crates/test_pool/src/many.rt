//! More than twice as many sessions as a board has condition variables for them. A board that wakes too few does not end.

use crate::desk::{cancel, done, erosion, load_both, name, numbered, run, status, wait};
use crate::door::{Door, WORKERS, Way};
use crate::scenes::{Act, Scene, on_a_board};
use mw_model::{Code, Reply};
use mw_pool::{Board, Naming, work};
use std::alloc::Global;
use std::process::Abort;
use std::sync::Wait;
use std::thread;
use std::thread::{Threads, map_indices};
use std::time::Clock;

const SESSIONS: u32 = 130;

/// Of each session that asks for work.
const COMMANDS: u32 = 25;

/// What settles the entries that sessions wait for.
#[derive(Clone, Copy)]
pub(crate) enum End {
    Worker,
    Refusal,
    Cancel,
    Close,
}

/// The first entry is an erosion of the row, and each other one of the entry before it. Their tickets begin with 2.
pub(crate) fn lay_out<R: Wait + Abort, J: Naming>(rt: &R, alloc: Global, board: &Board<J>) {
    let mut pass = board.pass();
    load_both(rt, alloc, board, &mut pass);
    let mut input = name(rt, b"f");
    for number in 0..SESSIONS {
        let made = numbered(rt, number, 0);
        run(rt, board, &mut pass, made, erosion(rt, input));
        input = made;
    }
}

/// Settles the entries once the sessions have had time to sleep. A worker ends with the board.
pub(crate) fn end_waits<R: Wait + Clock + Abort, J: Naming>(
    rt: &R,
    board: &Board<J>,
    door: &Door<'_, R>,
    end: End,
) {
    for _ in 0..100_000u32 {
        thread::yield_now();
    }
    match end {
        End::Worker | End::Refusal => work(rt, board, door),
        End::Cancel => {
            cancel(rt, board, &mut board.pass(), numbered(rt, 0, 0));
        }
        End::Close => board.close(rt),
    }
}

/// What is to be told of the entry of this number.
fn wanted(end: End, number: u32) -> Reply {
    let t = number.saturating_add(2);
    match end {
        End::Worker => done(t),
        End::Refusal if number == 0 => Reply::OutOfMemory(t),
        End::Cancel if number == 0 => Reply::Cancelled(t),
        End::Refusal | End::Cancel => Reply::BadInput(t, t.saturating_sub(1)),
        End::Close => Reply::Pending(t),
    }
}

/// What a session does.
#[derive(Clone, Copy)]
enum Session {
    /// It waits for an entry, which ends so.
    Waits(End),
    /// It asks for one command after another.
    Works,
}

/// Whether a session that waits for the entry of this number is told so.
fn is_told<R: Wait + Abort, J: Naming>(rt: &R, board: &Board<J>, number: u32, end: End) -> bool {
    let reply = wait(rt, board, &mut board.pass(), numbered(rt, number, 0));
    reply == wanted(end, number)
}

/// One erosion after another, each waited for before the next: how many were done, and how many found no memory.
fn commands_ended<R: Wait + Abort, J: Naming>(
    rt: &R,
    board: &Board<J>,
    session: u32,
) -> (u32, u32) {
    let mut pass = board.pass();
    let (mut made, mut refused) = (0u32, 0u32);
    for command in 0..COMMANDS {
        let entry = numbered(rt, session, command + 1);
        run(rt, board, &mut pass, entry, erosion(rt, name(rt, b"f")));
        match wait(rt, board, &mut pass, entry) {
            Reply::Done(_, _) => made = made.saturating_add(1),
            Reply::OutOfMemory(_) => refused = refused.saturating_add(1),
            _ => (),
        }
    }
    (made, refused)
}

/// How many calls of a session were answered as they are to be, and how many found no memory.
fn ended<R: Wait + Abort, J: Naming>(
    rt: &R,
    board: &Board<J>,
    number: u32,
    session: Session,
) -> (u32, u32) {
    match session {
        Session::Waits(end) => (u32::from(is_told(rt, board, number, end)), 0),
        Session::Works => commands_ended(rt, board, number),
    }
}

/// How the calls of all sessions ended, in threads of their own.
fn all_ended<R: Threads + Wait + Abort + Sync, J: Naming + Send + Sync>(
    rt: &R,
    alloc: Global,
    board: &Board<J>,
    session: Session,
) -> (u32, u32) {
    let (mut made, mut refused) = (0u32, 0u32);
    let count = SESSIONS as usize;
    let ended = map_indices(
        rt,
        alloc,
        count,
        &|i| { ended(rt, board, i as u32, session) },
    );
    for each in ended.expect(rt, "memory") {
        made = made.saturating_add(each.0);
        refused = refused.saturating_add(each.1);
    }
    (made, refused)
}

/// Each session waits for an entry of its own, and is told how that ends.
pub(crate) fn waits_end<R: Threads + Wait + Abort + Sync, J: Naming + Send + Sync>(
    rt: &R,
    alloc: Global,
    board: &Board<J>,
    end: End,
) {
    let ended = all_ended(rt, alloc, board, Session::Waits(end));
    assert_eq!(rt; ended, (SESSIONS, 0));
}

#[test]
fn each_result_wakes_who_waits_for_it(rt: HostRuntime) {
    let scene = Scene::beside(1, Way::Freely, Act::WaitsEnd(End::Worker));
    on_a_board(&rt, rt.alloc(), scene);
}

#[test]
fn refused_memory_wakes_all(rt: HostRuntime) {
    let scene = Scene::beside(1, Way::Refused, Act::WaitsEnd(End::Refusal));
    on_a_board(&rt, rt.alloc(), scene);
}

#[test]
fn a_cancel_wakes_all(rt: HostRuntime) {
    let scene = Scene::beside(1, Way::Freely, Act::WaitsEnd(End::Cancel));
    on_a_board(&rt, rt.alloc(), scene);
}

#[test]
fn a_close_wakes_all(rt: HostRuntime) {
    let scene = Scene::beside(1, Way::Freely, Act::WaitsEnd(End::Close));
    on_a_board(&rt, rt.alloc(), scene);
}

/// Beside workers that find no memory for each 64th task: exactly these are told so.
pub(crate) fn all_worked_off<R: Threads + Wait + Abort + Sync, J: Naming + Send + Sync>(
    rt: &R,
    alloc: Global,
    board: &Board<J>,
) {
    load_both(rt, alloc, board, &mut board.pass());
    let ended = all_ended(rt, alloc, board, Session::Works);
    let refused = SESSIONS * COMMANDS / 64;
    assert_eq!(rt; ended, (SESSIONS * COMMANDS - refused, refused));
}

#[test]
fn no_waking_is_lost(rt: HostRuntime) {
    let scene = Scene::beside(WORKERS, Way::SomeRefused, Act::WorkedOff);
    on_a_board(&rt, rt.alloc(), scene);
}

/// Waits for what is done since long ago and for a name without an entry, while an entry is pending.
pub(crate) fn waits_at_once<R: Wait + Abort, J: Naming>(rt: &R, alloc: Global, board: &Board<J>) {
    let mut pass = board.pass();
    load_both(rt, alloc, board, &mut pass);
    let (e, f) = (name(rt, b"e"), name(rt, b"f"));
    run(rt, board, &mut pass, e, erosion(rt, f));
    for _ in 0..5000u32 {
        assert_eq!(rt; status(rt, board, &mut pass, e), Reply::Pending(2));
    }
    assert_eq!(rt; wait(rt, board, &mut pass, f), done(0));
    let unknown = wait(rt, board, &mut pass, name(rt, b"x"));
    assert_eq!(rt; unknown, Reply::Refused(Code::Unknown));
}

#[test]
fn waits_for_what_is_settled_end_at_once(rt: HostRuntime) {
    on_a_board(&rt, rt.alloc(), Scene::alone(Act::WaitsAtOnce));
}
