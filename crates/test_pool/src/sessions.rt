//! One session or two, and a board that is closed under one.

use crate::desk::{
    ERODED, LOADED, both, cancel, done, erosion, load_both, name, run, shows, status, wait,
};
use crate::door::Way;
use crate::scenes::{Act, Scene, on_a_board};
use crate::watch::let_sleep;
use mw_model::Reply;
use mw_pool::{Board, Naming, Pass};
use std::alloc::Global;
use std::process::Abort;
use std::slice;
use std::sync::Wait;
use std::thread::{Threads, join};
use std::time::Clock;

/// Closes the board once another session has had time to wait.
pub(crate) fn close_later<R: Wait + Clock, J: Naming>(rt: &R, board: &Board<J>) {
    let_sleep(rt);
    board.close(rt);
}

/// The wait for an erosion that no worker takes ends as the board is closed, and the receipts cover the log.
pub(crate) fn wait_over_close<R: Wait + Abort, J: Naming>(rt: &R, alloc: Global, board: &Board<J>) {
    let mut pass = board.pass();
    load_both(rt, alloc, board, &mut pass);
    let (e, f) = (name(rt, b"e"), name(rt, b"f"));
    run(rt, board, &mut pass, e, erosion(rt, f));
    let reply = wait(rt, board, &mut pass, e);
    assert_eq!(rt; (reply, pass.receipts().len()), (Reply::Pending(2), 4));
    assert!(rt; board.audit_all(rt, slice::from_ref(&pass)));
}

#[test]
fn close_ends_a_wait(rt: HostRuntime) {
    let scene = Scene::beside(1, Way::Freely, Act::WaitOverClose);
    on_a_board(&rt, rt.alloc(), scene);
}

/// A wait ends for an entry that is cancelled, and at once on a closed board.
pub(crate) fn wait_alone<R: Wait + Abort, J: Naming>(rt: &R, alloc: Global, board: &Board<J>) {
    let mut pass = board.pass();
    load_both(rt, alloc, board, &mut pass);
    let (e, f, g) = (name(rt, b"e"), name(rt, b"f"), name(rt, b"g"));
    let first = run(rt, board, &mut pass, e, erosion(rt, f));
    let cancelled = cancel(rt, board, &mut pass, e);
    let waited = wait(rt, board, &mut pass, e);
    let second = run(rt, board, &mut pass, g, erosion(rt, f));
    board.close(rt);
    let pending = wait(rt, board, &mut pass, g);
    assert_eq!(rt;
        [first, cancelled],
        [Reply::Accepted(2), Reply::Accepted(2)]
    );
    assert_eq!(rt; [waited, second], [Reply::Cancelled(2), Reply::Accepted(3)]);
    assert_eq!(rt; (pending, pass.receipts().len()), (Reply::Pending(3), 7));
    assert!(rt; !board.audit_all(rt, &[]));
    assert!(rt; board.audit_all(rt, slice::from_ref(&pass)));
}

#[test]
fn waits_end_without_workers(rt: HostRuntime) {
    on_a_board(&rt, rt.alloc(), Scene::alone(Act::WaitAlone));
}

/// A session that loads the row, or asks how it stands, which it is told.
fn session<R: Wait + Abort, J: Naming>(
    rt: &R,
    alloc: Global,
    board: &Board<J>,
    loads: bool,
) -> (Pass, Option<Reply>) {
    let mut pass = board.pass();
    if loads {
        load_both(rt, alloc, board, &mut pass);
        return (pass, None);
    }
    let reply = status(rt, board, &mut pass, name(rt, b"f"));
    (pass, Some(reply))
}

/// Such a session in a thread of its own.
fn session_apart<R: Threads + Wait + Abort + Sync, J: Naming + Send + Sync>(
    rt: &R,
    alloc: Global,
    board: &Board<J>,
    loads: bool,
) -> (Pass, Option<Reply>) {
    let (found, ()) = join(rt, move || session(rt, alloc, board, loads), || ());
    found
}

/// Whether the first pass, the second and both cover the log.
fn audits<R: Wait + Abort, J: Naming>(
    rt: &R,
    alloc: Global,
    board: &Board<J>,
    one: Pass,
    other: Pass,
) -> [bool; 3] {
    let first = board.audit_all(rt, slice::from_ref(&one));
    let second = board.audit_all(rt, slice::from_ref(&other));
    [
        first,
        second,
        board.audit_all(rt, &both(rt, alloc, one, other)),
    ]
}

/// Two sessions in threads of their own, one after the other.
pub(crate) fn two_passes<R: Threads + Wait + Abort + Sync, J: Naming + Send + Sync>(
    rt: &R,
    alloc: Global,
    board: &Board<J>,
    looks_at_reply: bool,
) {
    let (one, _) = session_apart(rt, alloc, board, true);
    let (other, reply) = session_apart(rt, alloc, board, false);
    if looks_at_reply {
        assert_eq!(rt; reply, Some(done(0)));
    } else {
        assert_eq!(rt; audits(rt, alloc, board, one, other), [false, false, true]);
    }
}

/// The log has the calls of both passes, and not those of one alone: a board that answers without asking its core fails.
#[test]
fn reply_without_asking_core(rt: HostRuntime) {
    on_a_board(&rt, rt.alloc(), Scene::alone(Act::TwoPasses(false)));
}

/// What one session did is what another is told: a board with a core for each pass fails.
#[test]
fn core_for_each_pass(rt: HostRuntime) {
    on_a_board(&rt, rt.alloc(), Scene::alone(Act::TwoPasses(true)));
}

/// A row is loaded and eroded, and both images are fetched.
pub(crate) fn fetch_both<R: Wait + Abort, J: Naming>(rt: &R, alloc: Global, board: &Board<J>) {
    let mut pass = board.pass();
    load_both(rt, alloc, board, &mut pass);
    let (e, f) = (name(rt, b"e"), name(rt, b"f"));
    run(rt, board, &mut pass, e, erosion(rt, f));
    wait(rt, board, &mut pass, e);
    shows(rt, alloc, board, &mut pass, f, LOADED);
    shows(rt, alloc, board, &mut pass, e, ERODED);
}

/// What is fetched is what was loaded, or was made of it: a board that hands on other pixels fails.
#[test]
fn board_swaps_pixels(rt: HostRuntime) {
    let scene = Scene::beside(1, Way::Freely, Act::FetchBoth);
    on_a_board(&rt, rt.alloc(), scene);
}
