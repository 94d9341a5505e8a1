//! A worker that finds no memory where it takes a task kills its ticket. Who waits for that ticket, or for what depends on it,
//! is woken and told so. Here no allocation fails by itself: `make memory` refuses each of them in turn, that of the task's
//! windows among them.

use crate::desk::{done, erosion, load_both, name, run, wait};
use crate::door::{Door, Way};
use crate::scenes::{Act, Scene, on_a_board};
use crate::watch::let_sleep;
use mw_model::Reply;
use mw_pool::{Board, Naming, work};
use std::alloc::Global;
use std::process::Abort;
use std::sync::Wait;
use std::time::Clock;

/// A worker that begins once the session has had time to sleep.
pub(crate) fn work_later<R: Wait + Clock, J: Naming>(rt: &R, board: &Board<J>, door: &Door<'_, R>) {
    let_sleep(rt);
    work(rt, board, door);
}

/// An erosion under `e`, ticket 2, and an erosion of that under `g`, ticket 3.
pub(crate) fn lay_out<R: Wait + Abort, J: Naming>(rt: &R, alloc: Global, board: &Board<J>) {
    let mut pass = board.pass();
    load_both(rt, alloc, board, &mut pass);
    let (e, f, g) = (name(rt, b"e"), name(rt, b"f"), name(rt, b"g"));
    run(rt, board, &mut pass, e, erosion(rt, f));
    run(rt, board, &mut pass, g, erosion(rt, e));
}

/// What a session is told that waits for one of these beside one worker.
pub(crate) fn wait_beside<R: Wait + Abort, J: Naming>(rt: &R, board: &Board<J>, depends: bool) {
    let (waited, t) = if depends {
        (name(rt, b"g"), 3)
    } else {
        (name(rt, b"e"), 2)
    };
    let reply = wait(rt, board, &mut board.pass(), waited);
    let is_refused = reply == Reply::OutOfMemory(t) || reply == Reply::BadInput(3, 2);
    assert!(rt; reply == done(t) || is_refused, "{reply:?}");
}

#[test]
fn a_refused_start_wakes_who_waits_for_its_ticket(rt: HostRuntime) {
    let scene = Scene::beside(1, Way::Freely, Act::Refused(false));
    on_a_board(&rt, rt.alloc(), scene);
}

#[test]
fn a_refused_start_wakes_who_waits_for_what_depends_on_it(rt: HostRuntime) {
    let scene = Scene::beside(1, Way::Freely, Act::Refused(true));
    on_a_board(&rt, rt.alloc(), scene);
}
