//! Workers that all sleep, and one session alone: nobody else comes to the board, so a waking that is lost stays lost.

use crate::desk::{done, erosion, load_both, name, numbered, run, wait};
use crate::door::{Door, WORKERS, Way};
use crate::scenes::{Act, Scene, on_a_board};
use crate::watch::{comes_to, let_sleep};
use mw_pool::{Board, Naming};
use std::alloc::Global;
use std::process::Abort;
use std::sync::Wait;
use std::time::Clock;

/// How many commands the session asks for, one after the other.
const COMMANDS: u32 = 10;

/// Each command is done. Before each one all workers have had time to sleep.
pub(crate) fn runs_wake_sleepers<R: Wait + Clock + Abort, J: Naming>(
    rt: &R,
    alloc: Global,
    board: &Board<J>,
) {
    let mut pass = board.pass();
    load_both(rt, alloc, board, &mut pass);
    for number in 0..COMMANDS {
        let_sleep(rt);
        let made = numbered(rt, number, 0);
        run(rt, board, &mut pass, made, erosion(rt, name(rt, b"f")));
        assert_eq!(rt; wait(rt, board, &mut pass, made), done(number + 2));
    }
}

#[test]
fn a_run_wakes_one_worker_for_one_task(rt: HostRuntime) {
    let scene = Scene::beside(WORKERS, Way::Freely, Act::RunsWake);
    on_a_board(&rt, rt.alloc(), scene);
}

/// One task is computed, and as many as there are workers wait for its result: it makes three tasks ready. Who brings it takes the
/// first one, and wakes a worker for each other. Then the last of these is waited for.
pub(crate) fn one_result_wakes_many<R: Wait + Clock + Abort, J: Naming>(
    rt: &R,
    alloc: Global,
    board: &Board<J>,
    door: &Door<'_, R>,
) {
    let mut pass = board.pass();
    load_both(rt, alloc, board, &mut pass);
    let_sleep(rt);
    let first = name(rt, b"e");
    run(rt, board, &mut pass, first, erosion(rt, name(rt, b"f")));
    comes_to(rt, &door.begun, 1);
    let mut last = first;
    for number in 0..WORKERS as u32 {
        last = numbered(rt, number, 0);
        run(rt, board, &mut pass, last, erosion(rt, first));
    }
    door.lets_all_go();
    assert_eq!(rt; wait(rt, board, &mut pass, last), done(5));
}

#[test]
fn a_result_wakes_one_worker_for_each_other_task(rt: HostRuntime) {
    let scene = Scene::beside(WORKERS, Way::Together, Act::ResultWakes);
    on_a_board(&rt, rt.alloc(), scene.meeting(WORKERS));
}
