//! A board that is closed: what its workers compute still, and that they end.

use crate::desk::{erosion, load_both, name, numbered, run};
use crate::door::{Door, WORKERS, Way};
use crate::scenes::{Act, Scene, on_a_board};
use crate::watch::comes_to;
use mw_pool::{Board, Naming, work};
use std::alloc::Global;
use std::process::Abort;
use std::sync::Wait;
use std::sync::atomic::Ordering;
use std::time::Clock;

/// How many tasks are ready at first.
const TASKS: u32 = 200;

/// Erosions of the row, all of them ready.
pub(crate) fn lay_out<R: Wait + Abort, J: Naming>(rt: &R, alloc: Global, board: &Board<J>) {
    let mut pass = board.pass();
    load_both(rt, alloc, board, &mut pass);
    for number in 0..TASKS {
        let made = numbered(rt, number, 0);
        run(rt, board, &mut pass, made, erosion(rt, name(rt, b"f")));
    }
}

/// Closes the board once all workers compute.
pub(crate) fn close_over_tasks<R: Wait + Clock + Abort, J: Naming>(
    rt: &R,
    board: &Board<J>,
    door: &Door<'_, R>,
) {
    assert!(rt; comes_to(rt, &door.begun, WORKERS));
    board.close(rt);
    door.lets_all_go();
}

/// Each worker has brought what it computed, and took none of the other tasks. Nor does one that comes late.
pub(crate) fn begins_none<R: Wait + Clock + Abort, J: Naming>(
    rt: &R,
    board: &Board<J>,
    door: &Door<'_, R>,
) {
    work(rt, board, door);
    assert_eq!(rt; door.begun.load(Ordering::SeqCst), WORKERS);
}

#[test]
fn no_task_is_begun_behind_the_close(rt: HostRuntime) {
    let scene = Scene::beside(WORKERS, Way::Held, Act::CloseOverTasks);
    on_a_board(&rt, rt.alloc(), scene);
}

/// Workers that sleep, since no task is ready, end with their board: else the scene does not.
#[test]
fn a_close_wakes_all_workers(rt: HostRuntime) {
    let scene = Scene::beside(WORKERS, Way::Freely, Act::CloseOverSleepers);
    on_a_board(&rt, rt.alloc(), scene);
}
