//! Workers compute beside one another, without the lock.

use crate::desk::{DILATED, ERODED, dilation, done, erosion, load_both, name, run, shows, wait};
use crate::door::Way;
use crate::scenes::{Act, Scene, on_a_board};
use mw_pool::{Board, Naming};
use std::alloc::Global;
use std::process::Abort;
use std::sync::Wait;

/// An erosion and a dilation are waited for. The first task is held until the other one has ended.
pub(crate) fn two_overlap<R: Wait + Abort, J: Naming>(rt: &R, alloc: Global, board: &Board<J>) {
    let mut pass = board.pass();
    load_both(rt, alloc, board, &mut pass);
    let (d, e, f) = (name(rt, b"d"), name(rt, b"e"), name(rt, b"f"));
    run(rt, board, &mut pass, d, erosion(rt, f));
    run(rt, board, &mut pass, e, dilation(rt, f));
    assert_eq!(rt; wait(rt, board, &mut pass, d), done(2));
    assert_eq!(rt; wait(rt, board, &mut pass, e), done(3));
    shows(rt, alloc, board, &mut pass, d, ERODED);
    shows(rt, alloc, board, &mut pass, e, DILATED);
}

/// A board that computes under its lock, or has one worker for all, fails.
#[test]
fn computes_under_lock(rt: HostRuntime) {
    let scene = Scene::beside(2, Way::Overlapping, Act::Overlap);
    on_a_board(&rt, rt.alloc(), scene.meeting(1));
}
