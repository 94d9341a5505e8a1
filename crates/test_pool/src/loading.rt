//! The file of a LOAD is read without the lock: the calls of other sessions go on meanwhile.

use crate::desk::{name, numbered};
use crate::door::{Door, Way};
use crate::scenes::{Act, Scene, on_a_board};
use mw_pool::{Board, Naming, Pass};
use std::alloc::Global;
use std::process::Abort;
use std::sync::Wait;
use std::sync::atomic::Ordering;
use std::thread;
use std::time::{Clock, Duration};

/// How many loads there are at most.
const LOADS: u32 = 10;

/// How many of them have to be overlapped. A machine that is busy may run one of the two sessions alone for a while.
const ENOUGH: u32 = 3;

/// So many calls within one LOAD: at most two could be served before it has the lock and behind it.
const CALLS: u64 = 5;

/// Plain text of 2048 x 1024 samples, which takes some 15 milliseconds to read.
fn picture(rt: &impl Abort, alloc: Global) -> Vec<u8> {
    let mut bytes = Vec::new(alloc);
    bytes
        .extend_from_slice(b"P2\n2048 1024\n9\n")
        .expect(rt, "memory");
    for _ in 0..131_072u32 {
        bytes
            .extend_from_slice(b"3 1 4 1 5 9 2 6 5 3 5 8 9 7 9 3\n")
            .expect(rt, "memory");
    }
    bytes
}

/// Loads the picture under this name, and says whether calls were served meanwhile.
fn is_overlapped<R: Wait + Clock + Abort, J: Naming>(
    rt: &R,
    board: &Board<J>,
    pass: &mut Pass,
    number: u32,
    bytes: Vec<u8>,
    door: &Door<'_, R>,
) -> bool {
    let made = numbered(rt, number, 0);
    let before = door.asked.load(Ordering::SeqCst);
    board.load(rt, pass, made, bytes).expect(rt, "memory");
    let after = door.asked.load(Ordering::SeqCst);
    board.release(rt, pass, made).expect(rt, "memory");
    after.saturating_sub(before) >= CALLS
}

/// How many loads were overlapped, until these are enough.
fn overlapped<R: Wait + Clock + Abort, J: Naming>(
    rt: &R,
    alloc: Global,
    board: &Board<J>,
    door: &Door<'_, R>,
) -> u32 {
    let picture = picture(rt, alloc);
    let mut pass = board.pass();
    let mut count = 0u32;
    for number in 0..LOADS {
        if count >= ENOUGH {
            break;
        }
        let bytes = picture.as_slice().to_vec(alloc).ok().expect(rt, "memory");
        if is_overlapped(rt, board, &mut pass, number, bytes, door) {
            count = count.saturating_add(1);
        }
    }
    count
}

/// A board that reads the file under its lock fails.
pub(crate) fn loads_beside<R: Wait + Clock + Abort, J: Naming>(
    rt: &R,
    alloc: Global,
    board: &Board<J>,
    door: &Door<'_, R>,
) {
    assert_eq!(rt; overlapped(rt, alloc, board, door), ENOUGH);
    door.lets_all_go();
}

/// Another session: one call after the other, with pauses.
pub(crate) fn ask_on<R: Wait + Clock + Abort, J: Naming>(
    rt: &R,
    board: &Board<J>,
    door: &Door<'_, R>,
) {
    let mut pass = board.pass();
    for _ in rt.forever() {
        if door.open.load(Ordering::SeqCst) > 0 {
            return;
        }
        board
            .status(rt, &mut pass, name(rt, b"x"))
            .expect(rt, "memory");
        door.asked.fetch_add(1, Ordering::SeqCst);
        thread::sleep(rt, Duration::from_millis(1));
    }
}

#[test]
fn others_are_served_while_a_file_is_read(rt: HostRuntime) {
    let scene = Scene::beside(1, Way::Freely, Act::Loads);
    on_a_board(&rt, rt.alloc(), scene);
}
