//! Where memory is ample none is ever wanting: no contract can rule out that a call says so for no reason.

use crate::calls::{CASCADE, FAILS_TWO, LET_GO, REFUSED, WANTED, WANTED_TWICE};
use crate::desk::ROW;
use crate::play::{Turn, wants};
use crate::results::{BACK, BY_HAND, CANCELLED, DEATH, FORTH, LONG_ROW, PLACES, SECOND_STEP};
use std::process::Abort;

const LISTS: &[(&[u8], &[Turn])] = &[
    (ROW, CASCADE),
    (ROW, WANTED),
    (ROW, LET_GO),
    (ROW, WANTED_TWICE),
    (ROW, FAILS_TWO),
    (ROW, REFUSED),
    (ROW, CANCELLED),
    (ROW, BY_HAND),
    (ROW, PLACES),
    (ROW, DEATH),
    (LONG_ROW, FORTH),
    (LONG_ROW, BACK),
    (LONG_ROW, SECOND_STEP),
];

#[test]
fn always_no_memory(rt: HostRuntime) {
    for (row, turns) in LISTS {
        assert_eq!(rt; wants(&rt, rt.alloc(), row, turns), Some(0));
    }
}
