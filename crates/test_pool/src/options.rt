//! How long a client is waited for, and how soon it is answered, by what is asked of its socket.

use crate::socket::{FOR_EVER, Fails, Noted};
use mw_server_socket::{bound, prepare};
use std::process::Abort;

#[test]
fn one_wait_without_a_bound_is_told(rt: HostRuntime) {
    for fails in [Fails::Reads, Fails::Writes] {
        assert!(rt; !bound(&Noted::new(fails), Some(7)));
        assert!(rt; !prepare(&Noted::new(fails), Some(7)));
    }
}

#[test]
fn what_is_prepared_is_bounded_in_seconds(rt: HostRuntime) {
    for (idle, wanted) in [(None, FOR_EVER), (Some(7), 7000)] {
        let socket = Noted::new(Fails::Nothing);
        assert!(rt; prepare(&socket, idle));
        assert!(rt; socket.quick.get());
        assert_eq!(rt; (socket.reads.get(), socket.writes.get()), (wanted, wanted));
    }
    assert!(rt; prepare(&Noted::new(Fails::Delay), Some(7)));
}
