//! Clients, one after the other.

use std::net::OpenListener;
use std::sync::atomic::{AtomicBool, Ordering};
use std::thread;
use std::time::{Clock, Duration};

/// How many milliseconds are waited where a connection could not be accepted: where descriptors or memory are short, others
/// give some back meanwhile.
const PAUSE: u64 = 20;

/// How many are waited at most, where it could not be accepted again and again.
const LONGEST_PAUSE: u64 = 320;

/// The connection of the next client. Where it cannot be accepted, that is tried again after a pause, and then after pauses
/// that double up to a third of a second. None once it is over.
pub fn next_client<L: OpenListener, C: Clock>(
    listener: &L,
    clock: &C,
    is_over: &AtomicBool,
) -> Option<L::Stream> {
    let mut pause = PAUSE;
    for accepted in listener.incoming() {
        if is_over.load(Ordering::SeqCst) {
            return None;
        }
        match accepted {
            Ok(stream) => return Some(stream),
            Err(_) => {
                thread::sleep(clock, Duration::from_millis(pause));
                pause = pause.saturating_mul(2).min(LONGEST_PAUSE);
            }
        }
    }
    None
}
