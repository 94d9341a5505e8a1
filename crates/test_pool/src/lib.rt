//! Tests of the board: what no contract of a running thread can say. Workers overlap, waits end, who sleeps is woken, and the board
//! hands on the pixels that it was given. Some tests are named by the wrong board that they would find. Each has a limit of its own in
//! seconds, so that a waking that is lost is a failure and no hang.
//!
//! The modules `audits`, `options`, `payloads` and `socket` are of servers: what no client can see.
//!
//! The module `refused` makes each call once more where it found no memory, so its tests pass whichever allocation is
//! refused.
//!
//! ```text
//! rt test     // in this folder; then `make memory` refuses each allocation of `refused` in turn
//! ```
#![tactic(auto)]

#[cfg(test)]
mod asleep;
#[cfg(test)]
mod audits;
#[cfg(test)]
mod closing;
#[cfg(test)]
mod desk;
#[cfg(test)]
mod door;
#[cfg(test)]
mod loading;
#[cfg(test)]
mod many;
#[cfg(test)]
mod options;
#[cfg(test)]
mod overlap;
#[cfg(test)]
mod payloads;
#[cfg(test)]
mod refused;
#[cfg(test)]
mod scenes;
#[cfg(test)]
mod sessions;
#[cfg(test)]
mod socket;
#[cfg(test)]
mod watch;
