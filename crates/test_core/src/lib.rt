//! Tests of the core by lists of calls and tasks that no session makes: results that are late, strange or made by hand, tasks
//! that find no memory, tiles that end in another order, a hundred running tasks, values that are kept no longer than
//! they are wanted, and lists of events.
//!
//! The module `plans` is of plans of several hundred steps. No contract can say that such calls succeed with ample memory.
//!
//! In the modules `calls`, `events`, `owners` and `results` a call whose memory is refused is made once more, so their tests
//! pass whichever allocation is refused. That nothing is refused where memory is ample, `ample` tests.
//!
//! ```text
//! rt test     // in this folder; then `make memory` refuses each allocation in turn
//! ```
#![tactic(auto)]

#[cfg(test)]
mod ample;
#[cfg(test)]
mod by_hand;
#[cfg(test)]
mod calls;
#[cfg(test)]
mod desk;
#[cfg(test)]
mod events;
#[cfg(test)]
mod locked_core;
#[cfg(test)]
mod many;
#[cfg(test)]
mod owners;
#[cfg(test)]
mod plans;
#[cfg(test)]
mod play;
#[cfg(test)]
mod results;
#[cfg(test)]
mod sides;
