//! What a core is counted as (`mw_core::Core::bytes`) while it goes on, call by call, and while its work is run. Laws and lemmas
//! alone: who bounds what a core may keep asks before each call, and cites here that no more is kept than was asked for.
#![tactic(auto)]

mod laws;

pub use laws::{calls_take_what_they_ask, work_takes_no_more};
