//! Sessions: `run_script` serves the requests of a reader by a core and writes the replies.
//!
//! ```
//! let mut source = Source::new(reader);
//! let mut sink = Sink::new(writer);
//! let end = run_script(crew, &mut source, &mut sink, &mut core, &mut pick)?; // `run_counted`: with a tally
//! ```
#![tactic(auto)]

mod answer;
mod budget;
mod costs;
mod laws;
mod script;
mod tally;
mod within;

pub use laws::{covered_is_within, finished_is_script, stopped_is_broken};
pub use mw_core_waves::{Core, Crew, Pick};
pub use mw_model::End;
pub use script::{run_counted, run_script};
pub use tally::Tally;

// What lower crates offer, for the crates above.
pub mod wire {
    pub use mw_session_fetch::wire::{ReplyLine, Sink, Source, send, tell};
}
