//! Requests, cut from bytes that come in any pieces.
//!
//! ```
//! let mut intake = Intake::new(alloc);
//! intake.feed(b"STATUS e")?;
//! let more = intake.next()?; // Next::More
//! intake.feed(b"rosion\nQU")?;
//! let status = intake.next()?; // Next::Request(Request::Status(..))
//! ```
#![tactic(auto)]

mod cut;
mod intake;
mod laws;
mod line;

pub use intake::Intake;
pub use laws::{front_stays, lines_say_one_thing, one_front_stands, one_reading};
pub use mw_model::NoMemory;
