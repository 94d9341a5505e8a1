//! The words of a line: names and numbers, divided by single blanks.
//!
//! ```
//! let mut words = LineWords::new(b"RUN e SPECTRUM f b 32");
//! let run = words.word(); // Some(b"RUN")
//! let name = words.name(); // Some(e)
//! ```
//!
//! They stand apart from the lines, so that wrong bodies of them are tried over little.
#![tactic(auto)]

mod words;

pub use words::LineWords;
