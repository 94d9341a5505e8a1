//! The command line of the program.
//!
//! ```text
//! let words = words(&rt)?;
//! match options(alloc, words.as_slice(), processors(&rt))? {
//!     Job::Batch(given) => batch(alloc, &mut source, &mut sink, &mut faults, given.side),
//!     Job::Listen(given) => listen(&rt, alloc, service, &mut output, &mut faults, &gate),
//!     Job::Serve(given) => serve(&rt, alloc, service, until, &mut output, &mut faults),
//! }
//! ```
#![tactic(auto)]

mod fault;
mod help;
mod line;

pub use fault::LineFault;
pub use line::{
    BatchOptions, Job, ListenOptions, ServeOptions, VERSION, options, processors, words,
};
