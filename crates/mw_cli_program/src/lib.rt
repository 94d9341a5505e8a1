//! The program behind its command line: one call does the job that was asked for, over the readers and writers that `morphd`
//! lends it.
//!
//! ```text
//! let status = perform(&rt, alloc, &job, &mut source, &mut sink, &mut faults);
//! ```
#![tactic(auto)]

mod job;

pub use job::perform;
