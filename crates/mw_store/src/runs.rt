//! A RUN whose names are looked up.

use mw_gran::plan::Input;
use mw_model::Submission;

/// What stands in the table for a RUN, and what a plan is told of its inputs: so each name is looked up once.
#[derive(Clone, Copy)]
pub struct ResolvedRun<'a> {
    /// The operation, the shape of its result, and the tickets of its inputs.
    pub submission: Submission,
    pub a: Input<'a>,
    pub b: Input<'a>,
    pub c: Input<'a>,
}
