//! What stands in the table of the machine beside a name.

use crate::{Op, Shape};

/// The tickets of a command's inputs, in argument order.
#[derive(Clone, Copy, PartialEq, Eq, Debug)]
pub struct Inputs {
    pub a: Option<u32>,
    pub b: Option<u32>,
    pub c: Option<u32>,
}

/// Where a value comes from.
#[derive(Clone, Copy, PartialEq, Eq, Debug)]
pub enum Command {
    /// A payload, of a LOAD or an ELEMENT.
    Given,
    Run(Op),
}

/// What was accepted under a ticket, without its name and payload.
#[derive(Clone, Copy, PartialEq, Eq, Debug)]
pub struct Submission {
    pub shape: Shape,
    pub command: Command,
    pub inputs: Inputs,
}
