//! Numbers of tasks.

/// One tile of one step of the command under a ticket.
#[derive(Clone, Copy, PartialEq, Eq, Debug)]
pub struct TaskId {
    pub ticket: u32,
    pub step: u32,
    pub tile: u32,
}
