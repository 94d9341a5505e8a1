//! Why a job was not run.

use std::alloc::{AllocError, AllocFailed};
use std::io;

#[derive(Debug, Drop)]
pub(crate) enum Fault {
    Memory,
    /// The words of the command line name no job.
    Words,
    /// The session did not come to its end.
    Session,
    System(io::Error),
}

impl From<AllocError> for Fault {
    fn from(_error: AllocError) -> Fault {
        Fault::Memory
    }
}

impl<T: Drop> From<AllocFailed<T>> for Fault {
    fn from(_error: AllocFailed<T>) -> Fault {
        Fault::Memory
    }
}

impl From<io::Error> for Fault {
    fn from(error: io::Error) -> Fault {
        Fault::System(error)
    }
}
