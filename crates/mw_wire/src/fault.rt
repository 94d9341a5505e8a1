//! Why a session stops before its end.

ghost use Rattle.std.specs.Prelude.{◌≡◌};
ghost use Rattle.mw_wire.specs.Faults.{fault_text};

use thiserror::Error;

/// Reading or writing failed.
#[derive(Clone, Copy, PartialEq, Debug, Drop, Error)]
#[error("{}", self.text())]
pub enum SessionFault {
    Read,
    Write,
}

impl SessionFault {
    /// What is told of it.
    pub fn text(&self) -> &'static str
        ensures { result.now ≡ fault_text self.now }
    {
        match self {
            SessionFault::Read => "error: input",
            SessionFault::Write => "error: output",
        }
    }
}
