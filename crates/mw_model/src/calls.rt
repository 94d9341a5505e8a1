//! What a session asks of the machine, what it answers, and what its log keeps.

ghost use Rattle.std.specs.Prelude.{◌≡◌};
ghost use Rattle.mw_model.specs.Refusals as words;

use crate::{Code, Name, Op, Shape};

/// How an entry stands.
#[derive(Clone, Copy, PartialEq, Eq, Debug)]
pub enum Outcome {
    Pending,
    Done,
    Cancelled,
    /// Killed for want of memory.
    Memory,
    /// Failed by the input with this ticket.
    Input(u32),
    /// Done once, and let go since.
    Released,
}

impl Outcome {
    /// The value is still to come.
    pub fn is_pending(&self) -> bool
        ensures { result ≡ words.is_pending self.now }
    {
        matches!(self, Outcome::Pending)
    }

    /// The value is there.
    pub fn is_done(&self) -> bool
        ensures { result ≡ words.is_done self.now }
    {
        matches!(self, Outcome::Done)
    }

    /// Cancelled, out of memory, or failed by an input.
    pub fn is_dead(&self) -> bool
        ensures { result ≡ words.is_dead self.now }
    {
        matches!(
            self,
            Outcome::Cancelled | Outcome::Memory | Outcome::Input(_)
        )
    }

    /// The value was there, and was let go since.
    pub fn is_released(&self) -> bool
        ensures { result ≡ words.is_released self.now }
    {
        matches!(self, Outcome::Released)
    }

    /// Done, or released since.
    pub fn is_there(&self) -> bool
        ensures { result ≡ words.is_there self.now }
    {
        self.is_done() || self.is_released()
    }
}

/// What became of a payload: the shape of what it holds, or why it holds nothing.
#[derive(Clone, Copy, PartialEq, Eq, Debug)]
pub enum Given {
    Good(Shape),
    Bad(Code),
}

/// A session call.
#[derive(Clone, Copy, PartialEq, Eq, Debug)]
pub enum Call {
    Load(Name, Given),
    Element(Name, Given),
    Run(Name, Op),
    Cancel(Name),
    Status(Name),
    Fetch(Name),
    Release(Name),
}

/// The answer to a session call. A number is a ticket.
#[derive(Clone, Copy, PartialEq, Eq, Debug)]
pub enum Reply {
    Accepted(u32),
    Refused(Code),
    Pending(u32),
    Done(u32, Shape),
    Cancelled(u32),
    OutOfMemory(u32),
    /// The ticket, and that of the input by which it failed.
    BadInput(u32, u32),
    Released(u32),
    /// A FETCH hands out an image or a curve.
    Shown(u32),
}

/// One item of the log.
#[derive(Clone, Copy, PartialEq, Eq, Debug)]
pub enum LogItem {
    Call(Call, Reply),
    Finished(u32),
    /// Killed for want of memory.
    Killed(u32),
}
