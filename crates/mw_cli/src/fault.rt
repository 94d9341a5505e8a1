//! Why a command line asks for no job.

ghost use Rattle.std.specs.Prelude.{◌≡◌};
ghost use Rattle.mw_cli.specs.CommandLine.{fault_status};

use std::io;
use std::io::{Eprint, Print};

/// Clap refuses the words or answers them by a text, or a number is none that there may be, or there is
/// no memory.
#[derive(Drop)]
pub enum LineFault {
    Line(clap::Error),
    Port,
    ServePort,
    Workers,
    Sessions,
    ServeSessions,
    Tile,
    Idle,
    Queue,
    Grace,
    Status,
    Time,
    Memory,
    NoMemory,
}

impl LineFault {
    /// The exit status: 0 where help was asked for, 2 for words that are refused, 1 for want of
    /// memory.
    pub fn status(&self) -> u8
        ensures { result ≡ fault_status self.now }
    {
        match self {
            LineFault::Line(error) => { if error.use_stderr() { 2 } else { 0 } }
            LineFault::NoMemory => 1,
            _ => 2,
        }
    }

    /// Prints help to standard output, and a fault to standard error.
    pub fn print<R: Print + Eprint>(&self, rt: &R) -> io::Result<()> {
        match self {
            LineFault::Line(error) => error.print(rt),
            LineFault::Port => eprintln!(rt; "error: port must be from 1 to 65535"),
            LineFault::ServePort => eprintln!(rt; "error: port must be from 0 to 65535"),
            LineFault::Workers => eprintln!(rt; "error: workers must be from 1 to 64"),
            LineFault::Sessions => eprintln!(rt; "error: sessions must be from 1 to 64"),
            LineFault::ServeSessions => eprintln!(rt; "error: sessions must be from 1 to 1024"),
            LineFault::Tile => eprintln!(rt; "error: tile must be a multiple of 64"),
            LineFault::Idle => eprintln!(rt; "error: idle must be from 1 to 86400"),
            LineFault::Queue => eprintln!(rt; "error: queue must be from 1 to 1024"),
            LineFault::Grace => eprintln!(rt; "error: grace must be from 1 to 86400"),
            LineFault::Status => eprintln!(rt; "error: status must be from 1 to 65535"),
            LineFault::Time => eprintln!(rt; "error: time must be from 1 to 86400"),
            LineFault::Memory => eprintln!(rt; "error: memory must be from 1 to 1048576"),
            LineFault::NoMemory => eprintln!(rt; "error: memory"),
        }
    }
}
