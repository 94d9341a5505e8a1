//! Why a server fails.

ghost use Rattle.std.specs.Prelude.{◌≡◌};
ghost use Rattle.mw_server_listen.specs.Listening.{listen_line};

use mw_server_socket::wire::ReplyLine;
use mw_server_socket::{PortFault, port_line, text_line};

/// There was no memory to begin or for a thread's handle; the port could not be listened on; a connection could not be
/// accepted; a thread could not be started; the passes do not cover the log; or the line that tells the port could not be
/// written.
#[derive(Clone, Copy, Debug, PartialEq, Eq)]
pub enum ListenFault {
    Memory,
    Port(PortFault),
    Socket,
    Thread,
    Audit,
    Output,
}

impl ListenFault {
    /// The line that tells it, where this port was asked for.
    pub fn line(&self, port: u16) -> ReplyLine
        ensures { result ≡ listen_line port self.now }
    {
        match self {
            ListenFault::Memory => text_line("error: memory\n"),
            ListenFault::Port(fault) => port_line(port, *fault),
            ListenFault::Socket => text_line("error: socket\n"),
            ListenFault::Thread => text_line("error: thread\n"),
            ListenFault::Audit => text_line("error: audit\n"),
            ListenFault::Output => text_line("error: output\n"),
        }
    }
}
