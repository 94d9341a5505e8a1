//! Why a service ends before it is to.

ghost use Rattle.std.specs.Prelude.{◌≡◌};
ghost use Rattle.mw_server_serve.specs.Services.{serve_line};

use mw_server_socket::wire::ReplyLine;
use mw_server_socket::{PortFault, port_line, text_line};

/// There was no memory for what a service or a session begins with; the port could not be listened on, or the one of the state;
/// the listening socket could not be copied or asked for its port; no descriptor was left for a connection; the line that names
/// the port could not be written; or a thread could not be started.
#[derive(Clone, Copy, Debug, PartialEq, Eq)]
pub enum ServeFault {
    Memory,
    Port(PortFault),
    Status(u16, PortFault),
    Socket,
    Descriptors,
    Output,
    Thread,
}

impl ServeFault {
    /// The line that tells it, where this port was asked for.
    pub fn line(&self, port: u16) -> ReplyLine
        ensures { result ≡ serve_line port self.now }
    {
        match self {
            ServeFault::Memory => text_line("error: memory\n"),
            ServeFault::Port(fault) => port_line(port, *fault),
            ServeFault::Status(state, fault) => port_line(*state, *fault),
            ServeFault::Socket => text_line("error: socket\n"),
            ServeFault::Descriptors => text_line("error: descriptors\n"),
            ServeFault::Output => text_line("error: output\n"),
            ServeFault::Thread => text_line("error: thread\n"),
        }
    }
}
