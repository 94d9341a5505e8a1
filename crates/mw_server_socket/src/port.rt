//! Why a port cannot be listened on, and the line that tells it.

ghost use Rattle.std.specs.Prelude.{◌≡◌, ◌≤◌, length};
ghost use Rattle.std.specs.IoError.{error_kind};
ghost use Rattle.mw_server_socket.specs.Ports.{port_line, reason_of, reason_text};

use mw_wire::ReplyLine;
use std::io;
use std::io::ErrorKind;

/// Another program listens on the port; only others may listen on it; or the system gave another reason.
#[derive(Clone, Copy, Debug, PartialEq, Eq)]
pub enum PortFault {
    Taken,
    NoRights,
    Refused,
}

impl PortFault {
    /// The reason that an error gives.
    pub fn of(error: &io::Error) -> PortFault
        ensures { result ≡ reason_of (error_kind error.now) }
    {
        match error.kind() {
            ErrorKind::AddrInUse => PortFault::Taken,
            ErrorKind::PermissionDenied => PortFault::NoRights,
            _ => PortFault::Refused,
        }
    }

    /// What stands behind the port in the line.
    fn text(self) -> &'static str
        ensures text { result.now ≡ reason_text self }
        ensures short { length result.now ≤ 64 }
    {
        match self {
            PortFault::Taken => ": taken\n",
            PortFault::NoRights => ": no rights\n",
            PortFault::Refused => ": cannot be listened on\n",
        }
    }
}

/// The line that names a port and says why it cannot be listened on.
pub fn port_line(port: u16, fault: PortFault) -> ReplyLine
    ensures { result ≡ port_line port fault }
{
    let mut line = ReplyLine::new();
    line.push(b"error: socket: port");
    line.push_number(port as usize);
    line.push(fault.text().as_bytes());
    line
}

/// A line of this text.
pub fn text_line(text: &str) -> ReplyLine
    requires { length text.now ≤ 128 }
    ensures { result ≡ text.now }
{
    let mut line = ReplyLine::new();
    line.push(text.as_bytes());
    line
}
