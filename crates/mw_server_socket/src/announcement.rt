//! The line that tells where connections can be made.

ghost use Rattle.std.specs.Prelude.{OnOk};
ghost use Rattle.std.specs.Io.KnownBytes.{Appends};
ghost use Rattle.mw_wire.specs.Failures.{RemembersFailure};
ghost use Rattle.mw_server_socket.specs.Announcements.{announcement};

use mw_wire::{ReplyLine, SessionFault, Sink, pass_on, send};
use std::io::Write;

/// Writes `LISTENING 127.0.0.1` and the port, and has the writer pass it on.
pub fn announce<W: Write>(output: &mut Sink<W>, port: u16) -> Result<(), SessionFault>
    ensures told { OnOk result (Appends (W.contents output.old.inner) (W.contents output.new.inner) (announcement port)) }
    ensures remembers { RemembersFailure output.old.failed output.new.failed result }
{
    let mut line = ReplyLine::new();
    line.push(b"LISTENING 127.0.0.1");
    line.push_number(port as usize);
    line.push(b"\n");
    send(output, line.as_bytes())?;
    pass_on(output)
}
