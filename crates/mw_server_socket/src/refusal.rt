//! What a client is told for whom there is no room.

ghost use Rattle.std.specs.Prelude.{OnOk};
ghost use Rattle.std.specs.Io.KnownBytes.{Appends};
ghost use Rattle.mw_wire.specs.Failures.{RemembersFailure};
ghost use Rattle.mw_server_socket.specs.Refusals.{busy_line};

use crate::port::text_line;
use mw_wire::{SessionFault, Sink, send};
use std::io::Write;
use std::net::{OpenStream, Shutdown};

/// Tells a client that there is no room for it, by a line that belongs to no session, and that nothing more is sent. A
/// connection that was just accepted has room for the line, so nothing is waited for. What the client sent is to be read
/// before the connection is closed, as `finish` does.
pub fn turn_away<S: OpenStream, W: Write>(
    socket: &S,
    output: &mut Sink<W>,
) -> Result<(), SessionFault>
    ensures told { OnOk result (Appends (W.contents output.old.inner) (W.contents output.new.inner) busy_line) }
    ensures remembers { RemembersFailure output.old.failed output.new.failed result }
{
    send(output, text_line("ERR 60 BUSY\n").as_bytes())?;
    let _closed = socket.shutdown(Shutdown::Write);
    Ok(())
}
