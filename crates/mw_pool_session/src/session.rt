//! A whole session at a board, from a reader to a writer.

ghost use Rattle.std.specs.Prelude.{◌≡◌, false};
ghost use Rattle.mw_session_fetch.specs.mw_wire.Failures.{IsUnread, TellsFailures};
ghost use Rattle.mw_session_fetch.specs.mw_wire.Runs.{DeskRan};
ghost use Rattle.mw_pool_session.specs.Serving.{RequestServed};

use crate::counter::BoardHandler;
use mw_model::End;
use mw_pool::{Board, Naming, Pass};
use mw_session_fetch::wire::{SessionFault, Sink, Source, run_session};
use std::alloc::Global;
use std::io::{Read, Write};
use std::sync::Wait;

/// Serves a session: reads to the end, to QUIT or to a fault, and makes of each request one call of the board with this
/// pass. The replies to what came with one read go out together, before more is read. Want of memory is `ERR 50 MEMORY` for
/// that request, and ends the session where a line or a payload is gathered.
///
/// A session makes at most `READ_LIMIT` reads, and makes one again that was interrupted.
pub fn serve<R: Read, W: Write, X: Wait, J: Naming>(
    rt: &X,
    alloc: Global,
    source: &mut Source<R>,
    sink: &mut Sink<W>,
    board: &Board<J>,
    pass: &mut Pass,
) -> Result<End, SessionFault>
    requires source_fresh { IsUnread source.old.failed source.old.reads }
    requires sink_clear { sink.old.failed ≡ false }
    // The receipts that were added are those of the requests that were read, and what was written is their replies, or what a fault left of it.
    ensures ran { DeskRan RequestServed pass.old pass.new (R.remaining source.old.inner) (R.remaining source.new.inner) (W.contents sink.old.inner) (W.contents sink.new.inner) result }
    ensures failures { TellsFailures source.new.failed source.new.reads sink.new.failed result }
{
    let mut counter = BoardHandler { rt, alloc, board };
    run_session(alloc, source, sink, &mut counter, pass)
}
