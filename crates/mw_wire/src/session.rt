//! A whole session, from a reader to a writer.

ghost use Rattle.std.specs.Prelude.{◌≡◌, ◌≢◌, ◌<◌, ◌↔◌, [], ◌++◌, length, ℕ, List, Option, None, IfOk, OnErr, OnOk, Ok, IsTrue, false};
ghost use Rattle.std.specs.Io.KnownBytes.{Appends};
ghost use Rattle.mw_model.specs.declared.requests.Ask.TheVariants as Ask;
ghost use Rattle.mw_model.specs.Lines.{AskAlone, Partial};
ghost use Rattle.mw_session_intake.specs.Intake.{HasNoWholeLine, IsPortion, IsTidy, asked};
ghost use Rattle.mw_session_intake.specs.Reading.{front};
ghost use Rattle.mw_wire.specs.Failures.{IsUnread, RemembersFailure, TellsFailures};
ghost use Rattle.mw_wire.specs.Writes.{EndsBy};
ghost use Rattle.mw_wire.specs.Runs.{Drains, DeskRan};

use crate::desk::Handler;
use crate::fault::SessionFault;
use crate::saying::{end_by, end_within};
use crate::sink::{Sink, pass_on};
use crate::source::{Source, receive};
use mw_model::{Code, End, Next, NoMemory, READ_LIMIT, Request};
use mw_session_intake::Intake;
use std::alloc::Global;
use std::io::{Read, Write};

/// How many bytes are read at a time.
const PIECE: usize = 65536;

fn is_quit(request: &Request) -> bool
    ensures { IsTrue result ↔ (asked request.now ≡ AskAlone Ask.Quit) }
{
    matches!(request, Request::Quit)
}

/// Answers the requests that wait, and says how the session ends where it does. No byte of a payload came with its line, so
/// no memory is asked for to cut them.
fn drain<W: Write, D: Handler>(
    intake: &mut Intake,
    sink: &mut Sink<W>,
    desk: &mut D,
    kept: &mut D::Kept,
) -> Result<Option<End>, SessionFault>
    requires ready { D.ready }
    requires tidy { IsTidy intake.old }
    ensures ran { (left : Option (List ℕ)) → Drains D.Answer left intake.old.bytes intake.new kept.old kept.new (W.contents sink.old.inner) (W.contents sink.new.inner) result }
    ensures waits { IfOk result (λ o. o ≡ None → front intake.new.bytes ≡ Partial) }
    ensures is_open { IfOk result (λ o. o ≡ None → HasNoWholeLine intake.new) }
    ensures remembers { RemembersFailure sink.old.failed sink.new.failed result }
{
    'requests: loop {
        match intake.next() {
            Err(NoMemory) => unreachable!(),
            Ok(Next::More) => return Ok(None),
            Ok(Next::Bad(code)) => return end_within(sink, code),
            Ok(Next::Request(request)) => {
                if is_quit(&request) {
                    return Ok(Some(End::Quit));
                }
                desk.answer(sink, kept, request)?;
            }
        }
    }
}

/// Feeds a portion, where the desk has room for the places that a payload gets for it. Want of memory, or of that room, comes
/// only where it has more bytes than there are places for.
fn take_in<D: Handler>(
    intake: &mut Intake,
    desk: &mut D,
    kept: &D::Kept,
    portion: &[u8],
) -> Result<(), NoMemory>
    ensures ok { OnOk result (intake.new.bytes ≡ intake.old.bytes ++ portion.now) }
    ensures err { OnErr result (intake.new.bytes ≡ intake.old.bytes) }
    ensures still { OnErr result (intake.new.spare < length portion.now) }
    ensures tidy { OnOk result (HasNoWholeLine intake.old → front intake.old.bytes ≡ Partial → IsPortion intake.old portion.now → IsTidy intake.new) }
{
    let places = intake.growth(portion);
    if places > 0 && !desk.has_room(kept, places) {
        return Err(NoMemory);
    }
    intake.feed(portion)
}

/// Serves a piece of the input: feeds it by portions, so that no byte of a payload is copied twice, and answers the
/// requests that wait after each. Where the session ends, what stands behind is not fed. It ends by want of memory only where
/// the next portion has more bytes than there are places for.
fn serve_piece<W: Write, D: Handler>(
    intake: &mut Intake,
    sink: &mut Sink<W>,
    desk: &mut D,
    kept: &mut D::Kept,
    piece: &[u8],
) -> Result<Option<End>, SessionFault>
    requires ready { D.ready }
    requires some { 0 < length piece.now }
    requires served { front intake.old.bytes ≡ Partial }
    requires is_open { HasNoWholeLine intake.old }
    ensures ran { (left : Option (List ℕ)) → Drains D.Answer left (intake.old.bytes ++ piece.now) intake.new kept.old kept.new (W.contents sink.old.inner) (W.contents sink.new.inner) result }
    ensures waits { IfOk result (λ o. o ≡ None → front intake.new.bytes ≡ Partial) }
    ensures is_open { IfOk result (λ o. o ≡ None → HasNoWholeLine intake.new) }
    ensures remembers { RemembersFailure sink.old.failed sink.new.failed result }
{
    let mut at = 0;
    'portions: while at < piece.len() {
        let (_, rest) = piece.split_at(at);
        let n = intake.portion(rest);
        let (portion, _) = rest.split_at(n);
        match take_in(intake, desk, kept, portion) {
            Err(NoMemory) => return end_within(sink, Code::Memory),
            Ok(()) => {}
        }
        if let Some(end) = drain(intake, sink, desk, kept)? {
            return Ok(Some(end));
        }
        at += n;
    }
    Ok(None)
}

/// Ends a session at the end of the input.
fn end_of_input<W: Write>(sink: &mut Sink<W>, intake: &Intake) -> Result<End, SessionFault>
    ensures quit { intake.now.bytes ≡ [] → (result ≡ Ok End.Quit) × Appends (W.contents sink.old.inner) (W.contents sink.new.inner) [] }
    ensures cut { intake.now.bytes ≢ [] → EndsBy (W.contents sink.old.inner) (W.contents sink.new.inner) Code.Cut result }
    ensures remembers { RemembersFailure sink.old.failed sink.new.failed result }
{
    if intake.at_boundary() {
        return Ok(End::Quit);
    }
    end_by(sink, Code::Cut)
}

/// Serves what is read. Before each read the writer passes on what it holds, so that a client that waits for an answer has it.
fn serve_reads<R: Read, W: Write, D: Handler>(
    alloc: Global,
    source: &mut Source<R>,
    sink: &mut Sink<W>,
    desk: &mut D,
    kept: &mut D::Kept,
) -> Result<End, SessionFault>
    requires ready { D.ready }
    requires source_fresh { IsUnread source.old.failed source.old.reads }
    requires sink_clear { sink.old.failed ≡ false }
    // What was written is the answers to the requests in the bytes that were read, or what a fault left of it.
    ensures ran { DeskRan D.Answer kept.old kept.new (R.remaining source.old.inner) (R.remaining source.new.inner) (W.contents sink.old.inner) (W.contents sink.new.inner) result }
    ensures failures { TellsFailures source.new.failed source.new.reads sink.new.failed result }
{
    let mut intake = Intake::new(alloc);
    let mut buffer = match Vec::from_elem(alloc, 0u8, PIECE) {
        Ok(buffer) => buffer,
        Err(_) => return end_by(sink, Code::Memory),
    };
    'reads: while source.reads() < READ_LIMIT {
        pass_on(sink)?;
        let n = receive(source, buffer.as_mut_slice())?;
        if n == 0 {
            return end_of_input(sink, &intake);
        }
        if let Some(end) = serve_piece(&mut intake, sink, desk, kept, &buffer[..n])? {
            return Ok(end);
        }
    }
    pass_on(sink)?;
    Err(SessionFault::Read)
}

/// Serves a session: reads to the end, to QUIT or to a fault. The answers to what came with one read go to the writer one
/// after another, and it passes them on before the next read and at the end: a writer that holds bytes back for a while
/// makes few writes of them. Where a line or a payload is gathered, want of memory is `ERR 50 MEMORY` and ends the session.
///
/// A session makes at most `READ_LIMIT` reads, and makes one again that was interrupted.
pub fn run_session<R: Read, W: Write, D: Handler>(
    alloc: Global,
    source: &mut Source<R>,
    sink: &mut Sink<W>,
    desk: &mut D,
    kept: &mut D::Kept,
) -> Result<End, SessionFault>
    requires ready { D.ready }
    requires source_fresh { IsUnread source.old.failed source.old.reads }
    requires sink_clear { sink.old.failed ≡ false }
    // What was written is the answers to the requests in the bytes that were read, or what a fault left of it.
    ensures ran { DeskRan D.Answer kept.old kept.new (R.remaining source.old.inner) (R.remaining source.new.inner) (W.contents sink.old.inner) (W.contents sink.new.inner) result }
    ensures failures { TellsFailures source.new.failed source.new.reads sink.new.failed result }
{
    let end = serve_reads(alloc, source, sink, desk, kept)?;
    pass_on(sink)?;
    Ok(end)
}
