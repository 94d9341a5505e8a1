//! Writing replies, the refusal that ends a session, and the line of a fault.

ghost use Rattle.std.specs.Prelude.{◌++◌};
ghost use Rattle.mw_model.specs.Replies.{reply_text, handed_text, NoValue, ImageBytes, CurveText};
ghost use Rattle.mw_wire.specs.Faults.{fault_line};
ghost use Rattle.mw_wire.specs.Failures.{RemembersFailure};
ghost use Rattle.mw_wire.specs.Writes.{Wrote, EndsBy, EndedBy, told_text};

use crate::fault::SessionFault;
use crate::line::ReplyLine;
use crate::reply::{curve_line, image_line, refusal_line, reply_line};
use crate::sink::{Sink, send};
use mw_model::{Code, End, NoMemory, Reply};
use std::io::Write;

/// Writes a reply that hands out no value. At `Err` a front of its text was written.
pub fn say<W: Write>(sink: &mut Sink<W>, reply: Reply) -> Result<(), SessionFault>
    ensures wrote { Wrote (W.contents sink.old.inner) (W.contents sink.new.inner) (reply_text reply NoValue) result }
    ensures remembers { RemembersFailure sink.old.failed sink.new.failed result }
{
    send(sink, reply_line(reply).as_bytes())
}

/// Writes the reply to a call that hands out no value, or that the call found no memory.
pub fn say_told<W: Write>(
    sink: &mut Sink<W>,
    reply: Result<Reply, NoMemory>,
) -> Result<(), SessionFault>
    ensures wrote { Wrote (W.contents sink.old.inner) (W.contents sink.new.inner) (told_text reply) result }
    ensures remembers { RemembersFailure sink.old.failed sink.new.failed result }
{
    match reply {
        Ok(reply) => say(sink, reply),
        Err(NoMemory) => say(sink, Reply::Refused(Code::Memory)),
    }
}

/// Writes the reply that hands out an image, and the bytes of the image, given in two parts.
pub fn say_image<W: Write>(
    sink: &mut Sink<W>,
    t: u32,
    front: &[u8],
    rest: &[u8],
) -> Result<(), SessionFault>
    ensures wrote { Wrote (W.contents sink.old.inner) (W.contents sink.new.inner) (handed_text t (ImageBytes (front.now ++ rest.now))) result }
    ensures remembers { RemembersFailure sink.old.failed sink.new.failed result }
{
    send_in_parts(sink, &image_line(t, front.len() + rest.len()), front, rest)
}

/// Writes the reply that hands out a curve, and the text of the curve.
pub fn say_curve<W: Write>(sink: &mut Sink<W>, t: u32, text: &[u8]) -> Result<(), SessionFault>
    ensures wrote { Wrote (W.contents sink.old.inner) (W.contents sink.new.inner) (handed_text t (CurveText text.now)) result }
    ensures remembers { RemembersFailure sink.old.failed sink.new.failed result }
{
    send_both(sink, curve_line(t, text.len()).as_bytes(), text)
}

/// Writes two texts, one after the other. At `Err` a front of both was written.
pub fn send_both<W: Write>(
    sink: &mut Sink<W>,
    first: &[u8],
    second: &[u8],
) -> Result<(), SessionFault>
    ensures wrote { Wrote (W.contents sink.old.inner) (W.contents sink.new.inner) (first.now ++ second.now) result }
    ensures remembers { RemembersFailure sink.old.failed sink.new.failed result }
{
    send(sink, first)?;
    send(sink, second)
}

fn send_in_parts<W: Write>(
    sink: &mut Sink<W>,
    line: &ReplyLine,
    front: &[u8],
    rest: &[u8],
) -> Result<(), SessionFault>
    ensures wrote { Wrote (W.contents sink.old.inner) (W.contents sink.new.inner) (line.now ++ (front.now ++ rest.now)) result }
    ensures remembers { RemembersFailure sink.old.failed sink.new.failed result }
{
    send(sink, line.as_bytes())?;
    send_both(sink, front, rest)
}

/// Writes the refusal that ends a session.
pub fn end_by<W: Write>(sink: &mut Sink<W>, code: Code) -> Result<End, SessionFault>
    ensures wrote { EndsBy (W.contents sink.old.inner) (W.contents sink.new.inner) code result }
    ensures remembers { RemembersFailure sink.old.failed sink.new.failed result }
{
    send(sink, refusal_line(code).as_bytes())?;
    Ok(End::Ended(code))
}

/// Writes the refusal that ends a session, where it may also go on.
pub fn end_within<W: Write>(sink: &mut Sink<W>, code: Code) -> Result<Option<End>, SessionFault>
    ensures wrote { EndedBy (W.contents sink.old.inner) (W.contents sink.new.inner) code result }
    ensures remembers { RemembersFailure sink.old.failed sink.new.failed result }
{
    let end = end_by(sink, code)?;
    Ok(Some(end))
}

/// Writes the line that tells a fault.
pub fn tell<W: Write>(sink: &mut Sink<W>, fault: SessionFault) -> Result<(), SessionFault>
    ensures wrote { Wrote (W.contents sink.old.inner) (W.contents sink.new.inner) (fault_line fault) result }
    ensures remembers { RemembersFailure sink.old.failed sink.new.failed result }
{
    send_both(sink, fault.text().as_bytes(), b"\n")
}
