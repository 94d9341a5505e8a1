//! The texts of replies.

ghost use Rattle.std.specs.Prelude.{◌≡◌, ◌≤◌, ◌+◌, ◌++◌, ◌∷◌, [], length, codes};
ghost use Rattle.mw_model.specs.Replies.{reply_text, refusal_text, shape_text, ticket_line, and_number, NoValue};

use crate::line::ReplyLine;
use mw_model::{Code, Kind, Reply, Shape};

/// The whole text of a reply that hands out no value. Of one that does it is nothing: see `image_line`, `curve_line`.
pub fn reply_line(reply: Reply) -> ReplyLine
    ensures { result ≡ reply_text reply NoValue }
{
    match reply {
        Reply::Accepted(t) => ended(begun(b"OK", t)),
        Reply::Refused(code) => refusal_line(code),
        Reply::Pending(t) => ended(begun(b"PENDING", t)),
        Reply::Done(t, shape) => ended(with_shape(begun(b"DONE", t), shape)),
        Reply::Cancelled(t) => ended(begun(b"CANCELLED", t)),
        Reply::OutOfMemory(t) => failed_by_memory(t),
        Reply::BadInput(t, s) => failed_by_input(t, s),
        Reply::Released(t) => ended(begun(b"RELEASED", t)),
        Reply::Shown(_) => ReplyLine::new(),
    }
}

/// The line before the bytes of an image, of which there are so many.
pub fn image_line(t: u32, len: usize) -> ReplyLine
    ensures { result ≡ ticket_line (codes "IMAGE") t (and_number len) }
{
    let mut line = begun(b"IMAGE", t);
    line.push_number(len);
    ended(line)
}

/// The line before the text of a curve, of so many bytes.
pub fn curve_line(t: u32, len: usize) -> ReplyLine
    ensures { result ≡ ticket_line (codes "CURVE") t (and_number len) }
{
    let mut line = begun(b"CURVE", t);
    line.push_number(len);
    ended(line)
}

/// The line of a refusal.
pub fn refusal_line(code: Code) -> ReplyLine
    ensures { result ≡ refusal_text code }
{
    let mut line = ReplyLine::new();
    line.push(b"ERR");
    line.push_number(code.number() as usize);
    line.push(b" ");
    line.push(code.word().as_bytes());
    line.push(b"\n");
    line
}

/// A word and a ticket.
fn begun(word: &[u8], t: u32) -> ReplyLine
    requires { length word.now ≤ 16 }
    ensures text { result ≡ word.now ++ and_number t }
    ensures short { length result ≤ 37 }
{
    let mut line = ReplyLine::new();
    line.push(word);
    line.push_number(t as usize);
    line
}

fn ended(line: ReplyLine) -> ReplyLine
    requires { length line ≤ 127 }
    ensures { result ≡ line ++ 10 ∷ [] }
{
    let mut whole = line;
    whole.push(b"\n");
    whole
}

fn failed_by_memory(t: u32) -> ReplyLine
    ensures { result ≡ ticket_line (codes "FAILED") t (codes " MEMORY") }
{
    let mut line = begun(b"FAILED", t);
    line.push(b" MEMORY");
    ended(line)
}

fn failed_by_input(t: u32, s: u32) -> ReplyLine
    ensures { result ≡ ticket_line (codes "FAILED") t (codes " INPUT" ++ and_number s) }
{
    let mut line = begun(b"FAILED", t);
    line.push(b" INPUT");
    line.push_number(s as usize);
    ended(line)
}

/// The line with what is told of a done entry.
fn with_shape(line: ReplyLine, shape: Shape) -> ReplyLine
    requires { length line ≤ 37 }
    ensures text { result ≡ line ++ shape_text shape }
    ensures short { length result ≤ 127 }
{
    let mut whole = line;
    match shape {
        Shape::Image(kind, width, height, maxval) => {
            match kind {
                Kind::Bit => whole.push(b" BIT"),
                Kind::Grey => whole.push(b" GREY"),
            }
            whole.push_number(width as usize);
            whole.push_number(height as usize);
            whole.push_number(maxval as usize);
        }
        Shape::Element(width, height) => {
            whole.push(b" ELEMENT");
            whole.push_number(width as usize);
            whole.push_number(height as usize);
        }
        Shape::Curve(count) => {
            whole.push(b" CURVE");
            whole.push_number(count as usize);
        }
    }
    whole
}
