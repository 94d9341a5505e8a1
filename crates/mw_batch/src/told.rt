//! What is told of how a session ended: the line that ended it, and the exit status.

ghost use Rattle.std.specs.Prelude.{◌≡◌, ◌≤◌, length};
ghost use Rattle.mw_batch.specs.EndLines.{end_line, end_reason};
ghost use Rattle.mw_batch.specs.Strict.{strict_status};

use mw_model::Code;
use mw_session::wire::ReplyLine;

/// Why a request ends a session. The first line may be that of a picture that came without a request.
fn end_reason(line: u64, code: Code) -> &'static str
    ensures text { result.now ≡ end_reason line code }
    ensures short { length result.now ≤ 80 }
{
    match code {
        Code::Line if line == 1 => "no request (a picture, as PGM or PBM, comes behind LOAD)",
        Code::Line => "no request",
        Code::Length => "a payload of more than 134217728 bytes",
        Code::Cut => "the input ends inside it",
        Code::Memory => "no memory for it",
        _ => "it ends the session",
    }
}

/// The line that tells which request ended a session, by the number of its line, and why.
pub(crate) fn end_line(line: u64, code: Code) -> ReplyLine
    ensures { result ≡ end_line line code }
{
    let mut text = ReplyLine::new();
    text.push(b"error: line");
    text.push_number(line as usize);
    text.push(b": ");
    text.push(end_reason(line, code).as_bytes());
    text.push(b"\n");
    text
}

/// The exit status of a strict batch, where a batch that is not strict has this one.
pub(crate) fn strict_status(status: u8, refused: bool) -> u8
    ensures { result ≡ strict_status status refused }
{
    if status == 0 && refused { 3 } else { status }
}
