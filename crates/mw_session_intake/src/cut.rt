//! What stands at the front of bytes that are no payload.

ghost use Rattle.mw_session_intake.specs.Cut.{IsCutOf};

use crate::line::{LINE_LIMIT, PAYLOAD_LIMIT, head, line_end};
use mw_model::{Ask, Awaited, Code, Head};

/// The last number is that of the line's bytes, its LF counted.
#[derive(Clone, Copy, Debug, PartialEq, Eq)]
pub enum Cut {
    Bad(Code),
    More,
    Alone(Ask, usize),
    /// A payload of this many bytes follows.
    Payload(Awaited, u32, usize),
}

#[tactic(auto, using(crate::proofs::Front::front_long))]
pub fn cut_front(bytes: &[u8]) -> Cut
    ensures { IsCutOf result bytes.now }
{
    let end = line_end(bytes);
    if end > LINE_LIMIT {
        return Cut::Bad(Code::Line);
    }
    if end == bytes.len() {
        return Cut::More;
    }
    match head(&bytes[..end]) {
        None => Cut::Bad(Code::Line),
        Some(Head::Alone(ask)) => Cut::Alone(ask, end + 1),
        Some(Head::Payload(what, len)) => {
            if len > PAYLOAD_LIMIT {
                Cut::Bad(Code::Length)
            } else {
                Cut::Payload(what, len, end + 1)
            }
        }
    }
}
