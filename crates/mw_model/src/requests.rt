//! What a client asks for.

use crate::{Code, Name, Op};

/// A request that brings no payload. It is copied without memory.
#[derive(Clone, Copy, PartialEq, Eq, Debug)]
pub enum Ask {
    Run(Name, Op),
    Cancel(Name),
    Release(Name),
    Status(Name),
    Fetch(Name),
    Wait(Name),
    Quit,
}

/// What a payload is to become.
#[derive(Clone, Copy, PartialEq, Eq, Debug)]
pub enum Awaited {
    Image(Name),
    /// The column and row of the origin in the bitmap.
    Element(Name, u32, u32),
}

/// What a line says by itself.
#[derive(Clone, Copy, PartialEq, Eq, Debug)]
pub enum Head {
    /// A payload of this many bytes follows.
    Payload(Awaited, u32),
    Alone(Ask),
}

/// A request with its payload.
#[derive(PartialEq, Debug, Drop)]
pub enum Request {
    Load(Name, Vec<u8>),
    /// The column and row of the origin in the bitmap, and the bitmap's file.
    Element(Name, u32, u32, Vec<u8>),
    Run(Name, Op),
    Cancel(Name),
    Release(Name),
    Status(Name),
    Fetch(Name),
    Wait(Name),
    Quit,
}

/// What stands at the front of the bytes that have come.
#[derive(PartialEq, Debug, Drop)]
pub enum Next {
    Request(Request),
    /// Less than a request.
    More,
    Bad(Code),
}

/// How a session ends.
#[derive(Clone, Copy, PartialEq, Eq, Debug)]
pub enum End {
    /// QUIT, or the end of the input between requests.
    Quit,
    /// The text of this refusal was written last.
    Ended(Code),
}
