//! A line of a reply, put together without memory.

ghost use Rattle.std.specs.Prelude.{◌≡◌, ◌≤◌, ◌+◌, ◌++◌, List, [], ℕ, length};
ghost use Rattle.mw_model.specs.Replies.{and_number};

use itoa::Buffer;
use std::marker::Model;

/// At most 128 bytes. Contracts see them as a list.
#[derive(Drop)]
pub struct ReplyLine {
    bytes: [u8; 128],
    len: usize,
}

impl Model for ReplyLine {
    ghost use Rattle.std.specs.Prelude.{List, ℕ, take, ◌≤◌};

    ghost Value = { List ℕ };

    ghost view = { λ s. take s.len s.bytes };

    ghost invariant = { λ s. s.len ≤ 128 };
}

impl ReplyLine {
    /// A line without bytes.
    pub fn new() -> ReplyLine
        ensures { result ≡ [] }
    {
        ReplyLine {
            bytes: [0; 128],
            len: 0,
        }
    }

    /// Puts these bytes behind what stands there.
    pub fn push(&mut self, text: &[u8])
        requires { length self.old + length text.now ≤ 128 }
        ensures { self.new ≡ self.old ++ text.now }
    {
        self.bytes[self.len..self.len + text.len()].copy_from_slice(text);
        self.len += text.len();
    }

    /// Puts a blank and a number behind what stands there.
    pub fn push_number(&mut self, n: usize)
        requires { length self.old + 21 ≤ 128 }
        ensures text { self.new ≡ self.old ++ and_number n }
        ensures short { length self.new ≤ length self.old + 21 }
    {
        let mut buffer = Buffer::new();
        self.push(b" ");
        self.push(buffer.format(n).as_bytes());
    }

    /// What stands there.
    pub fn as_bytes(&self) -> &[u8]
        ensures { result.now ≡ self.now }
    {
        &self.bytes[..self.len]
    }
}
