//! What is told of a session by the bytes that are written to its client: how many requests were answered, and which were refused.

use crate::counts::{Counts, count};
use std::sync::atomic::Ordering;

/// How many bytes of a line are looked at. Lines with a number that is looked for are shorter.
const HEAD: usize = 48;

/// The line that has begun, and how many bytes of an image or a curve are still to come before the next one.
#[derive(Drop)]
pub(crate) struct Replies {
    line: [u8; HEAD],
    len: usize,
    rest: u64,
}

/// The decimal number in this word of a line, counted from 0; 0 where there is none.
pub(crate) fn number_in(line: &[u8], word: u32) -> u64 {
    let (mut at, mut number) = (0u32, 0u64);
    for byte in line {
        if *byte == b' ' {
            at = at.saturating_add(1);
        } else if at == word && byte.is_ascii_digit() {
            let digit = u64::from(byte.wrapping_sub(b'0'));
            number = number.saturating_mul(10).saturating_add(digit);
        }
    }
    number
}

impl Replies {
    /// No byte was written yet.
    pub fn new() -> Replies {
        Replies {
            line: [0; HEAD],
            len: 0,
            rest: 0,
        }
    }

    /// Counts the reply of the line that has ended.
    fn end_line(&mut self, counts: &Counts) {
        let line = &self.line[..self.len.min(HEAD)];
        if line.starts_with(b"IMAGE ") || line.starts_with(b"CURVE ") {
            self.rest = number_in(line, 2);
        } else if line.starts_with(b"ERR ") {
            if let Some(refused) = counts.refused.get(number_in(line, 1) as usize) {
                count(refused);
            }
        }
        self.len = 0;
    }

    /// Takes a byte of a line. Says whether the line has ended.
    fn take(&mut self, byte: u8, counts: &Counts) -> bool {
        if byte == b'\n' {
            self.end_line(counts);
            return true;
        }
        if self.len < HEAD {
            self.line[self.len] = byte;
            self.len += 1;
        }
        false
    }

    /// Counts the replies that have ended with these bytes.
    pub fn look_at(&mut self, written: &[u8], counts: &Counts) {
        let (mut at, mut answered) = (0usize, 0u64);
        for _ in 0..written.len() {
            let come = self.rest.min(written.len().saturating_sub(at) as u64);
            self.rest = self.rest.saturating_sub(come);
            at = at.saturating_add(come as usize);
            let Some(byte) = written.get(at) else {
                break;
            };
            if self.take(*byte, counts) {
                answered = answered.saturating_add(1);
            }
            at = at.saturating_add(1);
        }
        counts.answered.fetch_add(answered, Ordering::SeqCst);
    }
}
