//! Receipts of calls.

use crate::{Call, Reply};

/// A call that was logged, its reply, and its place in the log.
#[derive(Clone, Copy, PartialEq, Eq, Debug)]
pub struct Receipt {
    pub place: usize,
    pub call: Call,
    pub reply: Reply,
}
