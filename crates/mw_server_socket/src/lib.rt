//! What every server does with sockets: it tells where connections can be made, or why none can, takes one client after the
//! other or turns it away, bounds how long a client is waited for, and ends a connection without losing its last replies.
//!
//! ```
//! announce(&mut output, 7001)?; // LISTENING 127.0.0.1 7001
//! while let Some(stream) = next_client(&listener, rt, &is_over) {
//!     if prepare(&stream, Some(60)) { /* no read and no write of this connection waits longer than a minute */ }
//! }
//! ```
#![tactic(auto)]

mod announcement;
mod clients;
mod closing;
mod idle;
mod port;
mod refusal;

pub use announcement::announce;
pub use clients::next_client;
pub use closing::finish;
pub use idle::{bound, prepare};
pub use port::{PortFault, port_line, text_line};
pub use refusal::turn_away;

// What lower crates offer, for the crates above.
pub mod wire {
    pub use mw_wire::{ReplyLine, Sink, Source, send};
}
