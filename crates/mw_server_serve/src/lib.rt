//! A service over TCP: each connection is a session of its own, on a core of its own, and is served as a batch is.
//!
//! ```text
//! let service = Service { port: 0, workers: 1, sessions: 16, side: 128, idle: Some(600), queue: Some(64), grace: 10, .. };
//! let status = serve(&rt, alloc, service, until, &mut output, &mut faults);
//! ```
#![tactic(auto)]

mod connection;
mod counts;
mod door;
mod fault;
mod guests;
mod queue;
mod replies;
mod resident;
mod seats;
mod service;
mod state;
mod visit;
mod visitor;

pub use connection::{Limits, serve_connection, serve_one};
pub use fault::ServeFault;
pub use service::{Service, serve};
pub use visitor::Visitor;

// What lower crates offer, for the crates above.
pub use mw_batch::{Crew, batch, strict_batch};

pub mod wire {
    pub use mw_server_socket::wire::{Sink, Source, send};
}
