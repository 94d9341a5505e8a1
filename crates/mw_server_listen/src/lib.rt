//! Sessions over TCP: one board, workers in threads, a thread with a pass of its own for each connection, and the audit of
//! all passes at the end.
//!
//! ```text
//! let service = Service { port: 7001, workers: 2, sessions: 1, side: 128, idle: None, announce: false };
//! let status = listen(&rt, alloc, service, &mut output, &mut faults, &Kernels { alloc });
//! ```
#![tactic(auto)]

mod fault;
mod hall;
mod kernels;
mod server;
mod session;

pub use fault::ListenFault;
pub use kernels::Kernels;
pub use server::{Service, Staff, listen, listen_with};
pub use session::{Requests, Session};
