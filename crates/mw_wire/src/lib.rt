//! What goes over a session's wire: a reader and a writer that remember whether they failed, the texts of replies, and
//! what writes a reply; and sessions over a desk, which reads, cuts and answers requests one after another, whatever
//! answers them.
//!
//! ```
//! let mut sink = Sink::new(writer);
//! say(&mut sink, Reply::Accepted(0))?; // OK 0
//! let end = run_session(alloc, &mut source, &mut sink, &mut desk, &mut kept)?;
//! ```
#![tactic(auto)]

mod desk;
mod fault;
mod line;
mod reply;
mod saying;
mod session;
mod sink;
mod source;

pub use desk::Handler;
pub use fault::SessionFault;
pub use line::ReplyLine;
pub use reply::{curve_line, image_line, refusal_line, reply_line};
pub use saying::{end_by, end_within, say, say_curve, say_image, say_told, send_both, tell};
pub use session::run_session;
pub use sink::{Sink, pass_on, send};
pub use source::{Source, receive};
