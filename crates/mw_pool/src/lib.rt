//! One core that sessions and workers share: a board, which is a lock round the core. Each session calls it with a pass, and once
//! all have ended the passes are audited against the log (`mw_pool_passes`).
//!
//! Each hold of the lock is one event of the core. No pixel is computed, no payload is read and no text is made under
//! it, and nothing waits there. Nor is a result that a worker brings compared with what the core has: the tasks that were
//! handed out stand in a roll, by which it is known that the result is of the core's own task.
//!
//! ```text
//! // in a function over `J: Naming`, which the program calls with `Brand` and `NewRoll::new()`:
//! let board = Board::<J>::new(alloc, Core::new(alloc, 128)?, roll);
//! // each worker, in a thread of its own, until the board is closed:
//! work(&rt, &board, &gate);
//! // each session, in a thread of its own, with a pass of its own:
//! let mut pass = board.pass();
//! board.load(&rt, &mut pass, f, file)?;                                  // a file of 19 bytes; Reply::Accepted(0)
//! board.element(&rt, &mut pass, b, (1, 0), b"P1\n3 1\n111\n")?;            // Reply::Accepted(1)
//! board.run(&rt, &mut pass, e, Op::Flat(FlatOp::Erode(f, b)))?;            // Reply::Accepted(2)
//! board.wait(&rt, &mut pass, e)?;                                          // Reply::Done(2, ..)
//! // once all are joined:
//! board.close(&rt);
//! board.audit_all(&rt, passes.as_slice());                                 // the passes cover the log
//! ```
#![tactic(auto)]

mod board;
mod kept;
mod roll;
mod signals;
mod tickets;
mod workers;

pub use board::Board;
pub use mw_pool_passes::{Core, Fetched, FetchedValue, Finish, NoMemory, Pass, Started, audit};
pub use roll::{Naming, NewRoll};
pub use workers::{Gate, work};
