//! Workers.

ghost use Rattle.std.specs.Prelude.{◌≡◌, IfOk};

use crate::board::Board;
use crate::roll::Naming;
use mw_pool_passes::task::{TaskRefused, TileDone, Work};
use std::sync::Wait;

/// What computes a task. It is called without the lock of the board, by many workers at once.
pub trait Gate {
    /// The result of this task, or that memory was refused.
    fn compute(&self, work: Work) -> Result<TileDone, TaskRefused>
        ensures { IfOk result (λ done. done ≡ work) };
}

/// Takes tasks of the board, computes them and brings their results, until the board is closed. It sleeps while no task is
/// ready.
pub fn work<J: Naming, R: Wait, G: Gate>(rt: &R, board: &Board<J>, gate: &G) {
    let mut taken = board.take(rt);
    for _ in rt.forever() {
        let Some((task, slip)) = taken else {
            break;
        };
        taken = match gate.compute(task) {
            Ok(done) => board.exchange(rt, done, &slip),
            Err(refused) => {
                board.refuse(rt, refused);
                board.take(rt)
            }
        };
    }
}
