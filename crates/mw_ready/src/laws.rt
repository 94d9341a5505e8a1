//! What the tasks of a board are for a machine.

ghost use Rattle.mw_model.specs.Tasks.{Progress};
ghost use Rattle.mw_ready.specs.Boards.{Schedule};
ghost use Rattle.mw_ready.specs.Work.{IsBoardOf, SameTasks};

use crate::Ready;

/// Where the board shows the work under a ticket, the tasks are the same in both, with what they read, and which
/// are ready, running and left.
pub fn tasks_are_those_of_work(ready: &Ready)
    ensures { (p : Progress) → IsBoardOf ready.now.board p → SameTasks ready.now.board p }
{
    // for what holds of every board
    let _count = ready.count();
}
