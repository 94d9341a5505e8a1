//! A mark that is set where a refusal is written.

ghost use Rattle.std.specs.Prelude.{◌≡◌};
ghost use Rattle.mw_session_fetch.specs.Errors.{Marks, is_error};
ghost use Rattle.mw_wire.specs.Failures.{RemembersFailure};
ghost use Rattle.mw_wire.specs.Writes.{Wrote, told_text};

use mw_model::{NoMemory, Reply};
use mw_wire::{SessionFault, Sink, say_told};
use std::io::Write;

/// Whether what is told is a refusal, or that the call found no memory.
fn is_error(told: Result<Reply, NoMemory>) -> bool
    ensures { result ≡ is_error told }
{
    match told {
        Ok(Reply::Refused(_)) => true,
        Ok(_) => false,
        Err(NoMemory) => true,
    }
}

/// Sets the mark where what is told is a refusal.
#[tactic(auto, using(crate::proofs::Marked::told_marks))]
fn mark(marked: &mut bool, told: Result<Reply, NoMemory>)
    ensures { Marks marked.old (told_text told) marked.new }
{
    if is_error(told) {
        *marked = true;
    }
}

/// Writes the reply to a call that hands out no value, or that the call found no memory, and sets the mark where that is a
/// refusal.
pub fn note_told<W: Write>(
    sink: &mut Sink<W>,
    marked: &mut bool,
    told: Result<Reply, NoMemory>,
) -> Result<(), SessionFault>
    ensures wrote { Wrote (W.contents sink.old.inner) (W.contents sink.new.inner) (told_text told) result }
    ensures marks { Marks marked.old (told_text told) marked.new }
    ensures remembers { RemembersFailure sink.old.failed sink.new.failed result }
{
    mark(marked, told);
    say_told(sink, told)
}
