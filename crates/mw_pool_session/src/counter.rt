//! A session's place at a board.

ghost use Rattle.std.specs.Prelude.{◌≢◌, ℕ, List};
ghost use Rattle.mw_model.specs.declared.requests.Ask.TheVariants as Ask;
ghost use Rattle.mw_model.specs.Lines.{AskAlone};
ghost use Rattle.mw_session_fetch.specs.mw_session_intake.Intake.{asked};
ghost use Rattle.mw_session_fetch.specs.mw_wire.Failures.{RemembersFailure};
ghost use Rattle.mw_session_fetch.specs.mw_wire.Writes.{Wrote};

use mw_model::{Name, NoMemory, Request};
use mw_pool::{Board, Naming, Pass};
use mw_session_fetch::say_fetched;
use mw_session_fetch::wire::{Handler, SessionFault, Sink, say_told};
use std::alloc::Global;
use std::io::Write;
use std::sync::Wait;

/// Answers by calls of the board. Each is one hold of the lock; what is written is made and written without it.
#[derive(Drop)]
pub(crate) struct BoardHandler<'b, R, J: Naming> {
    pub rt: &'b R,
    pub alloc: Global,
    pub board: &'b Board<J>,
}

impl<'b, R: Wait, J: Naming> BoardHandler<'b, R, J> {
    ghost use Rattle.mw_pool_session.specs.Serving.{RequestServed};
    ghost use Rattle.mw_model.specs.declared.requests.Ask.TheVariants as Ask;
    ghost use Rattle.mw_model.specs.Lines.{AskAlone};

    fn fetch<W: Write>(
        &self,
        sink: &mut Sink<W>,
        pass: &mut Pass,
        name: Name,
    ) -> Result<(), SessionFault>
        ensures answered { (text : List ℕ) × RequestServed pass.old (AskAlone (Ask.Fetch name)) text pass.new × Wrote (W.contents sink.old.inner) (W.contents sink.new.inner) text result }
        ensures remembers { RemembersFailure sink.old.failed sink.new.failed result }
    {
        match self.board.fetch(self.rt, pass, name) {
            Ok(fetched) => say_fetched(self.alloc, sink, fetched),
            Err(NoMemory) => say_told(sink, Err(NoMemory)),
        }
    }
}

impl<'b, R: Wait, J: Naming> Handler for BoardHandler<'b, R, J> {
    ghost use Rattle.mw_pool_session.specs.Serving.{RequestServed};

    type Kept = Pass;

    ghost Answer = { RequestServed };

    fn answer<W: Write>(
        &mut self,
        sink: &mut Sink<W>,
        pass: &mut Pass,
        request: Request,
    ) -> Result<(), SessionFault> {
        let (rt, board) = (self.rt, self.board);
        match request {
            Request::Load(name, payload) => say_told(sink, board.load(rt, pass, name, payload)),
            Request::Element(name, ox, oy, payload) => say_told(
                sink,
                board.element(rt, pass, name, (ox, oy), &payload),
            ),
            Request::Run(name, op) => say_told(sink, board.run(rt, pass, name, op)),
            Request::Cancel(name) => say_told(sink, board.cancel(rt, pass, name)),
            Request::Release(name) => say_told(sink, board.release(rt, pass, name)),
            Request::Status(name) => say_told(sink, board.status(rt, pass, name)),
            Request::Wait(name) => say_told(sink, board.wait(rt, pass, name)),
            Request::Fetch(name) => self.fetch(sink, pass, name),
            Request::Quit => Ok(()),
        }
    }

    /// A board has no bound but memory.
    fn has_room(&mut self, _pass: &Pass, _places: usize) -> bool {
        true
    }
}
