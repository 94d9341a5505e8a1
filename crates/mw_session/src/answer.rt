//! One request, and what is written for it.

ghost use Rattle.std.specs.Prelude.{◌≢◌, ℕ, List};
ghost use Rattle.mw_model.specs.declared.names.Name.{Name};
ghost use Rattle.mw_model.specs.declared.requests.Ask.TheVariants as Ask;
ghost use Rattle.mw_model.specs.Lines.{AskLoad, AskElement, AskAlone};
ghost use Rattle.mw_session_fetch.specs.mw_wire.Failures.{RemembersFailure};
ghost use Rattle.mw_session_fetch.specs.mw_session_intake.Intake.{asked};
ghost use Rattle.mw_session.specs.Answering.{WritesAnswer};
ghost use Rattle.mw_session.specs.Budgets.{KeepsCount};
ghost use Rattle.mw_session_fetch.specs.mw_wire.Writes.{Wrote};

use crate::budget::{Budget, Means};
use crate::tally::Tally;
use crate::{costs, within};
use mw_core_waves::{Core, Pick, run_all_work};
use mw_model::{Name, NoMemory, Op, Request};
use mw_session_fetch::wire::{Handler, SessionFault, Sink};
use mw_session_fetch::{note_fetched, note_told};
use std::io::Write;
use std::thread::Threads;

fn load<W: Write, T: Threads + Sync>(
    means: &mut Means<T>,
    sink: &mut Sink<W>,
    core: &mut Core,
    refused: &mut bool,
    name: Name,
    payload: Vec<u8>,
) -> Result<(), SessionFault>
    ensures answered { WritesAnswer core.old (AskLoad name payload.items) core.new refused.old refused.new (W.contents sink.old.inner) (W.contents sink.new.inner) result }
    ensures remembers { RemembersFailure sink.old.failed sink.new.failed result }
    ensures keeps { KeepsCount core.old means.old.budget core.new means.new.budget }
{
    let (is_raw, bytes) = (costs::is_raw(&payload), payload.capacity());
    let image = within::image_of(means.crew.alloc, &mut means.budget, core, payload);
    let beside = costs::beside_image(&image, is_raw, bytes);
    let image = within::kept_image(&mut means.budget, core, image, beside);
    let reply = within::load(&mut means.budget, core, name, image, beside);
    note_told(sink, refused, reply)
}

/// Of a name, with the origin in this column and row of the bitmap.
fn element<W: Write, T: Threads + Sync>(
    means: &mut Means<T>,
    sink: &mut Sink<W>,
    core: &mut Core,
    refused: &mut bool,
    at: (Name, u32, u32),
    payload: &[u8],
) -> Result<(), SessionFault>
    ensures answered { WritesAnswer core.old (AskElement at.0 at.1 at.2 payload.now) core.new refused.old refused.new (W.contents sink.old.inner) (W.contents sink.new.inner) result }
    ensures remembers { RemembersFailure sink.old.failed sink.new.failed result }
    ensures keeps { KeepsCount core.old means.old.budget core.new means.new.budget }
{
    let (name, ox, oy) = at;
    let element = within::element_of(means.crew.alloc, &mut means.budget, core, payload, (ox, oy));
    let element = within::kept_element(&mut means.budget, core, element);
    let reply = within::element(&mut means.budget, core, name, element);
    note_told(sink, refused, reply)
}

fn run<W: Write>(
    budget: &mut Budget,
    sink: &mut Sink<W>,
    core: &mut Core,
    refused: &mut bool,
    name: Name,
    op: Op,
) -> Result<(), SessionFault>
    ensures answered { WritesAnswer core.old (AskAlone (Ask.Run name op)) core.new refused.old refused.new (W.contents sink.old.inner) (W.contents sink.new.inner) result }
    ensures remembers { RemembersFailure sink.old.failed sink.new.failed result }
    ensures keeps { KeepsCount core.old budget.old core.new budget.new }
{
    let reply = within::run(budget, core, name, op);
    note_told(sink, refused, reply)
}

fn cancel<W: Write>(
    budget: &mut Budget,
    sink: &mut Sink<W>,
    core: &mut Core,
    refused: &mut bool,
    name: Name,
) -> Result<(), SessionFault>
    ensures answered { WritesAnswer core.old (AskAlone (Ask.Cancel name)) core.new refused.old refused.new (W.contents sink.old.inner) (W.contents sink.new.inner) result }
    ensures remembers { RemembersFailure sink.old.failed sink.new.failed result }
    ensures keeps { KeepsCount core.old budget.old core.new budget.new }
{
    let reply = within::cancel(budget, core, name);
    note_told(sink, refused, reply)
}

fn release<W: Write>(
    budget: &mut Budget,
    sink: &mut Sink<W>,
    core: &mut Core,
    refused: &mut bool,
    name: Name,
) -> Result<(), SessionFault>
    ensures answered { WritesAnswer core.old (AskAlone (Ask.Release name)) core.new refused.old refused.new (W.contents sink.old.inner) (W.contents sink.new.inner) result }
    ensures remembers { RemembersFailure sink.old.failed sink.new.failed result }
    ensures keeps { KeepsCount core.old budget.old core.new budget.new }
{
    let reply = within::release(budget, core, name);
    note_told(sink, refused, reply)
}

/// STATUS, and WAIT, which has nothing left to wait for.
fn status<W: Write, P: Pick, T: Threads + Sync>(
    means: &mut Means<T>,
    sink: &mut Sink<W>,
    core: &mut Core,
    refused: &mut bool,
    pick: &mut P,
    name: Name,
) -> Result<(), SessionFault>
    ensures status { WritesAnswer core.old (AskAlone (Ask.Status name)) core.new refused.old refused.new (W.contents sink.old.inner) (W.contents sink.new.inner) result }
    ensures wait { WritesAnswer core.old (AskAlone (Ask.Wait name)) core.new refused.old refused.new (W.contents sink.old.inner) (W.contents sink.new.inner) result }
    ensures remembers { RemembersFailure sink.old.failed sink.new.failed result }
    ensures keeps { KeepsCount core.old means.old.budget core.new means.new.budget }
{
    run_all_work(means.crew, core, pick);
    let reply = within::status(&mut means.budget, core, name);
    note_told(sink, refused, reply)
}

fn fetch<W: Write, P: Pick, T: Threads + Sync>(
    means: &mut Means<T>,
    sink: &mut Sink<W>,
    core: &mut Core,
    refused: &mut bool,
    pick: &mut P,
    name: Name,
) -> Result<(), SessionFault>
    ensures answered { WritesAnswer core.old (AskAlone (Ask.Fetch name)) core.new refused.old refused.new (W.contents sink.old.inner) (W.contents sink.new.inner) result }
    ensures remembers { RemembersFailure sink.old.failed sink.new.failed result }
    ensures keeps { KeepsCount core.old means.old.budget core.new means.new.budget }
{
    run_all_work(means.crew, core, pick);
    match within::fetch(&mut means.budget, core, name) {
        Ok(fetched) => note_fetched(means.crew.alloc, sink, refused, fetched),
        Err(NoMemory) => note_told(sink, refused, Err(NoMemory)),
    }
}

/// Answers one request, which is not QUIT, and sets `refused` where that is by a refusal.
fn answer_one<W: Write, P: Pick, T: Threads + Sync>(
    means: &mut Means<T>,
    sink: &mut Sink<W>,
    core: &mut Core,
    refused: &mut bool,
    pick: &mut P,
    request: Request,
) -> Result<(), SessionFault>
    requires open_still { asked request ≢ AskAlone Ask.Quit }
    ensures answered { WritesAnswer core.old (asked request) core.new refused.old refused.new (W.contents sink.old.inner) (W.contents sink.new.inner) result }
    ensures remembers { RemembersFailure sink.old.failed sink.new.failed result }
    ensures keeps { KeepsCount core.old means.old.budget core.new means.new.budget }
{
    match request {
        Request::Load(name, payload) => load(means, sink, core, refused, name, payload),
        Request::Element(name, ox, oy, payload) => {
            element(means, sink, core, refused, (name, ox, oy), &payload)
        }
        Request::Run(name, op) => run(&mut means.budget, sink, core, refused, name, op),
        Request::Cancel(name) => cancel(&mut means.budget, sink, core, refused, name),
        Request::Release(name) => release(&mut means.budget, sink, core, refused, name),
        Request::Status(name) => status(means, sink, core, refused, pick, name),
        Request::Wait(name) => status(means, sink, core, refused, pick, name),
        Request::Fetch(name) => fetch(means, sink, core, refused, pick, name),
        Request::Quit => Ok(()),
    }
}

/// Answers from a core, whose work is run by a crew in the order of the picks.
#[derive(Drop)]
pub(crate) struct ScriptHandler<'r, 'p, P, T> {
    pub means: Means<'r, T>,
    pub pick: &'p mut P,
}

impl<P: Pick, T: Threads + Sync> Handler for ScriptHandler<'_, '_, P, T> {
    ghost use Rattle.std.specs.Thread.{IsSync};
    ghost use Rattle.mw_session.specs.Answering.{ScriptAnswer};

    type Kept = Core;

    ghost Answer = { ScriptAnswer };

    ghost ready = { IsSync T.row };

    fn answer<W: Write>(
        &mut self,
        sink: &mut Sink<W>,
        core: &mut Core,
        request: Request,
    ) -> Result<(), SessionFault> {
        let mut refused = false;
        answer_one(
            &mut self.means,
            sink,
            core,
            &mut refused,
            self.pick,
            request,
        )
    }

    fn has_room(&mut self, core: &Core, places: usize) -> bool {
        self.means.budget.allows_for_a_while(core, places as u64)
    }
}

/// Answers as a clerk does, and keeps the tally, whose budget it has while it answers.
#[derive(Drop)]
pub(crate) struct Teller<'r, 'p, P, T> {
    pub means: Means<'r, T>,
    pub pick: &'p mut P,
}

impl<P: Pick, T: Threads + Sync> Handler for Teller<'_, '_, P, T> {
    ghost use Rattle.std.specs.Thread.{IsSync};
    ghost use Rattle.mw_session.specs.Tallies.{Tallied};

    type Kept = Tally;

    ghost Answer = { Tallied };

    ghost ready = { IsSync T.row };

    fn answer<W: Write>(
        &mut self,
        sink: &mut Sink<W>,
        tally: &mut Tally,
        request: Request,
    ) -> Result<(), SessionFault> {
        tally.line = tally.line.saturating_add(1);
        self.means.budget = tally.budget;
        let written = answer_one(
            &mut self.means,
            sink,
            &mut tally.core,
            &mut tally.refused,
            self.pick,
            request,
        );
        tally.budget = self.means.budget;
        written
    }

    fn has_room(&mut self, tally: &Tally, places: usize) -> bool {
        self.means.budget = tally.budget;
        self.means
            .budget
            .allows_for_a_while(&tally.core, places as u64)
    }
}
