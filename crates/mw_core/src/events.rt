//! Any list of events, one after another.

ghost use Rattle.std.specs.Prelude.{◌≡◌, IfOk, OnErr};
ghost use Rattle.std.specs.List.{AllByRecursion};
ghost use Rattle.mw_model.specs.Machine.{Machine};
ghost use Rattle.mw_model.specs.Stands.{StandsFor};
ghost use Rattle.mw_core.specs.EventEffects.{IsServable, HasEffect, HaveEffects, answer_of, fetch_answer_of};

use crate::{Core, Fetched, Finish, Refusal, Started};
use mw_core_refusals::element::Element;
use mw_core_refusals::pixel::Image;
use mw_core_refusals::task::{TaskRefused, TileDone};
use mw_model::{Code, Name, NoMemory, Op, Reply};
use std::alloc::Global;

/// What may come to the core.
#[derive(Drop)]
pub enum Event {
    Load(Name, Result<Image, Code>),
    Element(Name, Result<Element, Code>),
    Run(Name, Op),
    Cancel(Name),
    Release(Name),
    Status(Name),
    Fetch(Name),
    Start(u64),
    Finish(TileDone),
    Refuse(TaskRefused),
}

/// What the core answers.
#[derive(Drop)]
pub enum Answer {
    Reply(Reply),
    Fetched(Fetched),
    NoMemory,
    Started(Started),
    Finish(Finish),
    Refusal(Refusal),
}

fn told(answer: Result<Reply, NoMemory>) -> Answer
    ensures { answer_of answer ≡ result }
{
    match answer {
        Ok(reply) => Answer::Reply(reply),
        Err(NoMemory) => Answer::NoMemory,
    }
}

fn handed(answer: Result<Fetched, NoMemory>) -> Answer
    ensures { fetch_answer_of answer ≡ result }
{
    match answer {
        Ok(fetched) => Answer::Fetched(fetched),
        Err(NoMemory) => Answer::NoMemory,
    }
}

/// One event: the answer and what changes are those of the core's own call, and the core stands for the machine after
/// it, whatever the machine that it stood for.
pub fn serve(core: &mut Core, event: Event) -> Answer
    requires { IsServable event }
    ensures happens { (m : Machine) → StandsFor core.old m → (n : Machine) × HasEffect core.old m event result core.new n × StandsFor core.new n }
    ensures side { core.new.side ≡ core.old.side }
{
    match event {
        Event::Load(name, image) => told(core.load(name, image)),
        Event::Element(name, element) => told(core.element(name, element)),
        Event::Run(name, op) => told(core.run(name, op)),
        Event::Cancel(name) => told(core.cancel(name)),
        Event::Release(name) => told(core.release(name)),
        Event::Status(name) => told(core.status(name)),
        Event::Fetch(name) => handed(core.fetch(name)),
        Event::Start(place) => Answer::Started(core.start(place)),
        Event::Finish(done) => Answer::Finish(core.finish(done)),
        Event::Refuse(refused) => Answer::Refusal(core.refuse(refused)),
    }
}

/// Any list of events, in any order, is a run of the machine of one thread, which gives the same answers. Only room
/// for the answers may be wanting, and then nothing happens.
pub fn serve_all(
    core: &mut Core,
    alloc: Global,
    events: Vec<Event>,
) -> Result<Vec<Answer>, NoMemory>
    requires { AllByRecursion IsServable events.items }
    ensures ok { (m : Machine) → StandsFor core.old m
        → IfOk result (λ answers. (n : Machine) × HaveEffects core.old m events.items answers.items core.new n × StandsFor core.new n) }
    ensures err { OnErr result (core.new ≡ core.old) }
    ensures side { core.new.side ≡ core.old.side }
{
    let mut answers = Vec::with_capacity(alloc, events.len())?;
    for event in events {
        answers.push_reserved(serve(core, event));
    }
    Ok(answers)
}
