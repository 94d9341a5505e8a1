//! Lists of events, and a core that is kept from one event to the next.

ghost use Rattle.std.specs.Prelude.{IfSome};
ghost use Rattle.std.specs.List.{AllByRecursion};
ghost use Rattle.mw_core.specs.EventEffects.{IsServable};

use crate::by_hand::{done, task};
use crate::desk::Ask::Run;
use crate::desk::Word::Erode;
use crate::desk::{ERODED, Hands, ROW, lay_out, name, new_core, text_of, told};
use crate::locked_core::LockedCore;
use mw_core::events::{Answer, Event, serve_all};
use mw_core::{Core, Fetched, Finish, NoMemory, Started};
use mw_model::{Code, Name, Reply};
use mw_step_task::TileDone;
use std::alloc::Global;
use std::process::Abort;

/// An early result, its task, the release of its input, the result, and a look at what it made.
fn listed(
    alloc: Global,
    names: [Name; 2],
    early: TileDone,
    settling: TileDone,
) -> Option<Vec<Event>>
    ensures { IfSome result (λ v. AllByRecursion IsServable v.items) }
{
    let [f, e] = names;
    let mut events = Vec::with_capacity(alloc, 5).ok()?;
    events.push_reserved(Event::Finish(early));
    events.push_reserved(Event::Start(7));
    events.push_reserved(Event::Release(f));
    events.push_reserved(Event::Finish(settling));
    events.push_reserved(Event::Fetch(e));
    Some(events)
}

/// The result of the only task.
fn made(rt: &impl Abort, alloc: Global) -> TileDone {
    done(rt, alloc, task(2, 0, 0), 5)
}

/// What a list is answered; none where there is no memory for the list or its answers.
fn answers(rt: &impl Abort, alloc: Global, core: &mut Core) -> Option<Vec<Answer>> {
    let names = [name(rt, b"f"), name(rt, b"e")];
    let events = listed(alloc, names, made(rt, alloc), made(rt, alloc))?;
    serve_all(core, alloc, events).ok()
}

/// The event found no memory.
fn is_in_want(answer: &Answer) -> bool {
    matches!(
        answer,
        Answer::NoMemory | Answer::Started(Started::Refused(_))
    )
}

fn finish_of(answer: Option<&Answer>) -> Option<Finish> {
    match answer {
        Some(Answer::Finish(finish)) => Some(*finish),
        _ => None,
    }
}

fn reply_of(answer: Option<&Answer>) -> Option<Reply> {
    match answer {
        Some(Answer::Reply(reply)) => Some(*reply),
        _ => None,
    }
}

fn fetched_of(answer: Option<Answer>) -> Option<Fetched> {
    match answer {
        Some(Answer::Fetched(fetched)) => Some(fetched),
        _ => None,
    }
}

fn is_work(answer: Option<&Answer>) -> bool {
    matches!(answer, Some(Answer::Started(Started::Work(_))))
}

/// Whether all answers but the last are as they are to be.
fn are_answers(answers: &[Answer]) -> bool {
    answers.len() == 5
        && finish_of(answers.get(0)) == Some(Finish::Stranger)
        && is_work(answers.get(1))
        && reply_of(answers.get(2)) == Some(Reply::Accepted(0))
        && finish_of(answers.get(3)) == Some(Finish::Settled(2))
}

/// The text that the last event was handed, where all answers before it are as they are to be; none where memory was wanting.
fn handed(rt: &impl Abort, alloc: Global, mut answers: Vec<Answer>) -> Option<Vec<u8>> {
    if answers.iter().any(|answer| is_in_want(answer)) {
        return None;
    }
    assert!(rt; are_answers(&answers));
    let fetched = fetched_of(answers.pop())?;
    assert_eq!(rt; fetched.reply, Reply::Shown(2));
    text_of(alloc, fetched.value)
}

/// What a new core hands out, and how often memory was wanting before.
fn served(rt: &impl Abort, alloc: Global) -> (Option<Vec<u8>>, u32) {
    let mut hands = Hands::new(alloc);
    let mut core = new_core(rt, alloc, &mut hands);
    lay_out(rt, alloc, &mut core, &mut hands, ROW);
    told(
        rt,
        alloc,
        &mut core,
        &mut hands,
        &Run(Erode, b"e", b"f", b"b"),
        Reply::Accepted(2),
    );
    let text = match answers(rt, alloc, &mut core) {
        Some(answers) => handed(rt, alloc, answers),
        None => None,
    };
    (text, hands.wants)
}

#[test]
fn lists_of_events_are_served(rt: HostRuntime) {
    let text = match served(&rt, rt.alloc()) {
        (Some(text), _) => text,
        _ => served(&rt, rt.alloc()).0.expect(&rt, "memory"),
    };
    assert_eq!(rt; text.as_slice(), ERODED);
}

/// What is said of a name that nothing has.
fn is_unknown(held: &mut LockedCore, name: Name) -> bool {
    let told = held.serve(Event::Status(name));
    reply_of(Some(&told)) == Some(Reply::Refused(Code::Unknown))
}

/// What is said to a worker where there is no task.
fn is_idle(held: &mut LockedCore) -> bool {
    matches!(held.serve(Event::Start(0)), Answer::Started(Started::Idle))
}

fn locked_core(rt: &impl Abort, alloc: Global) -> LockedCore {
    match LockedCore::new(alloc, 128) {
        Ok(held) => held,
        Err(NoMemory) => LockedCore::new(alloc, 128).expect(rt, "memory"),
    }
}

#[test]
fn a_held_core_serves_events(rt: HostRuntime) {
    let mut held = locked_core(&rt, rt.alloc());
    assert!(rt; is_unknown(&mut held, name(&rt, b"f")));
    assert!(rt; is_idle(&mut held));
}
