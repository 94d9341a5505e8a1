//! As many tasks at once, and as many events in one list, as no session has.

ghost use Rattle.std.specs.List.{AllByRecursion};
ghost use Rattle.mw_core.specs.EventEffects.{IsServable};

use crate::desk::Ask::Run;
use crate::desk::Word::Erode;
use crate::desk::{Hands, asked, computed, last_taken, lay_out, name, new_core, take};
use mw_core::events::{Answer, Event, serve_all};
use mw_core::{Core, Finish};
use mw_model::{Code, Name, Reply};
use std::alloc::Global;
use std::process::Abort;

/// The raw file of a row of a hundred tiles.
fn hundred_tiles(rt: &impl Abort, alloc: Global) -> Vec<u8> {
    let mut bytes = b"P5\n6400 1\n9\n".to_vec(alloc).ok().expect(rt, "memory");
    bytes.resize(6412, 7).ok().expect(rt, "memory");
    bytes
}

/// The task that was taken last ends first.
fn bring_last(rt: &impl Abort, alloc: Global, core: &mut Core, hands: &mut Hands, left: u64) {
    let wanted = if left == 0 {
        Finish::Settled(2)
    } else {
        Finish::Placed
    };
    let done = computed(alloc, core, last_taken(rt, hands)).expect(rt, "memory");
    assert_eq!(rt; core.finish(done), wanted);
    assert_eq!(rt; core.running(), left);
}

fn hundred_run(rt: &impl Abort, alloc: Global, core: &mut Core, hands: &mut Hands) {
    for n in 0..100u64 {
        assert_eq!(rt; [core.ready_count(), core.running()], [100 - n, n]);
        assert!(rt; take(rt, core, hands, n, 2));
    }
    for left in (0..100u64).rev() {
        bring_last(rt, alloc, core, hands, left);
    }
}

#[test]
fn a_hundred_tasks_run_at_once(rt: HostRuntime) {
    let alloc = rt.alloc();
    let mut hands = Hands::new(alloc);
    let mut core = new_core(&rt, alloc, &mut hands);
    let row = hundred_tiles(&rt, alloc);
    lay_out(&rt, alloc, &mut core, &mut hands, &row);
    let ask = Run(Erode, b"e", b"f", b"b");
    assert_eq!(rt;
        asked(&rt, alloc, &mut core, &mut hands, &ask),
        Reply::Accepted(2)
    );
    hundred_run(&rt, alloc, &mut core, &mut hands);
    assert_eq!(rt; hands.wants, 0);
}

#[tactic(auto, using(crate::proofs::Questions::one_more))]
fn push_question(rt: &impl Abort, events: &mut Vec<Event>, name: Name)
    requires { AllByRecursion IsServable events.old.items }
    ensures { AllByRecursion IsServable events.new.items }
{
    events.push(Event::Status(name)).ok().expect(rt, "memory");
}

/// A list of so many questions about a name.
fn questions(rt: &impl Abort, alloc: Global, name: Name, count: u32) -> Vec<Event>
    ensures { AllByRecursion IsServable result.items }
{
    let mut events = Vec::new(alloc);
    'questions: for _asked in 0..count {
        push_question(rt, &mut events, name);
    }
    events
}

fn answered(rt: &impl Abort, alloc: Global, core: &mut Core, count: u32) -> Vec<Answer> {
    let events = questions(rt, alloc, name(rt, b"z"), count);
    serve_all(core, alloc, events).ok().expect(rt, "memory")
}

fn is_unknown(answer: &Answer) -> bool {
    matches!(answer, Answer::Reply(Reply::Refused(Code::Unknown)))
}

#[test]
fn a_list_of_100_000_events(rt: HostRuntime) {
    let mut core = Core::new(rt.alloc(), 128).ok().expect(&rt, "memory");
    let answers = answered(&rt, rt.alloc(), &mut core, 100000);
    assert_eq!(rt; answers.len(), 100000);
    assert!(rt; answers.iter().all(|answer| is_unknown(answer)));
}
