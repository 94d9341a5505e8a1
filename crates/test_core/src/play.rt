//! Plays lists of turns with a core, and stops where one is answered otherwise. Only a ticket whose task finds no memory dies, and
//! then the list is played once more with a new core.

use crate::by_hand;
use crate::desk::{Ask, Hands, computed, last_taken, lay_out, name, new_core, shows, take, told};
use mw_core::{Core, Finish, Refusal, Started};
use mw_model::{LogItem, Reply, TaskId};
use mw_step_task::{TaskRefused, TileDone, Work};
use std::alloc::Global;
use std::process::Abort;

/// What is done with a core, and what it answers.
#[derive(Clone, Copy)]
pub(crate) enum Turn<'a> {
    Call(Ask<'a>, Reply),
    /// With the text of what is handed out.
    Fetch(&'a [u8], Reply, &'a [u8]),
    Do(Job),
    See(Sight),
}

/// What a worker does.
#[derive(Clone, Copy)]
pub(crate) enum Job {
    /// It takes the task at a place, which is of this ticket.
    Take(u64, u32),
    /// No task is taken.
    Rest,
    /// The task that was taken last, of all that were not brought, is computed and brought.
    Bring(Finish),
    /// The task of this tile, among those taken and not brought, is computed and brought.
    BringTile(u32, Finish),
    /// The task that was taken last found no memory.
    GiveUp(Refusal),
    /// A task by hand, with its last sample, is brought.
    ByHand(TaskId, u8, Finish),
    /// A task by hand found no memory.
    GiveUpByHand(TaskId, Refusal),
}

/// What is seen of a core.
#[derive(Clone, Copy)]
pub(crate) enum Sight {
    /// So many tasks are ready, and so many running.
    Tasks(u64, u64),
    /// So many tasks of the ticket are left.
    Left(u32, Option<u64>),
    Keeps(u32, bool),
    Last(LogItem),
}

/// All that is seen of a core: the items of its log, its ready and its running tasks, and of its first tickets how many
/// tasks are left and whether the value is kept.
#[derive(Clone, Copy, PartialEq, Debug)]
struct Seen {
    items: usize,
    tasks: [u64; 2],
    left: [Option<u64>; 5],
    keeps: [bool; 5],
}

fn looks(core: &Core) -> Seen {
    Seen {
        items: core.log_len(),
        tasks: [core.ready_count(), core.running()],
        left: [0u32, 1, 2, 3, 4].map(|t| core.remaining(t)),
        keeps: [0u32, 1, 2, 3, 4].map(|t| core.keeps(t)),
    }
}

/// A result is told this. One that is late or a stranger's changes nothing.
fn bring(rt: &impl Abort, core: &mut Core, done: TileDone, wanted: Finish) {
    let before = looks(core);
    assert_eq!(rt; core.finish(done), wanted);
    if matches!(wanted, Finish::Late | Finish::Stranger) {
        assert_eq!(rt; looks(core), before);
    }
}

/// A refusal is told this, in the same way.
fn give_up(rt: &impl Abort, core: &mut Core, work: Work, wanted: Refusal) {
    let before = looks(core);
    assert_eq!(rt; core.refuse(TaskRefused::new(work)), wanted);
    if matches!(wanted, Refusal::Late | Refusal::Stranger) {
        assert_eq!(rt; looks(core), before);
    }
}

/// Computes a task and brings it; false where it found no memory.
fn computed_and_brought(
    rt: &impl Abort,
    alloc: Global,
    core: &mut Core,
    work: Work,
    wanted: Finish,
) -> bool {
    match computed(alloc, core, work) {
        Some(done) => {
            bring(rt, core, done, wanted);
            true
        }
        None => false,
    }
}

/// The task of a tile.
fn picked(rt: &impl Abort, hands: &mut Hands, tile: u32) -> Work {
    let place = hands.taken.iter().position(|work| work.task().tile == tile);
    let place = place.expect(rt, "a task of the tile");
    assert!(rt; place < hands.taken.len());
    hands.taken.remove(place)
}

/// False where a ticket died for want of memory.
fn work(rt: &impl Abort, alloc: Global, core: &mut Core, hands: &mut Hands, job: Job) -> bool {
    match job {
        Job::Take(place, ticket) => return take(rt, core, hands, place, ticket),
        Job::Rest => assert!(rt; matches!(core.start(0), Started::Idle)),
        Job::Bring(wanted) => {
            return computed_and_brought(rt, alloc, core, last_taken(rt, hands), wanted);
        }
        Job::BringTile(tile, wanted) => {
            return computed_and_brought(rt, alloc, core, picked(rt, hands, tile), wanted);
        }
        Job::GiveUp(wanted) => give_up(rt, core, last_taken(rt, hands), wanted),
        Job::ByHand(task, last, wanted) => {
            bring(rt, core, by_hand::done(rt, alloc, task, last), wanted);
        }
        Job::GiveUpByHand(task, wanted) => {
            give_up(rt, core, by_hand::work(rt, alloc, task, 5), wanted);
        }
    }
    true
}

fn last_item(core: &Core) -> Option<LogItem> {
    let items = core.log_len();
    if items > 0 {
        Some(core.log_at(items - 1))
    } else {
        None
    }
}

fn see(rt: &impl Abort, core: &Core, sight: Sight) {
    match sight {
        Sight::Tasks(ready, running) => {
            assert_eq!(rt; [core.ready_count(), core.running()], [ready, running]);
        }
        Sight::Left(ticket, left) => assert_eq!(rt; core.remaining(ticket), left),
        Sight::Keeps(ticket, keeps) => assert_eq!(rt; core.keeps(ticket), keeps),
        Sight::Last(item) => assert_eq!(rt; last_item(core), Some(item)),
    }
}

fn take_turn(
    rt: &impl Abort,
    alloc: Global,
    core: &mut Core,
    hands: &mut Hands,
    turn: &Turn,
) -> bool {
    match turn {
        Turn::Call(ask, wanted) => told(rt, alloc, core, hands, ask, *wanted),
        Turn::Fetch(text, reply, bytes) => {
            shows(rt, alloc, core, hands, name(rt, text), (*reply, bytes));
        }
        Turn::Do(job) => return work(rt, alloc, core, hands, *job),
        Turn::See(sight) => see(rt, core, *sight),
    }
    true
}

/// Plays turns; false where a ticket died for want of memory.
pub(crate) fn play(
    rt: &impl Abort,
    alloc: Global,
    core: &mut Core,
    hands: &mut Hands,
    turns: &[Turn],
) -> bool {
    for each in turns {
        if !take_turn(rt, alloc, core, hands, each) {
            return false;
        }
    }
    true
}

/// Plays a list with a new core that has this row and the bar: how often memory was wanting; none where a ticket died of it.
pub(crate) fn wants(rt: &impl Abort, alloc: Global, row: &[u8], turns: &[Turn]) -> Option<u32> {
    let mut hands = Hands::new(alloc);
    let mut core = new_core(rt, alloc, &mut hands);
    lay_out(rt, alloc, &mut core, &mut hands, row);
    if play(rt, alloc, &mut core, &mut hands, turns) {
        Some(hands.wants)
    } else {
        None
    }
}

/// A list is answered as it says.
pub(crate) fn plays(rt: &impl Abort, alloc: Global, row: &[u8], turns: &[Turn]) {
    if wants(rt, alloc, row, turns).is_none() {
        assert!(rt; wants(rt, alloc, row, turns).is_some());
    }
}
