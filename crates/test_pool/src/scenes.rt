//! What is played, each on a board of its own and within the limit. A scene stops where it finds what should not be.

ghost use Rattle.std.specs.Prelude.{◌≡◌};

use crate::asleep::{one_result_wakes_many, runs_wake_sleepers};
use crate::closing::{begins_none, close_over_tasks};
use crate::desk::new_board;
use crate::door::{Door, Way};
use crate::loading::{ask_on, loads_beside};
use crate::many::{End, all_worked_off, end_waits, waits_at_once, waits_end};
use crate::overlap::two_overlap;
use crate::refused::{wait_beside, work_later};
use crate::sessions::{close_later, fetch_both, two_passes, wait_alone, wait_over_close};
use crate::watch::{let_sleep, watched};
use crate::{closing, many, refused};
use mw_pool::{Board, Naming, NewRoll, work};
use std::alloc::Global;
use std::marker::Brand;
use std::process::Abort;
use std::sync::Wait;
use std::sync::atomic::Ordering;
use std::thread;
use std::thread::Threads;
use std::time::Clock;

/// What the session does that is played, or the first of several.
#[derive(Clone, Copy)]
pub(crate) enum Act {
    WaitOverClose,
    WaitAlone,
    /// Whether the second session's reply is looked at, or the audits.
    TwoPasses(bool),
    FetchBoth,
    Overlap,
    WaitsEnd(End),
    WorkedOff,
    WaitsAtOnce,
    RunsWake,
    ResultWakes,
    CloseOverTasks,
    CloseOverSleepers,
    /// Whether what is waited for depends on what is refused.
    Refused(bool),
    Loads,
}

#[derive(Clone, Copy)]
pub(crate) struct Scene {
    act: Act,
    /// How many threads there are beside it. They are workers, but where the act says something else.
    helpers: u64,
    way: Way,
    /// How many tasks meet others at the gate.
    met: u64,
}

impl Scene {
    pub(crate) fn beside(helpers: u64, way: Way, act: Act) -> Scene {
        Scene {
            act,
            helpers,
            way,
            met: 0,
        }
    }

    pub(crate) fn alone(act: Act) -> Scene {
        Scene::beside(0, Way::Freely, act)
    }

    pub(crate) fn meeting(self, met: u64) -> Scene {
        Scene { met, ..self }
    }
}

/// What is there before any helper begins.
fn lay_out<R: Wait + Abort, J: Naming>(rt: &R, alloc: Global, board: &Board<J>, act: Act) {
    match act {
        Act::CloseOverTasks => closing::lay_out(rt, alloc, board),
        Act::WaitsEnd(_) => many::lay_out(rt, alloc, board),
        Act::Refused(_) => refused::lay_out(rt, alloc, board),
        _ => (),
    }
}

fn help<R: Wait + Clock + Abort, J: Naming>(
    rt: &R,
    board: &Board<J>,
    door: &Door<'_, R>,
    act: Act,
) {
    match act {
        Act::WaitOverClose => close_later(rt, board),
        Act::WaitsEnd(end) => end_waits(rt, board, door, end),
        Act::Refused(_) => work_later(rt, board, door),
        Act::Loads => ask_on(rt, board, door),
        _ => work(rt, board, door),
    }
}

fn perform<R: Threads + Wait + Clock + Abort + Sync, J: Naming + Send + Sync>(
    rt: &R,
    alloc: Global,
    board: &Board<J>,
    door: &Door<'_, R>,
    act: Act,
) {
    match act {
        Act::WaitOverClose => wait_over_close(rt, alloc, board),
        Act::WaitAlone => wait_alone(rt, alloc, board),
        Act::TwoPasses(reply) => two_passes(rt, alloc, board, reply),
        Act::FetchBoth => fetch_both(rt, alloc, board),
        Act::Overlap => two_overlap(rt, alloc, board),
        Act::WaitsEnd(end) => waits_end(rt, alloc, board, end),
        Act::WorkedOff => all_worked_off(rt, alloc, board),
        Act::WaitsAtOnce => waits_at_once(rt, alloc, board),
        Act::RunsWake => runs_wake_sleepers(rt, alloc, board),
        Act::ResultWakes => one_result_wakes_many(rt, alloc, board, door),
        Act::CloseOverTasks => close_over_tasks(rt, board, door),
        Act::CloseOverSleepers => let_sleep(rt),
        Act::Refused(depends) => wait_beside(rt, board, depends),
        Act::Loads => loads_beside(rt, alloc, board, door),
    }
}

/// Acts beside the helpers, which end with the board: it is closed at the end. A start that finds no memory is tried once more.
fn act_beside<R: Threads + Wait + Clock + Abort + Sync, J: Naming + Send + Sync>(
    rt: &R,
    alloc: Global,
    board: &Board<J>,
    door: &Door<'_, R>,
    scene: Scene,
) {
    thread::scope(thread::scope_env(), rt, |threads| {
        let mut begun = 0u64;
        for _ in 0..=scene.helpers {
            if begun < scene.helpers
                && threads
                    .spawn(move || help(rt, board, door, scene.act))
                    .is_ok()
            {
                begun = begun.saturating_add(1);
            }
        }
        perform(rt, alloc, board, door, scene.act);
        board.close(rt);
    });
}

pub(crate) fn play<R: Threads + Wait + Clock + Abort + Sync, J: Naming + Send + Sync>(
    rt: &R,
    alloc: Global,
    board: &Board<J>,
    scene: Scene,
) {
    lay_out(rt, alloc, board, scene.act);
    let door = Door::new(rt, alloc, scene.way);
    act_beside(rt, alloc, board, &door, scene);
    assert_eq!(rt; door.met.load(Ordering::SeqCst), scene.met);
    if matches!(scene.act, Act::CloseOverTasks) {
        begins_none(rt, board, &door);
    }
}

fn played<J: Naming + Send + Sync, R: Threads + Wait + Clock + Abort + Sync>(
    rt: &R,
    alloc: Global,
    scene: Scene,
    roll: NewRoll,
)
    requires { roll ≡ J.book }
{
    let board = new_board::<J>(rt, alloc, roll);
    watched(rt, alloc, &board, scene);
}

pub(crate) fn on_a_board<R: Threads + Wait + Clock + Abort + Sync>(
    rt: &R,
    alloc: Global,
    scene: Scene,
) {
    played::<Brand, R>(rt, alloc, scene, NewRoll::new());
}
