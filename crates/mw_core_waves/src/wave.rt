//! A wave: tasks that are taken from the core, run, and handed back.

ghost use Rattle.std.specs.Prelude.{◌≡◌, ◌<◌, ◌≤◌, ◌+◌, ◌++◌, ◌∷◌, [], ℕ, List, IfSome, vec_len, vec_capacity};
ghost use Rattle.std.specs.List.{AllByRecursion};
ghost use Rattle.mw_model.specs.Machine.{Machine};
ghost use Rattle.mw_model.specs.Stands.{CoreView, StandsFor, ready_count, running_count};
ghost use Rattle.mw_step.specs.mw_step_task.WindowTasks.{IsBounded};
ghost use Rattle.mw_core.specs.TaskAnswers.{Picks, StartsBounded};
ghost use Rattle.mw_core_waves.specs.declared.job.WaveTask.{WaveTask};
ghost use Rattle.mw_core_waves.specs.Jobs.{AreMadeHands, HandIsMade, IsBoundedJob};
ghost use Rattle.mw_core_waves.specs.Waves.{Underway, Took};
ghost use Rattle.mw_core_waves.specs.Work.{Turned};

use crate::crew::WaveSize;
use crate::job::{WaveTask, answered};
use crate::pick::All;
use crate::shared::{Hands, MadeTile, make_some};
use crate::worth::{is_small, task_bytes};
use crate::{Crew, Pick};
use mw_core::{Core, Started};
use mw_step::task::{TaskRefused, TileDone, Work};
use std::alloc::Global;
use std::sync::atomic::AtomicUsize;
use std::thread::Threads;
use std::{mem, thread};

/// Takes the ready task of the next place, if one is ready.
fn start_next<P: Pick>(core: &mut Core, pick: &mut P) -> Started
    ensures took { (m : Machine) (old : CoreView) (jobs : List WaveTask) (n : ℕ) → Underway m old core.old jobs n → Took m old core.old jobs result core.new }
    ensures turn { Picks core.old (P.place pick.old (ready_count core.old)) result }
    ensures bounded { StartsBounded result }
{
    let count = core.ready_count();
    if count == 0 {
        return Started::Idle;
    }
    let place = pick.pick(count);
    core.start(place)
}

/// Keeps a task that was taken for a wave, or runs it at once where it is worth less than to hand it over. Gives the bytes that
/// are held for it.
fn keep_or_run(alloc: Global, core: &mut Core, jobs: &mut Vec<WaveTask>, work: Work) -> u64
    requires room { vec_len jobs.old < vec_capacity jobs.old }
    requires jobs { AllByRecursion IsBoundedJob jobs.old.items }
    requires bounded { AllByRecursion IsBounded work.windows }
    ensures underway { (m : Machine) (old : CoreView) (others : List WaveTask) → Underway m old core.old (WaveTask.Waits work ∷ (others ++ jobs.old.items)) 1 → Underway m old core.new (others ++ jobs.new.items) 1 }
    ensures jobs { AllByRecursion IsBoundedJob jobs.new.items }
    ensures one { vec_len jobs.new ≤ vec_len jobs.old + 1 }
    ensures capacity { vec_capacity jobs.new ≡ vec_capacity jobs.old }
{
    if is_small(&work) {
        hand_in(core, mw_step::run(alloc, work));
        return 0;
    }
    let held = task_bytes(&work);
    jobs.push_reserved(WaveTask::Waits(work));
    held
}

/// Takes ready tasks more, up to this size, for which there is room. Those that are worth less than to hand them over are run at
/// once.
fn take_more<P: Pick>(
    alloc: Global,
    core: &mut Core,
    pick: &mut P,
    size: WaveSize,
    jobs: &mut Vec<WaveTask>,
)
    requires room { vec_len jobs.old + size.most ≤ vec_capacity jobs.old }
    requires bounded { AllByRecursion IsBoundedJob jobs.old.items }
    ensures underway { (m : Machine) (old : CoreView) (others : List WaveTask) → Underway m old core.old (others ++ jobs.old.items) 1 → Underway m old core.new (others ++ jobs.new.items) 1 }
    ensures bounded { AllByRecursion IsBoundedJob jobs.new.items }
{
    let mut held = 0u64;
    'tasks: for _taken in 0..size.most {
        if held >= size.bytes && jobs.len() >= size.least {
            return;
        }
        match start_next(core, pick) {
            Started::Work(work) => {
                held = held.saturating_add(keep_or_run(alloc, core, jobs, work));
            }
            Started::Refused(_) => {}
            Started::Idle => return,
        }
    }
}

/// Hands the answer to a task back. A result was made of the core's own task, as is known, so nothing is compared.
fn hand_in(core: &mut Core, answer: Result<TileDone, TaskRefused>)
    requires { IsBoundedJob (WaveTask.Ran answer) }
    ensures { (m : Machine) (old : CoreView) (jobs : List WaveTask) (n : ℕ) → n ≤ 1 → Underway m old core.old (WaveTask.Ran answer ∷ jobs) n → Underway m old core.new jobs n }
{
    match answer {
        Ok(done) => {
            let _answer = core.finish_own(done);
        }
        Err(refused) => {
            let _answer = core.refuse(refused);
        }
    }
}

/// Hands a task back that was not run.
fn hand_back(core: &mut Core, work: Work)
    ensures { (m : Machine) (old : CoreView) → Underway m old core.old (WaveTask.Waits work ∷ []) 1 → Underway m old core.new [] 1 }
{
    let refused = TaskRefused::new(work);
    hand_in(core, Err(refused));
}

/// Hands all answers back, in the order in which their tasks were taken.
fn hand_all(alloc: Global, core: &mut Core, jobs: Vec<WaveTask>)
    requires { AllByRecursion IsBoundedJob jobs.items }
    ensures { (m : Machine) (old : CoreView) (others : List WaveTask) → Underway m old core.old (jobs.items ++ others) 1 → Underway m old core.new others 1 }
{
    for job in jobs {
        match job {
            WaveTask::Ran(answer) => hand_in(core, answer),
            WaveTask::Waits(work) => hand_in(core, mw_step::run(alloc, work)),
            WaveTask::Nothing => {}
        }
    }
}

/// Takes a wave of ready tasks up to this size, and none where there is no memory for their list.
fn take_wave<P: Pick>(alloc: Global, size: WaveSize, core: &mut Core, pick: &mut P) -> Vec<WaveTask>
    ensures underway { (m : Machine) (old : CoreView) (others : List WaveTask) → Underway m old core.old others 1 → Underway m old core.new (others ++ result.items) 1 }
    ensures bounded { AllByRecursion IsBoundedJob result.items }
{
    let most = core.ready_count().min(size.most as u64) as usize;
    match Vec::with_capacity(alloc, most) {
        Ok(mut jobs) => {
            take_more(alloc, core, pick, WaveSize { most, ..size }, &mut jobs);
            jobs
        }
        Err(_) => Vec::new(alloc),
    }
}

/// What the one who has the core does while others make the tasks of a wave: hands the wave before back, takes the wave
/// that comes next, in its place, and then makes tasks himself.
fn own_part<P: Pick>(
    alloc: Global,
    size: WaveSize,
    jobs: &[WaveTask],
    begun: &AtomicUsize,
    core: &mut Core,
    pick: &mut P,
    beside: &mut Vec<WaveTask>,
) -> Vec<MadeTile>
    requires { AllByRecursion IsBoundedJob beside.old.items }
    ensures underway { (m : Machine) (old : CoreView) (others : List WaveTask) → Underway m old core.old (beside.old.items ++ others) 1 → Underway m old core.new (others ++ beside.new.items) 1 }
    ensures bounded { AllByRecursion IsBoundedJob beside.new.items }
    ensures made { HandIsMade jobs.now result }
{
    let done = mem::replace(beside, Vec::new(alloc));
    hand_all(alloc, core, done);
    *beside = take_wave(alloc, size, core, pick);
    make_some(alloc, jobs, begun, pick)
}

/// How a wave is made: so many others make its tasks, while the next wave is taken up to this size.
#[derive(Clone, Copy)]
struct Making {
    alloc: Global,
    size: WaveSize,
    others: usize,
}

/// What is made of the tasks of a wave: by others, each in a thread, and by the one who has the core, who does his own part
/// first. He starts all threads himself, one behind the other: a thread that another one started would begin later than
/// that.
#[cycle(hands)]
fn make_beside<P: Pick, T: Threads + Sync>(
    rt: &T,
    making: Making,
    jobs: &[WaveTask],
    begun: &AtomicUsize,
    core: &mut Core,
    pick: &mut P,
    beside: &mut Vec<WaveTask>,
) -> Hands
    requires { AllByRecursion IsBoundedJob beside.old.items }
    ensures underway { (m : Machine) (old : CoreView) (others : List WaveTask) → Underway m old core.old (beside.old.items ++ others) 1 → Underway m old core.new (others ++ beside.new.items) 1 }
    ensures bounded { AllByRecursion IsBoundedJob beside.new.items }
    ensures made { AreMadeHands jobs.now result }
{
    let Making {
        alloc,
        size,
        others,
    } = making;
    if others == 0 {
        let mine = own_part(alloc, size, jobs, begun, core, pick, beside);
        let theirs = Vec::new(alloc);
        return Hands { mine, theirs };
    }
    let fewer = Making {
        others: others - 1,
        ..making
    };
    let mut one = || -> Vec<MadeTile>
        ensures { HandIsMade jobs.entry.now result }
    { make_some(alloc, jobs, begun, &mut All) };
    let mut rest = || -> Hands
        requires { AllByRecursion IsBoundedJob beside.now.items }
        ensures { ((m : Machine) (old : CoreView) (others : List WaveTask) → Underway m old core.entry.now (beside.entry.now.items ++ others) 1 → Underway m old core.exit.now (others ++ beside.exit.now.items) 1) × AllByRecursion IsBoundedJob beside.exit.now.items × AreMadeHands jobs.entry.now result }
    { make_beside(rt, fewer, jobs, begun, core, pick, beside) };
    let (hand, mut hands) = thread::join_mut(rt, &mut one, &mut rest);
    hands.take(hand);
    hands
}

/// One turn of work: gives a wave with all tasks answered in their places. Meanwhile the wave before is handed back, and the
/// wave that comes next is taken in its place.
fn turn<P: Pick, T: Threads + Sync>(
    crew: Crew<T>,
    core: &mut Core,
    pick: &mut P,
    jobs: Vec<WaveTask>,
    beside: &mut Vec<WaveTask>,
) -> Vec<WaveTask>
    requires jobs { AllByRecursion IsBoundedJob jobs.items }
    requires beside { AllByRecursion IsBoundedJob beside.old.items }
    ensures underway { (m : Machine) (old : CoreView) → Underway m old core.old (beside.old.items ++ jobs.items) 1 → Underway m old core.new (result.items ++ beside.new.items) 1 }
    ensures jobs { AllByRecursion IsBoundedJob result.items }
    ensures beside { AllByRecursion IsBoundedJob beside.new.items }
{
    let begun = AtomicUsize::new(0);
    let making = Making {
        alloc: crew.alloc,
        size: crew.wave_size(core.least_side()),
        others: if pick.is_wanted() {
            crew.others(&jobs)
        } else {
            0
        },
    };
    let hands = make_beside(crew.rt, making, &jobs, &begun, core, pick, beside);
    answered(crew, pick.is_wanted(), hands, jobs)
}

/// Runs wave after wave, beginning with these tasks, until none is ready and all are handed back.
fn run_waves<P: Pick, T: Threads + Sync>(
    crew: Crew<T>,
    core: &mut Core,
    pick: &mut P,
    mut jobs: Vec<WaveTask>,
)
    requires { AllByRecursion IsBoundedJob jobs.items }
    ensures { (m : Machine) (old : CoreView) → Underway m old core.old jobs.items 1 → Underway m old core.new [] 1 }
{
    let mut beside = Vec::new(crew.alloc);
    'turns: for _turn in 0..u64::MAX {
        if jobs.is_empty() && beside.is_empty() {
            return;
        }
        let done = turn(crew, core, pick, jobs, &mut beside);
        jobs = beside;
        beside = done;
    }
    hand_all(crew.alloc, core, beside);
    hand_all(crew.alloc, core, jobs);
}

/// An empty list for the tasks of a wave, with so many others beside the first. There is none for one worker, for a task
/// that has no other beside it or is worth less than to hand it over, and where memory is refused.
fn list<T>(crew: Crew<T>, side: u32, first: &Work, others: u64) -> Option<Vec<WaveTask>>
    ensures { IfSome result (λ v. (v.items ≡ []) × (1 ≤ vec_capacity v) × (0 < crew.entry.workers)) }
{
    if crew.workers <= 1 || others == 0 || is_small(first) {
        return None;
    }
    let most = (crew.wave(side) as u64).min(others.saturating_add(1));
    match Vec::with_capacity(crew.alloc, most as usize) {
        Ok(jobs) => Some(jobs),
        Err(_) => None,
    }
}

/// Runs a task that was taken, and others beside it. Where there are none, or no memory for their list, it is run alone; where
/// it is not wanted, it is refused.
fn run_beside<P: Pick, T: Threads + Sync>(crew: Crew<T>, core: &mut Core, pick: &mut P, first: Work)
    requires { AllByRecursion IsBounded first.windows }
    ensures { (m : Machine) (old : CoreView) → Underway m old core.old (WaveTask.Waits first ∷ []) 1 → Underway m old core.new [] 1 }
{
    if !pick.is_wanted() {
        hand_back(core, first);
        return;
    }
    match list(crew, core.least_side(), &first, core.ready_count()) {
        Some(mut jobs) => {
            jobs.push_reserved(WaveTask::Waits(first));
            let size = crew.wave_size(core.least_side());
            let most = jobs.capacity() - jobs.len();
            take_more(crew.alloc, core, pick, WaveSize { most, ..size }, &mut jobs);
            run_waves(crew, core, pick, jobs);
        }
        None => hand_in(core, mw_step::run(crew.alloc, first)),
    }
}

/// Takes as many ready tasks as a wave has room for, runs them, and hands their answers back. Says whether one was ready.
pub(crate) fn run_wave<P: Pick, T: Threads + Sync>(
    crew: Crew<T>,
    core: &mut Core,
    pick: &mut P,
) -> bool
    ensures { (m : Machine) → StandsFor core.old m → running_count core.old ≡ 0 → Turned m core.old core.new result }
{
    match start_next(core, pick) {
        Started::Idle => false,
        Started::Refused(_) => true,
        Started::Work(first) => {
            run_beside(crew, core, pick, first);
            true
        }
    }
}
