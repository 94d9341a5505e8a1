//! Tasks of a wave that workers share: each makes the next one that nobody has begun.

ghost use Rattle.std.specs.Prelude.{IfSome, List};
ghost use Rattle.std.specs.List.{AllByRecursion, AllZip};
ghost use Rattle.mw_core_waves.specs.declared.job.WaveTask.{WaveTask};
ghost use Rattle.mw_core_waves.specs.Jobs.{AreMadeHands, HandIsMade, IsKept, IsMadeAt};

use crate::job::WaveTask;
use crate::pick::Pick;
use mw_model::NoMemory;
use mw_step::task::TileResult;
use std::alloc::Global;
use std::sync::atomic::{AtomicUsize, Ordering};

/// What was made for the task in a place of a wave.
#[derive(Drop)]
pub struct MadeTile {
    pub place: usize,
    pub tile: Result<TileResult, NoMemory>,
}

/// What was made of the tasks of a wave: by the one who has the core, and by each of the others.
#[derive(Drop)]
pub struct Hands {
    pub mine: Vec<MadeTile>,
    pub theirs: Vec<Vec<MadeTile>>,
}

/// Makes the task in this place, if one waits there.
fn make_at(alloc: Global, jobs: &[WaveTask], place: usize) -> Option<MadeTile>
    ensures { IfSome result (IsMadeAt jobs.now) }
{
    if place >= jobs.len() {
        return None;
    }
    match &jobs[place] {
        WaveTask::Waits(work) => Some(MadeTile {
            place,
            tile: mw_step::compute(alloc, work),
        }),
        _ => None,
    }
}

/// Makes tasks that nobody has begun, until none is left, or none is wanted: then nobody begins one. Who finds no room for
/// what he made makes no more.
pub(crate) fn make_some<P: Pick>(
    alloc: Global,
    jobs: &[WaveTask],
    begun: &AtomicUsize,
    pick: &mut P,
) -> Vec<MadeTile>
    ensures { AllByRecursion (IsMadeAt jobs.now) result.items }
{
    let mut hand = Vec::new(alloc);
    'tasks: for _turn in 0..jobs.len() {
        if !pick.is_wanted() {
            begun.store(jobs.len(), Ordering::SeqCst);
            return hand;
        }
        let Some(made) = make_at(alloc, jobs, begun.fetch_add(1, Ordering::SeqCst)) else {
            return hand;
        };
        if hand.push(made).is_err() {
            return hand;
        }
    }
    hand
}

/// Answers the task in its place, if it waits there yet.
fn put(made: MadeTile, jobs: &mut [WaveTask])
    requires { IsMadeAt jobs.old made }
    ensures { AllZip IsKept jobs.old jobs.new }
{
    if made.place < jobs.len() {
        jobs[made.place].keep(made.tile);
    }
}

/// Answers the tasks of which one worker made something.
pub(crate) fn put_hand(hand: Vec<MadeTile>, jobs: &mut [WaveTask])
    requires { HandIsMade jobs.old hand }
    ensures { AllZip IsKept jobs.old jobs.new }
{
    for made in hand {
        put(made, jobs);
    }
}

/// Answers the tasks of which several workers made something.
fn put_hands(hands: Vec<Vec<MadeTile>>, jobs: &mut [WaveTask])
    requires { AllByRecursion (HandIsMade jobs.old) hands.items }
    ensures { AllZip IsKept jobs.old jobs.new }
{
    for hand in hands {
        put_hand(hand, jobs);
    }
}

impl Hands {
    ghost use Rattle.std.specs.Prelude.{length};

    /// Takes what one more of the others made. Where there is no room for it, it is lost, and its tasks are run anew.
    pub(crate) fn take(&mut self, hand: Vec<MadeTile>)
        ensures { (jobs : List WaveTask) → AreMadeHands jobs self.old → HandIsMade jobs hand → AreMadeHands jobs self.new }
    {
        let _taken = self.theirs.push(hand);
    }

    /// Answers the tasks of which something was made.
    pub(crate) fn put(self, jobs: &mut [WaveTask])
        requires { AreMadeHands jobs.old self }
        ensures { AllZip IsKept jobs.old jobs.new }
    {
        put_hands(self.theirs, jobs);
        put_hand(self.mine, jobs);
    }
}
