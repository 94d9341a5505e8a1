//! What a task is worth: its time, estimated from its windows and from what its step does with a sample; and the bytes that
//! it makes. A wrong estimate costs time or memory, and no sample.

ghost use Rattle.std.specs.Prelude.{◌≤◌};

use crate::job::WaveTask;
use mw_model::{Kind, Rect};
use mw_step::task::Work;
use mw_step_task::{Element, Step};

// Times in picoseconds. Only how they compare matters.

/// A sample of 8 bits of a window, where the step takes an extremum of neighbours.
const NEIGHBOURED: u64 = 1_200;

/// So much more for each run of an element.
const RUN: u64 = 60;

/// A sample of 8 bits of a window, where the step takes a rank.
const RANKED: u64 = 20_000;

/// A sample of 8 bits of a window, where the step looks at it alone.
const ALONE: u64 = 80;

/// So many pixels of a set take as long as a sample of 8 bits.
const PIXELS_A_SAMPLE: u64 = 24;

/// So much more for each byte that a task makes, which is new to the cache, and often to the process.
const MADE: u64 = 300;

/// To hand a task over and to take its answer back.
const HANDED_OVER: u64 = 2_000_000;

/// A thread more is started for so much of a wave, since it takes half as long to start one.
const THREAD: u64 = 100_000_000;

/// The bytes that a task takes itself, beside what it makes.
const ITSELF: u64 = 512;

/// The samples of this rectangle, in samples of 8 bits.
fn samples(kind: Kind, maxval: u16, place: Rect) -> u64 {
    let pixels = u64::from(place.width).saturating_mul(u64::from(place.height));
    match kind {
        Kind::Bit => pixels / PIXELS_A_SAMPLE,
        Kind::Grey if maxval <= 255 => pixels,
        Kind::Grey => pixels.saturating_mul(2),
    }
}

/// A sample under an element.
fn under(element: &Element) -> u64 {
    let runs = element.runs().len() as u64;
    NEIGHBOURED.saturating_add(RUN.saturating_mul(runs))
}

/// A sample in a step.
fn each(step: &Step) -> u64 {
    match step {
        Step::Erode(element) => under(element),
        Step::Dilate(element) => under(element),
        Step::ErodeBox(_) => NEIGHBOURED,
        Step::DilateBox(_) => NEIGHBOURED,
        Step::Rank(_, _) => RANKED,
        _ => ALONE,
    }
}

/// The time of a task.
fn worth(work: &Work) -> u64 {
    let mut count = 0u64;
    for window in work.windows() {
        count = count.saturating_add(samples(window.kind(), window.maxval(), window.place()));
    }
    let looked = count.saturating_mul(each(work.step()));
    looked.saturating_add(task_bytes(work).saturating_mul(MADE))
}

/// The bytes of a plane of so many pixels.
fn plane_bytes(kind: Kind, maxval: u16, pixels: u64) -> u64 {
    match kind {
        Kind::Bit => pixels / 8,
        Kind::Grey if maxval <= 255 => pixels,
        Kind::Grey => pixels.saturating_mul(2),
    }
}

/// The bytes that a task makes of so many pixels. A step that does not change the kind makes that of its first source.
fn made_bytes(work: &Work, pixels: u64) -> u64 {
    match work.step() {
        Step::AtLeast(_) => plane_bytes(Kind::Bit, 1, pixels),
        Step::Equal(_) => plane_bytes(Kind::Bit, 1, pixels),
        Step::Blank(maxval) => plane_bytes(Kind::Grey, *maxval, pixels),
        Step::Sum => 0,
        _ => match work.windows().first() {
            Some(window) => plane_bytes(window.kind(), window.maxval(), pixels),
            None => 0,
        },
    }
}

/// The bytes that a task makes, and that it takes itself.
pub(crate) fn task_bytes(work: &Work) -> u64 {
    let rect = work.rect();
    let pixels = u64::from(rect.width).saturating_mul(u64::from(rect.height));
    made_bytes(work, pixels).saturating_add(ITSELF)
}

/// The least of them, for a tile of this side: those of a set.
pub(crate) fn least_task_bytes(side: u32) -> u64
    ensures { 1 ≤ result }
{
    let pixels = u64::from(side).saturating_mul(u64::from(side));
    plane_bytes(Kind::Bit, 1, pixels).saturating_add(ITSELF)
}

/// Whether a task is worth less than to hand it over.
pub(crate) fn is_small(work: &Work) -> bool {
    worth(work) < HANDED_OVER
}

/// How many threads the tasks of a wave are worth, up to so many.
pub(crate) fn threads_for(jobs: &[WaveTask], most: usize) -> usize
    ensures { result ≤ most }
{
    let enough = THREAD.saturating_mul(most as u64);
    let mut all = 0u64;
    for job in jobs {
        if all >= enough {
            return most;
        }
        if let WaveTask::Waits(work) = job {
            all = all.saturating_add(worth(work));
        }
    }
    most.min((all / THREAD) as usize)
}
