//! Runs along a row: each sample is raised to the one before it, within the mask.
//!
//! What comes of a place depends on the place before it, so a loop over the columns takes one after another. Here a block of
//! 64 of them is raised by doubling (after Hillis and Steele, Data Parallel Algorithms, 1986): each place from the one before
//! it, then from two places before it, then from four. What reaches a place from so many places before it is cut to the least
//! of the masks on the way, and those are made by doubling too. Seven such steps go by vectors. A block in which no place would
//! be raised by the one before it stays as it is; after the first sweeps most are so.

ghost use Rattle.std.specs.Prelude.{◌≡◌, ℕ, ◌+◌, ◌*◌, ◌<◌, ◌≤◌, ◌^◌, length, false, true};
ghost use Rattle.mw_geodesic_levels.specs.Levels.{level_numbered, IsRaised};
ghost use Rattle.mw_geodesic_levels.specs.Runs.{along, column, IsUnderRun};

use crate::frame::{Frame, Place};
use crate::samples::{at, greater, is_below, lesser, put};
use crate::sweeps::pull;
use mw_pixel::Pixel;

/// So many columns are raised at once.
const BLOCK: usize = 64;

/// A block, and before it as many times the sample that stands before it.
const SPAN: usize = 128;

/// The number of the place so many columns further on, to the right or to the left.
#[inline(always)]
fn step(start: usize, k: usize, forward: bool) -> usize
    requires ahead { forward ≡ true → start + k < 2 ^ 64 }
    requires back { forward ≡ false → k ≤ start }
    ensures { result ≡ along forward start k }
{
    if forward { start + k } else { start - k }
}

/// The column of a place of a row, counted from the left or from the right.
#[inline(always)]
fn column_of(frame: Frame, p: u32, forward: bool) -> u32
    requires { p < frame.width }
    ensures value { result ≡ column forward frame.width p }
    ensures within { result < frame.width }
{
    if forward { p } else { frame.width - 1 - p }
}

/// Copies a block of samples into the second half of a run.
#[inline(always)]
fn load<P: Pixel>(run: &mut [P], samples: &[P], start: usize, forward: bool)
    requires run { length run.old ≡ 128 }
    requires inside { (k : ℕ) → k < 64 → along forward start k < length samples.now }
    requires back { forward ≡ false → 63 ≤ start }
    ensures before { (j : ℕ) → j < 64 → level_numbered P.level run.new j ≡ level_numbered P.level run.old j }
    ensures block { (k : ℕ) → k < 64 → level_numbered P.level run.new (64 + k) ≡ level_numbered P.level samples.now (along forward start k) }
{
    // for the bound of its numbers
    let _count = samples.len();
    for k in 0..BLOCK {
        let s = at(samples, step(start, k, forward));
        put(run, BLOCK + k, s);
    }
}

/// Raises a block of samples to those of the second half of a run.
#[inline(always)]
fn store<P: Pixel>(samples: &mut [P], run: &[P], start: usize, forward: bool)
    requires run { length run.now ≡ 128 }
    requires inside { (k : ℕ) → k < 64 → along forward start k < length samples.old }
    requires back { forward ≡ false → 63 ≤ start }
    ensures over { (i : ℕ) → i < length samples.old → level_numbered P.level samples.old i ≤ level_numbered P.level samples.new i }
    ensures within { (h : ℕ → ℕ) → ((k : ℕ) → k < 64 → level_numbered P.level run.now (64 + k) ≤ h (along forward start k)) → ((i : ℕ) → i < length samples.old → level_numbered P.level samples.old i ≤ h i) → (i : ℕ) → i < length samples.old → level_numbered P.level samples.new i ≤ h i }
{
    // for the bound of its numbers
    let _count = samples.len();
    for k in 0..BLOCK {
        let i = step(start, k, forward);
        let s = greater(at(samples, i), at(run, BLOCK + k));
        put(samples, i, s);
    }
}

/// Writes a run anew: each sample of the second half raised from so many places before it, and ways twice as long.
#[inline(always)]
fn double<P: Pixel>(from: &[P], through: &[P], run: &mut [P], ways: &mut [P], by: usize)
    requires from { length from.now ≡ 128 }
    requires through { length through.now ≡ 128 }
    requires run { length run.old ≡ 128 }
    requires ways { length ways.old ≡ 128 }
    requires run_begun { (j : ℕ) → j < 64 → level_numbered P.level run.old j ≡ level_numbered P.level from.now j }
    requires ways_begun { (j : ℕ) → j < 64 → level_numbered P.level ways.old j ≡ level_numbered P.level through.now j }
    requires by { by ≤ 64 }
    ensures run_begun { (j : ℕ) → j < 64 → level_numbered P.level run.new j ≡ level_numbered P.level from.now j }
    ensures ways_begun { (j : ℕ) → j < 64 → level_numbered P.level ways.new j ≡ level_numbered P.level through.now j }
    ensures under { (h : ℕ → ℕ) → IsUnderRun by (level_numbered P.level from.now) (level_numbered P.level through.now) h → IsUnderRun (by + by) (level_numbered P.level run.new) (level_numbered P.level ways.new) h }
{
    for j in BLOCK..SPAN {
        let s = lesser(at(from, j - by), at(through, j));
        put(run, j, greater(at(from, j), s));
        put(ways, j, lesser(at(through, j), at(through, j - by)));
    }
}

/// Writes a run anew, each sample raised from all before it. The other run and ways serve in between.
#[inline(always)]
fn spread<P: Pixel>(run: &mut [P], ways: &mut [P], made: &mut [P], made_ways: &mut [P])
    requires run { length run.old ≡ 128 }
    requires ways { length ways.old ≡ 128 }
    requires made { length made.old ≡ 128 }
    requires made_ways { length made_ways.old ≡ 128 }
    requires run_begun { (j : ℕ) → j < 64 → level_numbered P.level made.old j ≡ level_numbered P.level run.old j }
    requires ways_begun { (j : ℕ) → j < 64 → level_numbered P.level made_ways.old j ≡ level_numbered P.level ways.old j }
    ensures { (h : ℕ → ℕ) → IsUnderRun 1 (level_numbered P.level run.old) (level_numbered P.level ways.old) h → (j : ℕ) → j < 128 → level_numbered P.level made.new j ≤ h j }
{
    double(run, ways, made, made_ways, 1);
    double(made, made_ways, run, ways, 2);
    double(run, ways, made, made_ways, 4);
    double(made, made_ways, run, ways, 8);
    double(run, ways, made, made_ways, 16);
    double(made, made_ways, run, ways, 32);
    // the last place from the one before the block
    double(run, ways, made, made_ways, 64);
}

/// How many whole blocks of a row are raised at once. In a short row there are none.
#[inline(always)]
fn whole_blocks(frame: Frame) -> u32
    ensures fits { result * 64 ≤ frame.width }
    ensures wide { 0 < result → 128 ≤ frame.width }
{
    if frame.width < SPAN as u32 {
        return 0;
    }
    frame.width / BLOCK as u32
}

/// Raises the samples of a block that begins so many columns from the left or from the right.
#[inline(always)]
fn run_block<P: Pixel>(mask: &[P], samples: &mut [P], frame: Frame, y: u32, p: u32, forward: bool)
    requires mask { length mask.now ≡ frame.height * frame.width }
    requires size { length samples.old ≡ frame.height * frame.width }
    requires row { y < frame.height }
    requires wide { 128 ≤ frame.width }
    requires columns { p + 64 ≤ frame.width }
    ensures { IsRaised frame (level_numbered P.level mask.now) (level_numbered P.level samples.old) (level_numbered P.level samples.new) }
{
    let start = frame.number(column_of(frame, p, forward), y);
    let before = frame.number(column_of(frame, p.saturating_sub(1), forward), y);
    let (first, top) = (at(samples, before), P::TOP);
    let (mut run, mut made) = ([first; SPAN], [first; SPAN]);
    let (mut ways, mut made_ways) = ([top; SPAN], [top; SPAN]);
    load(&mut run, samples, start, forward);
    load(&mut ways, mask, start, forward);
    spread(&mut run, &mut ways, &mut made, &mut made_ways);
    store(samples, &made, start, forward);
}

/// Whether any of these samples would be raised by those before them.
#[inline(never)]
fn any_rises<P: Pixel>(samples: &[P], before: &[P], mask: &[P]) -> bool
    requires before { length before.now ≡ length samples.now }
    requires mask { length mask.now ≡ length samples.now }
{
    let mut any = false;
    for i in 0..samples.len() {
        any |= is_below(samples[i], lesser(before[i], mask[i]));
    }
    any
}

/// Whether any sample of a block would be raised by the one before it. Of the first block it says so unseen.
#[inline(always)]
fn rises_in_block<P: Pixel>(
    samples: &[P],
    mask: &[P],
    frame: Frame,
    y: u32,
    p: u32,
    forward: bool,
) -> bool
    requires size { length samples.now ≡ frame.height * frame.width }
    requires mask { length mask.now ≡ frame.height * frame.width }
    requires row { y < frame.height }
    requires columns { p < frame.width }
{
    let count = samples.len();
    let first = frame.number(column_of(frame, p, forward), y);
    let start = if forward {
        first
    } else {
        first.saturating_sub(BLOCK - 1)
    };
    let before = if forward {
        first.saturating_sub(1)
    } else {
        start + 1
    };
    if p == 0 || count - start < BLOCK || count - before < BLOCK {
        return true;
    }
    any_rises(
        &samples[start..start + BLOCK],
        &samples[before..before + BLOCK],
        &mask[start..start + BLOCK],
    )
}

/// Raises the samples of a block, if any would be raised by the one before it.
#[inline(always)]
fn run_in_block<P: Pixel>(
    mask: &[P],
    samples: &mut [P],
    frame: Frame,
    y: u32,
    p: u32,
    forward: bool,
)
    requires mask { length mask.now ≡ frame.height * frame.width }
    requires size { length samples.old ≡ frame.height * frame.width }
    requires row { y < frame.height }
    requires wide { 128 ≤ frame.width }
    requires columns { p + 64 ≤ frame.width }
    ensures { IsRaised frame (level_numbered P.level mask.now) (level_numbered P.level samples.old) (level_numbered P.level samples.new) }
{
    if rises_in_block(samples, mask, frame, y, p, forward) {
        run_block(mask, samples, frame, y, p, forward);
    }
}

/// Raises the samples of all whole blocks of a row.
#[inline(always)]
fn run_blocks<P: Pixel>(samples: &mut [P], mask: &[P], frame: Frame, y: u32, forward: bool)
    requires size { length samples.old ≡ frame.height * frame.width }
    requires mask { length mask.now ≡ frame.height * frame.width }
    requires row { y < frame.height }
    ensures { IsRaised frame (level_numbered P.level mask.now) (level_numbered P.level samples.old) (level_numbered P.level samples.new) }
{
    for block in 0..whole_blocks(frame) {
        run_in_block(mask, samples, frame, y, block * BLOCK as u32, forward);
    }
}

/// Raises the samples of the rest of a row one after another.
#[inline(always)]
fn run_rest<P: Pixel>(samples: &mut [P], mask: &[P], frame: Frame, y: u32, forward: bool)
    requires size { length samples.old ≡ frame.height * frame.width }
    requires mask { length mask.now ≡ frame.height * frame.width }
    requires row { y < frame.height }
    ensures { IsRaised frame (level_numbered P.level mask.now) (level_numbered P.level samples.old) (level_numbered P.level samples.new) }
{
    let start = (whole_blocks(frame) * BLOCK as u32).max(1);
    for p in start..frame.width {
        let x = column_of(frame, p, forward);
        let u = column_of(frame, p - 1, forward);
        pull(samples, mask, frame, Place { x, y }, Place { x: u, y });
    }
}

/// Raises the samples of row y from the left, each to the one before it.
#[inline(never)]
pub(crate) fn run_right<P: Pixel>(samples: &mut [P], mask: &[P], frame: Frame, y: u32)
    requires size { length samples.old ≡ frame.height * frame.width }
    requires mask { length mask.now ≡ frame.height * frame.width }
    requires row { y < frame.height }
    ensures { IsRaised frame (level_numbered P.level mask.now) (level_numbered P.level samples.old) (level_numbered P.level samples.new) }
{
    run_blocks(samples, mask, frame, y, true);
    run_rest(samples, mask, frame, y, true);
}

/// Raises the samples of row y from the right, each to the one behind it.
#[inline(never)]
pub(crate) fn run_left<P: Pixel>(samples: &mut [P], mask: &[P], frame: Frame, y: u32)
    requires size { length samples.old ≡ frame.height * frame.width }
    requires mask { length mask.now ≡ frame.height * frame.width }
    requires row { y < frame.height }
    ensures { IsRaised frame (level_numbered P.level mask.now) (level_numbered P.level samples.old) (level_numbered P.level samples.new) }
{
    run_blocks(samples, mask, frame, y, false);
    run_rest(samples, mask, frame, y, false);
}
