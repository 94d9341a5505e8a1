//! An element as horizontal runs, and the columns and rows that they take.
ghost use Rattle.std.specs.Prelude.{◌≡◌, ℕ, ◌+◌, ◌*◌, ◌<◌, ◌≤◌, ◌^◌, ℤ, pos, ◌-ℤ◌, ◌+ℤ◌, ◌≤ℤ◌, length, take, drop, reverse, IsTrue, flat_map, IfOk, IfSome, IsSome, ◌↔◌};
ghost use Rattle.std.specs.List.{AllByRecursion};
ghost use Rattle.mw_model.specs.Rectangles.{nonnegative};
ghost use Rattle.mw_element_runs.specs.declared.runs.Extent.{Extent};
ghost use Rattle.mw_element_runs.specs.Ahead.{AllContinue};
ghost use Rattle.mw_element_runs.specs.Runs.{run_offsets, offset_at, start_offset, Continues, AreEitherWay, AreLongest, AreFewest, follows, follows_back, pairs, IsRun, RunIsInside, IsWider};

use mw_model::{NoMemory, Offset};
use std::alloc::Global;

/// Offsets that stand beside one another in a row, from the left.
#[derive(Clone, Copy)]
pub struct Run {
    /// The first column.
    pub dx: i16,
    /// The row.
    pub dy: i16,
    /// How many columns, from 1 on.
    pub count: u32,
}

/// Columns and rows of offsets, both ends included.
#[derive(Clone, Copy)]
pub struct Extent {
    pub left: i32,
    pub right: i32,
    pub top: i32,
    pub bottom: i32,
}

/// Whether the offset continues a run of so many that begin with `first`.
fn continues(first: Offset, count: u32, next: Offset) -> bool
    requires { count ≤ 65552 }
    ensures follows { IsTrue result ↔ Continues (record { dx = first.dx; dy = first.dy; count = count }) next }
    ensures few { IsTrue result → count < 65536 }
{
    next.dy == first.dy && i32::from(next.dx) == i32::from(first.dx) + count as i32
}

/// Whether the offset after so many that begin at that place of the list continues them.
fn goes_on(offsets: &[Offset], from: usize, count: u32) -> bool
    requires within { from < length offsets.now }
    requires few { count ≤ 65536 }
    requires room { from + count ≤ length offsets.now }
    ensures next { IsTrue result ↔ (from + count < length offsets.now) × Continues (record { dx = (offset_at offsets.now from).dx; dy = (offset_at offsets.now from).dy; count = count }) (offset_at offsets.now (from + count)) }
    ensures few { IsTrue result → count < 65536 }
{
    let next = from + count as usize;
    next < offsets.len() && continues(offsets[from], count, offsets[next])
}

/// Whether the offset stands in that row and column.
#[inline(always)]
fn is_at(here: Offset, row: i16, column: i32) -> bool
    ensures { IsTrue result ↔ (here.dy ≡ row) × (here.dx ≡ column) }
{
    (here.dy == row) & (i32::from(here.dx) == column)
}

/// So many offsets of a long run are looked at together.
const TOGETHER: u32 = 16;

/// How many of the next 16 offsets continue so many that begin at that place of the list, and one another.
fn count_on(offsets: &[Offset], from: usize, count: u32) -> u32
    requires within { from < length offsets.now }
    requires few { count ≤ 65536 }
    requires room { from + count + 16 ≤ length offsets.now }
    ensures { 16 ≤ result → AllContinue offsets.now from count 16 }
{
    let first = offsets[from];
    let next = from + count as usize;
    let column = i32::from(first.dx) + count as i32;
    let mut same = 0u32;
    // without an early end, so as vectors
    for i in 0..TOGETHER {
        if is_at(offsets[next + i as usize], first.dy, column + i as i32) {
            same += 1;
        }
    }
    same
}

/// Whether the next 16 offsets continue so many that begin at that place of the list. The last of them is looked at first, as
/// it tells mostly.
fn many_go_on(offsets: &[Offset], from: usize, count: u32) -> bool
    requires within { from < length offsets.now }
    requires few { count ≤ 65536 }
    requires room { from + count ≤ length offsets.now }
    ensures room { IsTrue result → from + count + 16 ≤ length offsets.now }
    ensures next { IsTrue result → AllContinue offsets.now from count 16 }
    ensures few { IsTrue result → count + 16 ≤ 65536 }
{
    let next = from + count as usize;
    if offsets.len() - next < TOGETHER as usize {
        return false;
    }
    let last = TOGETHER - 1;
    continues(offsets[from], count + last, offsets[next + last as usize])
        && count_on(offsets, from, count) >= TOGETHER
}

/// The run that begins at that place of the list.
fn run_at(offsets: &[Offset], from: usize) -> Run
    requires { from < length offsets.now }
    ensures run { IsRun result }
    ensures room { from + result.count ≤ length offsets.now }
    ensures same { run_offsets result ≡ take result.count (drop from offsets.now) }
    ensures first { offset_at offsets.now from ≡ start_offset result }
    ensures longest { from + result.count < length offsets.now → Continues result (offset_at offsets.now (from + result.count)) → ⊥ }
{
    let first = offsets[from];
    let mut count = 1u32;
    'many: while many_go_on(offsets, from, count) {
        count += TOGETHER;
    }
    'on: while goes_on(offsets, from, count) {
        count += 1;
    }
    Run {
        dx: first.dx,
        dy: first.dy,
        count,
    }
}

/// The list cut into runs that are as long as they can be.
pub fn runs_of(alloc: Global, offsets: &[Offset]) -> Result<Vec<Run>, NoMemory>
    ensures offsets { IfOk result (λ v. flat_map run_offsets v.items ≡ offsets.now) }
    ensures runs { IfOk result (λ v. AllByRecursion IsRun v.items) }
    ensures longest { IfOk result (λ v. AreLongest v.items) }
{
    let mut runs = Vec::new(alloc);
    let mut at = 0usize;
    'runs: while at < offsets.len() {
        let run = run_at(offsets, at);
        runs.push(run)?;
        at += run.count as usize;
    }
    Ok(runs)
}

/// The offsets in the opposite order.
fn opposite(alloc: Global, offsets: &[Offset]) -> Result<Vec<Offset>, NoMemory>
    ensures { IfOk result (λ v. v.items ≡ reverse offsets.now) }
{
    let turned = offsets.iter().rev().copied().collect(alloc)?;
    Ok(turned)
}

/// How many offsets are looked at for the first run.
const LOOKED_AT: usize = 64;

/// Whether the list begins in the opposite of raster order, as that of a reflected element does: by the first two neighbours
/// that stand side by side. Any answer is right.
fn begins_turned(offsets: &[Offset]) -> bool {
    for i in 1..offsets.len().min(LOOKED_AT) {
        let (before, here) = (offsets[i - 1], offsets[i]);
        if continues(before, 1, here) {
            return false;
        }
        if continues(here, 1, before) {
            return true;
        }
    }
    false
}

/// Whether the list in the opposite order has fewer runs: each offset that continues the one before it saves one.
fn is_shorter_turned(offsets: &[Offset]) -> bool
    ensures { IsTrue result ↔ (pairs follows offsets.now < pairs follows_back offsets.now) }
{
    let (mut onward, mut back) = (0usize, 0usize);
    for i in 1..offsets.len() {
        let (before, here) = (offsets[i - 1], offsets[i]);
        if continues(before, 1, here) {
            onward += 1;
        } else if continues(here, 1, before) {
            back += 1;
        }
    }
    onward < back
}

/// The list's runs, or, where these are fewer, those of the list in the opposite order. Runs of two offsets or more, taken
/// together, cannot be fewer the other way round, so that the offsets need not be looked at again.
fn runs_of_fewer(alloc: Global, offsets: &[Offset]) -> Result<Vec<Run>, NoMemory>
    ensures offsets { IfOk result (λ v. AreEitherWay offsets.now v.items) }
    ensures runs { IfOk result (λ v. AllByRecursion IsRun v.items) }
    ensures longest { IfOk result (λ v. AreLongest v.items) }
    ensures fewest { IfOk result (λ v. AreFewest offsets.now v.items) }
{
    let runs = runs_of(alloc, offsets)?;
    if runs.len() <= offsets.len() / 2 || !is_shorter_turned(offsets) {
        return Ok(runs);
    }
    let turned = opposite(alloc, offsets)?;
    runs_of(alloc, turned.as_slice())
}

/// The fewest runs that the list can be cut into in its order or in the opposite one, each as long as it can be in that order:
/// so a reflected element has as few runs as the element. For an extremum, which takes no notice of the order.
pub fn runs_either_way(alloc: Global, offsets: &[Offset]) -> Result<Vec<Run>, NoMemory>
    ensures offsets { IfOk result (λ v. AreEitherWay offsets.now v.items) }
    ensures runs { IfOk result (λ v. AllByRecursion IsRun v.items) }
    ensures longest { IfOk result (λ v. AreLongest v.items) }
    ensures fewest { IfOk result (λ v. AreFewest offsets.now v.items) }
{
    if !begins_turned(offsets) {
        return runs_of_fewer(alloc, offsets);
    }
    let turned = opposite(alloc, offsets)?;
    runs_of_fewer(alloc, turned.as_slice())
}

/// The extent of one run.
fn extent_of_run(run: Run) -> Extent
    requires { IsRun run }
    ensures inside { RunIsInside result run }
    ensures least { (o : Extent) → RunIsInside o run → IsWider o result }
{
    Extent {
        left: i32::from(run.dx),
        right: i32::from(run.dx) + run.count as i32 - 1,
        top: i32::from(run.dy),
        bottom: i32::from(run.dy),
    }
}

fn lesser(a: i32, b: i32) -> i32
    ensures first { result ≤ℤ a }
    ensures second { result ≤ℤ b }
    ensures least { (o : ℤ) → o ≤ℤ a → o ≤ℤ b → o ≤ℤ result }
{
    if a < b { a } else { b }
}

fn greater(a: i32, b: i32) -> i32
    ensures first { a ≤ℤ result }
    ensures second { b ≤ℤ result }
    ensures least { (o : ℤ) → a ≤ℤ o → b ≤ℤ o → result ≤ℤ o }
{
    if a < b { b } else { a }
}

/// The least extent that has both.
fn joined(a: Extent, b: Extent) -> Extent
    ensures first { IsWider result a }
    ensures second { IsWider result b }
    ensures least { (o : Extent) → IsWider o a → IsWider o b → IsWider o result }
{
    Extent {
        left: lesser(a.left, b.left),
        right: greater(a.right, b.right),
        top: lesser(a.top, b.top),
        bottom: greater(a.bottom, b.bottom),
    }
}

/// The least extent of all runs; None where there is none.
pub fn extent_of(runs: &[Run]) -> Option<Extent>
    requires { AllByRecursion IsRun runs.now }
    ensures some { IsSome result ↔ (0 < length runs.now) }
    ensures inside { IfSome result (λ e. AllByRecursion (RunIsInside e) runs.now) }
    ensures least { IfSome result (λ e. (o : Extent) → AllByRecursion (RunIsInside o) runs.now → IsWider o e) }
{
    if runs.len() == 0 {
        return None;
    }
    let mut extent = extent_of_run(runs[0]);
    for i in 0..runs.len() {
        extent = joined(extent, extent_of_run(runs[i]));
    }
    Some(extent)
}
