//! Runs of an element's offsets.

ghost use Rattle.std.specs.Prelude.{◌≡◌, false, IsTrue, IfOk};
ghost use Rattle.std.specs.List.{AllByRecursion};
ghost use Rattle.mw_element.specs.Figures.{OffsetsRise};
ghost use Rattle.mw_element.specs.Told.{IsNearRun, TellsRuns, turned_run, turned_runs};

use mw_element_runs::{Run, runs_of};
use mw_model::{NoMemory, Offset};
use std::alloc::Global;

/// The runs of offsets that stand by rows, in as much memory as they take.
pub(crate) fn by_rows(alloc: Global, offsets: &[Offset]) -> Result<Vec<Run>, NoMemory>
    requires { OffsetsRise offsets.now }
    ensures { IfOk result (λ v. TellsRuns false v.items offsets.now) }
{
    let mut runs = runs_of(alloc, offsets)?;
    runs.shrink_to_fit();
    Ok(runs)
}

fn is_same(a: Run, b: Run) -> bool
    ensures { IsTrue result → a ≡ b }
{
    a.dx == b.dx && a.dy == b.dy && a.count == b.count
}

/// Whether both lists have the same runs.
pub(crate) fn same(first: &[Run], second: &[Run]) -> bool
    ensures { IsTrue result → first.now ≡ second.now }
{
    if first.len() != second.len() {
        return false;
    }
    'runs: for i in 0..first.len() {
        if !is_same(first[i], second[i]) {
            return false;
        }
    }
    true
}

/// The run turned round.
fn turn_one(run: Run) -> Run
    requires { IsNearRun run }
    ensures { result ≡ turned_run run }
{
    Run {
        dx: 1 - run.dx - run.count as i16,
        dy: -run.dy,
        count: run.count,
    }
}

/// The runs turned round, from the last to the first.
pub(crate) fn turn(alloc: Global, runs: &[Run]) -> Result<Vec<Run>, NoMemory>
    requires { AllByRecursion IsNearRun runs.now }
    ensures { IfOk result (λ v. v.items ≡ turned_runs runs.now) }
{
    let mut turned = Vec::with_capacity(alloc, runs.len())?;
    'runs: for i in 0..runs.len() {
        turned.push(turn_one(runs[runs.len() - 1 - i]))?;
    }
    Ok(turned)
}
