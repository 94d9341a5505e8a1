//! Elements that are one full rectangle of offsets, row after row.
ghost use Rattle.std.specs.Prelude.{◌≡◌, ◌<◌, ◌^◌, pos, ◌+ℤ◌, length, IfSome, IsTrue};
ghost use Rattle.std.specs.List.{AllByRecursion};
ghost use Rattle.mw_rank_counts.specs.mw_rank.Runs.{element_of};
ghost use Rattle.mw_rank_rows.specs.Rectangles.{IsRectangle};
ghost use Rattle.mw_rank_counts.specs.mw_element_runs.Runs.{IsRun};

use mw_model::Offset;
use mw_rank_counts::run::Run;

/// The first column and row of a rectangle of offsets, and how many it has.
#[derive(Clone, Copy)]
pub(crate) struct Rectangle {
    pub dx: i16,
    pub dy: i16,
    pub columns: u32,
    pub rows: u32,
}

/// An element that is a rectangle, and the number of the rank that is wanted under it.
#[derive(Clone, Copy)]
pub(crate) struct Wanted<'a> {
    pub offsets: &'a [Offset],
    pub rectangle: Rectangle,
    pub k: u32,
}

/// Whether the run is row number i of the rectangle that begins with that run.
fn is_row(first: Run, run: Run, i: usize) -> bool
    requires { i < 2 ^ 16 }
    ensures { IsTrue result → (run.dx ≡ first.dx) × (run.count ≡ first.count) × (run.dy ≡ first.dy +ℤ pos i) }
{
    run.dx == first.dx
        && run.count == first.count
        && i64::from(run.dy) == i64::from(first.dy) + i as i64
}

/// The rectangle that the runs are the rows of, if they are.
pub(crate) fn rectangle_of(runs: &[Run]) -> Option<Rectangle>
    requires runs { AllByRecursion IsRun runs.now }
    requires few { length runs.now < 2 ^ 16 }
    ensures { IfSome result (λ t. IsRectangle t (element_of runs.now)) }
{
    if runs.is_empty() {
        return None;
    }
    let first = runs[0];
    for i in 0..runs.len() {
        if !is_row(first, runs[i], i) {
            return None;
        }
    }
    Some(Rectangle {
        dx: first.dx,
        dy: first.dy,
        columns: first.count,
        rows: runs.len() as u32,
    })
}
