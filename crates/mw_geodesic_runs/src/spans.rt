//! The runs of a set held row by row, in 4 bytes each, with the numbers of their components.

ghost use Rattle.std.specs.Prelude.{◌≡◌, ℕ, ◌+◌, ◌*◌, ◌<◌, ◌≤◌, ◌^◌, List, [], length, vec_capacity, IfOk};
ghost use Rattle.mw_pixel.specs.Images.{set_of};
ghost use Rattle.mw_geodesic.specs.Neighbours.{neighbours_of};
ghost use Rattle.mw_geodesic_runs.specs.declared.runs.Run.{Run};
ghost use Rattle.mw_geodesic_runs.specs.Runs.{run_count, RunsBefore};
ghost use Rattle.mw_geodesic_runs.specs.Forests.{IsForest, AllAlone};
ghost use Rattle.mw_geodesic_runs.specs.Rows.{AreKept, AreHeldAbove};
ghost use Rattle.mw_geodesic_runs.specs.Touching.{IsForestOf};
ghost use Rattle.mw_geodesic_runs.specs.Components.{AreRunSpans};

use crate::Neighbours;
use crate::forest::alone;
use crate::neighbours::reach;
use crate::numbering::number_classes;
use crate::runs::{Run, count_runs, runs_in_row};
use crate::uniting::unite_rows;
use mw_model::NoMemory;
use mw_pixel::Words;
use std::alloc::Global;
use std::mem::swap;

/// Where a run begins in its row, and its end, which is not of the run.
#[derive(Clone, Copy, Debug)]
pub struct Span {
    pub first: u16,
    pub end: u16,
}

/// The runs of a set by rows from the top, how many of them stand above each row and above the end of the set, the number of
/// the component of each, and how many components there are.
#[derive(Drop)]
pub struct Spans {
    pub spans: Vec<Span>,
    pub starts: Vec<u32>,
    pub numbers: Vec<u32>,
    pub count: u32,
}

/// Adds the spans of the runs of a row, for which there is room.
fn keep_row(spans: &mut Vec<Span>, row: &[Run])
    requires room { length spans.old.items + length row.now ≤ vec_capacity spans.old }
    ensures kept { AreKept spans.old.items row.now spans.new.items }
    ensures room { vec_capacity spans.new ≡ vec_capacity spans.old }
{
    for k in 0..row.len() {
        let run = row[k];
        spans.push_reserved(Span {
            first: run.first,
            end: run.end,
        });
    }
}

/// Unites the runs of a set that touch, row by row, and keeps their spans. No more than two rows of runs are held besides.
fn unite_set(
    parent: &mut [u32],
    set: &Words,
    reach: u32,
    spans: &mut Vec<Span>,
    starts: &mut Vec<u32>,
    upper: &mut Vec<Run>,
    lower: &mut Vec<Run>,
)
    requires narrow { set.now.width < 2 ^ 16 }
    requires few { set.now.height * set.now.width < 2 ^ 32 }
    requires reach { reach ≤ 1 }
    requires alone { AllAlone parent.old }
    requires size { length parent.old ≡ run_count (set_of set.now) }
    requires no_spans { spans.old.items ≡ [] }
    requires no_starts { starts.old.items ≡ [] }
    requires no_upper { upper.old.items ≡ [] }
    requires spans_room { vec_capacity spans.old ≡ run_count (set_of set.now) }
    requires starts_room { set.now.height + 1 ≤ vec_capacity starts.old }
    requires upper_room { set.now.width ≤ vec_capacity upper.old }
    requires lower_room { set.now.width ≤ vec_capacity lower.old }
    ensures forest { IsForest parent.new }
    ensures held { AreHeldAbove (set_of set.now) set.now.height spans.new.items starts.new.items }
    ensures united { (runs : List Run) → RunsBefore (set_of set.now) 0 set.now.height runs → IsForestOf reach runs parent.new }
{
    // for its samples
    let _width = set.width();
    let mut above = 0;
    starts.push_reserved(0);
    for y in 0..set.height() {
        runs_in_row(set, y, lower);
        unite_rows(parent, above, upper, lower, reach);
        keep_row(spans, lower);
        starts.push_reserved(spans.len() as u32);
        above += upper.len();
        swap(upper, lower);
    }
}

/// A list with room for the runs of any row of a set.
fn row_of_runs(alloc: Global, set: &Words) -> Result<Vec<Run>, NoMemory>
    ensures none { IfOk result (λ r. r.items ≡ []) }
    ensures room { IfOk result (λ r. set.now.width ≤ vec_capacity r) }
{
    let row = Vec::with_capacity(alloc, set.width() as usize)?;
    Ok(row)
}

/// The runs of a set as spans, and the numbers of their components. It may want memory (`NoMemory`).
pub fn spans_of(alloc: Global, set: &Words, neighbours: Neighbours) -> Result<Spans, NoMemory>
    requires narrow { set.now.width < 2 ^ 16 }
    requires few { set.now.height * set.now.width < 2 ^ 32 }
    ensures { IfOk result (λ r. AreRunSpans (neighbours_of neighbours) (set_of set.now) r.spans.items r.starts.items r.numbers.items r.count) }
{
    // for its samples
    let _width = set.width();
    let many = count_runs(set);
    let mut upper = row_of_runs(alloc, set)?;
    let mut lower = row_of_runs(alloc, set)?;
    let mut spans = Vec::with_capacity(alloc, many)?;
    let mut starts = Vec::with_capacity(alloc, set.height() as usize + 1)?;
    let mut numbers = alone(alloc, many as u32)?;
    unite_set(
        &mut numbers,
        set,
        reach(neighbours),
        &mut spans,
        &mut starts,
        &mut upper,
        &mut lower,
    );
    let count = number_classes(&mut numbers);
    Ok(Spans {
        spans,
        starts,
        numbers,
        count,
    })
}
