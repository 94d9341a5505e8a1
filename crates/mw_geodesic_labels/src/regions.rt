//! What is told of each component of a set, gathered run by run in rows of an array, so that no list of it stands beside them.
//! `mw_c_geodesic` calls it with the caller's array. All memory is asked for before the first row is written.

ghost use Rattle.std.specs.Prelude.{◌≡◌, ◌+◌, ◌-◌, ◌*◌, ◌/◌, ◌<◌, ◌^◌, length, IfErr, IfOk};
ghost use Rattle.mw_pixel.specs.Images.{set_of};
ghost use Rattle.mw_geodesic.specs.Neighbours.{neighbours_of};
ghost use Rattle.mw_geodesic_labels.specs.Painting.{HeldRuns};
ghost use Rattle.mw_geodesic_labels.specs.Regions.{AreRegionsTold};
ghost use Rattle.mw_geodesic_labels.specs.Gathering.{TellsRun, TellsMore, AreCounted, CanAddToRows, AreRowsAdded, AreRowsGathered};

use crate::Neighbours;
use crate::rows::{NUMBERS, put_row, row_at};
use mw_geodesic_runs::{Run, Span, spans_of};
use mw_model::NoMemory;
use mw_pixel::{Bit, Plane};
use std::alloc::Global;

/// What is told of a component: its first place by rows from the top, how many places it has, and the least box around
/// it, both ends included.
#[derive(Clone, Copy, PartialEq, Eq, Debug)]
pub struct Region {
    pub x: u32,
    pub y: u32,
    pub area: u32,
    pub left: u32,
    pub top: u32,
    pub right: u32,
    pub bottom: u32,
}

/// What is told of one run.
fn region_of(run: Run) -> Region
    requires { run.first < run.end }
    ensures { TellsRun run result }
{
    Region {
        x: u32::from(run.first),
        y: run.row,
        area: u32::from(run.end - run.first),
        left: u32::from(run.first),
        top: run.row,
        right: u32::from(run.end) - 1,
        bottom: run.row,
    }
}

/// What is told of a component with one run more, which comes after those before.
fn with_run(region: Region, run: Run) -> Region
    requires some { run.first < run.end }
    requires fits { region.area + (run.end - run.first) < 2 ^ 32 }
    ensures { TellsMore region run result }
{
    Region {
        x: region.x,
        y: region.y,
        area: region.area + u32::from(run.end - run.first),
        left: region.left.min(u32::from(run.first)),
        top: region.top.min(run.row),
        right: region.right.max(u32::from(run.end) - 1),
        bottom: region.bottom.max(run.row),
    }
}

/// Adds a run to the row of the component with this number, which may be the next one behind so many. The answer is how many
/// rows there are then.
fn add_run(out: &mut [u32], count: usize, run: Run, number: u32) -> usize
    requires { CanAddToRows run number count out.old }
    ensures { (can : CanAddToRows run number count out.old) → AreRowsAdded run number can.regions can.before result out.new }
{
    let k = number as usize - 1;
    if k == count {
        put_row(out, NUMBERS * k, region_of(run));
        return count + 1;
    }
    let region = row_at(out, NUMBERS * k);
    put_row(out, NUMBERS * k, with_run(region, run));
    count
}

/// Writes the row of each component by its runs, which are held row by row. The answer is how many there are.
pub(crate) fn gather_rows(
    out: &mut [u32],
    height: u32,
    spans: &[Span],
    starts: &[u32],
    numbers: &[u32],
) -> usize
    requires { HeldRuns (λ runs. AreCounted runs numbers.now (length out.old / 7)) height spans.now starts.now numbers.now }
    ensures { (held : HeldRuns (λ runs. AreCounted runs numbers.now (length out.old / 7)) height spans.now starts.now numbers.now) → AreRowsGathered held.runs numbers.now (length held.runs) out.old result out.new }
{
    let mut count = 0;
    for y in 0..height as usize {
        for k in starts[y] as usize..starts[y + 1] as usize {
            let run = Run {
                row: y as u32,
                first: spans[k].first,
                end: spans[k].end,
            };
            count = add_run(out, count, run, numbers[k]);
        }
    }
    count
}

/// Writes what is told of each component of a set into an array, by first places, where there is room for all of them. The
/// answer is how many there are. It may want memory (`NoMemory`), and the array is then as it was.
pub fn write_regions(
    alloc: Global,
    set: &Plane<Bit>,
    neighbours: Neighbours,
    out: &mut [u32],
) -> Result<u32, NoMemory>
    requires narrow { set.now.width < 2 ^ 16 }
    requires few { set.now.height * set.now.width < 2 ^ 32 }
    ensures made { IfOk result (λ count. AreRegionsTold (neighbours_of neighbours) (set_of set.now) count out.old out.new) }
    ensures kept { IfErr result (λ _. out.new ≡ out.old) }
{
    let height = set.height();
    let found = spans_of(alloc, set.words(), neighbours)?;
    let spans = found.spans.as_slice();
    let starts = found.starts.as_slice();
    let numbers = found.numbers.as_slice();
    let count = found.count;
    let room = out.len() / NUMBERS;
    if count as usize <= room {
        gather_rows(out, height, spans, starts, numbers);
    }
    Ok(count)
}
