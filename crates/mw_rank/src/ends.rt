//! The ends of an element's runs along a row where all of them lie in the window, or in rows above or below it: there a
//! move of the element takes no test.
ghost use Rattle.std.specs.Prelude.{◌≡◌, ℕ, pos, ◌+ℤ◌, ◌-ℤ◌, ◌+◌, ◌-◌, ◌<◌, ◌≤◌, ◌^◌, IfOk, IfSome, IsTrue};
ghost use Rattle.mw_model.specs.declared.limits.TheConstants.{FAR_LIMIT};
ghost use Rattle.mw_model.specs.Windows.{seen_at};
ghost use Rattle.mw_rank.specs.Ends.{levels_left, levels_entered, HasEnds, AreEnds, AddsEnds};
ghost use Rattle.mw_rank.specs.Tallies.{HistogramHolds, Exchanges};

use crate::histogram::Histogram;
use crate::runs::more_of;
use crate::seen::row_in;
use mw_element_runs::{Run, place_of};
use mw_model::{NoMemory, Rect};
use mw_tile::Window;
use mw_tile::pixel::{Grey, Pixel};

/// Where a run's first sample stands in a window, and the one after its last.
#[derive(Clone, Copy)]
pub(crate) struct Ends {
    pub first: usize,
    pub next: usize,
}

/// The columns of a tile at which all ends of the runs lie in columns of a window.
#[derive(Clone, Copy)]
pub(crate) struct Columns {
    pub first: u32,
    pub count: u32,
}

/// The column of the place in which a run begins, where both its ends stay in the place's columns for so many more.
pub(crate) fn column_in(place: Rect, run: Run, x: u64, count: u32) -> Option<usize>
    requires { x ≤ FAR_LIMIT }
    ensures { IfSome result (λ column. (pos x +ℤ run.dx -ℤ pos place.x ≡ pos column) × (column + (run.count - 1 + 1) + count ≤ place.width)) }
{
    let from = place_of(x, run.dx, place.x);
    if from < 0 {
        return None;
    }
    let column = from as usize;
    if column + more_of(run) as usize + 1 + count as usize > place.width as usize {
        return None;
    }
    Some(column)
}

/// Adds a run's ends, where the window has its row; says whether the window has their columns.
fn push_ends<P: Grey>(
    ends: &mut Vec<Ends>,
    window: &Window<P>,
    run: Run,
    x: u64,
    y: u64,
    count: u32,
) -> Result<bool, NoMemory>
    requires near { x ≤ FAR_LIMIT }
    requires high { y ≤ FAR_LIMIT }
    ensures { IfOk result (λ inside. IsTrue inside → AddsEnds P.level P.TOP (seen_at window.now) window.now.cells run x y count ends.old.items ends.new.items) }
{
    let place = window.place();
    // for their number
    let _samples = window.samples();
    match row_in(window, run, y) {
        None => Ok(true),
        Some(row) => match column_in(place, run, x, count) {
            None => Ok(false),
            Some(column) => {
                let first = row * place.width as usize + column;
                let next = first + more_of(run) as usize + 1;
                ends.push(Ends { first, next })?;
                Ok(true)
            }
        },
    }
}

/// The ends of all runs at column x of row y; says whether the window has their columns there and `count` columns on.
pub(crate) fn row_ends<P: Grey>(
    ends: &mut Vec<Ends>,
    window: &Window<P>,
    runs: &[Run],
    x: u64,
    y: u64,
    count: u32,
) -> Result<bool, NoMemory>
    requires near { x ≤ FAR_LIMIT }
    requires high { y ≤ FAR_LIMIT }
    ensures { IfOk result (λ inside. IsTrue inside → AreEnds P.level P.TOP (seen_at window.now) window.now.cells runs.now x y count ends.new.items) }
{
    ends.clear();
    for run in runs {
        if !push_ends(ends, window, *run, x, y, count)? {
            return Ok(false);
        }
    }
    Ok(true)
}

/// How many columns a run reaches to the left of its origin.
pub(crate) fn columns_before(run: Run) -> u64
    ensures { result ≤ 2 ^ 34 }
{
    if run.dx < 0 {
        return (-i64::from(run.dx)) as u64;
    }
    0
}

/// How many columns there are from a run's origin to the one after its last.
pub(crate) fn columns_after(run: Run) -> u64
    ensures { result ≤ 2 ^ 34 }
{
    let after = i64::from(run.dx) + i64::from(more_of(run)) + 1;
    if after > 0 {
        return after as u64;
    }
    0
}

/// The columns of the tile from which so many to the left, and so many less one to the right, are in columns of the
/// window.
pub(crate) fn columns_within(tile: Rect, place: Rect, left: u64, right: u64) -> Columns
    requires left { left ≤ 2 ^ 34 }
    requires right { right ≤ 2 ^ 34 }
    ensures { result.first + result.count ≤ tile.width }
{
    let width = u64::from(tile.width);
    let begin = (u64::from(place.x) + left).saturating_sub(u64::from(tile.x));
    let first = begin.min(width);
    let end = (u64::from(place.x) + u64::from(place.width)).saturating_sub(
        u64::from(tile.x) + right,
    );
    let stop = end.max(first).min(width);
    Columns {
        first: first as u32,
        count: (stop - first) as u32,
    }
}

/// The columns of the tile at which the ends of the runs are in columns of the window; `row_ends` looks whether they are.
pub(crate) fn inner_columns(runs: &[Run], tile: Rect, place: Rect) -> Columns
    ensures { result.first + result.count ≤ tile.width }
{
    let mut left = 0u64;
    let mut right = 0u64;
    for run in runs {
        left = left.max(columns_before(*run));
        right = right.max(columns_after(*run));
    }
    columns_within(tile, place, left, right)
}

/// Moves the element one column on, so many columns after the one of which the ends are known.
#[inline(always)]
pub(crate) fn exchange_ends<P: Pixel>(
    histogram: &mut Histogram,
    samples: &[P],
    ends: &[Ends],
    i: usize,
)
    requires inside { (n : ℕ) × (i < n) × HasEnds samples.now n ends.now }
    requires held { HistogramHolds P.top_level histogram.old (levels_left P.level P.TOP samples.now ends.now i) }
    ensures { Exchanges P.top_level (levels_left P.level P.TOP samples.now ends.now i) (levels_entered P.level P.TOP samples.now ends.now i) histogram.old histogram.new }
{
    for e in ends {
        let left = samples[e.first + i].value();
        let entered = samples[e.next + i].value();
        histogram.exchange(left, entered);
    }
}
