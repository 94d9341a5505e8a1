//! The rank filter by a moving histogram (Huang, Yang and Tang 1979): from one place to the next only the samples at
//! the ends of the element's horizontal runs leave and enter, and the rank is looked for from its last level.
ghost use Rattle.std.specs.Prelude.{◌≡◌, ℕ, ◌+◌, ◌*◌, ◌<◌, ◌≤◌, ◌^◌, pos, ◌+ℤ◌, ◌-ℤ◌, List, [], ◌++◌, map, length, vec_capacity, IfOk, IfSome, OnOk};
ghost use Rattle.std.specs.Option.{option_to_list};
ghost use Rattle.mw_model.specs.declared.limits.TheConstants.{FAR_LIMIT};
ghost use Rattle.mw_model.specs.Rasters.{Raster, raster, cell_at};
ghost use Rattle.mw_model.specs.Windows.{seen_at};
ghost use Rattle.mw_tile.specs.Windows.{IsWindow};
ghost use Rattle.mw_rank.specs.Ends.{AreEnds};
ghost use Rattle.mw_rank.specs.Ranks.{levels_under, levels_at, IsRank, GainsRanks, HasRanks};
ghost use Rattle.mw_rank.specs.Runs.{element_of};
ghost use Rattle.mw_rank.specs.Tallies.{Tallies, HistogramHasRoom, HasRoomFor, HistogramHolds};

use crate::ends::{Columns, Ends, exchange_ends, inner_columns, row_ends};
use crate::histogram::Histogram;
use crate::runs::{more_of, start_of};
use crate::seen::seen_part;
use mw_element_runs::{Run, place_of, runs_of};
use mw_model::{NoMemory, Offset, Rect};
use mw_tile::Window;
use mw_tile::pixel::{Grey, Pixel, Plane};
use std::alloc::Global;

/// The level that a window has in that row and column, both counted from its first place.
#[inline(always)]
fn level_in<P: Grey>(window: &Window<P>, column: i64, row: i64) -> Option<u16>
    ensures levels { option_to_list result ≡ map P.level (option_to_list (cell_at (raster window.now.place.width window.now.place.height window.now.cells) column row)) }
    ensures small { IfSome result (λ s. s ≤ P.top_level) }
{
    let place = window.place();
    if column < 0 || row < 0 || column >= i64::from(place.width) || row >= i64::from(place.height) {
        return None;
    }
    let at = row as usize * place.width as usize + column as usize;
    Some(window.samples()[at].value())
}

/// The level that is seen at an offset from column x of row y of the frame.
#[inline(always)]
fn level_at<P: Grey>(window: &Window<P>, offset: Offset, x: u64, y: u64) -> Option<u16>
    requires near { x ≤ FAR_LIMIT }
    requires high { y ≤ FAR_LIMIT }
    ensures levels { option_to_list result ≡ levels_at P.level (seen_at window.now) offset x y }
    ensures small { IfSome result (λ s. s ≤ P.top_level) }
{
    let place = window.place();
    let column = place_of(x, offset.dx, place.x);
    let row = place_of(y, offset.dy, place.y);
    level_in(window, column, row)
}

/// Counts what is seen at an offset.
#[inline(always)]
fn enter<P: Grey>(histogram: &mut Histogram, window: &Window<P>, offset: Offset, x: u64, y: u64)
    requires near { x ≤ FAR_LIMIT }
    requires high { y ≤ FAR_LIMIT }
    requires room { HistogramHasRoom P.top_level histogram.old }
    ensures { (ns : List ℕ) → Tallies P.top_level histogram.old ns → Tallies P.top_level histogram.new (levels_at P.level (seen_at window.now) offset x y ++ ns) }
{
    if let Some(s) = level_at(window, offset, x, y) {
        histogram.add(s);
    }
}

/// Takes back what is seen at an offset.
#[inline(always)]
fn leave<P: Grey>(histogram: &mut Histogram, window: &Window<P>, offset: Offset, x: u64, y: u64)
    requires near { x ≤ FAR_LIMIT }
    requires high { y ≤ FAR_LIMIT }
    requires held { HistogramHolds P.top_level histogram.old (levels_at P.level (seen_at window.now) offset x y) }
    ensures { (ns : List ℕ) → Tallies P.top_level histogram.old (levels_at P.level (seen_at window.now) offset x y ++ ns) → Tallies P.top_level histogram.new ns }
{
    if let Some(s) = level_at(window, offset, x, y) {
        histogram.remove(s);
    }
}

/// Counts samples.
fn enter_part<P: Pixel>(histogram: &mut Histogram, samples: &[P])
    requires { HasRoomFor P.top_level histogram.old (length samples.now) }
    ensures { (ns : List ℕ) → Tallies P.top_level histogram.old ns → Tallies P.top_level histogram.new (map P.level samples.now ++ ns) }
{
    for sample in samples {
        histogram.add(sample.value());
    }
}

/// Takes back samples that were counted.
fn leave_part<P: Pixel>(histogram: &mut Histogram, samples: &[P])
    requires { HistogramHolds P.top_level histogram.old (map P.level samples.now) }
    ensures { (ns : List ℕ) → Tallies P.top_level histogram.old (map P.level samples.now ++ ns) → Tallies P.top_level histogram.new ns }
{
    for sample in samples {
        histogram.remove(sample.value());
    }
}

/// Counts what is seen under the element.
pub(crate) fn enter_all<P: Grey>(
    histogram: &mut Histogram,
    window: &Window<P>,
    runs: &[Run],
    x: u64,
    y: u64,
)
    requires near { x ≤ FAR_LIMIT }
    requires high { y ≤ FAR_LIMIT }
    requires few { length (element_of runs.now) < 2 ^ 16 }
    requires empty { Tallies P.top_level histogram.old [] }
    ensures { Tallies P.top_level histogram.new (levels_under P.level (seen_at window.now) (element_of runs.now) x y) }
{
    for run in runs {
        enter_part(histogram, seen_part(window, *run, x, y));
    }
}

/// Takes back what is seen under the element.
pub(crate) fn leave_all<P: Grey>(
    histogram: &mut Histogram,
    window: &Window<P>,
    runs: &[Run],
    x: u64,
    y: u64,
)
    requires near { x ≤ FAR_LIMIT }
    requires high { y ≤ FAR_LIMIT }
    requires few { length (element_of runs.now) < 2 ^ 16 }
    requires held { Tallies P.top_level histogram.old (levels_under P.level (seen_at window.now) (element_of runs.now) x y) }
    ensures { Tallies P.top_level histogram.new [] }
{
    // few counters are cleared at once
    if histogram.counts.len() / 4 <= histogram.held as usize {
        histogram.clear();
        return;
    }
    for run in runs {
        leave_part(histogram, seen_part(window, *run, x, y));
    }
}

/// Moves the element one column on.
fn advance<P: Grey>(histogram: &mut Histogram, window: &Window<P>, runs: &[Run], x: u64, y: u64)
    requires near { x ≤ 2 ^ 39 }
    requires high { y ≤ FAR_LIMIT }
    requires few { length (element_of runs.now) < 2 ^ 16 }
    requires held { Tallies P.top_level histogram.old (levels_under P.level (seen_at window.now) (element_of runs.now) x y) }
    ensures { Tallies P.top_level histogram.new (levels_under P.level (seen_at window.now) (element_of runs.now) (x + 1) y) }
{
    for run in runs {
        let start = start_of(*run);
        leave(histogram, window, start, x, y);
        enter(
            histogram,
            window,
            start,
            x + 1 + u64::from(more_of(*run)),
            y,
        );
    }
}

/// The sample of a level.
#[inline(always)]
pub fn sample_of<P: Pixel>(level: u16) -> P
    requires { level ≤ P.top_level }
    ensures { P.level result ≡ level }
{
    match P::of(level) {
        Some(sample) => sample,
        None => unreachable!(),
    }
}

/// The places of a row of the frame from column x on, and the number of the rank that is wanted there.
#[derive(Clone, Copy)]
pub(crate) struct Stretch {
    pub x: u64,
    pub y: u64,
    pub width: u32,
    pub k: u32,
}

/// A row of a tile, and those of its columns at which the ends of the runs are in columns of the window.
#[derive(Clone, Copy)]
pub(crate) struct Row {
    pub at: Stretch,
    pub inner: Columns,
}

/// Adds the ranks of the places.
pub(crate) fn push_row<P: Grey>(
    out: &mut Vec<P>,
    histogram: &mut Histogram,
    window: &Window<P>,
    runs: &[Run],
    at: Stretch,
) -> Result<(), NoMemory>
    requires near { at.x + at.width ≤ 2 ^ 39 }
    requires high { at.y ≤ FAR_LIMIT }
    requires few { length (element_of runs.now) < 2 ^ 16 }
    requires held { Tallies P.top_level histogram.old (levels_under P.level (seen_at window.now) (element_of runs.now) at.x at.y) }
    ensures row { OnOk result (GainsRanks P.level at.k (seen_at window.now) (element_of runs.now) at.x at.y at.width out.old.items out.new.items) }
    ensures moved { OnOk result (Tallies P.top_level histogram.new (levels_under P.level (seen_at window.now) (element_of runs.now) (at.x + at.width) at.y)) }
{
    for i in 0..at.width {
        let sample = sample_of::<P>(histogram.select(at.k));
        out.push(sample)?;
        advance(histogram, window, runs, at.x + u64::from(i), at.y);
    }
    Ok(())
}

/// Adds the ranks of the places, where the ends of the runs are known.
fn push_inside<P: Grey>(
    out: &mut Vec<P>,
    histogram: &mut Histogram,
    window: &Window<P>,
    runs: &[Run],
    ends: &[Ends],
    at: Stretch,
) -> Result<(), NoMemory>
    requires ends { AreEnds P.level P.TOP (seen_at window.now) window.now.cells runs.now at.x at.y at.width ends.now }
    requires few { length (element_of runs.now) < 2 ^ 16 }
    requires held { Tallies P.top_level histogram.old (levels_under P.level (seen_at window.now) (element_of runs.now) at.x at.y) }
    ensures row { OnOk result (GainsRanks P.level at.k (seen_at window.now) (element_of runs.now) at.x at.y at.width out.old.items out.new.items) }
    ensures moved { OnOk result (Tallies P.top_level histogram.new (levels_under P.level (seen_at window.now) (element_of runs.now) (at.x + at.width) at.y)) }
{
    // for the range of their number
    let _runs = runs;
    let samples = window.samples();
    for i in 0..at.width {
        let sample = sample_of::<P>(histogram.select(at.k));
        out.push(sample)?;
        exchange_ends(histogram, samples, ends, i as usize);
    }
    Ok(())
}

/// Adds the ranks of the places, by the ends of the runs where they are inside.
fn push_middle<P: Grey>(
    out: &mut Vec<P>,
    histogram: &mut Histogram,
    ends: &mut Vec<Ends>,
    window: &Window<P>,
    runs: &[Run],
    at: Stretch,
) -> Result<(), NoMemory>
    requires near { at.x + at.width ≤ 2 ^ 39 }
    requires high { at.y ≤ FAR_LIMIT }
    requires few { length (element_of runs.now) < 2 ^ 16 }
    requires held { Tallies P.top_level histogram.old (levels_under P.level (seen_at window.now) (element_of runs.now) at.x at.y) }
    ensures row { OnOk result (GainsRanks P.level at.k (seen_at window.now) (element_of runs.now) at.x at.y at.width out.old.items out.new.items) }
    ensures moved { OnOk result (Tallies P.top_level histogram.new (levels_under P.level (seen_at window.now) (element_of runs.now) (at.x + at.width) at.y)) }
{
    if row_ends(ends, window, runs, at.x, at.y, at.width)? {
        push_inside(out, histogram, window, runs, ends, at)?;
    } else {
        push_row(out, histogram, window, runs, at)?;
    }
    Ok(())
}

/// Adds the ranks of a row: the inner columns by the ends of the runs.
fn push_columns<P: Grey>(
    out: &mut Vec<P>,
    histogram: &mut Histogram,
    ends: &mut Vec<Ends>,
    window: &Window<P>,
    runs: &[Run],
    row: Row,
) -> Result<(), NoMemory>
    requires near { row.at.x + row.at.width ≤ 2 ^ 39 }
    requires high { row.at.y ≤ FAR_LIMIT }
    requires few { length (element_of runs.now) < 2 ^ 16 }
    requires inner { row.inner.first + row.inner.count ≤ row.at.width }
    requires held { Tallies P.top_level histogram.old (levels_under P.level (seen_at window.now) (element_of runs.now) row.at.x row.at.y) }
    ensures row { OnOk result (GainsRanks P.level row.at.k (seen_at window.now) (element_of runs.now) row.at.x row.at.y row.at.width out.old.items out.new.items) }
    ensures moved { OnOk result (Tallies P.top_level histogram.new (levels_under P.level (seen_at window.now) (element_of runs.now) (row.at.x + row.at.width) row.at.y)) }
{
    let at = row.at;
    let first = row.inner.first;
    let count = row.inner.count;
    let middle = at.x + u64::from(first);
    let last = middle + u64::from(count);
    let rest = at.width - first - count;
    let left = Stretch { width: first, ..at };
    let inside = Stretch {
        x: middle,
        width: count,
        ..at
    };
    let right = Stretch {
        x: last,
        width: rest,
        ..at
    };
    push_row(out, histogram, window, runs, left)?;
    push_middle(out, histogram, ends, window, runs, inside)?;
    push_row(out, histogram, window, runs, right)?;
    Ok(())
}

/// Adds the ranks of a row, before and after which the histogram is empty.
fn push_whole_row<P: Grey>(
    out: &mut Vec<P>,
    histogram: &mut Histogram,
    ends: &mut Vec<Ends>,
    window: &Window<P>,
    runs: &[Run],
    row: Row,
) -> Result<(), NoMemory>
    requires near { row.at.x < 2 ^ 32 }
    requires high { row.at.y ≤ FAR_LIMIT }
    requires few { length (element_of runs.now) < 2 ^ 16 }
    requires inner { row.inner.first + row.inner.count ≤ row.at.width }
    requires empty { Tallies P.top_level histogram.old [] }
    ensures row { OnOk result (GainsRanks P.level row.at.k (seen_at window.now) (element_of runs.now) row.at.x row.at.y row.at.width out.old.items out.new.items) }
    ensures empty { OnOk result (Tallies P.top_level histogram.new []) }
{
    let at = row.at;
    enter_all(histogram, window, runs, at.x, at.y);
    push_columns(out, histogram, ends, window, runs, row)?;
    leave_all(histogram, window, runs, at.x + u64::from(at.width), at.y);
    Ok(())
}

/// Room for the samples of a tile, and no more.
fn room_for<P: Pixel>(alloc: Global, tile: Rect) -> Result<Vec<P>, NoMemory>
    ensures empty { IfOk result (λ v. v.items ≡ []) }
    ensures room { IfOk result (λ v. vec_capacity v ≡ tile.height * tile.width) }
{
    let room = Vec::with_capacity(alloc, tile.height as usize * tile.width as usize)?;
    Ok(room)
}

/// The ranks of a tile, by rows.
pub(crate) fn rank_samples<P: Grey>(
    alloc: Global,
    window: &Window<P>,
    offsets: &[Offset],
    k: u32,
    tile: Rect,
) -> Result<Vec<P>, NoMemory>
    requires few { length offsets.now < 2 ^ 16 }
    ensures { IfOk result (λ v. HasRanks P.level k (seen_at window.now) offsets.now tile v.items) }
{
    let runs = runs_of(alloc, offsets)?;
    let inner = inner_columns(&runs, tile, window.place());
    let mut ends = Vec::with_capacity(alloc, runs.len())?;
    let mut histogram = Histogram::empty::<P>(alloc)?;
    let mut out = room_for(alloc, tile)?;
    let x = u64::from(tile.x);
    for j in 0..tile.height {
        let y = u64::from(tile.y) + u64::from(j);
        let at = Stretch {
            x,
            y,
            width: tile.width,
            k,
        };
        let row = Row { at, inner };
        push_whole_row(&mut out, &mut histogram, &mut ends, window, &runs, row)?;
    }
    Ok(out)
}

/// At each place of the tile, of the samples that the window has under the element in rising order, number k, counted
/// from 1, or the last where there are fewer; 0 where there is none. Where the window has all that the frame has there,
/// this is the rank filter of the frame. The element has fewer than 65,536 offsets, as the counters have 16 bits. It
/// may want memory (`NoMemory`).
pub fn rank<P: Grey>(
    alloc: Global,
    window: &Window<P>,
    offsets: &[Offset],
    k: u32,
    tile: Rect,
) -> Result<Plane<P>, NoMemory>
    requires { length offsets.now < 2 ^ 16 }
    ensures over_window { IfOk result (λ r. IsRank P.level k (seen_at window.now) offsets.now tile r) }
    ensures over_frame { IfOk result (λ r. (f : Raster P) → IsWindow window.now f offsets.now tile → IsRank P.level k (cell_at f) offsets.now tile r) }
{
    let samples = rank_samples(alloc, window, offsets, k, tile)?;
    Ok(Plane::new(tile.width, tile.height, samples))
}
