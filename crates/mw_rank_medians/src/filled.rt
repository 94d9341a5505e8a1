//! Medians about an edge of the frame, by the same networks: where a window shows nothing under a square, the greatest level
//! stands in its place. It stands behind all levels that are seen, so a median below it is the rank that is wanted.
ghost use Rattle.std.specs.Prelude.{◌≡◌, ◌+◌, ◌<◌, ◌≤◌, ◌^◌, IfOk, OnOk};
ghost use Rattle.mw_model.specs.declared.limits.TheConstants.{FAR_LIMIT};
ghost use Rattle.mw_model.specs.Windows.{seen_at};
ghost use Rattle.mw_rank.specs.Ranks.{GainsRow, HasRows};
ghost use Rattle.mw_rank_medians.specs.Filled.{filled_at, filled_rank, line_x, on_lines};
ghost use Rattle.mw_rank_medians.specs.Squares.{IsMedian};

use crate::Vectored;
use crate::cut::level_at;
use crate::rows::{Sheet, medians_of_rows};
use mw_model::{NoMemory, Offset};
use mw_rank::pixel::{Grey, copies};
use mw_rank::sample_of;
use mw_rank::tile::Window;
use std::alloc::Global;

/// Places of the frame, from column x of row y on: so many lines beside one another, which are rows, or columns if they go down.
#[derive(Clone, Copy)]
pub(crate) struct Lines {
    pub x: u32,
    pub y: u32,
    pub count: u32,
    pub length: u32,
    pub down: bool,
}

/// The column of place i of line r, where column `from` is that of the first. The row comes by the same with both exchanged.
#[inline(always)]
fn place_in(down: bool, from: u32, i: u32, r: u32) -> u64
    ensures { result ≡ line_x down from i r }
{
    u64::from(from) + u64::from(if down { r } else { i })
}

/// The sample at an offset from column x of row y, or the greatest one where the window shows nothing.
#[inline(always)]
fn filled_sample<P: Grey>(window: &Window<P>, offset: Offset, x: u64, y: u64) -> P
    requires near { x ≤ FAR_LIMIT }
    requires high { y ≤ FAR_LIMIT }
    ensures { P.level result ≡ filled_at P.level P.top_level (seen_at window.now) offset x y }
{
    match level_at(window, offset, x, y) {
        Some(level) => sample_of::<P>(level),
        None => P::TOP,
    }
}

/// Adds the samples at an offset from the places of one of the lines.
fn push_line<P: Grey>(
    out: &mut Vec<P>,
    window: &Window<P>,
    offset: Offset,
    lines: Lines,
    line: u32,
) -> Result<(), NoMemory>
    ensures { OnOk result (GainsRow P.level (λ i. on_lines lines (filled_at P.level P.top_level (seen_at window.now) offset) i line) lines.length out.old.items out.new.items) }
{
    for i in 0..lines.length {
        let x = place_in(lines.down, lines.x, i, line);
        let y = place_in(lines.down, lines.y, line, i);
        let sample = filled_sample(window, offset, x, y);
        out.push(sample)?;
    }
    Ok(())
}

/// The samples at an offset from the places of lines, line after line.
fn filled_lines<P: Grey>(
    alloc: Global,
    window: &Window<P>,
    offset: Offset,
    lines: Lines,
) -> Result<Vec<P>, NoMemory>
    ensures { IfOk result (λ v. HasRows P.level (on_lines lines (filled_at P.level P.top_level (seen_at window.now) offset)) lines.length lines.count v.items) }
{
    let mut out = Vec::with_capacity(alloc, lines.count as usize * lines.length as usize)?;
    for line in 0..lines.count {
        push_line(&mut out, window, offset, lines, line)?;
    }
    Ok(out)
}

/// Number k of the levels under a square that begins at that offset, at the places of lines, line after line.
pub(crate) fn filled_medians<P: Vectored>(
    alloc: Global,
    window: &Window<P>,
    first: Offset,
    side: u32,
    k: u32,
    lines: Lines,
) -> Result<Vec<P>, NoMemory>
    requires wide { P.WIDTH ≤ lines.length }
    requires long { lines.length + side < 2 ^ 32 }
    requires many { lines.count + side < 2 ^ 32 }
    requires median { IsMedian side k }
    ensures { IfOk result (λ v. HasRows P.level (on_lines lines (filled_rank P.level P.top_level (seen_at window.now) first side k)) lines.length lines.count v.items) }
{
    if lines.count == 0 {
        return Ok(Vec::new(alloc));
    }
    let about = Lines {
        count: lines.count + side - 1,
        length: lines.length + side - 1,
        ..lines
    };
    let samples = filled_lines(alloc, window, first, about)?;
    let mut room = copies(alloc, lines.length as usize, P::TOP)?;
    let mut out = Vec::with_capacity(alloc, lines.count as usize * lines.length as usize)?;
    let medians = room.as_mut_slice();
    for line in 0..lines.count {
        let sheet = Sheet {
            samples: samples.as_slice(),
            from: line as usize * about.length as usize,
            stride: about.length as usize,
        };
        medians_of_rows(medians, sheet, side, k);
        out.extend_from_slice(medians)?;
    }
    Ok(out)
}
