//! The rank filter of a tile, eight rows after eight.
ghost use Rattle.std.specs.Prelude.{◌≡◌, ℕ, ◌+◌, ◌*◌, ◌<◌, ◌≤◌, ◌^◌, ◌++◌, length, drop, IfOk, IfSome, IsTrue, OnOk};
ghost use Rattle.mw_model.specs.Rasters.{Raster, cell_at};
ghost use Rattle.mw_model.specs.Windows.{seen_at};
ghost use Rattle.mw_rank_counts.specs.Counting.{AllUnder};
ghost use Rattle.mw_rank_counts.specs.mw_rank.Ranks.{IsRank, HasRanks};
ghost use Rattle.mw_rank_rows.specs.Rectangles.{IsRectangle};
ghost use Rattle.mw_rank_counts.specs.mw_tile.Windows.{IsWindow};

use crate::bands::by_numbers;
use crate::group::{Group, far_under, rank_group};
use crate::lanes::no_samples;
use crate::marks::marks_of;
use crate::rectangle::{Rectangle, Wanted, rectangle_of};
use crate::rest::{push_from, push_rest};
use mw_model::{NoMemory, Offset, Rect};
use mw_rank_counts::pixel::{Grey, Plane, copies};
use mw_rank_counts::run::runs_of;
use mw_rank_counts::tile::Window;
use mw_rank_counts::{Counted, Load, Way, load_of, quickest};
use std::alloc::Global;

/// How many groups may go apart at first, as they do at an edge of the frame, and at most.
const PATIENCE: u32 = 3;

const MOST_PATIENCE: u32 = 5;

/// The ranks of a tile. The last eight rows begin early enough to end with it.
fn rank_groups<P: Counted>(
    alloc: Global,
    window: &Window<P>,
    wanted: Wanted,
    tile: Rect,
    levels: usize,
) -> Result<Vec<P>, NoMemory>
    requires tall { 8 ≤ tile.height }
    requires inside { tile.y + tile.height < 2 ^ 32 }
    requires rectangle { IsRectangle wanted.rectangle wanted.offsets.now }
    requires low { wanted.rectangle.rows ≤ 2 ^ 15 }
    requires few { length wanted.offsets.now < 2 ^ 16 }
    requires level { 1 ≤ levels }
    requires short { levels < 65536 }
    requires fits { levels ≤ P.top_level + 1 }
    requires under { AllUnder P.level P.TOP window.now.cells levels }
    ensures { IfOk result (λ v. HasRanks P.level wanted.entry.k (seen_at window.now) wanted.entry.offsets.now tile v.items) }
{
    let width = tile.width as usize;
    let marks = marks_of(alloc, wanted.rectangle.rows as usize)?;
    let mut table = vec![in alloc; 0u16; levels * 8]?;
    let mut eight = copies(alloc, 8 * width, P::TOP)?;
    let mut out = Vec::with_capacity(alloc, tile.height as usize * width)?;
    let counts = table.as_mut_slice();
    let made = eight.as_mut_slice();
    let mut lanes = no_samples();
    let mut patience = PATIENCE;
    let mut done = 0u32;
    while done < tile.height && patience > 0 {
        let from = done.min(tile.height - 8);
        let y = tile.y + from;
        let group = Group {
            place: Rect {
                y,
                height: 8,
                ..tile
            },
            rectangle: wanted.rectangle,
            offsets: wanted.offsets,
            marks: &marks,
            k: wanted.k,
            far: far_under(wanted.rectangle),
        };
        let together = rank_group(alloc, made, counts, &mut lanes, window, group)?;
        push_from(&mut out, made, (done - from) as usize * width)?;
        patience = patience_after(patience, together);
        done = from + 8;
    }
    push_rest(alloc, &mut out, window, wanted, tile, done)?;
    Ok(out)
}

/// How many groups more may be tried that then go apart: one less after one that did, else one more, up to a limit.
fn patience_after(patience: u32, together: bool) -> u32 {
    if together {
        patience.saturating_add(1).min(MOST_PATIENCE)
    } else {
        patience.saturating_sub(1)
    }
}

/// Whether eight rows at a time are the quickest way. Their counters are for levels of 12 bits at most.
fn pays<P: Counted>(load: Load, rectangle: Rectangle) -> bool
    ensures { IsTrue result → (rectangle.rows ≤ 2 ^ 15) × (load.bits ≤ 12) }
{
    if rectangle.rows < 2 || rectangle.rows > 1 << 15 || load.bits > 12 {
        return false;
    }
    match quickest::<P>(load, Some(rectangle.rows)) {
        Way::EightRows => true,
        _ => false,
    }
}

/// The ranks of a tile under a rectangle, where eight rows at a time pay, over levels or over their numbers.
fn rank_wanted<P: Counted>(
    alloc: Global,
    window: &Window<P>,
    wanted: Wanted,
    tile: Rect,
) -> Result<Option<Vec<P>>, NoMemory>
    requires wide { 1 ≤ tile.width }
    requires tall { 8 ≤ tile.height }
    requires inside { tile.y + tile.height < 2 ^ 32 }
    requires rectangle { IsRectangle wanted.rectangle wanted.offsets.now }
    requires few { length wanted.offsets.now < 2 ^ 16 }
    ensures { IfOk result (λ o. IfSome o (λ v. HasRanks P.level wanted.entry.k (seen_at window.now) wanted.entry.offsets.now tile v.items)) }
{
    let load = load_of(window, wanted.offsets);
    if let Some(samples) = by_numbers(alloc, window, wanted, tile, load)? {
        return Ok(Some(samples));
    }
    if !pays::<P>(load, wanted.rectangle) {
        return Ok(None);
    }
    let samples = rank_groups(alloc, window, wanted, tile, 1usize << load.bits)?;
    Ok(Some(samples))
}

/// The ranks of a tile, where eight rows at a time pay.
fn side_by_side<P: Counted>(
    alloc: Global,
    window: &Window<P>,
    offsets: &[Offset],
    k: u32,
    tile: Rect,
) -> Result<Option<Vec<P>>, NoMemory>
    requires { length offsets.now < 2 ^ 16 }
    ensures { IfOk result (λ o. IfSome o (λ v. HasRanks P.level k (seen_at window.now) offsets.now tile v.items)) }
{
    if tile.height < 8 || tile.width < 8 || tile.y.checked_add(tile.height).is_none() {
        return Ok(None);
    }
    let runs = runs_of(alloc, offsets)?;
    let Some(rectangle) = rectangle_of(&runs) else {
        return Ok(None);
    };
    let wanted = Wanted {
        offsets,
        rectangle,
        k,
    };
    rank_wanted(alloc, window, wanted, tile)
}

/// What `mw_rank::rank` gives, eight rows at a time where that is quicker. It may want memory (`NoMemory`).
pub fn rank_by_rows<P: Counted>(
    alloc: Global,
    window: &Window<P>,
    offsets: &[Offset],
    k: u32,
    tile: Rect,
) -> Result<Plane<P>, NoMemory>
    requires { length offsets.now < 2 ^ 16 }
    ensures over_window { IfOk result (λ r. IsRank P.level k (seen_at window.now) offsets.now tile r) }
    ensures over_frame { IfOk result (λ r. (f : Raster P) → IsWindow window.now f offsets.now tile → IsRank P.level k (cell_at f) offsets.now tile r) }
{
    match side_by_side(alloc, window, offsets, k, tile)? {
        Some(samples) => Ok(Plane::new(tile.width, tile.height, samples)),
        None => mw_rank_counts::rank_by_counts(alloc, window, offsets, k, tile),
    }
}
