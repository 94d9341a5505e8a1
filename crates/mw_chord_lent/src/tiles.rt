//! Extrema of a tile, where they can be made of chords.
ghost use Rattle.std.specs.Prelude.{◌≡◌, ℕ, ◌+◌, ◌*◌, ◌<◌, ◌≤◌, ◌^◌, ◌-ℤ◌, ◌≤ℤ◌, length, slice_index_or, IfErr, IfOk, IsTrue, OnOk, false, true};
ghost use Rattle.std.specs.List.{AllByRecursion};
ghost use Rattle.mw_model.specs.Rasters.{Raster, raster, cell_at};
ghost use Rattle.mw_model.specs.Rectangles.{nonnegative};
ghost use Rattle.mw_model.specs.Windows.{seen_at};
ghost use Rattle.mw_line.specs.mw_tile.Windows.{IsWindow};
ghost use Rattle.mw_line.specs.Extrema.{IsSlidingExtremum};
ghost use Rattle.mw_offset.specs.mw_element_runs.Runs.{AreEitherWay, RunIsInside};
ghost use Rattle.mw_chord_lent.specs.Works.{IsBlockPlan, IsSeen};
ghost use Rattle.mw_chord_lent.specs.Sizes.{AreSizesTo};

use crate::blocks::{Work, put_blocks};
use crate::chords::{MANY, longest_of, places_of, sizes_of};
use crate::plan::{ALONE, Plan, are_many, plan_of};
use mw_line_lent::{Laned, LanedExtremum, Room};
use mw_model::{NoMemory, Offset};
use mw_offset::run::{Extent, Run, columns_after, extent_of, rows_after, runs_either_way};
use mw_tile_lent::{Lent, Rect};
use std::alloc::Global;

/// Whether an element is small enough for its rows to be laid out around a block: it has at most 256 columns and rows.
fn is_near(extent: Extent) -> bool
    ensures { IsTrue result → (extent.left ≤ℤ extent.right) × (extent.top ≤ℤ extent.bottom) × (nonnegative (extent.right -ℤ extent.left) ≤ 255) × (nonnegative (extent.bottom -ℤ extent.top) ≤ 255) }
{
    if extent.right < extent.left || extent.bottom < extent.top {
        return false;
    }
    columns_after(extent) < 256 && rows_after(extent) < 256
}

/// How many vectors of columns and how many samples a tile has at least. For fewer, rows that are copied are made as soon.
const NARROWEST: usize = 8;

const SMALLEST: u64 = 32768;

/// How many runs an element has at most that is made in a tile of fewer columns. One of more is taller, or has gaps, and takes rows
/// of more places from the cache than are left there beside the lists.
const RUNS: usize = 52;

const COLUMNS: u32 = 2048;

/// And how many at most in any tile.
const MOST_RUNS: usize = 400;

/// Whether it is sooner to make chords. Any answer is right.
fn is_quick(runs: usize, tile: Rect, lanes: usize) -> bool
    requires { lanes ≤ 32 }
{
    if (tile.width as usize) < NARROWEST * lanes {
        return false;
    }
    if u64::from(tile.width) * u64::from(tile.height) < SMALLEST {
        return false;
    }
    runs <= RUNS || runs <= MOST_RUNS && tile.width >= COLUMNS
}

/// The lengths of chords that runs up to the longest are made up of: under a tall element no more than leave room for blocks.
fn sizes_for(
    alloc: Global,
    runs: &[Run],
    longest: usize,
    extent: Extent,
    lanes: usize,
) -> Result<Vec<usize>, NoMemory>
    requires some { 0 < longest }
    requires short { longest ≤ 256 }
    requires all { AllByRecursion (λ (r : Run). r.count ≤ longest) runs.now }
    requires left { extent.left ≤ℤ extent.right }
    requires top { extent.top ≤ℤ extent.bottom }
    ensures { IfOk result (λ v. AreSizesTo longest v.items) }
{
    let sizes = sizes_of(alloc, runs, longest, MANY)?;
    if are_many(sizes.len(), extent, lanes) {
        return sizes_of(alloc, runs, longest, usize::MAX);
    }
    Ok(sizes)
}

/// From how many columns on chords are sooner than another kernel even where they are very many or blocks very small: that one then
/// reads rows that are too long for the nearest cache as well.
const WIDE: u32 = 4096;

/// How many chords are too many in a narrower tile, since each is read in a line of the cache of its own.
const CHORDS: usize = 350;

/// One in so many samples that are laid out is a result at least, in a narrower tile and in a wide one.
const PARTS: usize = 6;

const PARTS_WIDE: usize = 256;

/// Whether so many chords are sooner than another kernel. Where all rows of a tile are in a block, that one lays out as many. Any answer
/// is right.
fn is_worth(plan: Plan, chords: usize, tile: Rect) -> bool {
    let is_wide = tile.width >= WIDE;
    if chords > CHORDS && !is_wide {
        return false;
    }
    if plan.high >= tile.height as usize {
        return true;
    }
    let parts = if is_wide { PARTS_WIDE } else { PARTS };
    let results = plan.width.saturating_mul(plan.high);
    results.saturating_mul(parts) >= plan.span
}

/// Writes all results of a tile, for which it wants memory first. Says whether it did.
fn put_tile<P: Laned, E: LanedExtremum<P>>(
    room: &mut Room<P>,
    lent: &Lent<P>,
    runs: &[Run],
    extent: Extent,
    neutral: P,
    tile: Rect,
    out: &mut [P],
) -> Result<bool, NoMemory>
    requires inside { AllByRecursion (RunIsInside extent) runs.now }
    requires some { 0 < length runs.now }
    requires across { 2 * P.WIDTH ≤ tile.width }
    requires down { 0 < tile.height }
    requires low { tile.y + tile.height < 2 ^ 32 }
    requires room { length out.old ≡ tile.height * tile.width }
    requires left { extent.left ≤ℤ extent.right }
    requires top { extent.top ≤ℤ extent.bottom }
    requires near { nonnegative (extent.right -ℤ extent.left) ≤ 255 }
    requires few { nonnegative (extent.bottom -ℤ extent.top) ≤ 255 }
    ensures size { length out.new ≡ length out.old }
    ensures made { IfOk result (λ done. done ≡ true → (x y : ℕ) → x < tile.width → y < tile.height → IsSeen E.merge neutral (seen_at lent.now) runs.now tile x y (slice_index_or out.new (y * tile.width + x) neutral)) }
    ensures left_out { IfOk result (λ done. done ≡ false → out.new ≡ out.old) }
    ensures kept { IfErr result (λ _. out.new ≡ out.old) }
{
    let alloc = room.alloc;
    let longest = longest_of(runs);
    if longest == 0 || longest > 256 {
        return Ok(false);
    }
    let sizes = sizes_for(alloc, runs, longest, extent, P::WIDTH)?;
    if sizes.len() > 256 {
        return Ok(false);
    }
    let plan = plan_of(tile, extent, sizes.len(), longest, P::WIDTH);
    if sizes.len() * plan.span > ALONE * P::WIDTH {
        return Ok(false);
    }
    let places = places_of(alloc, runs, sizes.as_slice(), extent, plan.wide, plan.span)?;
    if !is_worth(plan, places.len(), tile) {
        return Ok(false);
    }
    room.hold(sizes.len() * plan.span, neutral)?;
    let work = Work {
        tile,
        extent,
        plan,
        sizes: sizes.as_slice(),
        places: places.as_slice(),
    };
    put_blocks::<P, E>(lent, work, neutral, room.cells.as_mut_slice(), out);
    Ok(true)
}

/// Writes at each place of the tile the extremum of the neutral sample and what is lent under the offsets, where these lie in 256
/// columns and rows, the tile has eight vectors of columns and 32,768 samples, and the lists of chords take 1.8 MiB at most; with many
/// runs, where it has 2,048 columns, and with very many chords or small blocks, where it has 4,096. Says whether it did: where not, it
/// writes nothing. Where what is lent has all that the frame has under the offsets, this is the extremum over the frame. It may want
/// memory (`NoMemory`), but only before it writes.
pub fn chords_into<P: Laned, E: LanedExtremum<P>>(
    room: &mut Room<P>,
    lent: &Lent<P>,
    offsets: &[Offset],
    neutral: P,
    tile: Rect,
    out: &mut [P],
) -> Result<bool, NoMemory>
    requires { length out.old ≡ tile.height * tile.width }
    ensures over_window { IfOk result (λ done. done ≡ true → IsSlidingExtremum E.merge neutral (seen_at lent.now) offsets.now tile (raster tile.width tile.height out.new)) }
    ensures over_frame { IfOk result (λ done. done ≡ true → (f : Raster P) → IsWindow lent.now f offsets.now tile → IsSlidingExtremum E.merge neutral (cell_at f) offsets.now tile (raster tile.width tile.height out.new)) }
    ensures left_out { IfOk result (λ done. done ≡ false → out.new ≡ out.old) }
    ensures kept { IfErr result (λ _. out.new ≡ out.old) }
{
    if (tile.width as usize) < 2 * P::WIDTH || tile.height == 0 {
        return Ok(false);
    }
    if tile.y > u32::MAX - tile.height {
        return Ok(false);
    }
    let runs = runs_either_way(room.alloc, offsets)?;
    let Some(extent) = extent_of(runs.as_slice()) else {
        return Ok(false);
    };
    if !is_near(extent) || !is_quick(runs.len(), tile, P::WIDTH) {
        return Ok(false);
    }
    put_tile::<P, E>(room, lent, runs.as_slice(), extent, neutral, tile, out)
}
