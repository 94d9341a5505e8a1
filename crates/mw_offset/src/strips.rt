//! The extremum by runs, one strip of the tile's rows after another, so that the rows of a strip stay in the processor's
//! cache from their spreading to their last merge.
ghost use Rattle.std.specs.Prelude.{◌≡◌, ℕ, ◌+◌, ◌*◌, ◌<◌, ◌≤◌, ◌^◌, ◌-ℤ◌, ◌≤ℤ◌, length, slice_index_or, flat_map, vec_len, IfOk, OnOk};
ghost use Rattle.std.specs.List.{AllByRecursion};
ghost use Rattle.mw_model.specs.Rectangles.{nonnegative};
ghost use Rattle.mw_model.specs.Windows.{seen_at};
ghost use Rattle.mw_element_runs.specs.Runs.{run_offsets, RunIsInside};
ghost use Rattle.mw_offset.specs.MergedAt.{IsMergedAtOnce};
ghost use Rattle.mw_offset.specs.Tiles.{HoldsExtrema};

use crate::by_runs::{Looked, merge_runs};
use mw_element_runs::{Extent, Run, rows_after};
use mw_line::pixel::{Extremum, Grey, copies};
use mw_line::tile::Window;
use mw_model::{NoMemory, Rect};
use std::alloc::Global;

/// How many samples of a strip, with what is made of them, stay in the cache.
const SAMPLES: u32 = 131072;

/// How many rows a strip has: as many as stay in the cache. Since as many rows as the element has after its first are spread once
/// more for each strip, it is no less than these.
fn rows_of_strip(width: u32, extent: Extent) -> usize
    requires some { 0 < width }
    requires high { extent.top ≤ℤ extent.bottom }
    requires few_rows { nonnegative (extent.bottom -ℤ extent.top) ≤ 1023 }
    ensures some { 0 < result }
    ensures few { result ≤ 2 ^ 17 }
    ensures strip { IsMergedAtOnce extent width result }
{
    let in_cache = (SAMPLES / width) as usize;
    in_cache.max(32).max(rows_after(extent))
}

/// Merges into neutral samples, at each place of the tile, what the window has under the runs.
fn merge_strips<P: Grey, E: Extremum<P>>(
    alloc: Global,
    window: &Window<P>,
    runs: &[Run],
    looked: Looked,
    neutral: P,
    out: &mut [P],
) -> Result<(), NoMemory>
    requires inside { AllByRecursion (RunIsInside looked.extent) runs.now }
    requires some { (0 < looked.tile.width) × (looked.tile.y + looked.tile.height < 2 ^ 32) }
    requires wide { looked.extent.left ≤ℤ looked.extent.right }
    requires high { looked.extent.top ≤ℤ looked.extent.bottom }
    requires few_rows { nonnegative (looked.extent.bottom -ℤ looked.extent.top) ≤ 1023 }
    requires size { length out.old ≡ looked.tile.height * looked.tile.width }
    requires blank { (q : ℕ) → slice_index_or out.old q neutral ≡ neutral }
    ensures { OnOk result (HoldsExtrema E.merge neutral (seen_at window.now) (flat_map run_offsets runs.now) looked.tile out.new) }
{
    let Looked { tile, extent } = looked;
    let most = rows_of_strip(tile.width, extent);
    let width = tile.width as usize;
    let mut y = 0u32;
    'strips: while y < tile.height {
        let height = most.min((tile.height - y) as usize);
        let strip = Rect {
            x: tile.x,
            y: tile.y + y,
            width: tile.width,
            height: height as u32,
        };
        let start = y as usize * width;
        merge_runs::<P, E>(
            alloc,
            window,
            runs,
            Looked {
                tile: strip,
                extent,
            },
            neutral,
            &mut out[start..start + height * width],
        )?;
        y += height as u32;
    }
    Ok(())
}

/// The extremum of the neutral sample and what the window has under the runs, at each place of the tile.
pub(crate) fn extremum_by_strips<P: Grey, E: Extremum<P>>(
    alloc: Global,
    window: &Window<P>,
    runs: &[Run],
    extent: Extent,
    neutral: P,
    tile: Rect,
) -> Result<Vec<P>, NoMemory>
    requires inside { AllByRecursion (RunIsInside extent) runs.now }
    requires some { (0 < tile.width) × (tile.y + tile.height < 2 ^ 32) }
    requires wide { extent.left ≤ℤ extent.right }
    requires high { extent.top ≤ℤ extent.bottom }
    requires few_rows { nonnegative (extent.bottom -ℤ extent.top) ≤ 1023 }
    ensures size { IfOk result (λ v. vec_len v ≡ tile.height * tile.width) }
    ensures cells { IfOk result (λ v. HoldsExtrema E.merge neutral (seen_at window.now) (flat_map run_offsets runs.now) tile v.items) }
{
    let looked = Looked { tile, extent };
    let mut samples = copies(alloc, tile.height as usize * tile.width as usize, neutral)?;
    merge_strips::<P, E>(alloc, window, runs, looked, neutral, samples.as_mut_slice())?;
    Ok(samples)
}
