//! The rank filter of a tile by blocks of numbers: bands of rows under one another, and blocks side by side in each. Where
//! searches go too far after all, or ranks hardly move, the rows that are left go another way, each of them whole.
ghost use Rattle.std.specs.Prelude.{◌≡◌, ℕ, ◌+◌, ◌-◌, ◌*◌, ◌<◌, ◌≤◌, ◌^◌, ◌⊎◌, length, slice_index_or, IfOk, IfSome, OnOk};
ghost use Rattle.mw_model.specs.Windows.{seen_at};
ghost use Rattle.mw_rank_counts.specs.mw_rank.Ranks.{HasRanks};
ghost use Rattle.mw_rank_rows.specs.Blocks.{CutFits, HasColumns};
ghost use Rattle.mw_rank_rows.specs.Rectangles.{IsRectangle};

use crate::blocks::rank_block;
use crate::rectangle::{Rectangle, Wanted};
use crate::rest::{push_from, push_rest};
use mw_model::{NoMemory, Rect};
use mw_rank_counts::pixel::{Pixel, copies};
use mw_rank_counts::tile::Window;
use mw_rank_counts::{Block, Counted, Limits, Load, limits_by_numbers};
use std::alloc::Global;

/// How many columns of results a block has at most: wider ones see more numbers, and narrower ones begin more often.
const COLUMNS: u32 = 64;

/// A block has as many rows of results as the element, but at most so many times eight, and at most one of so many parts of the
/// tile: so much is lost where numbers do not pay after all.
const MOST_EIGHTS: u32 = 4;

const LEAST_BANDS: u32 = 8;

/// What one block of a tile has, and what searches over its numbers may take.
#[derive(Clone, Copy)]
pub(crate) struct Cut {
    pub width: u32,
    pub height: u32,
    pub limits: Limits,
}

/// Writes a row of samples from a place on.
fn put_row<P: Pixel>(out: &mut [P], to: usize, from: &[P], at: usize, count: usize)
    requires room { to + count ≤ length out.old }
    requires other { at + count ≤ length from.now }
    ensures size { length out.new ≡ length out.old }
    ensures put { (i : ℕ) (d : P) → i < count → slice_index_or out.new (to + i) d ≡ slice_index_or from.now (at + i) d }
    ensures others { (p : ℕ) (d : P) → (p < to) ⊎ (to + count ≤ p) → slice_index_or out.new p d ≡ slice_index_or out.old p d }
{
    out[to..to + count].copy_from_slice(&from[at..at + count]);
}

/// Writes the rows of a block into those of a band, from a column on.
fn put_block<P: Pixel>(
    out: &mut [P],
    width: usize,
    from: usize,
    block: &[P],
    columns: usize,
    rows: usize,
)
    requires across { from + columns ≤ width }
    requires whole { length out.old ≡ rows * width }
    requires block { length block.now ≡ rows * columns }
    ensures size { length out.new ≡ length out.old }
    ensures put { (x j : ℕ) (d : P) → x < columns → j < rows → slice_index_or out.new (j * width + (from + x)) d ≡ slice_index_or block.now (j * columns + x) d }
    ensures others { (x j : ℕ) (d : P) → x < from → slice_index_or out.new (j * width + x) d ≡ slice_index_or out.old (j * width + x) d }
{
    for j in 0..rows {
        put_row(out, j * width + from, block, j * columns, columns);
    }
}

/// Puts the columns of a block in their places, in samples that can grow.
fn put_columns<P: Pixel>(
    out: &mut Vec<P>,
    width: usize,
    from: usize,
    block: &[P],
    columns: usize,
    rows: usize,
)
    requires across { from + columns ≤ width }
    requires whole { length out.old.items ≡ rows * width }
    requires block { length block.now ≡ rows * columns }
    ensures size { length out.new.items ≡ length out.old.items }
    ensures put { (x j : ℕ) (d : P) → x < columns → j < rows → slice_index_or out.new.items (j * width + (from + x)) d ≡ slice_index_or block.now (j * columns + x) d }
    ensures others { (x j : ℕ) (d : P) → x < from → slice_index_or out.new.items (j * width + x) d ≡ slice_index_or out.old.items (j * width + x) d }
{
    put_block(out.as_mut_slice(), width, from, block, columns, rows);
}

/// The ranks of a band, block beside block, where all searches are near. The last block begins early enough to end with the band.
fn rank_band<P: Counted>(
    alloc: Global,
    window: &Window<P>,
    wanted: Wanted,
    band: Rect,
    cut: Cut,
) -> Result<Option<Vec<P>>, NoMemory>
    requires cut { CutFits band.width band.height cut }
    requires whole { cut.height ≡ band.height }
    requires inside { (band.x + band.width < 2 ^ 32) × (band.y + band.height < 2 ^ 32) }
    requires rectangle { IsRectangle wanted.rectangle wanted.offsets.now }
    requires some { 1 ≤ wanted.rectangle.rows }
    requires low { wanted.rectangle.rows ≤ 2 ^ 15 }
    requires few { length wanted.offsets.now < 2 ^ 16 }
    ensures { IfOk result (λ o. IfSome o (λ v. HasRanks P.level wanted.entry.k (seen_at window.now) wanted.entry.offsets.now band v.items)) }
{
    let width = band.width as usize;
    let height = band.height as usize;
    let mut out = copies(alloc, height * width, P::TOP)?;
    let mut done = 0u32;
    while done < band.width {
        let from = done.min(band.width - cut.width);
        let place = Rect {
            x: band.x + from,
            width: cut.width,
            ..band
        };
        let Some(made) = rank_block(alloc, window, wanted, place, cut.limits.far)? else {
            return Ok(None);
        };
        put_columns(
            &mut out,
            width,
            from as usize,
            &made,
            cut.width as usize,
            height,
        );
        done = from + cut.width;
    }
    Ok(Some(out))
}

/// How many rows the next band has: the first is low, to lose little where numbers do not pay.
fn band_height(done: u32, cut: Cut) -> u32
    requires { 8 ≤ cut.height }
    ensures { (8 ≤ result) × (result ≤ cut.height) }
{
    if done == 0 { 8 } else { cut.height }
}

/// How far the levels of samples lie from those before them, on average.
fn mean_step<P: Pixel>(samples: &[P]) -> u64 {
    if samples.is_empty() {
        return 0;
    }
    let mut last = samples[0].value();
    let mut sum = 0u64;
    for sample in samples {
        let level = sample.value();
        sum = sum.wrapping_add(u64::from(level.abs_diff(last)));
        last = level;
    }
    sum / (samples.len() as u64).max(1)
}

/// The ranks of a tile, band under band as long as numbers pay. The last band begins early enough to end with the tile.
fn rank_bands<P: Counted>(
    alloc: Global,
    window: &Window<P>,
    wanted: Wanted,
    tile: Rect,
    cut: Cut,
) -> Result<Vec<P>, NoMemory>
    requires cut { CutFits tile.width tile.height cut }
    requires inside { (tile.x + tile.width < 2 ^ 32) × (tile.y + tile.height < 2 ^ 32) }
    requires rectangle { IsRectangle wanted.rectangle wanted.offsets.now }
    requires some { 1 ≤ wanted.rectangle.rows }
    requires low { wanted.rectangle.rows ≤ 2 ^ 15 }
    requires few { length wanted.offsets.now < 2 ^ 16 }
    ensures { IfOk result (λ v. HasRanks P.level wanted.entry.k (seen_at window.now) wanted.entry.offsets.now tile v.items) }
{
    let width = tile.width as usize;
    let mut out = Vec::with_capacity(alloc, tile.height as usize * width)?;
    let mut pays = true;
    let mut done = 0u32;
    while done < tile.height && pays {
        let height = band_height(done, cut);
        let from = done.min(tile.height - height);
        let band = Rect {
            y: tile.y + from,
            height,
            ..tile
        };
        let Some(made) = rank_band(alloc, window, wanted, band, Cut { height, ..cut })? else {
            break;
        };
        push_from(&mut out, &made, (done - from) as usize * width)?;
        pays = mean_step(&made) >= cut.limits.least;
        done = from + height;
    }
    push_rest(alloc, &mut out, window, wanted, tile, done)?;
    Ok(out)
}

/// A block of a tile. Those of a band have about the same width each.
fn block_of(tile: Rect, rectangle: Rectangle) -> Block
    requires wide { 1 ≤ tile.width }
    requires tall { 8 ≤ tile.height }
    ensures width { (1 ≤ result.width) × (result.width ≤ tile.width) × (result.width ≤ 64) }
    ensures height { (8 ≤ result.height) × (result.height ≤ tile.height) × (result.height ≤ 32) }
{
    let last = tile.width - 1;
    let blocks = last / COLUMNS + 1;
    let width = (last / blocks).min(last).min(COLUMNS - 1) + 1;
    let most = (tile.height / (8 * LEAST_BANDS)).clamp(1, MOST_EIGHTS);
    let eights = (rectangle.rows / 8).clamp(1, most);
    Block {
        width,
        height: (8 * eights).min(tile.height),
    }
}

/// The ranks of a tile by numbers, where that is the quickest way.
pub(crate) fn by_numbers<P: Counted>(
    alloc: Global,
    window: &Window<P>,
    wanted: Wanted,
    tile: Rect,
    load: Load,
) -> Result<Option<Vec<P>>, NoMemory>
    requires wide { 1 ≤ tile.width }
    requires tall { 8 ≤ tile.height }
    requires inside { tile.y + tile.height < 2 ^ 32 }
    requires rectangle { IsRectangle wanted.rectangle wanted.offsets.now }
    requires few { length wanted.offsets.now < 2 ^ 16 }
    ensures { IfOk result (λ o. IfSome o (λ v. HasRanks P.level wanted.entry.k (seen_at window.now) wanted.entry.offsets.now tile v.items)) }
{
    let rows = wanted.rectangle.rows;
    if rows < 2 || rows > 1 << 15 || tile.x.checked_add(tile.width).is_none() {
        return Ok(None);
    }
    let block = block_of(tile, wanted.rectangle);
    let Some(limits) = limits_by_numbers::<P>(load, rows, block) else {
        return Ok(None);
    };
    let cut = Cut {
        width: block.width,
        height: block.height,
        limits,
    };
    let samples = rank_bands(alloc, window, wanted, tile, cut)?;
    Ok(Some(samples))
}
