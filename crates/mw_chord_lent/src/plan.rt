//! How large blocks of results are, so that the lists of their chords stay in the processor's second cache.
ghost use Rattle.std.specs.Prelude.{◌<◌, ◌≤◌, ◌+◌, ◌*◌, ◌^◌, ◌-ℤ◌, ◌≤ℤ◌};
ghost use Rattle.mw_model.specs.Rectangles.{nonnegative};
ghost use Rattle.mw_chord_lent.specs.Works.{IsBlockPlan};

use crate::grow::BLOCKS;
use mw_offset::run::{Extent, columns_after, rows_after};
use mw_tile_lent::Rect;

/// How many vectors the lists of chords take.
const VECTORS: usize = 24576;

/// How many they take at most under an element so tall that blocks in those would have fewer rows than are laid out besides: in a tile
/// that may be a strip, so that these and the rows between two steps are not 3 MiB, and in a larger one, of which these are not 2 MiB.
const BESIDE: usize = 31744;

pub(crate) const ALONE: usize = 57000;

/// How many vectors of samples a strip has at most.
const STRIP: usize = 61440;

/// How many vectors of columns a block has, and under a tall element, of which more rows are seen at once.
const LANES: usize = 32;

const FEW_LANES: usize = 16;

/// Under a very tall one it has fewer pairs of vectors of columns than so many.
const PAIRS: usize = 9;

/// From how many rows below its first on an element is tall.
const TALL: usize = 24;

/// A block has so many columns and rows of results, which are made of rows of `wide` cells. Each list has `span` places for them,
/// in so many chunks and what chords look ahead.
#[derive(Clone, Copy)]
pub(crate) struct Plan {
    pub width: usize,
    pub high: usize,
    pub wide: usize,
    pub chunks: usize,
    pub span: usize,
}

/// How many a part has where all are parted evenly into as few parts of at most so many as can be.
fn part(all: usize, most: usize) -> usize
    requires some { 0 < all }
    requires most { 0 < most }
    ensures some { 0 < result }
    ensures all { result ≤ all }
    ensures most { result ≤ most }
{
    let parts = all.div_ceil(most);
    all.div_ceil(parts).max(1).min(most).min(all)
}

/// How many columns a block has, of so many at most.
fn columns_of(width: usize, most: usize, lanes: usize) -> usize
    requires lanes { lanes ≤ 32 }
    requires across { 2 * lanes ≤ width }
    ensures lanes { 2 * lanes ≤ result }
    ensures across { result ≤ width }
    ensures narrow { result ≤ 2 ^ 12 }
{
    most.min(4096).min(width).max(2 * lanes)
}

/// How many rows a block has at most, whatever the element.
const ROWS: usize = 900000;

/// How many rows a block has, of so many at most.
fn rows_of(height: usize, most: usize) -> usize
    requires some { 0 < height }
    ensures some { 0 < result }
    ensures down { result ≤ height }
    ensures low { result ≤ 1000000 }
{
    part(height, most.max(1).min(ROWS))
}

/// How many columns and rows of results a block has at most. Any are right.
#[derive(Clone, Copy)]
struct Block {
    width: usize,
    high: usize,
}

/// How many more columns and rows are laid out for a block than it has.
#[derive(Clone, Copy)]
struct Beyond {
    across: usize,
    down: usize,
}

/// How many rows a block of so many columns has, where each list has so many cells.
fn rows_among(cells: usize, width: usize, beyond: Beyond) -> usize {
    let wide = width.saturating_add(beyond.across).max(1);
    (cells / wide).saturating_sub(beyond.down)
}

/// How many of 4,096 samples that are laid out for a block are results.
fn share_of(block: Block, beyond: Beyond) -> usize {
    let wide = block.width.saturating_add(beyond.across);
    let high = block.high.saturating_add(beyond.down);
    let made = block.width.saturating_mul(block.high);
    made.saturating_mul(4096) / wide.saturating_mul(high).max(1)
}

/// How many columns each block adds on average, where the last one of a row begins early.
fn columns_each(width: usize, block: usize) -> usize {
    width / width.div_ceil(block.max(1)).max(1)
}

/// The block of which most is results, where each list has so many cells. It has whole pairs of vectors: where rows of results are
/// pairs apart as well, none of them is written in two lines of the cache.
fn tall_block(tile: Rect, cells: usize, beyond: Beyond, lanes: usize) -> Block {
    let mut best = Block { width: 0, high: 0 };
    let mut most = 0usize;
    for pairs in 1..PAIRS {
        let width = lanes.saturating_mul(2).saturating_mul(pairs);
        let high = rows_among(cells, width, beyond).min(tile.height as usize);
        let block = Block { width, high };
        let each = columns_each(tile.width as usize, width);
        let share = share_of(block, beyond).saturating_mul(each) / width.max(1);
        if share > most {
            best = block;
            most = share;
        }
    }
    best
}

/// The block that lists of so many cells have room for.
fn usual_block(width: usize, cells: usize, beyond: Beyond, lanes: usize) -> Block
    requires some { 0 < lanes }
    requires lanes { lanes ≤ 32 }
    requires across { 2 * lanes ≤ width }
{
    let vectors = if beyond.down < TALL { LANES } else { FEW_LANES };
    let most = vectors
        .saturating_mul(lanes)
        .max(beyond.across.saturating_mul(2));
    let width = part(width, most.max(1)).max(2 * lanes);
    let high = rows_among(cells, width, beyond);
    Block { width, high }
}

/// How many cells each of so many lists has, where all take so many vectors.
fn cells_of(vectors: usize, lists: usize, lanes: usize) -> usize
    requires some { 0 < lists }
{
    vectors.saturating_mul(lanes) / lists
}

/// How many of them are left for results, where some are laid out behind each list.
fn cells_within(vectors: usize, lists: usize, longest: usize, lanes: usize) -> usize
    requires some { 0 < lists }
{
    let behind = lanes.saturating_mul(4 * BLOCKS).saturating_add(longest);
    cells_of(vectors, lists, lanes).saturating_sub(behind)
}

/// How many rows a block has at least in the usual lists.
const FEWEST: usize = 16;

/// A block of more cells than a strip leaves room for is taken where its share of results is over so many times as large.
const SHARES: usize = 4;

/// Whether a tile has more samples than a strip.
fn is_large(tile: Rect, lanes: usize) -> bool {
    let count = (tile.width as usize).saturating_mul(tile.height as usize);
    count > lanes.saturating_mul(STRIP)
}

/// How many columns and rows a block of a tile has at most, which is made by so many lists.
fn block_of(tile: Rect, lists: usize, longest: usize, beyond: Beyond, lanes: usize) -> Block
    requires some { 0 < lanes }
    requires lanes { lanes ≤ 32 }
    requires lists { 0 < lists }
    requires across { 2 * lanes ≤ tile.width }
{
    let usual = usual_block(
        tile.width as usize,
        cells_of(VECTORS, lists, lanes),
        beyond,
        lanes,
    );
    if usual.high >= beyond.down.max(FEWEST) {
        return usual;
    }
    let few = cells_within(BESIDE, lists, longest, lanes);
    let more = cells_within(ALONE, lists, longest, lanes);
    let block = tall_block(tile, few, beyond, lanes);
    let larger = tall_block(tile, more, beyond, lanes);
    let share = share_of(block, beyond).saturating_mul(SHARES);
    if !is_large(tile, lanes) && share >= share_of(larger, beyond) {
        return block;
    }
    larger
}

/// Whether lists are so many that with fewer, of which more chords are merged, blocks are so much larger that this is sooner. Any answer
/// is right.
pub(crate) fn are_many(lists: usize, extent: Extent, lanes: usize) -> bool
    requires left { extent.left ≤ℤ extent.right }
    requires top { extent.top ≤ℤ extent.bottom }
{
    let beside = columns_after(extent).saturating_mul(rows_after(extent));
    let room = BESIDE.saturating_mul(lanes);
    lists.saturating_mul(beside).saturating_mul(6) > room
}

/// How many chunks so many cells take.
fn chunks_of(cells: usize, chunk: usize) -> usize
    requires { 0 < chunk }
    ensures room { cells ≤ result * chunk }
    ensures close { result * chunk < cells + chunk }
{
    cells.div_ceil(chunk)
}

/// How blocks of a tile are made by so many lists.
pub(crate) fn plan_of(
    tile: Rect,
    extent: Extent,
    lists: usize,
    longest: usize,
    lanes: usize,
) -> Plan
    requires some { 0 < lanes }
    requires lanes { lanes ≤ 32 }
    requires lists { 0 < lists }
    requires short { longest ≤ 256 }
    requires across { 2 * lanes ≤ tile.width }
    requires down { 0 < tile.height }
    requires left { extent.left ≤ℤ extent.right }
    requires top { extent.top ≤ℤ extent.bottom }
    requires near { nonnegative (extent.right -ℤ extent.left) ≤ 255 }
    requires few { nonnegative (extent.bottom -ℤ extent.top) ≤ 255 }
    ensures { IsBlockPlan lanes tile extent longest result }
{
    let across = columns_after(extent);
    let down = rows_after(extent);
    let beyond = Beyond { across, down };
    let block = block_of(tile, lists, longest, beyond, lanes);
    let width = columns_of(tile.width as usize, block.width, lanes);
    let wide = width + across;
    let high = rows_of(tile.height as usize, block.high);
    let chunk = BLOCKS * 2 * lanes;
    let chunks = chunks_of((high + down) * wide, chunk);
    Plan {
        width,
        high,
        wide,
        chunks,
        span: chunks * chunk + chunk + longest,
    }
}
