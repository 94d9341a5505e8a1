//! Whether ranks are quicker by counting words than by levels of one byte. A wrong estimate costs time and no pixel, as both ways
//! give the same ranks.

use mw_model::Rect;

// Times in picoseconds. Only how they compare matters.

/// Words: a tile, whatever it is.
const TILE: u64 = 700_000;

/// Words: to lay out an offset, and a place from the element's first column and row to its last.
const LAID_OUT: u64 = 18_000;

const LOOKED_AT: u64 = 10_000;

/// Words: an offset at the first row of 128 columns.
const FIRST: u64 = 2_300;

/// Words: a row of 128 columns, an offset that enters or leaves there, a digit to which a sum is added, and a row of the element.
const STEP: u64 = 23_000;

const CHANGE: u64 = 1_900;

const DIGIT: u64 = 800;

const SEEN_ROW: u64 = 700;

/// Levels: a place of the window, and one of the tile.
const LEVEL: u64 = 900;

/// Levels: an offset at a place by counting, which takes fewer than 256 offsets, and at a row.
const COUNTED: u64 = 38;

const COUNTED_ROW: u64 = 3_500;

/// Levels: a place by a histogram that moves, and a run of the element.
const MOVED: u64 = 4_000;

const MOVED_RUN: u64 = 2_100;

/// Levels: a place by eight histograms that move over a rectangle, and a row of it.
const EIGHTH: u64 = 4_000;

const EIGHTH_ROW: u64 = 520;

/// In fewer rows words save little, and in fewer places for each offset less than a look at the offsets takes.
const LEAST_HEIGHT: u32 = 10;

const LEAST_PLACES: u64 = 4;

/// What the times depend on beside the tile.
#[derive(Clone, Copy)]
pub(crate) struct Load {
    /// The offsets of the element.
    pub offsets: u64,
    /// Its runs: offsets that stand beside one another in a row.
    pub runs: u64,
    /// The rows and columns from its first to its last.
    pub rows: u64,
    pub columns: u64,
    /// How many offsets enter and leave from row to row, and how many sums they are added up to.
    pub changes: u64,
    pub sums: u64,
    /// The digits of a counter.
    pub digits: u64,
}

/// The time of a tile by words.
fn words_time(load: Load, tile: Rect) -> u64 {
    let pairs = (u64::from(tile.width) + 127) / 128;
    let step = load
        .changes
        .saturating_mul(CHANGE)
        .saturating_add(load.sums.saturating_mul(load.digits).saturating_mul(DIGIT))
        .saturating_add(load.rows.saturating_mul(SEEN_ROW))
        .saturating_add(STEP);
    let first = load.offsets.saturating_mul(FIRST);
    let looked_at = load.rows.saturating_add(1).saturating_mul(load.columns);
    step.saturating_mul(u64::from(tile.height))
        .saturating_add(first)
        .saturating_mul(pairs)
        .saturating_add(load.offsets.saturating_mul(LAID_OUT))
        .saturating_add(looked_at.saturating_mul(LOOKED_AT))
        .saturating_add(TILE)
}

/// How much is left of a count where so many of all rows or columns are seen.
fn part_of(count: u64, seen: u64, all: u64) -> u64 {
    count.saturating_mul(seen.min(all)) / all.max(1)
}

/// Whether the element is a rectangle of several rows.
fn is_box(load: Load) -> bool {
    load.rows > 1
        && load.runs == load.rows
        && load.offsets == load.rows.saturating_mul(load.columns)
}

/// The time of a place by histograms that move, in a window of so many rows.
fn moved_time(load: Load, rows: u64) -> u64 {
    if is_box(load) {
        load.rows
            .min(rows)
            .saturating_mul(EIGHTH_ROW)
            .saturating_add(EIGHTH)
    } else {
        part_of(load.runs, rows, load.rows)
            .saturating_mul(MOVED_RUN)
            .saturating_add(MOVED)
    }
}

/// The time of a tile by levels of a window.
fn levels_time(load: Load, tile: Rect, window: Rect) -> u64 {
    let (wide, high) = (u64::from(window.width), u64::from(window.height));
    let places = u64::from(tile.width) * u64::from(tile.height);
    let moved = places.saturating_mul(moved_time(load, high));
    let seen = part_of(part_of(load.offsets, high, load.rows), wide, load.columns);
    let counted = u64::from(tile.height)
        .saturating_mul(COUNTED_ROW)
        .saturating_add(places.saturating_mul(COUNTED))
        .saturating_mul(seen);
    let quickest = if load.offsets < 256 {
        moved.min(counted)
    } else {
        moved
    };
    (wide * high)
        .saturating_add(places)
        .saturating_mul(LEVEL)
        .saturating_add(quickest)
}

/// Whether words are quicker, by more than the estimate is mostly wrong.
pub(crate) fn pays(load: Load, tile: Rect, window: Rect) -> bool {
    let words = words_time(load, tile);
    words.saturating_add(words / 5) < levels_time(load, tile, window)
}

/// Whether the tile is so low or small that words do not pay under so many offsets.
pub(crate) fn is_small(offsets: usize, tile: Rect) -> bool {
    let places = u64::from(tile.width) * u64::from(tile.height);
    tile.height < LEAST_HEIGHT || places / LEAST_PLACES < offsets as u64
}
