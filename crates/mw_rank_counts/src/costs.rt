//! The quickest of four ways to a rank: counting, the moving histogram of `mw_rank`, and eight rows at a time as
//! `mw_rank_rows` does, over levels or over their numbers. What each takes is estimated from the element and a look at the
//! samples. A wrong estimate costs time and no sample, as all ways give the same ranks.
ghost use Rattle.std.specs.Prelude.{ℕ, ◌≤◌, ◌^◌};
ghost use Rattle.mw_rank_counts.specs.Counting.{AllUnder};

use crate::Counted;
use crate::search::{Extent, bits_in, bits_of, extent_of};
use mw_model::Offset;
use mw_rank::pixel::Pixel;
use mw_rank::tile::Window;

// The times of a sample, in picoseconds. Only how they compare matters.

/// Counting: to find an offset's place for a row of a tile.
const COUNTED_PLACE: u64 = 30;

/// Counting: a byte at an offset, for each bit.
const COUNTED_BYTE: u64 = 34;

/// Counting: a sample of 16 bits at an offset, for each bit.
const COUNTED_WORD: u64 = 45;

/// Counting: how many bits more it takes to find the lowest level and to make two bytes of 16 bits.
const BITS_TO_SPLIT: u64 = 5;

/// The moving histogram: whatever the element.
const MOVED: u64 = 7_000;

/// The moving histogram: what enters and leaves at the ends of a run.
const MOVED_RUN: u64 = 2_100;

/// The moving histogram: a level that its own level moves over.
const MOVED_LEVEL: u64 = 200;

/// The moving histogram: how much more each of the first such levels takes, and how many these are.
const FIRST_LEVEL: u64 = 1_000;

const FIRST_LEVELS: u64 = 24;

/// Eight rows at a time: whatever the element.
const EIGHTH: u64 = 3_500;

/// Eight rows at a time: a sample of a row that any of them sees enters and leaves.
const EIGHTH_ROW: u64 = 370;

/// Eight rows at a time: a level between those of the rows.
const EIGHTH_LEVEL: u64 = 160;

/// How many rows eight rows see beside those that one sees.
const ROWS_BESIDE: u64 = 7;

/// Numbers: to number a sample, and for each block of results to count a set of levels and to make room.
const NUMBERED: u64 = 3_200;

const NUMBERED_BLOCK: u64 = 1_200_000;

/// Numbers: whatever the element.
const NUMBERED_RESULT: u64 = 20_000;

/// Numbers: a sample of a row that any of eight rows sees enters and leaves.
const NUMBERED_ROW: u64 = 200;

/// Numbers: a number that a search goes over where it goes as far as it may.
const NUMBER_SEARCHED: u64 = 220;

/// Numbers: so many samples of a block are the most, for then its counters still lie near the processor.
const MOST_NUMBERED: u64 = 1 << 14;

/// Numbers: by which part of its own time the way has to be quicker than all others.
const NUMBERED_MARGIN: u64 = 8;

/// A look at how far levels lie apart goes over so many samples of a row, and of the row below.
const LOOKED_AT: usize = 32;

/// And over so many of the last row that the element reaches from there, as a block of columns sees more than one row.
const LOOKED_AT_LAST: usize = 64;

/// From so many samples one look is taken.
const SAMPLES_A_LOOK: usize = 1000;

/// Levels of more bits are numbered, where that is quicker.
const LEVELS_BITS: u32 = 12;

/// A block of results for which levels are numbered at once.
#[derive(Clone, Copy)]
pub struct Block {
    pub width: u32,
    pub height: u32,
}

/// The ways to a rank.
#[derive(Clone, Copy)]
pub enum Way {
    Counting,
    Histogram,
    EightRows,
}

/// What the time for ranks depends on.
#[derive(Clone, Copy)]
pub struct Load {
    /// The offsets of the element.
    pub offsets: u64,
    /// Its runs: offsets that stand beside one another in a row.
    pub runs: u64,
    /// The bits of the levels.
    pub bits: u32,
    /// By how many bits levels that are near one another in a row lie apart, on average; single ones that stand out are left
    /// out.
    pub beside: u32,
    /// By how many bits levels of all rows that the element sees lie apart, on average.
    pub apart: u32,
    /// How many levels lie between those of a row and those of the row below, on average.
    pub between: u32,
    /// By how many bits levels lie apart that the element sees from one place, on average; looked at for more than 12 bits alone.
    pub under: u32,
}

/// By how many bits levels lie apart: beside one another, in more rows than one, and under an element. And how many levels lie
/// between those of two rows.
#[derive(Clone, Copy)]
struct Apart {
    beside: u32,
    apart: u32,
    between: u32,
    under: u32,
}

/// How many runs the offsets are: each that does not continue the one before it begins one.
fn count_of_runs(offsets: &[Offset]) -> u64 {
    let mut runs = 0u64;
    let mut row = 0i32;
    let mut next = i32::MIN;
    for offset in offsets {
        let column = i32::from(offset.dx);
        if i32::from(offset.dy) != row || column != next {
            runs = runs.saturating_add(1);
        }
        row = i32::from(offset.dy);
        next = column + 1;
    }
    runs
}

/// From the first row of the offsets to the last.
fn reach_of(offsets: &[Offset]) -> usize {
    let mut top = i16::MAX;
    let mut bottom = i16::MIN;
    for offset in offsets {
        top = top.min(offset.dy);
        bottom = bottom.max(offset.dy);
    }
    (i32::from(bottom) - i32::from(top)).max(0) as usize
}

/// The extent of so many samples from that place on, or of those that are left.
fn extent_at<P: Pixel>(samples: &[P], place: usize, count: usize) -> Extent {
    let from = place.min(samples.len());
    let rest = &samples[from..];
    extent_of(&rest[..rest.len().min(count)])
}

/// The bits of the distance from one level to another that is not below it.
fn bits_between<P: Counted>(least: u16, most: u16) -> u32 {
    bits_of::<P>(most.saturating_sub(least).min(P::TOP.value()))
}

/// The average, to the nearest whole number.
fn average(sum: u32, count: u32) -> u32 {
    sum.saturating_add(count / 2) / count.max(1)
}

/// How many levels lie between those of two rows, where no level of one is among those of the other.
fn levels_between(here: Extent, below: Extent) -> u32 {
    let rise = below.least.saturating_sub(here.most);
    let fall = here.least.saturating_sub(below.most);
    u32::from(rise.max(fall))
}

/// How many samples there are from a place to the one below it, and to that of the last row that the element reaches, and how many
/// columns of it are looked at.
#[derive(Clone, Copy)]
struct Down {
    row: usize,
    reach: usize,
    columns: usize,
}

/// By how many bits levels lie apart that the element sees from a place, in its first two rows and its last.
fn bits_under<P: Counted>(samples: &[P], place: usize, down: Down) -> u32 {
    let here = extent_at(samples, place, down.columns);
    let below = extent_at(samples, place.saturating_add(down.row), down.columns);
    let last = extent_at(samples, place.saturating_add(down.reach), down.columns);
    let least = here.least.min(below.least).min(last.least);
    let most = here.most.max(below.most).max(last.most);
    bits_between::<P>(least, most)
}

/// How far levels lie apart in one row, in it and the one below, and in rows so many places from one another. For one row it
/// is the lesser of two looks, which leaves out single samples that stand out.
fn apart_at<P: Counted>(samples: &[P], place: usize, down: Down) -> Apart {
    let here = extent_at(samples, place, LOOKED_AT);
    let below = extent_at(samples, place.saturating_add(down.row), LOOKED_AT);
    let last = extent_at(samples, place.saturating_add(down.reach), LOOKED_AT_LAST);
    let one = bits_between::<P>(here.least, here.most);
    let other = bits_between::<P>(last.least, last.most);
    let least = here.least.min(below.least).min(last.least);
    let most = here.most.max(below.most).max(last.most);
    Apart {
        beside: one.min(other),
        apart: bits_between::<P>(least, most),
        between: levels_between(here, below),
        under: bits_under(samples, place, down),
    }
}

/// How far levels lie apart, on average.
fn mostly_apart<P: Counted>(samples: &[P], down: Down) -> Apart {
    let mut beside = 0u32;
    let mut apart = 0u32;
    let mut between = 0u32;
    let mut under = 0u32;
    let mut count = 0u32;
    let mut place = 0usize;
    'looks: while place.saturating_add(down.reach) < samples.len() {
        let here = apart_at(samples, place, down);
        beside = beside.saturating_add(here.beside);
        apart = apart.saturating_add(here.apart);
        between = between.saturating_add(here.between);
        under = under.saturating_add(here.under);
        count = count.saturating_add(1);
        place = place.saturating_add(SAMPLES_A_LOOK);
    }
    Apart {
        beside: average(beside, count),
        apart: average(apart, count),
        between: average(between, count),
        under: average(under, count),
    }
}

/// How many columns of an element are looked at: as many as a run has on average, where levels may be numbered.
fn columns_looked_at(offsets: u64, runs: u64, bits: u32) -> usize {
    if bits <= LEVELS_BITS {
        return 0;
    }
    (offsets / runs.max(1)).min(LOOKED_AT as u64) as usize
}

/// What the time for ranks of a window under the offsets depends on.
pub fn load_of<P: Counted>(window: &Window<P>, offsets: &[Offset]) -> Load
    ensures within { result.bits ≤ P.BITS }
    ensures small { AllUnder P.level P.TOP window.now.cells (2 ^ result.bits) }
{
    let samples = window.samples();
    let row = window.place().width as usize;
    let reach = reach_of(offsets).saturating_mul(row).min(samples.len() / 2);
    let runs = count_of_runs(offsets);
    let bits = bits_in(samples);
    let down = Down {
        row: row.min(reach),
        reach,
        columns: columns_looked_at(offsets.len() as u64, runs, bits),
    };
    let lie = mostly_apart(samples, down);
    Load {
        offsets: offsets.len() as u64,
        runs,
        bits,
        beside: lie.beside,
        apart: lie.apart,
        between: lie.between,
        under: lie.under,
    }
}

/// Whether levels near one another are so close that a look at how close they are saves more than it takes, which is the
/// time of a bit.
pub(crate) fn are_close(load: Load) -> bool {
    load.bits > load.beside.saturating_add(1)
}

/// The time of a sample by counting, which takes fewer than 256 offsets.
fn counting_time<P: Counted>(load: Load) -> u64 {
    if load.offsets >= 256 {
        return u64::MAX;
    }
    let apart = u64::from(load.apart.min(load.bits));
    let one = if P::BITS > 8 {
        COUNTED_WORD * (apart + BITS_TO_SPLIT)
    } else if are_close(load) {
        COUNTED_BYTE * (apart + 1)
    } else {
        COUNTED_BYTE * u64::from(load.bits)
    };
    load.offsets.saturating_mul(COUNTED_PLACE + one)
}

/// Four times as many levels as lie beside one another: between the least and the greatest number of so many bits.
fn levels_beside(load: Load) -> u64 {
    3u64 << load.beside.min(16)
}

/// How many levels a rank moves by, of a fourth of so many, where so many of the samples under the element are exchanged: as
/// chance moves it, by the square root of their number, where the levels are spread over all samples. The root is that of
/// 256 times the number, for its fraction.
fn moved_among(levels: u64, offsets: u64, exchanged: u64) -> u64 {
    let root = exchanged.saturating_mul(256).isqrt();
    levels.saturating_mul(root) / offsets.saturating_mul(64).max(1)
}

/// How many levels a rank moves by where so many of the samples under the element are exchanged.
fn levels_moved(load: Load, exchanged: u64) -> u64 {
    moved_among(levels_beside(load), load.offsets, exchanged)
}

/// The time of a sample by the moving histogram, whose level stands still.
fn standing_time(load: Load) -> u64 {
    load.runs.saturating_mul(MOVED_RUN).saturating_add(MOVED)
}

/// The time of a sample by the moving histogram.
fn histogram_time(load: Load) -> u64 {
    let levels = levels_moved(load, load.runs);
    let first = levels.min(FIRST_LEVELS) * FIRST_LEVEL;
    let walk = levels.saturating_mul(MOVED_LEVEL).saturating_add(first);
    standing_time(load).saturating_add(walk)
}

/// By how many levels the level of the moving histogram moves in that time.
fn levels_within(time: u64) -> u64 {
    let first = (time / (MOVED_LEVEL + FIRST_LEVEL)).min(FIRST_LEVELS);
    let rest = time.saturating_sub(FIRST_LEVELS * (MOVED_LEVEL + FIRST_LEVEL));
    first + rest / MOVED_LEVEL
}

/// The time of a sample, eight rows at a time, under a rectangle of so many rows. The levels of the rows lie apart by chance, and
/// as far as each row lies from the next.
fn eight_rows_time(load: Load, rows: u32) -> u64 {
    let columns = load.offsets / u64::from(rows.max(1));
    let between = u64::from(load.between) * ROWS_BESIDE;
    let levels = levels_moved(load, columns.saturating_mul(ROWS_BESIDE)).saturating_add(between);
    let seen = (u64::from(rows) + ROWS_BESIDE) * EIGHTH_ROW;
    levels
        .saturating_mul(EIGHTH_LEVEL)
        .saturating_add(seen + EIGHTH)
}

/// The quickest way. Eight rows at a time are one where the element is a rectangle, of which the rows are given.
pub fn quickest<P: Counted>(load: Load, rows: Option<u32>) -> Way {
    let counting = counting_time::<P>(load);
    let histogram = histogram_time(load);
    let eight_rows = match rows {
        None => u64::MAX,
        Some(rows) => eight_rows_time(load, rows),
    };
    if eight_rows < counting.min(histogram) {
        Way::EightRows
    } else if counting < histogram {
        Way::Counting
    } else {
        Way::Histogram
    }
}

/// How many samples results of so many columns and rows see, under a rectangle of so many.
fn samples_seen(block: Block, columns: u64, rows: u64) -> u64 {
    let across = columns.saturating_add(u64::from(block.width));
    let down = rows.saturating_add(u64::from(block.height));
    across.saturating_mul(down)
}

/// The time of a sample by numbers under a rectangle of so many columns and rows, save that of searches.
fn numbering_time(block: Block, columns: u64, rows: u64) -> u64 {
    let width = u64::from(block.width).max(1);
    let results = width.saturating_mul(u64::from(block.height).max(1));
    let numbers = samples_seen(block, columns, rows).saturating_mul(NUMBERED);
    let each = numbers.saturating_add(NUMBERED_BLOCK) / results;
    // a block begins with half of its element's columns more
    let down = rows.saturating_add(ROWS_BESIDE);
    let entered = columns.saturating_add(2 * width).saturating_mul(down);
    let seen = entered.saturating_mul(NUMBERED_ROW) / (2 * width);
    each.saturating_add(seen).saturating_add(NUMBERED_RESULT)
}

/// How many numbers a search goes over. Where no level of a row is among those of the next, the levels of each row have numbers
/// of their own.
fn numbers_moved(load: Load, block: Block, columns: u64, rows: u64) -> u64 {
    let beside = levels_beside(load);
    let among = beside.min(samples_seen(block, columns, rows).saturating_mul(4));
    let chance = moved_among(among, load.offsets, columns.saturating_mul(ROWS_BESIDE));
    if load.between == 0 {
        return chance;
    }
    let row = columns
        .saturating_add(u64::from(block.width))
        .min(beside / 4);
    chance.saturating_add(row.saturating_mul(ROWS_BESIDE))
}

/// What searches over numbers may take before another way were quicker.
#[derive(Clone, Copy)]
pub struct Limits {
    /// How many numbers they go over on average, at most.
    pub far: usize,
    /// By how many levels the ranks of places beside one another lie apart on average, at least: a moving histogram goes that far.
    pub least: u64,
}

/// The time of a sample by numbers, and how much of it searches do not take.
#[derive(Clone, Copy)]
struct Numbering {
    time: u64,
    unsearched: u64,
}

/// What a sample takes by numbers under a rectangle of so many columns and rows.
fn by_numbers(load: Load, block: Block, columns: u64, rows: u64) -> Numbering {
    let unsearched = numbering_time(block, columns, rows);
    let moved = numbers_moved(load, block, columns, rows);
    let search = moved.saturating_mul(EIGHTH_LEVEL);
    Numbering {
        time: unsearched.saturating_add(search),
        unsearched,
    }
}

/// A time, and the part more by which another has to be longer.
fn with_margin(time: u64) -> u64 {
    time.saturating_add(time / NUMBERED_MARGIN)
}

/// The time of a sample of 16 bits by counting, where levels under the element are close: a pass over the offsets for each bit by
/// which they lie apart, one to find the lowest, and for more than three bits what it takes to make bytes.
fn counting_closely(load: Load) -> u64 {
    let bits = u64::from(load.under.min(16));
    let passes = if bits > 3 { bits + 2 } else { bits + 1 };
    load.offsets
        .saturating_mul(COUNTED_PLACE + COUNTED_WORD * passes)
}

/// Whether levels of more than 12 bits are ranked the quickest by numbers, eight rows at a time, under a rectangle of so many
/// rows: if so, until when.
pub fn limits_by_numbers<P: Counted>(load: Load, rows: u32, block: Block) -> Option<Limits> {
    let rows = u64::from(rows.max(1));
    let columns = load.offsets / rows;
    if load.bits <= LEVELS_BITS || samples_seen(block, columns, rows) > MOST_NUMBERED {
        return None;
    }
    let numbering = by_numbers(load, block, columns, rows);
    let sure = with_margin(numbering.unsearched);
    let counting = counting_time::<P>(load);
    let histogram = histogram_time(load);
    // what `quickest` takes for the other way
    let (others, least) = if counting < histogram {
        (counting.min(counting_closely(load)), 0)
    } else {
        let walk = sure.saturating_sub(standing_time(load));
        (histogram, levels_within(walk))
    };
    if with_margin(numbering.time) >= others {
        return None;
    }
    let most = others.saturating_sub(others / NUMBERED_MARGIN);
    let far = most.saturating_sub(numbering.unsearched) / NUMBER_SEARCHED;
    Some(Limits {
        far: far as usize,
        least,
    })
}
