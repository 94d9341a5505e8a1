//! Eight rows of results: the element slides along them, and each step takes back one column of samples and counts another.
ghost use Rattle.std.specs.Prelude.{◌≡◌, ℕ, ◌+◌, ◌-◌, ◌*◌, ◌<◌, ◌≤◌, length, slice_index_or, IsTrue, MatchOption};
ghost use Rattle.mw_model.specs.declared.limits.TheConstants.{FAR_LIMIT};
ghost use Rattle.mw_rank_rows.specs.Lanes.{CountsMore, CountersFit, CountsRise};
ghost use Rattle.mw_rank_rows.specs.Tables.{LanesHold, ShowsColumns, LiesAt, SomeSlide, SomeLowSlide, LanesMove, LanesFind, seen_over};

use crate::column::{Sheet, enter_column, leave_column};
use crate::lanes::Lanes;
use crate::search::select;
use crate::vectors::{at_most, minus, plus};
use mw_rank_counts::pixel::Pixel;
use mw_rank_counts::rank::sample_of;
use mw_rank_counts::run::place_of;
use std::simd::Simd;

/// How many columns' steps may be taken ahead, so that one far search stops nothing.
const COLUMNS_AHEAD: usize = 8;

/// A sheet of samples, and where an element sees its columns.
#[derive(Clone, Copy)]
pub(crate) struct Strip<'a, P: Pixel> {
    pub sheet: Sheet<'a, P>,
    /// The column of the frame at which the sheet begins.
    pub first: u32,
    /// The first column of the element.
    pub dx: i16,
}

/// The column of the sheet that the first column of the element, placed at column x of the frame, lies in.
#[inline(always)]
fn column_of<P: Pixel>(strip: Strip<P>, x: u64) -> Option<usize>
    requires { x ≤ FAR_LIMIT }
    ensures { MatchOption result ((at : ℕ) → at < strip.entry.sheet.width → LiesAt strip.entry x at → ⊥) (λ at. (at < strip.entry.sheet.width) × LiesAt strip.entry x at) }
{
    let column = place_of(x, strip.dx, strip.first);
    if column < 0 || column as usize >= strip.sheet.width {
        return None;
    }
    Some(column as usize)
}

/// Counts the column that the first column of the element sees at x.
#[inline(always)]
fn enter<P: Pixel>(
    counts: &mut [u16],
    lanes: &mut Lanes,
    strip: Strip<P>,
    all: Simd<u16, 8>,
    x: u64,
)
    requires near { x ≤ FAR_LIMIT }
    requires known { (levels : ℕ) × (column : ℕ → ℕ → ℕ → ℕ) × (u : ℕ → ℕ → ℕ) × ShowsColumns P.level P.TOP levels column strip all × LanesHold levels u counts.old lanes.old }
    ensures { (levels : ℕ) (column : ℕ → ℕ → ℕ → ℕ) (u w : ℕ → ℕ → ℕ) → ShowsColumns P.level P.TOP levels column strip.entry all → LanesHold levels u counts.old lanes.old → CountsMore (λ v j. column v x j) u w → CountersFit levels w → LanesHold levels w counts.new lanes.new }
{
    if let Some(at) = column_of(strip, x) {
        lanes.front.below = enter_column(counts, lanes.front, strip.sheet, at);
        lanes.held = plus(lanes.held, all);
    }
}

/// Takes back the column that the first column of the element sees at x.
#[inline(always)]
fn leave<P: Pixel>(
    counts: &mut [u16],
    lanes: &mut Lanes,
    strip: Strip<P>,
    all: Simd<u16, 8>,
    x: u64,
)
    requires near { x ≤ FAR_LIMIT }
    requires known { (levels : ℕ) × (column : ℕ → ℕ → ℕ → ℕ) × (u : ℕ → ℕ → ℕ) × ShowsColumns P.level P.TOP levels column strip all × LanesHold levels u counts.old lanes.old }
    ensures { (levels : ℕ) (column : ℕ → ℕ → ℕ → ℕ) (u w : ℕ → ℕ → ℕ) → ShowsColumns P.level P.TOP levels column strip.entry all → LanesHold levels u counts.old lanes.old → CountsMore (λ v j. column v x j) w u → CountsRise w → LanesHold levels w counts.new lanes.new }
{
    if let Some(at) = column_of(strip, x) {
        lanes.front.below = leave_column(counts, lanes.front, strip.sheet, at);
        lanes.held = minus(lanes.held, all);
    }
}

/// Counts all that the element sees at x.
fn enter_all<P: Pixel>(
    counts: &mut [u16],
    lanes: &mut Lanes,
    strip: Strip<P>,
    all: Simd<u16, 8>,
    x: u64,
    columns: u32,
)
    requires near { x + columns ≤ FAR_LIMIT }
    requires known { SomeSlide P.level P.TOP strip all columns (seen_over x 0) counts.old lanes.old }
    ensures { LanesMove P.level P.TOP strip.entry all columns (seen_over x 0) counts.old lanes.old (seen_over x columns) counts.new lanes.new }
{
    for c in 0..columns {
        enter(counts, lanes, strip, all, x + u64::from(c));
    }
}

/// Takes back all that the element sees at x.
fn leave_all<P: Pixel>(
    counts: &mut [u16],
    lanes: &mut Lanes,
    strip: Strip<P>,
    all: Simd<u16, 8>,
    x: u64,
    columns: u32,
)
    requires near { x + columns ≤ FAR_LIMIT }
    requires known { SomeSlide P.level P.TOP strip all columns (seen_over x columns) counts.old lanes.old }
    ensures { LanesMove P.level P.TOP strip.entry all columns (seen_over x columns) counts.old lanes.old (seen_over (x + columns) 0) counts.new lanes.new }
{
    for c in 0..columns {
        leave(counts, lanes, strip, all, x + u64::from(c));
    }
}

/// Writes a level for each of eight rows into a column; the first lane is the last row.
#[inline(always)]
fn put_column<P: Pixel>(made: &mut [P], width: usize, at: usize, levels: Simd<u16, 8>)
    requires whole { length made.old ≡ 8 * width }
    requires inside { at < width }
    requires lanes { length levels ≡ 8 }
    requires small { (j : ℕ) → j < 8 → slice_index_or levels j 0 ≤ P.top_level }
    ensures put { (r : ℕ) (e : P) → r < 8 → P.level (slice_index_or made.new (r * width + at) e) ≡ slice_index_or levels (7 - r) 0 }
    ensures others { (r q : ℕ) (e : P) → q < width → (q ≡ at → ⊥) → slice_index_or made.new (r * width + q) e ≡ slice_index_or made.old (r * width + q) e }
    ensures size { length made.new ≡ length made.old }
{
    let levels = levels.to_array();
    for r in 0..8usize {
        made[r * width + at] = sample_of(levels[7 - r]);
    }
}

/// A stretch of columns of the frame, the columns of the element, the number of the rank that is wanted, and how far the
/// searches may go.
#[derive(Clone, Copy)]
pub(crate) struct Span {
    pub x: u64,
    pub width: u32,
    pub columns: u32,
    pub k: u16,
    pub far: Far,
}

/// How far searches may go: for each column on average, and for each level that the front moves.
#[derive(Clone, Copy)]
pub(crate) struct Far {
    pub a_column: usize,
    pub a_move: usize,
}

/// How many steps may have been taken for so many columns, where the front has moved so far.
#[inline(always)]
fn most_steps(span: Span, done: u32, moves: usize) -> usize {
    let columns = done as usize + COLUMNS_AHEAD;
    let far = span.far;
    far.a_column
        .saturating_mul(columns)
        .saturating_add(moves.saturating_mul(far.a_move))
}

/// How far the front moved from one column to the next: to the first it comes from other rows.
#[inline(always)]
fn moves_within(done: u32, moves: usize) -> usize {
    if done == 0 { 0 } else { moves }
}

/// The ranks of eight rows, where the lanes hold what the element sees at the first column. It stops early if the searches
/// go too far, as the levels of the rows lie far from one another; gives how many columns are done.
fn slide<P: Pixel>(
    made: &mut [P],
    counts: &mut [u16],
    lanes: &mut Lanes,
    strip: Strip<P>,
    all: Simd<u16, 8>,
    span: Span,
) -> u32
    requires whole { length made.old ≡ 8 * span.width }
    requires some { 1 ≤ span.columns }
    requires near { span.x + span.width + span.columns ≤ FAR_LIMIT }
    requires known { SomeLowSlide P.level P.TOP P.top_level strip all span.columns (seen_over span.x span.columns) counts.old lanes.old }
    ensures within { result ≤ span.width }
    ensures moved { LanesMove P.level P.TOP strip.entry all span.columns (seen_over span.x span.columns) counts.old lanes.old (seen_over (span.x + result) span.columns) counts.new lanes.new }
    ensures found { LanesFind P.level P.TOP strip.entry all span (seen_over span.x span.columns) counts.old lanes.old result made.new }
    ensures size { length made.new ≡ length made.old }
{
    let mut steps = 0usize;
    let mut moves = 0usize;
    let mut done = 0u32;
    'by_column: while done < span.width && steps <= most_steps(span, done, moves) {
        let x = span.x + u64::from(done);
        let n = at_most(lanes.held, span.k);
        let found = select(counts, &mut lanes.front, n);
        put_column(made, span.width as usize, done as usize, found.levels);
        steps = steps.saturating_add(found.steps);
        moves = moves.saturating_add(moves_within(done, found.moves));
        leave(counts, lanes, strip, all, x);
        enter(counts, lanes, strip, all, x + u64::from(span.columns));
        done += 1;
    }
    done
}

/// The ranks of eight rows, by lanes that are empty before and after; says whether it has all of them.
pub(crate) fn rank_rows<P: Pixel>(
    made: &mut [P],
    counts: &mut [u16],
    lanes: &mut Lanes,
    strip: Strip<P>,
    all: Simd<u16, 8>,
    span: Span,
) -> bool
    requires whole { length made.old ≡ 8 * span.width }
    requires some { 1 ≤ span.columns }
    requires near { span.x + span.width + span.columns ≤ FAR_LIMIT }
    requires known { SomeLowSlide P.level P.TOP P.top_level strip all span.columns (λ seen v j. 0) counts.old lanes.old }
    ensures empty { LanesMove P.level P.TOP strip.entry all span.columns (λ seen v j. 0) counts.old lanes.old (λ seen v j. 0) counts.new lanes.new }
    ensures found { IsTrue result → LanesFind P.level P.TOP strip.entry all span (λ seen v j. 0) counts.old lanes.old span.width made.new }
    ensures size { length made.new ≡ length made.old }
{
    enter_all(counts, lanes, strip, all, span.x, span.columns);
    let done = slide(made, counts, lanes, strip, all, span);
    leave_all(
        counts,
        lanes,
        strip,
        all,
        span.x + u64::from(done),
        span.columns,
    );
    done == span.width
}
