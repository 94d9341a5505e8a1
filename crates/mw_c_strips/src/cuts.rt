//! How frames are cut into strips.

ghost use Rattle.std.specs.Prelude.{◌≡◌, ◌+◌, ◌<◌, ◌≤◌};
ghost use Rattle.mw_model.specs.Pictures.{Picture};
ghost use Rattle.mw_c_layers.specs.Parts.{IsStrip};

use mw_c_arrays::ArrayImage;
use mw_c_layers::{Formula, Layer, Origin, origin_of};
use mw_c_lent::Rule;
use mw_element::Element;
use mw_model::{OffsetBox, Rect};
use std::alloc::Global;
use std::sync::Arc;

/// About so many bytes have the samples of a strip, so that what is read for it and made of it stay in the cache.
const STRIP: u32 = 262144;

/// About so many bytes may all lists of a strip have.
const MEMORY: u32 = 1966080;

/// About so many bytes may all lists of a strip have that goes by two rules.
const BOTH: u32 = 3080192;

/// How many bytes a row has.
fn row_size(f: Origin<'_>) -> u32
    ensures { 1 ≤ result }
{
    let width = f.width();
    match f {
        Origin::Array(ArrayImage::Grey8(_)) => width.max(1),
        Origin::Array(ArrayImage::Grey16(_)) => width.saturating_mul(2).max(1),
        // a bit a pixel; kernels of sets have twice as many lists
        Origin::Array(ArrayImage::Pixels(_)) => width / 4 + 1,
        Origin::Made(_) => width / 4 + 1,
    }
}

/// How many rows above and below a place an element looks at.
fn reach_of(element: &Arc<Element>) -> u32 {
    let reach = element.reach();
    reach.up.saturating_add(reach.down)
}

/// How many rows above and below a place a box looks at.
fn reach_of_box(offsets: OffsetBox) -> u32 {
    let up = offsets.y0.min(0).unsigned_abs();
    let down = offsets.y1.max(0).unsigned_abs();
    up.saturating_add(down)
}

/// How many rows a strip has that looks at so many more. Since each strip reads anew what is looked at in those beside it, it has four
/// times as many rows as that where memory allows: kernels have so many lists of them.
fn rows_by(more: u32, lists: u32, row_size: u32) -> u32
    requires lists { 1 ≤ lists }
    requires size { 1 ≤ row_size }
    ensures { 16 ≤ result }
{
    let own = (MEMORY / row_size).saturating_sub(more.saturating_mul(2));
    let room = own / lists;
    let wanted = (STRIP / row_size).max(more.saturating_mul(4));
    wanted.min(room).max(16)
}

/// How many rows a strip has of ranks under the element: kernels have two lists of a square, and three of any other element.
fn rows_of_rank(element: &Arc<Element>, row_size: u32) -> u32
    requires { 1 ≤ row_size }
    ensures { 16 ≤ result }
{
    match element.as_rectangle() {
        Some(_) => rows_by(reach_of(element), 2, row_size),
        None => rows_by(reach_of(element), 3, row_size),
    }
}

/// How many rows a strip has that goes by the rule.
fn rows_of_rule(rule: Rule<'_>, row_size: u32) -> u32
    requires { 1 ≤ row_size }
    ensures { 16 ≤ result }
{
    match rule {
        Rule::Least(element) => rows_by(reach_of(element), 3, row_size),
        Rule::Greatest(element) => rows_by(reach_of(element), 3, row_size),
        Rule::LeastBox(offsets) => rows_by(reach_of_box(offsets), 2, row_size),
        Rule::GreatestBox(offsets) => rows_by(reach_of_box(offsets), 2, row_size),
        Rule::Nth(element, _) => rows_of_rank(element, row_size),
        Rule::AtLeast(_) => (STRIP / row_size).max(16),
    }
}

/// How many rows above and below a place a rule looks at.
fn rows_beyond(rule: Rule<'_>) -> u32 {
    match rule {
        Rule::Least(element) => reach_of(element),
        Rule::Greatest(element) => reach_of(element),
        Rule::LeastBox(offsets) => reach_of_box(offsets),
        Rule::GreatestBox(offsets) => reach_of_box(offsets),
        Rule::Nth(element, _) => reach_of(element),
        Rule::AtLeast(_) => 0,
    }
}

/// How many rows the lists of a strip that goes by two rules have beside its own: those that both steps look at beyond them, and
/// those that a kernel lays out.
fn rows_beside(second: Rule<'_>, first: Rule<'_>, row_size: u32) -> u32
    requires { 1 ≤ row_size }
{
    let (again, around) = (rows_beyond(second), rows_beyond(first));
    let laid = (STRIP / row_size).max(32).max(around);
    again
        .saturating_add(around)
        .saturating_add(laid)
        .saturating_mul(2)
}

/// How many rows a strip has that goes by two rules, with two lists of them at first, and then up to three without what is beside.
/// The first step makes again what the second looks at beyond them, so they are sixteen times as many as that where memory allows,
/// and three times in any case.
fn rows_of_steps(second: Rule<'_>, first: Rule<'_>, row_size: u32) -> u32
    requires { 1 ≤ row_size }
    ensures { 16 ≤ result }
{
    let again = rows_beyond(second);
    let most = BOTH / row_size;
    let room = most.saturating_sub(rows_beside(second, first, row_size)) / 2;
    let wanted = (STRIP / row_size).max(again.saturating_mul(16));
    let rows = wanted.min(room).min(most / 3);
    rows.max(again.saturating_mul(3)).max(16)
}

/// Planes of so many bytes stay near the processor, and are made sooner than strips that overlap.
const SMALL_PLANE: u32 = 2097152;

/// Frames of so many columns and rows are made by strips, however small a plane is, under elements that look so many rows beyond a
/// place at most. Kernels of rows that stand are tried before: what comes here is what they refuse.
const COLUMNS: u32 = 128;

const ROWS: u32 = 64;

const BEYOND: u32 = 128;

/// Whether a rule is an extremum under an element.
fn is_under(rule: Rule<'_>) -> bool {
    match rule {
        Rule::Least(_) => true,
        Rule::Greatest(_) => true,
        Rule::LeastBox(_) => false,
        Rule::GreatestBox(_) => false,
        Rule::Nth(_, _) => false,
        Rule::AtLeast(_) => false,
    }
}

/// Whether two steps are extrema under elements, the second one of few rows, of a large frame.
fn are_low_extrema(second: Rule<'_>, first: Rule<'_>, f: ArrayImage<'_>) -> bool {
    let is_large = f.width() >= COLUMNS && f.height() >= ROWS;
    let is_low = rows_beyond(second) <= BEYOND;
    is_large && is_low && is_under(first) && is_under(second)
}

/// Whether two steps are made by strips: where these have few rows to make again, or a plane between the two is large, and takes more
/// memory.
pub(crate) fn are_by_strips(second: Rule<'_>, first: Rule<'_>, f: ArrayImage<'_>) -> bool {
    if are_low_extrema(second, first, f) {
        return true;
    }
    let row_size = row_size(Origin::Array(f));
    let rows = rows_of_steps(second, first, row_size);
    let made = rows
        .saturating_mul(2)
        .saturating_add(rows_beside(second, first, row_size));
    let all = made.max(rows.saturating_mul(3));
    f.height() > SMALL_PLANE / row_size && all <= (BOTH / row_size).max(f.height())
}

/// How many rows a strip of a layer has.
pub(crate) fn rows_of_layer(layer: Layer<'_>) -> u32
    ensures { 16 ≤ result }
{
    let row_size = row_size(origin_of(layer));
    match layer {
        Layer::Itself(_) => (STRIP / row_size).max(16),
        Layer::By(rule, _) => rows_of_rule(rule, row_size),
        Layer::Twice(second, first, _) => rows_of_steps(second, first, row_size),
    }
}

/// How many rows a strip of two layers has: those of one that goes by two rules, if there is one.
fn rows_of_both(first: Layer<'_>, second: Layer<'_>) -> u32
    ensures { 16 ≤ result }
{
    match (first, second) {
        (Layer::Twice(_, _, _), _) => rows_of_layer(first),
        (_, Layer::Twice(_, _, _)) => rows_of_layer(second),
        (_, _) => rows_of_layer(first).min(rows_of_layer(second)),
    }
}

/// How many rows a strip has.
pub(crate) fn rows_of(formula: Formula<'_>) -> u32
    ensures { 16 ≤ result }
{
    match formula {
        Formula::One(layer) => rows_of_layer(layer),
        Formula::Less(first, second) => rows_of_both(first, second),
    }
}

/// The strip of so many rows, or as many as there are before `end`, from row y on.
pub(crate) fn strip_from(rows: u32, width: u32, end: u32, y: u32) -> Rect
    requires some { 1 ≤ rows }
    requires within { y < end }
    ensures place { result.y ≡ y }
    ensures before { result.y + result.height ≤ end }
    ensures strip { (f : Picture) → width ≡ f.width → end ≤ f.height → IsStrip result f }
{
    Rect {
        x: 0,
        y,
        width,
        height: rows.min(end - y),
    }
}

/// Asks for as much memory as a strip may take, and gives it back at once, where there are several strips of so many rows. An
/// allocator that learns by what is freed, as that of the GNU C library does, then keeps the lists of a strip for the next one:
/// else their pages are made anew for each strip, which may take longer than all else. Whether it is refused makes no difference.
pub(crate) fn ask_once(alloc: Global, rows: u32, height: u32) {
    if height <= rows {
        return;
    }
    match Vec::<u64>::with_capacity(alloc, MEMORY as usize / 8) {
        Ok(_room) => (),
        Err(_refused) => (),
    }
}
