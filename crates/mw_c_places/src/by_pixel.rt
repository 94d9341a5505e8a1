//! What is made at one place, by the definitions alone and without memory: slow, and never refused. Where memory is refused
//! for a strip after others were written, its rows are made so.

ghost use Rattle.std.specs.Prelude.{◌≡◌, ◌<◌, ◌≤◌, ◌+ℤ◌, pos, count_by, max, nat_lt, if◌then◌else◌};
ghost use Rattle.std.specs.Arc.{arc_value};
ghost use Rattle.std.specs.Option.{option_to_list};
ghost use Rattle.mw_model.specs.Flat.{greatest, least, under};
ghost use Rattle.mw_model.specs.Pictures.{IsImage, sample, sample_at};
ghost use Rattle.mw_model.specs.PlanSteps.{ranked};
ghost use Rattle.mw_model.specs.Rectangles.{box_offsets, span};
ghost use Rattle.mw_c_lent.specs.Rules.{rule_picture};
ghost use Rattle.mw_c_places.specs.Boxes.{extreme, row_offsets};

use crate::boxes::{below, columns, right_of, rows};
use crate::levels::Levels;
use mw_c_lent::Rule;
use mw_element::Element;
use mw_model::{Offset, OffsetBox};
use mw_plan::ExtremumKind;
use std::sync::Arc;

/// The level at a place of the plane, where the frame has that place.
fn seen_at<S: Levels>(f: &S, column: i64, row: i64) -> Option<u16>
    requires { S.sound f.now }
    ensures { result ≡ sample_at (S.image f.now) column row }
{
    if column < 0 || row < 0 || column >= i64::from(f.columns()) || row >= i64::from(f.rows()) {
        return None;
    }
    Some(f.level_in(column as u32, row as u32))
}

/// The level at the offset from column x of row y, where the frame has that place.
fn level_from<S: Levels>(f: &S, x: u32, y: u32, b: Offset) -> Option<u16>
    requires { S.sound f.now }
    ensures { result ≡ sample_at (S.image f.now) (pos x +ℤ b.dx) (pos y +ℤ b.dy) }
{
    seen_at(
        f,
        i64::from(x) + i64::from(b.dx),
        i64::from(y) + i64::from(b.dy),
    )
}

/// The lesser of a level and one that is seen, if one is.
fn lesser(best: u16, seen: Option<u16>) -> u16
    ensures { result ≡ least best (option_to_list seen) }
{
    match seen {
        Some(s) => best.min(s),
        None => best,
    }
}

/// The greater of a level and one that is seen, if one is.
fn greater(best: u16, seen: Option<u16>) -> u16
    ensures { result ≡ max best (greatest (option_to_list seen)) }
{
    match seen {
        Some(s) => best.max(s),
        None => best,
    }
}

/// 1 for a level below the limit that is seen, else 0.
fn one_below(seen: Option<u16>, limit: u32) -> usize
    ensures is { result ≡ count_by (λ s. nat_lt s limit) (option_to_list seen) }
    ensures small { result ≤ 1 }
{
    match seen {
        Some(s) if u32::from(s) < limit => 1,
        _ => 0,
    }
}

/// The least level under the offsets, or the maxval where there is none.
fn least_under<S: Levels>(f: &S, offsets: &[Offset], x: u32, y: u32) -> u16
    requires { S.sound f.now }
    ensures { result ≡ least (S.image f.now).maxval (under (S.image f.now) offsets.now x y) }
{
    let mut best = f.maxval();
    let mut left = offsets.len();
    'each: while left > 0 {
        left -= 1;
        best = lesser(best, level_from(f, x, y, offsets[left]));
    }
    best
}

/// The greatest level under the offsets, or 0 where there is none.
fn greatest_under<S: Levels>(f: &S, offsets: &[Offset], x: u32, y: u32) -> u16
    requires { S.sound f.now }
    ensures { result ≡ greatest (under (S.image f.now) offsets.now x y) }
{
    let mut best = 0;
    let mut left = offsets.len();
    'each: while left > 0 {
        left -= 1;
        best = greater(best, level_from(f, x, y, offsets[left]));
    }
    best
}

/// The extremum of a level and one that is seen, if one is.
fn extreme(extremum: ExtremumKind, best: u16, seen: Option<u16>) -> u16
    ensures { result ≡ extreme extremum best (option_to_list seen) }
{
    match extremum {
        ExtremumKind::Least => lesser(best, seen),
        ExtremumKind::Greatest => greater(best, seen),
    }
}

/// A box, and which extremum is taken under it.
#[derive(Clone, Copy)]
struct BoxWork {
    extremum: ExtremumKind,
    offsets: OffsetBox,
}

/// The level in column i of row j of a box that is put on column x of row y.
fn level_in_box<S: Levels>(
    f: &S,
    offsets: OffsetBox,
    i: usize,
    j: usize,
    x: u32,
    y: u32,
) -> Option<u16>
    requires sound { S.sound f.now }
    requires across { i < span offsets.x0 offsets.x1 }
    requires down { j < span offsets.y0 offsets.y1 }
    ensures { result ≡ sample_at (S.image f.now) (pos x +ℤ (offsets.x0 +ℤ pos i)) (pos y +ℤ (offsets.y0 +ℤ pos j)) }
{
    let column = right_of(offsets, i);
    let row = below(offsets, j);
    seen_at(f, i64::from(x) + column, i64::from(y) + row)
}

/// The extremum of a level and those under row j of a box.
fn under_row<S: Levels>(f: &S, work: BoxWork, j: usize, x: u32, y: u32, start: u16) -> u16
    requires sound { S.sound f.now }
    requires row { j < span work.offsets.y0 work.offsets.y1 }
    ensures { result ≡ extreme work.extremum start (under (S.image f.now) (row_offsets work.offsets j) x y) }
{
    let offsets = work.offsets;
    let mut best = start;
    let mut left = columns(offsets);
    'each: while left > 0 {
        left -= 1;
        let seen = level_in_box(f, offsets, left, j, x, y);
        best = extreme(work.extremum, best, seen);
    }
    best
}

/// The extremum of a level and those under a box.
fn under_rows<S: Levels>(f: &S, work: BoxWork, x: u32, y: u32, start: u16) -> u16
    requires { S.sound f.now }
    ensures { result ≡ extreme work.extremum start (under (S.image f.now) (box_offsets work.offsets) x y) }
{
    let mut best = start;
    let mut left = rows(work.offsets);
    'rows: while left > 0 {
        left -= 1;
        best = under_row(f, work, left, x, y, best);
    }
    best
}

/// The least level under a box, or the maxval where there is none.
fn least_in_box<S: Levels>(f: &S, offsets: OffsetBox, x: u32, y: u32) -> u16
    requires { S.sound f.now }
    ensures { result ≡ least (S.image f.now).maxval (under (S.image f.now) (box_offsets offsets) x y) }
{
    let work = BoxWork {
        extremum: ExtremumKind::Least,
        offsets,
    };
    under_rows(f, work, x, y, f.maxval())
}

/// The greatest level under a box, or 0 where there is none.
fn greatest_in_box<S: Levels>(f: &S, offsets: OffsetBox, x: u32, y: u32) -> u16
    requires { S.sound f.now }
    ensures { result ≡ greatest (under (S.image f.now) (box_offsets offsets) x y) }
{
    let work = BoxWork {
        extremum: ExtremumKind::Greatest,
        offsets,
    };
    under_rows(f, work, x, y, 0)
}

/// How many levels under the offsets are below the limit.
fn count_below<S: Levels>(f: &S, offsets: &[Offset], x: u32, y: u32, limit: u32) -> usize
    requires { S.sound f.now }
    ensures { result ≡ count_by (λ s. nat_lt s limit) (under (S.image f.now) offsets.now x y) }
{
    let mut count = 0;
    let mut left = offsets.len();
    'each: while left > 0 {
        left -= 1;
        count += one_below(level_from(f, x, y, offsets[left]), limit);
    }
    count
}

/// Of the levels under the offsets in rising order number `k`, or the last where there are fewer; 0 where there is none. It
/// is found by halving the levels among which it lies.
fn nth_under<S: Levels>(f: &S, offsets: &[Offset], x: u32, y: u32, k: u32) -> u16
    requires sound { S.sound f.now }
    requires image { IsImage (S.image f.now) }
    ensures { result ≡ ranked k (under (S.image f.now) offsets.now x y) }
{
    let seen = count_below(f, offsets, x, y, 65536);
    if seen == 0 {
        return 0;
    }
    let n = seen.min(k as usize).max(1);
    let (mut low, mut high) = (0u32, 65536u32);
    'halves: while high - low > 1 {
        let middle = low + (high - low) / 2;
        if count_below(f, offsets, x, y, middle) < n {
            low = middle;
        } else {
            high = middle;
        }
    }
    low as u16
}

/// The offsets of an element.
fn offsets_of(element: &Arc<Element>) -> &[Offset]
    ensures value { result.now ≡ (arc_value element.entry.now).offsets }
{
    element.offsets()
}

/// 1 where it holds, else 0.
fn one_if(holds: bool) -> u16
    ensures { result ≡ (if holds then 1 else 0) }
{
    if holds { 1 } else { 0 }
}

/// What a rule makes at column x of row y.
pub fn made_at<S: Levels>(rule: Rule<'_>, f: &S, x: u32, y: u32) -> u16
    requires sound { S.sound f.now }
    requires image { IsImage (S.image f.now) }
    requires across { x < (S.image f.now).width }
    requires down { y < (S.image f.now).height }
    ensures { result ≡ sample (rule_picture rule.entry (S.image f.now)) x y }
{
    match rule {
        Rule::Least(element) => least_under(f, offsets_of(element), x, y),
        Rule::Greatest(element) => greatest_under(f, offsets_of(element), x, y),
        Rule::LeastBox(offsets) => least_in_box(f, offsets, x, y),
        Rule::GreatestBox(offsets) => greatest_in_box(f, offsets, x, y),
        Rule::Nth(element, k) => nth_under(f, offsets_of(element), x, y, k),
        Rule::AtLeast(k) => one_if(k <= u32::from(f.level_in(x, y))),
    }
}
