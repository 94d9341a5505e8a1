//! Lists of offsets.

ghost use Rattle.std.specs.Prelude.{◌≡◌, ◌↔◌, ◌+◌, ◌<◌, ◌≤◌, ◌+ℤ◌, ◌≤ℤ◌, pos, max, neg_ℤ, [], ◌∷◌, length, IsTrue, IfOk, IfSome, IfNone, MatchOption};
ghost use Rattle.std.specs.List.{AllByRecursion, IsDistinct};
ghost use Rattle.mw_model.specs.declared.offsets.OffsetBox.{OffsetBox};
ghost use Rattle.mw_model.specs.Elements.{IsNear, holds_origin, overlaps, reach_of, same_offset};
ghost use Rattle.mw_model.specs.Rectangles.{nonnegative, WithinReach};
ghost use Rattle.mw_element.specs.Figures.{FillsBox, InBox, LiesIn, OffsetsRise, by_rows, reach_grown, row_key, turned};
ghost use Rattle.mw_model.specs.Flat.{reflected};

use mw_model::{NoMemory, Offset, OffsetBox, Reach};
use std::alloc::Global;

fn is_same(a: Offset, b: Offset) -> bool
    ensures { result ≡ same_offset a b }
{
    a.dx == b.dx && a.dy == b.dy
}

fn turn_one(b: Offset) -> Offset
    requires { IsNear b }
    ensures { result ≡ turned b }
{
    Offset {
        dx: -b.dx,
        dy: -b.dy,
    }
}

/// Each offset turned round.
pub(crate) fn turn(alloc: Global, offsets: &[Offset]) -> Result<Vec<Offset>, NoMemory>
    requires { AllByRecursion IsNear offsets.now }
    ensures { IfOk result (λ v. v.items ≡ reflected offsets.now) }
{
    let mut all = Vec::with_capacity(alloc, offsets.len())?;
    'offsets: for b in offsets {
        all.push(turn_one(*b))?;
    }
    Ok(all)
}

pub(crate) fn hold_origin(offsets: &[Offset]) -> bool
    ensures { result ≡ holds_origin offsets.now }
{
    offsets.iter().any(|b| b.dx == 0 && b.dy == 0)
}

pub(crate) fn same(first: &[Offset], second: &[Offset]) -> bool
    ensures { IsTrue result ↔ (first.now ≡ second.now) }
{
    if first.len() != second.len() {
        return false;
    }
    'offsets: for i in 0..first.len() {
        if !is_same(first[i], second[i]) {
            return false;
        }
    }
    true
}

/// Where an offset stands among others by rows: the key of a later one is greater.
fn row_key(b: Offset) -> i32
    ensures { result ≡ row_key b }
{
    1024 * i32::from(b.dy) + i32::from(b.dx)
}

/// The first offset by rows, and the others.
fn first_by_rows(offsets: &[Offset], is_turned: bool) -> Option<(Offset, &[Offset])>
    ensures { MatchOption result (by_rows is_turned offsets.now ≡ []) (λ x. by_rows is_turned offsets.now ≡ x.0 ∷ by_rows is_turned x.1.now) }
{
    if is_turned {
        match offsets {
            [rest @ .., b] => Some((*b, rest)),
            [] => None,
        }
    } else {
        match offsets {
            [b, rest @ ..] => Some((*b, rest)),
            [] => None,
        }
    }
}

/// Whether two lists share an offset: one pass over both, by rows.
pub(crate) fn overlap(
    first: &[Offset],
    is_first_turned: bool,
    second: &[Offset],
    is_second_turned: bool,
) -> bool
    requires first { OffsetsRise (by_rows is_first_turned first.now) }
    requires second { OffsetsRise (by_rows is_second_turned second.now) }
    ensures { result ≡ overlaps first.now second.now }
{
    let mut first_rest = first;
    let mut second_rest = second;
    'offsets: loop {
        let Some((a, after_a)) = first_by_rows(first_rest, is_first_turned) else {
            return false;
        };
        let Some((b, after_b)) = first_by_rows(second_rest, is_second_turned) else {
            return false;
        };
        if is_same(a, b) {
            return true;
        }
        if row_key(a) < row_key(b) {
            first_rest = after_a;
        } else {
            second_rest = after_b;
        }
    }
}

/// A distance in the direction that counts, or 0.
fn distance(along: i32) -> u32
    ensures { result ≡ nonnegative along }
{
    if along > 0 { along as u32 } else { 0 }
}

/// The reach that goes as far as the offset too.
fn grow(reach: Reach, b: Offset) -> Reach
    ensures { result ≡ reach_grown reach b }
{
    let dx = i32::from(b.dx);
    let dy = i32::from(b.dy);
    Reach {
        left: reach.left.max(distance(-dx)),
        right: reach.right.max(distance(dx)),
        up: reach.up.max(distance(-dy)),
        down: reach.down.max(distance(dy)),
    }
}

pub(crate) fn reach(offsets: &[Offset]) -> Reach
    ensures value { result ≡ reach_of offsets.now }
    ensures within { WithinReach result offsets.now }
{
    let mut reach = Reach {
        left: 0,
        right: 0,
        up: 0,
        down: 0,
    };
    'offsets: for b in offsets {
        reach = grow(reach, *b);
    }
    reach
}

/// The box of one offset.
fn box_of(b: Offset) -> OffsetBox
    ensures inside { InBox result b }
    ensures least { (box : OffsetBox) → InBox box b → LiesIn result box }
{
    let dx = i32::from(b.dx);
    let dy = i32::from(b.dy);
    OffsetBox {
        x0: dx,
        x1: dx,
        y0: dy,
        y1: dy,
    }
}

/// The least box that has what a box has, and the offset too.
fn stretch(bounds: OffsetBox, b: Offset) -> OffsetBox
    ensures inside { InBox result b }
    ensures outer { LiesIn bounds result }
    ensures least { (box : OffsetBox) → LiesIn bounds box → InBox box b → LiesIn result box }
{
    let dx = i32::from(b.dx);
    let dy = i32::from(b.dy);
    OffsetBox {
        x0: bounds.x0.min(dx),
        x1: bounds.x1.max(dx),
        y0: bounds.y0.min(dy),
        y1: bounds.y1.max(dy),
    }
}

/// The least box that has all offsets.
fn bounds(offsets: &[Offset]) -> OffsetBox
    requires { 0 < length offsets.now }
    ensures inside { AllByRecursion (λ b. InBox result b) offsets.now }
    ensures least { (box : OffsetBox) → AllByRecursion (λ b. InBox box b) offsets.now → LiesIn result box }
{
    let mut bounds = box_of(offsets[0]);
    'offsets: for b in offsets {
        bounds = stretch(bounds, *b);
    }
    bounds
}

/// How many numbers a range has, both ends included.
fn count_between(low: i32, high: i32) -> usize
    requires near { (neg_ℤ (pos 254)) ≤ℤ low }
    requires ordered { low ≤ℤ high }
    requires far { high ≤ℤ pos 254 }
    ensures value { low +ℤ pos result ≡ high +ℤ pos 1 }
    ensures small { result ≤ 509 }
{
    (high - low + 1) as usize
}

/// The box whose offsets these exactly are: the least one, where it has as many.
pub(crate) fn as_box(offsets: &[Offset]) -> Option<OffsetBox>
    requires some { 0 < length offsets.now }
    requires near { AllByRecursion IsNear offsets.now }
    requires distinct { IsDistinct same_offset offsets.now }
    ensures some { IfSome result (λ box. FillsBox box offsets.now) }
    ensures none { IfNone result ((box : OffsetBox) → FillsBox box offsets.now → ⊥) }
{
    let bounds = bounds(offsets);
    let columns = count_between(bounds.x0, bounds.x1);
    let rows = count_between(bounds.y0, bounds.y1);
    if rows * columns == offsets.len() {
        Some(bounds)
    } else {
        None
    }
}
