//! Extrema under full rectangles that are made with room that was asked for before: nothing is refused once the first row stands.

ghost use Rattle.std.specs.Prelude.{◌≡◌, ℕ, ◌+◌, ◌*◌, ◌≤◌, length, IfNone, IfSome, IsTrue};
ghost use Rattle.mw_model.specs.Pictures.{Picture};
ghost use Rattle.mw_model.specs.Rectangles.{WithinReach, box_offsets};
ghost use Rattle.mw_model.specs.Windows.{seen_at};
ghost use Rattle.mw_line_lent.specs.Near.{IsAround, StandsInside};
ghost use Rattle.mw_c_lent.specs.Boxes.{IsMadeUnder};
ghost use Rattle.mw_c_lent.specs.Narrow.{IsNarrow, IsNarrowRule};
ghost use Rattle.mw_c_lent.specs.Rules.{rule_picture};
ghost use Rattle.mw_c_lent.specs.Slides.{AreSteps, slide_box, slide_value, slide_picture, steps_picture};

use crate::lendable::Lendable;
use crate::rules::Rule;
use mw_line_lent::rows_of_sheet;
use mw_model::{OffsetBox, Reach, Rect};
use mw_rank_lent::Lent;

/// The least or the greatest under a full rectangle.
#[derive(Clone, Copy)]
pub(crate) enum Slide {
    Least(OffsetBox),
    Greatest(OffsetBox),
}

/// An extremum, another one of what that makes, and how far the second looks.
#[derive(Clone, Copy)]
pub(crate) struct Steps {
    pub first: Slide,
    pub second: Slide,
    pub reach: Reach,
}

/// The longest side of rectangles that are made here.
const LONGEST: i64 = 256;

/// Whether a rectangle has the place that it is put on, and is made here.
fn is_around(offsets: OffsetBox) -> bool
    ensures around { IsTrue result → IsAround offsets }
    ensures narrow { IsNarrow 255 offsets → IsTrue result }
{
    let (left, right) = (i64::from(offsets.x0), i64::from(offsets.x1));
    let (top, bottom) = (i64::from(offsets.y0), i64::from(offsets.y1));
    if left > 0 {
        return false;
    }
    if right < 0 {
        return false;
    }
    if top > 0 {
        return false;
    }
    if bottom < 0 {
        return false;
    }
    if right - left >= LONGEST {
        return false;
    }
    if bottom - top >= LONGEST {
        return false;
    }
    true
}

/// The extremum that a rule takes, if it is one that is made here.
pub(crate) fn slide_of(rule: Rule<'_>) -> Option<Slide>
    ensures around { IfSome result (λ s. IsAround (slide_box s)) }
    ensures picture { IfSome result (λ s. (f : Picture) → slide_picture s f ≡ rule_picture rule.entry f) }
    ensures low { IfSome result (λ s. (beyond : ℕ) → IsNarrowRule beyond rule.entry → IsNarrow beyond (slide_box s)) }
    ensures none { IfNone result (IsNarrowRule 255 rule.entry → ⊥) }
{
    match rule {
        Rule::LeastBox(offsets) => {
            if is_around(offsets) {
                return Some(Slide::Least(offsets));
            }
            None
        }
        Rule::GreatestBox(offsets) => {
            if is_around(offsets) {
                return Some(Slide::Greatest(offsets));
            }
            None
        }
        Rule::Least(_) => None,
        Rule::Greatest(_) => None,
        Rule::Nth(_, _) => None,
        Rule::AtLeast(_) => None,
    }
}

/// How far a rectangle looks.
fn reach_of(offsets: OffsetBox) -> Reach
    requires { IsAround offsets }
    ensures reach { WithinReach result (box_offsets offsets) }
    ensures near { result.up + result.down ≤ 255 }
    ensures low { (beyond : ℕ) → IsNarrow beyond offsets → result.up + result.down ≤ beyond }
{
    Reach {
        left: offsets.x0.unsigned_abs(),
        right: offsets.x1.unsigned_abs(),
        up: offsets.y0.unsigned_abs(),
        down: offsets.y1.unsigned_abs(),
    }
}

/// The rectangle of an extremum.
fn rectangle(slide: Slide) -> OffsetBox
    ensures { result ≡ slide_box slide }
{
    match slide {
        Slide::Least(offsets) => offsets,
        Slide::Greatest(offsets) => offsets,
    }
}

/// How many rows of room the rectangle of an extremum makes use of beside six lines, in a frame of so many rows: of the rectangle
/// those count alone that the frame may have.
pub(crate) fn rows_of_room(slide: Slide, height: u32) -> u32
    ensures { result ≤ 260 }
{
    let offsets = rectangle(slide);
    let far = height.min(LONGEST as u32) as i32;
    rows_of_sheet(OffsetBox {
        y0: offsets.y0.max(1 - far),
        y1: offsets.y1.min(far - 1),
        ..offsets
    })
}

/// What two rules make one after the other, if both are made here.
pub(crate) fn steps_of(first: Rule<'_>, second: Rule<'_>) -> Option<Steps>
    ensures sound { IfSome result AreSteps }
    ensures picture { IfSome result (λ s. (f : Picture) → steps_picture s f ≡ rule_picture second.entry (rule_picture first.entry f)) }
    ensures low { IfSome result (λ s. (beyond : ℕ) → IsNarrowRule beyond second.entry → s.reach.up + s.reach.down ≤ beyond) }
    ensures none { IfNone result (IsNarrowRule 255 first.entry → IsNarrowRule 255 second.entry → ⊥) }
{
    let Some(first) = slide_of(first) else {
        return None;
    };
    let Some(second) = slide_of(second) else {
        return None;
    };
    let reach = reach_of(rectangle(second));
    Some(Steps {
        first,
        second,
        reach,
    })
}

/// Writes an extremum in a tile that stands in what is lent. The least of none is the top.
pub(crate) fn put_slide<P: Lendable>(
    slide: Slide,
    top: P,
    lent: &Lent<P>,
    tile: Rect,
    room: &mut [P],
    out: &mut [P],
)
    requires around { IsAround (slide_box slide) }
    requires stands { StandsInside lent.now.place tile }
    requires lines { 6 * (tile.width + 255) ≤ length room.old }
    requires room { length out.old ≡ tile.height * tile.width }
    ensures lines { length room.new ≡ length room.old }
    ensures size { length out.new ≡ length out.old }
    ensures made { IsMadeUnder (slide_value (P.level top) slide) P.level (seen_at lent.now) (box_offsets (slide_box slide)) tile out.new }
{
    match slide {
        Slide::Least(offsets) => P::least_with_room(lent, offsets, top, tile, room, out),
        Slide::Greatest(offsets) => P::greatest_with_room(lent, offsets, tile, room, out),
    }
}
