//! A strip of what a second extremum makes of what a first makes of an image, both under elements of any shape. The rows of the first
//! that the second looks at stand in a buffer, where they are in the cache when it reads them.

ghost use Rattle.std.specs.Prelude.{◌≡◌, ◌+◌, ◌*◌, ◌≤◌, length, map, min, IfErr, IfNone, IfOk, IfSome, false, true};
ghost use Rattle.mw_model.specs.Pictures.{sample};
ghost use Rattle.mw_model.specs.Rectangles.{WithinReach};
ghost use Rattle.mw_model.specs.Tasks.{cells_in};
ghost use Rattle.mw_model.specs.Windows.{seen_at};
ghost use Rattle.mw_c_arrays.specs.Sources.{picture_in};
ghost use Rattle.mw_c_lent.specs.Boxes.{IsMadeUnder};
ghost use Rattle.mw_c_lent.specs.InTurn.{IsElementRule, IsSequence, rule_offsets, rule_value};
ghost use Rattle.mw_c_lent.specs.Rows.{HasImageRows};
ghost use Rattle.mw_c_lent.specs.Rules.{rule_picture};
ghost use Rattle.mw_c_lent.specs.Slides.{AreFrameRows};
ghost use Rattle.mw_c_lent.specs.Standing.{seen_from, seen_to};
ghost use Rattle.mw_c_lent.specs.Suited.{SuitRule, rows_beside};

use crate::lendable::Lendable;
use crate::rules::Rule;
use crate::standing::front_rows;
use mw_c_arrays::ArrayImage;
use mw_grid::grown;
use mw_line_lent::Room;
use mw_model::{NoMemory, Reach, Rect};
use mw_rank_lent::Lent;

/// How far an extremum under an element looks.
pub(crate) fn reach_of(rule: Rule<'_>) -> Option<Reach>
    ensures under { IfSome result (λ reach. IsElementRule rule.entry) }
    ensures reach { IfSome result (λ reach. WithinReach reach (rule_offsets rule.entry)) }
    ensures low { IfSome result (λ reach. reach.up + reach.down ≡ rows_beside rule.entry) }
    ensures none { IfNone result (IsElementRule rule.entry → ⊥) }
{
    match rule {
        Rule::Least(element) => Some(element.reach()),
        Rule::Greatest(element) => Some(element.reach()),
        Rule::LeastBox(_) => None,
        Rule::GreatestBox(_) => None,
        Rule::Nth(_, _) => None,
        Rule::AtLeast(_) => None,
    }
}

/// Writes an extremum under an element, in a tile of what is lent. The least of none is the top.
fn put_under<P: Lendable>(
    room: &mut Room<P>,
    rule: Rule<'_>,
    top: P,
    lent: &Lent<P>,
    tile: Rect,
    out: &mut [P],
) -> Result<bool, NoMemory>
    requires { length out.old ≡ tile.height * tile.width }
    ensures made { IfOk result (λ done. done ≡ true → IsMadeUnder (rule_value (P.level top) rule.entry) P.level (seen_at lent.now) (rule_offsets rule.entry) tile out.new) }
    ensures taken { SuitRule rule.entry tile → IfOk result (λ done. done ≡ true) }
    ensures left_out { IfOk result (λ done. done ≡ false → out.new ≡ out.old) }
    ensures kept { IfErr result (λ _. out.new ≡ out.old) }
{
    match rule {
        Rule::Least(element) => P::least_under(room, lent, element.offsets(), top, tile, out),
        Rule::Greatest(element) => P::greatest_under(room, lent, element.offsets(), tile, out),
        Rule::LeastBox(_) => Ok(false),
        Rule::GreatestBox(_) => Ok(false),
        Rule::Nth(_, _) => Ok(false),
        Rule::AtLeast(_) => Ok(false),
    }
}

/// Two extrema, the second of what the first makes of an image, and how far the second looks.
#[derive(Clone, Copy)]
pub(crate) struct Sequence<'a> {
    pub first: Rule<'a>,
    pub second: Rule<'a>,
    pub f: ArrayImage<'a>,
    pub reach: Reach,
}

/// Writes the rows of a strip, of the rows of the first extremum that stand in `between`, if there is a kernel for that. `top` is the
/// sample that changes no least.
pub(crate) fn put_turn<P: Lendable>(
    room: &mut Room<P>,
    sequence: Sequence<'_>,
    top: P,
    strip: Rect,
    between: &[P],
    out: &mut [P],
) -> Result<bool, NoMemory>
    requires sound { IsSequence sequence }
    requires top { (picture_in sequence.f).maxval ≡ P.level top }
    requires strip { AreFrameRows strip (picture_in sequence.f).width (picture_in sequence.f).height }
    requires between { min (strip.height + (sequence.reach.up + sequence.reach.down)) (picture_in sequence.f).height * strip.width ≤ length between.now }
    requires room { length out.old ≡ strip.height * strip.width }
    requires stands { HasImageRows P.level (rule_picture sequence.first (picture_in sequence.f)) (seen_from sequence.reach strip) (seen_to (picture_in sequence.f).height sequence.reach strip) between.now }
    ensures made { IfOk result (λ done. done ≡ true → map P.level out.new ≡ cells_in strip (sample (rule_picture sequence.entry.second (rule_picture sequence.entry.first (picture_in sequence.entry.f))))) }
    ensures taken { SuitRule sequence.entry.second strip → IfOk result (λ done. done ≡ true) }
    ensures left_out { IfOk result (λ done. done ≡ false → out.new ≡ out.old) }
    ensures kept { IfErr result (λ _. out.new ≡ out.old) }
{
    let (width, height) = (sequence.f.width(), sequence.f.height());
    let place = grown(strip, sequence.reach, width, height);
    let rows = front_rows(place, between);
    let seen = Lent::new(width, height, place, rows);
    put_under(room, sequence.second, top, &seen, strip, out)
}
