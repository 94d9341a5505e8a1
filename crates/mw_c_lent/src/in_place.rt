//! Rows that a kernel writes where they are to stand, of rows that it reads where they stand in a caller's array: no window is
//! copied, no plane filled, and nothing copied out. Such a kernel takes what it reads as a `Lent`. It says whether it made the
//! rows, and wants memory only before it writes.

ghost use Rattle.std.specs.Prelude.{◌≡◌, ◌+◌, ◌*◌, ◌<◌, ◌≤◌, [], ◌∷◌, length, map, IfErr, IfNone, IfOk, IfSome, false, true};
ghost use Rattle.std.specs.Arc.{arc_value};
ghost use Rattle.mw_model.specs.Elements.{reach_of};
ghost use Rattle.mw_model.specs.Pictures.{Picture, sample};
ghost use Rattle.mw_model.specs.Plans.{plane_of};
ghost use Rattle.mw_model.specs.PlanSteps.{Dilate, DilateBox, Erode, ErodeBox};
ghost use Rattle.mw_model.specs.Tasks.{cells_in};
ghost use Rattle.mw_c_arrays.specs.Sources.{IsArrayImage, picture_in};
ghost use Rattle.mw_line_lent.specs.Near.{IsAround, StandsInside};
ghost use Rattle.mw_c_lent.specs.InPlace.{AreInnerRows, AreMiddleRows, IsWholeView, inner_end, inner_first, rows_above, rows_below};
ghost use Rattle.mw_c_lent.specs.Rules.{rule_picture};
ghost use Rattle.mw_c_lent.specs.Rows.{EndAt, IsStrip, rows_from};
ghost use Rattle.mw_c_lent.specs.Suited.{SuitMiddle, SuitPlace, SuitRule, SuitTile};

use crate::lendable::Lendable;
use crate::rules::Rule;
use mw_c_arrays::ArrayImage;
use mw_element::Element;
use mw_grid::whole_frame;
use mw_line_lent::Room;
use mw_model::{NoMemory, OffsetBox, Rect};
use mw_rank_lent::{Lent, medians_into};
use std::alloc::Global;
use std::sync::Arc;

/// The rows of an array from `from` on up to `to`, and what is made of them.
#[derive(Clone, Copy)]
pub struct Middle<'a> {
    pub rule: Rule<'a>,
    pub f: ArrayImage<'a>,
    pub from: u32,
    pub to: u32,
}

/// How far an element reaches up and down.
fn reach(element: &Arc<Element>) -> (u32, u32)
    ensures above { result.0 ≡ (reach_of (arc_value element.now).offsets).up }
    ensures below { result.1 ≡ (reach_of (arc_value element.now).offsets).down }
{
    let reach = element.reach();
    (reach.up, reach.down)
}

/// How many rows at the upper and at the lower side of a frame the kernel of a rule leaves out.
fn margins(rule: Rule<'_>) -> (u32, u32)
    ensures above { result.0 ≡ rows_above rule.entry }
    ensures below { result.1 ≡ rows_below rule.entry }
{
    match rule {
        Rule::Nth(element, _) => reach(element),
        Rule::Least(_) => (0, 0),
        Rule::Greatest(_) => (0, 0),
        Rule::LeastBox(_) => (0, 0),
        Rule::GreatestBox(_) => (0, 0),
        Rule::AtLeast(_) => (0, 0),
    }
}

/// Of the rows from `first` on up to `end` those that the kernel of a rule may make.
pub fn middle_of<'a>(rule: Rule<'a>, f: ArrayImage<'a>, first: u32, end: u32) -> Option<Middle<'a>>
    ensures rows { IfSome result (λ m. AreMiddleRows first end m × (m.rule ≡ rule.entry) × (m.f ≡ f.entry)) }
    ensures all { IfSome result (λ m. AreInnerRows first end m) }
    ensures none { IfNone result (inner_end end (picture_in f.entry).height rule.entry ≤ inner_first first rule.entry) }
{
    let (above, below) = margins(rule);
    let from = first.max(above);
    let to = end.min(f.height().saturating_sub(below));
    if from >= to {
        return None;
    }
    Some(Middle { rule, f, from, to })
}

/// Writes the least under an element, in a tile of an image with this maxval.
fn put_least_under<P: Lendable>(
    room: &mut Room<P>,
    lent: &Lent<P>,
    element: &Element,
    maxval: u16,
    tile: Rect,
    out: &mut [P],
) -> Result<bool, NoMemory>
    requires room { length out.old ≡ tile.height * tile.width }
    ensures made { IfOk result (λ done. done ≡ true → (f : Picture) → IsWholeView P.level lent.now f → IsStrip tile f → f.maxval ≡ maxval → map P.level out.new ≡ cells_in tile (sample (plane_of (Erode element.now.offsets) (f ∷ []) f.width f.height))) }
    ensures taken { maxval ≤ P.top_level → SuitTile element.now.offsets tile → IfOk result (λ done. done ≡ true) }
    ensures left_out { IfOk result (λ done. done ≡ false → out.new ≡ out.old) }
    ensures kept { IfErr result (λ _. out.new ≡ out.old) }
{
    let Some(neutral) = P::of(maxval) else {
        return Ok(false);
    };
    P::least_under(room, lent, element.offsets(), neutral, tile, out)
}

/// Writes the greatest under an element, in a tile.
fn put_greatest_under<P: Lendable>(
    room: &mut Room<P>,
    lent: &Lent<P>,
    element: &Element,
    tile: Rect,
    out: &mut [P],
) -> Result<bool, NoMemory>
    requires room { length out.old ≡ tile.height * tile.width }
    ensures made { IfOk result (λ done. done ≡ true → (f : Picture) → IsWholeView P.level lent.now f → IsStrip tile f → map P.level out.new ≡ cells_in tile (sample (plane_of (Dilate element.now.offsets) (f ∷ []) f.width f.height))) }
    ensures taken { SuitTile element.now.offsets tile → IfOk result (λ done. done ≡ true) }
    ensures left_out { IfOk result (λ done. done ≡ false → out.new ≡ out.old) }
    ensures kept { IfErr result (λ _. out.new ≡ out.old) }
{
    P::greatest_under(room, lent, element.offsets(), tile, out)
}

/// Writes the least under a full rectangle, in a tile of an image with this maxval.
fn put_least<P: Lendable>(
    alloc: Global,
    lent: &Lent<P>,
    offsets: OffsetBox,
    maxval: u16,
    tile: Rect,
    out: &mut [P],
) -> Result<bool, NoMemory>
    requires room { length out.old ≡ tile.height * tile.width }
    ensures made { IfOk result (λ done. done ≡ true → (f : Picture) → IsWholeView P.level lent.now f → IsStrip tile f → f.maxval ≡ maxval → map P.level out.new ≡ cells_in tile (sample (plane_of (ErodeBox offsets) (f ∷ []) f.width f.height))) }
    ensures taken { maxval ≤ P.top_level → IsAround offsets → StandsInside lent.now.place tile → IfOk result (λ done. done ≡ true) }
    ensures left_out { IfOk result (λ done. done ≡ false → out.new ≡ out.old) }
    ensures kept { IfErr result (λ _. out.new ≡ out.old) }
{
    let Some(neutral) = P::of(maxval) else {
        return Ok(false);
    };
    P::least_into(alloc, lent, offsets, neutral, tile, out)
}

/// Writes the greatest under a full rectangle, in a tile.
fn put_greatest<P: Lendable>(
    alloc: Global,
    lent: &Lent<P>,
    offsets: OffsetBox,
    tile: Rect,
    out: &mut [P],
) -> Result<bool, NoMemory>
    requires room { length out.old ≡ tile.height * tile.width }
    ensures made { IfOk result (λ done. done ≡ true → (f : Picture) → IsWholeView P.level lent.now f → IsStrip tile f → map P.level out.new ≡ cells_in tile (sample (plane_of (DilateBox offsets) (f ∷ []) f.width f.height))) }
    ensures taken { IsAround offsets → StandsInside lent.now.place tile → IfOk result (λ done. done ≡ true) }
    ensures left_out { IfOk result (λ done. done ≡ false → out.new ≡ out.old) }
    ensures kept { IfErr result (λ _. out.new ≡ out.old) }
{
    P::greatest_into(alloc, lent, offsets, tile, out)
}

/// Writes what a rule makes in a tile of an image with this maxval, if there is a kernel for it.
pub(crate) fn put_tile<P: Lendable>(
    room: &mut Room<P>,
    rule: Rule<'_>,
    lent: &Lent<P>,
    maxval: u16,
    tile: Rect,
    out: &mut [P],
) -> Result<bool, NoMemory>
    requires room { length out.old ≡ tile.height * tile.width }
    ensures made { IfOk result (λ done. done ≡ true → (f : Picture) → IsWholeView P.level lent.now f → IsStrip tile f → f.maxval ≡ maxval → map P.level out.new ≡ cells_in tile (sample (rule_picture rule.entry f))) }
    ensures taken { maxval ≤ P.top_level → SuitRule rule.entry tile → IfOk result (λ done. done ≡ true) }
    ensures lent { maxval ≤ P.top_level → SuitPlace lent.now.place rule.entry tile → IfOk result (λ done. done ≡ true) }
    ensures left_out { IfOk result (λ done. done ≡ false → out.new ≡ out.old) }
    ensures kept { IfErr result (λ _. out.new ≡ out.old) }
{
    match rule {
        Rule::Nth(element, k) => medians_into(room.alloc, lent, element.offsets(), k, tile, out),
        Rule::Least(element) => put_least_under(room, lent, element, maxval, tile, out),
        Rule::Greatest(element) => put_greatest_under(room, lent, element, tile, out),
        Rule::LeastBox(offsets) => put_least(room.alloc, lent, offsets, maxval, tile, out),
        Rule::GreatestBox(offsets) => put_greatest(room.alloc, lent, offsets, tile, out),
        Rule::AtLeast(_) => Ok(false),
    }
}

/// Writes these rows, if there is a kernel for them.
pub fn put_middle<P: Lendable>(
    alloc: Global,
    middle: Middle<'_>,
    out: &mut [P],
) -> Result<bool, NoMemory>
    requires sound { IsArrayImage middle.f }
    requires rows { EndAt middle.from middle.to (length out.old) (picture_in middle.f) }
    ensures made { IfOk result (λ done. done ≡ true → map P.level out.new ≡ rows_from middle.entry.from (length out.old) (rule_picture middle.entry.rule (picture_in middle.entry.f))) }
    ensures taken { SuitMiddle P.top_level middle.entry → IfOk result (λ done. done ≡ true) }
    ensures left_out { IfOk result (λ done. done ≡ false → out.new ≡ out.old) }
    ensures kept { IfErr result (λ _. out.new ≡ out.old) }
{
    let Some(samples) = P::grey(middle.f) else {
        return Ok(false);
    };
    let (width, height) = (middle.f.width(), middle.f.height());
    let lent = Lent::new(width, height, whole_frame(width, height), samples);
    let tile = Rect {
        x: 0,
        y: middle.from,
        width,
        height: middle.to - middle.from,
    };
    let mut room = Room::new(alloc);
    put_tile(&mut room, middle.rule, &lent, middle.f.maxval(), tile, out)
}
