//! A strip of what two extrema under elements of any shape make of an image, written into the caller's rows. What is subtracted was
//! written just before, so it is in the cache.

ghost use Rattle.std.specs.Prelude.{◌≡◌, ◌+◌, ◌*◌, ◌≤◌, length, map, min, IfErr, IfOk, false, true};
ghost use Rattle.mw_model.specs.Flat.{minus};
ghost use Rattle.mw_model.specs.Pictures.{sample};
ghost use Rattle.mw_model.specs.Tasks.{cells_in};
ghost use Rattle.mw_c_arrays.specs.Sources.{IsArrayImage, picture_in};
ghost use Rattle.mw_c_lent.specs.Composites.{IsComposition, composite_picture, first_made};
ghost use Rattle.mw_c_lent.specs.InPlace.{IsWholeView};
ghost use Rattle.mw_c_lent.specs.InTurn.{IsElementRule, IsSequence};
ghost use Rattle.mw_c_lent.specs.Rows.{HasImageRows};
ghost use Rattle.mw_c_lent.specs.Rules.{rule_picture};
ghost use Rattle.mw_c_lent.specs.Slides.{AreFrameRows};
ghost use Rattle.mw_c_lent.specs.Standing.{seen_from, seen_to};
ghost use Rattle.mw_c_lent.specs.Suited.{SuitComposite, SuitRule};

use crate::composites::{Composite, Composition};
use crate::differences::own_rows;
use crate::in_place::put_tile;
use crate::in_turn::{Sequence, put_turn};
use crate::lendable::Lendable;
use crate::rules::Rule;
use crate::standing::front_rows;
use mw_c_arrays::ArrayImage;
use mw_line_lent::Room;
use mw_model::{NoMemory, Rect};
use mw_rank_lent::Lent;

/// What is made of an image, and the sample that changes no least.
#[derive(Clone, Copy)]
pub(crate) struct Composer<'a, P> {
    pub composition: Composition<'a>,
    pub top: P,
}

/// Two extrema in turn, and the sample that changes no least.
#[derive(Clone, Copy)]
struct Turn<'a, P> {
    sequence: Sequence<'a>,
    top: P,
}

/// Two extrema of an image.
#[derive(Clone, Copy)]
struct Pair<'a> {
    upper: Rule<'a>,
    lower: Rule<'a>,
    f: ArrayImage<'a>,
}

/// Writes the rows of a strip of what two in turn take from an image, if there is a kernel for that.
fn put_taken_in_turn<P: Lendable>(
    room: &mut Room<P>,
    lent: &Lent<P>,
    turn: Turn<'_, P>,
    strip: Rect,
    between: &[P],
    out: &mut [P],
) -> Result<bool, NoMemory>
    requires sound { IsSequence turn.sequence }
    requires view { IsWholeView P.level lent.now (picture_in turn.sequence.f) }
    requires top { (picture_in turn.sequence.f).maxval ≡ P.level turn.top }
    requires strip { AreFrameRows strip (picture_in turn.sequence.f).width (picture_in turn.sequence.f).height }
    requires between { min (strip.height + (turn.sequence.reach.up + turn.sequence.reach.down)) (picture_in turn.sequence.f).height * strip.width ≤ length between.now }
    requires room { length out.old ≡ strip.height * strip.width }
    requires stands { HasImageRows P.level (rule_picture turn.sequence.first (picture_in turn.sequence.f)) (seen_from turn.sequence.reach strip) (seen_to (picture_in turn.sequence.f).height turn.sequence.reach strip) between.now }
    ensures made { IfOk result (λ done. done ≡ true → map P.level out.new ≡ cells_in strip (sample (minus (picture_in turn.entry.sequence.f) (rule_picture turn.entry.sequence.second (rule_picture turn.entry.sequence.first (picture_in turn.entry.sequence.f)))))) }
    ensures taken { SuitRule turn.entry.sequence.second strip → IfOk result (λ done. done ≡ true) }
    ensures left_out { IfOk result (λ done. done ≡ false → out.new ≡ out.old) }
    ensures kept { IfErr result (λ _. out.new ≡ out.old) }
{
    if !put_turn(room, turn.sequence, turn.top, strip, between, out)? {
        return Ok(false);
    }
    P::subtract_from_row(out, own_rows(lent, strip));
    Ok(true)
}

/// Writes the rows of a strip of what two in turn add to an image, if there is a kernel for that.
fn put_added_in_turn<P: Lendable>(
    room: &mut Room<P>,
    lent: &Lent<P>,
    turn: Turn<'_, P>,
    strip: Rect,
    between: &[P],
    out: &mut [P],
) -> Result<bool, NoMemory>
    requires sound { IsSequence turn.sequence }
    requires view { IsWholeView P.level lent.now (picture_in turn.sequence.f) }
    requires top { (picture_in turn.sequence.f).maxval ≡ P.level turn.top }
    requires strip { AreFrameRows strip (picture_in turn.sequence.f).width (picture_in turn.sequence.f).height }
    requires between { min (strip.height + (turn.sequence.reach.up + turn.sequence.reach.down)) (picture_in turn.sequence.f).height * strip.width ≤ length between.now }
    requires room { length out.old ≡ strip.height * strip.width }
    requires stands { HasImageRows P.level (rule_picture turn.sequence.first (picture_in turn.sequence.f)) (seen_from turn.sequence.reach strip) (seen_to (picture_in turn.sequence.f).height turn.sequence.reach strip) between.now }
    ensures made { IfOk result (λ done. done ≡ true → map P.level out.new ≡ cells_in strip (sample (minus (rule_picture turn.entry.sequence.second (rule_picture turn.entry.sequence.first (picture_in turn.entry.sequence.f))) (picture_in turn.entry.sequence.f)))) }
    ensures taken { SuitRule turn.entry.sequence.second strip → IfOk result (λ done. done ≡ true) }
    ensures left_out { IfOk result (λ done. done ≡ false → out.new ≡ out.old) }
    ensures kept { IfErr result (λ _. out.new ≡ out.old) }
{
    if !put_turn(room, turn.sequence, turn.top, strip, between, out)? {
        return Ok(false);
    }
    P::subtract_row(out, own_rows(lent, strip));
    Ok(true)
}

/// Writes the rows of a strip of what a rule makes less what another makes, of which the rows stand in `between`, if there is a kernel
/// for that.
fn put_less_of_rules<P: Lendable>(
    room: &mut Room<P>,
    lent: &Lent<P>,
    pair: Pair<'_>,
    strip: Rect,
    between: &[P],
    out: &mut [P],
) -> Result<bool, NoMemory>
    requires sound { IsArrayImage pair.f }
    requires view { IsWholeView P.level lent.now (picture_in pair.f) }
    requires strip { AreFrameRows strip (picture_in pair.f).width (picture_in pair.f).height }
    requires between { strip.height * strip.width ≤ length between.now }
    requires room { length out.old ≡ strip.height * strip.width }
    requires stands { HasImageRows P.level (rule_picture pair.lower (picture_in pair.f)) strip.y (strip.y + strip.height) between.now }
    ensures made { IfOk result (λ done. done ≡ true → map P.level out.new ≡ cells_in strip (sample (minus (rule_picture pair.entry.upper (picture_in pair.entry.f)) (rule_picture pair.entry.lower (picture_in pair.entry.f))))) }
    ensures taken { (picture_in pair.entry.f).maxval ≤ P.top_level → SuitRule pair.entry.upper strip → IfOk result (λ done. done ≡ true) }
    ensures left_out { IfOk result (λ done. done ≡ false → out.new ≡ out.old) }
    ensures kept { IfErr result (λ _. out.new ≡ out.old) }
{
    if !put_tile(room, pair.upper, lent, pair.f.maxval(), strip, out)? {
        return Ok(false);
    }
    P::subtract_row(out, front_rows(strip, between));
    Ok(true)
}

/// Writes the rows of a strip, of those that stand in `between`, if there is a kernel for that.
pub(crate) fn put_composed<P: Lendable>(
    room: &mut Room<P>,
    lent: &Lent<P>,
    composer: Composer<'_, P>,
    strip: Rect,
    between: &[P],
    out: &mut [P],
) -> Result<bool, NoMemory>
    requires sound { IsComposition composer.composition }
    requires view { IsWholeView P.level lent.now (picture_in composer.composition.f) }
    requires top { (picture_in composer.composition.f).maxval ≡ P.level composer.top }
    requires strip { AreFrameRows strip (picture_in composer.composition.f).width (picture_in composer.composition.f).height }
    requires between { min (strip.height + (composer.composition.reach.up + composer.composition.reach.down)) (picture_in composer.composition.f).height * strip.width ≤ length between.now }
    requires room { length out.old ≡ strip.height * strip.width }
    requires stands { HasImageRows P.level (rule_picture (first_made composer.composition.composite) (picture_in composer.composition.f)) (seen_from composer.composition.reach strip) (seen_to (picture_in composer.composition.f).height composer.composition.reach strip) between.now }
    ensures made { IfOk result (λ done. done ≡ true → map P.level out.new ≡ cells_in strip (sample (composite_picture composer.entry.composition.composite (picture_in composer.entry.composition.f)))) }
    ensures taken { (picture_in composer.entry.composition.f).maxval ≤ P.top_level → SuitComposite composer.entry.composition.composite strip → IfOk result (λ done. done ≡ true) }
    ensures left_out { IfOk result (λ done. done ≡ false → out.new ≡ out.old) }
    ensures kept { IfErr result (λ _. out.new ≡ out.old) }
{
    let Composer { composition, top } = composer;
    let Composition {
        composite,
        f,
        reach,
    } = composition;
    match composite {
        Composite::InTurn(first, second) => {
            let sequence = Sequence {
                first,
                second,
                f,
                reach,
            };
            put_turn(room, sequence, top, strip, between, out)
        }
        Composite::Taken(first, second) => {
            let sequence = Sequence {
                first,
                second,
                f,
                reach,
            };
            put_taken_in_turn(room, lent, Turn { sequence, top }, strip, between, out)
        }
        Composite::Added(first, second) => {
            let sequence = Sequence {
                first,
                second,
                f,
                reach,
            };
            put_added_in_turn(room, lent, Turn { sequence, top }, strip, between, out)
        }
        Composite::Less(upper, lower) => {
            let pair = Pair { upper, lower, f };
            put_less_of_rules(room, lent, pair, strip, between, out)
        }
    }
}
