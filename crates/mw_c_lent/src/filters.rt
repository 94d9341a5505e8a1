//! Operators by full rectangles: openings and closings, what these take and add, and gradients. All are made by strips but gradients
//! by rectangles of few rows, which are made in one pass.

ghost use Rattle.std.specs.Prelude.{◌≡◌, ◌*◌, length, map, IfErr, IfOk, false, true};
ghost use Rattle.mw_model.specs.Flat.{minus};
ghost use Rattle.mw_c_arrays.specs.Sources.{IsArrayImage, picture_in};
ghost use Rattle.mw_c_lent.specs.Recipes.{AreTwoBoxes, AreTwoSteps};
ghost use Rattle.mw_c_lent.specs.Rules.{rule_picture};

use crate::gradients::put_range;
use crate::lendable::Lendable;
use crate::recipes::{Recipe, put_recipe};
use crate::rules::Rule;
use crate::slides::{slide_of, steps_of};
use mw_c_arrays::ArrayImage;
use mw_model::NoMemory;
use std::alloc::Global;

/// Writes what one rule makes of what another makes of an image, if it can. Says whether it did: where not, it writes nothing. It may
/// want memory (`NoMemory`), but only before it writes.
pub fn put_two_steps<P: Lendable>(
    alloc: Global,
    first: Rule<'_>,
    second: Rule<'_>,
    f: ArrayImage<'_>,
    out: &mut [P],
) -> Result<bool, NoMemory>
    requires sound { IsArrayImage f }
    requires room { length out.old ≡ (picture_in f).height * (picture_in f).width }
    ensures made { IfOk result (λ done. done ≡ true → map P.level out.new ≡ (rule_picture second.entry (rule_picture first.entry (picture_in f.entry))).samples) }
    ensures near { IfOk result (λ done. AreTwoSteps P.top_level first.entry second.entry f.entry → done ≡ true) }
    ensures left_out { IfOk result (λ done. done ≡ false → out.new ≡ out.old) }
    ensures kept { IfErr result (λ _. out.new ≡ out.old) }
{
    let Some(steps) = steps_of(first, second) else {
        return Ok(false);
    };
    put_recipe(alloc, Recipe::Filter(steps), f, out)
}

/// Writes an image less what one rule makes of what another makes of it, in the same way.
pub fn put_what_is_taken<P: Lendable>(
    alloc: Global,
    first: Rule<'_>,
    second: Rule<'_>,
    f: ArrayImage<'_>,
    out: &mut [P],
) -> Result<bool, NoMemory>
    requires sound { IsArrayImage f }
    requires room { length out.old ≡ (picture_in f).height * (picture_in f).width }
    ensures made { IfOk result (λ done. done ≡ true → map P.level out.new ≡ (minus (picture_in f.entry) (rule_picture second.entry (rule_picture first.entry (picture_in f.entry)))).samples) }
    ensures near { IfOk result (λ done. AreTwoSteps P.top_level first.entry second.entry f.entry → done ≡ true) }
    ensures left_out { IfOk result (λ done. done ≡ false → out.new ≡ out.old) }
    ensures kept { IfErr result (λ _. out.new ≡ out.old) }
{
    let Some(steps) = steps_of(first, second) else {
        return Ok(false);
    };
    put_recipe(alloc, Recipe::Taken(steps), f, out)
}

/// Writes what one rule makes of what another makes of an image, less the image, in the same way.
pub fn put_what_is_added<P: Lendable>(
    alloc: Global,
    first: Rule<'_>,
    second: Rule<'_>,
    f: ArrayImage<'_>,
    out: &mut [P],
) -> Result<bool, NoMemory>
    requires sound { IsArrayImage f }
    requires room { length out.old ≡ (picture_in f).height * (picture_in f).width }
    ensures made { IfOk result (λ done. done ≡ true → map P.level out.new ≡ (minus (rule_picture second.entry (rule_picture first.entry (picture_in f.entry))) (picture_in f.entry)).samples) }
    ensures near { IfOk result (λ done. AreTwoSteps P.top_level first.entry second.entry f.entry → done ≡ true) }
    ensures left_out { IfOk result (λ done. done ≡ false → out.new ≡ out.old) }
    ensures kept { IfErr result (λ _. out.new ≡ out.old) }
{
    let Some(steps) = steps_of(first, second) else {
        return Ok(false);
    };
    put_recipe(alloc, Recipe::Added(steps), f, out)
}

/// Writes what one rule makes of an image less what another makes of it, in the same way.
pub fn put_difference<P: Lendable>(
    alloc: Global,
    upper: Rule<'_>,
    lower: Rule<'_>,
    f: ArrayImage<'_>,
    out: &mut [P],
) -> Result<bool, NoMemory>
    requires sound { IsArrayImage f }
    requires room { length out.old ≡ (picture_in f).height * (picture_in f).width }
    ensures made { IfOk result (λ done. done ≡ true → map P.level out.new ≡ (minus (rule_picture upper.entry (picture_in f.entry)) (rule_picture lower.entry (picture_in f.entry))).samples) }
    ensures near { IfOk result (λ done. AreTwoBoxes P.top_level upper.entry lower.entry f.entry → done ≡ true) }
    ensures left_out { IfOk result (λ done. done ≡ false → out.new ≡ out.old) }
    ensures kept { IfErr result (λ _. out.new ≡ out.old) }
{
    let Some(upper) = slide_of(upper) else {
        return Ok(false);
    };
    let Some(lower) = slide_of(lower) else {
        return Ok(false);
    };
    if put_range(alloc, upper, lower, f, out)? {
        return Ok(true);
    }
    put_recipe(alloc, Recipe::Less(upper, lower), f, out)
}
