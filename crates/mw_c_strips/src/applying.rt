//! Plans from array to array. They write nothing where memory is refused.

ghost use Rattle.std.specs.Prelude.{◌≡◌, ◌*◌, length, map, IfErr, IfOk, false, true};
ghost use Rattle.mw_model.specs.declared.shapes.Kind.TheVariants as kind;
ghost use Rattle.mw_model.specs.Flat.{minus};
ghost use Rattle.mw_model.specs.Laws.{SameShape};
ghost use Rattle.mw_plan.specs.Steps.{last_plane};
ghost use Rattle.mw_c_arrays.specs.Sources.{IsArrayImage, array_sample_count, picture_in};
ghost use Rattle.mw_c_lent.specs.Recipes.{AreTwoSteps};
ghost use Rattle.mw_plan.specs.Forms.{is_strip_plan};
ghost use Rattle.mw_c_forms.specs.Forms.{IsForm, IsSlide, form_picture, rest_picture};
ghost use Rattle.mw_c_layers.specs.Layers.{layer_picture, origin_of, rule_picture};
ghost use Rattle.mw_c_layers.specs.Origins.{IsOrigin};

use crate::Sample;
use crate::cuts::are_by_strips;
use crate::gathering::{levels_made, set_made};
use crate::writing::{write_all, write_composite};
use mw_c_arrays::ArrayImage;
use mw_c_forms::{Form, Rest, form_of};
use mw_c_layers::{Formula, Layer, Origin};
use mw_c_lent::{
    Composite, Rule, put_difference, put_two_steps, put_what_is_added, put_what_is_taken,
};
use mw_model::NoMemory;
use mw_plan::Plan;
use std::alloc::Global;

/// Whether it is a set.
fn is_set(f: ArrayImage<'_>) -> bool
    ensures set { result ≡ true → (picture_in f.entry).kind ≡ kind.Bit }
    ensures grey { result ≡ false → (picture_in f.entry).kind ≡ kind.Grey }
{
    match f {
        ArrayImage::Grey8(_) => false,
        ArrayImage::Grey16(_) => false,
        ArrayImage::Pixels(_) => true,
    }
}

/// Writes what one rule makes.
fn one<P: Sample>(
    alloc: Global,
    rule: Rule<'_>,
    f: ArrayImage<'_>,
    out: &mut [P],
) -> Result<(), NoMemory>
    requires sound { IsArrayImage f }
    requires room { length out.old ≡ array_sample_count f }
    requires stands { P.stands (rule_picture rule (picture_in f)).maxval }
    ensures made { IfOk result (λ _. map P.level out.new ≡ (rule_picture rule.entry (picture_in f.entry)).samples) }
    ensures kept { IfErr result (λ _. out.new ≡ out.old) }
{
    write_all(alloc, Formula::One(Layer::By(rule, Origin::Array(f))), out)
}

/// Writes what one rule makes, less what another makes of the same image: where rows stand if there are kernels for that, else by
/// strips.
fn difference<P: Sample>(
    alloc: Global,
    upper: Rule<'_>,
    lower: Rule<'_>,
    f: ArrayImage<'_>,
    out: &mut [P],
) -> Result<(), NoMemory>
    requires sound { IsArrayImage f }
    requires room { length out.old ≡ array_sample_count f }
    requires upper { IsSlide upper }
    requires lower { IsSlide lower }
    requires stands { P.stands (picture_in f).maxval }
    ensures made { IfOk result (λ _. map P.level out.new ≡ (minus (rule_picture upper.entry (picture_in f.entry)) (rule_picture lower.entry (picture_in f.entry))).samples) }
    ensures kept { IfErr result (λ _. out.new ≡ out.old) }
{
    if put_difference(alloc, upper, lower, f, out)? {
        return Ok(());
    }
    let origin = Origin::Array(f);
    let formula = Formula::Less(Layer::By(upper, origin), Layer::By(lower, origin));
    if write_composite(alloc, Composite::Less(upper, lower), f, formula, out)? {
        return Ok(());
    }
    write_all(alloc, formula, out)
}

/// Writes what two rules in turn make of a set, with words between them.
fn in_turn_of_set<P: Sample>(
    alloc: Global,
    first: Rule<'_>,
    second: Rule<'_>,
    f: ArrayImage<'_>,
    out: &mut [P],
) -> Result<(), NoMemory>
    requires sound { IsArrayImage f }
    requires set { (picture_in f).kind ≡ kind.Bit }
    requires room { length out.old ≡ array_sample_count f }
    requires first { IsSlide first }
    requires second { IsSlide second }
    requires stands { P.stands (picture_in f).maxval }
    ensures made { IfOk result (λ _. map P.level out.new ≡ (rule_picture second.entry (rule_picture first.entry (picture_in f.entry))).samples) }
    ensures kept { IfErr result (λ _. out.new ≡ out.old) }
{
    let image = set_made(alloc, first, f)?;
    let layer = Layer::By(second, Origin::Made(&image));
    write_all(alloc, Formula::One(layer), out)
}

/// Writes what two rules in turn make of levels: where rows stand if there are kernels for that, else with one strip between them, or
/// with a plane where that takes less memory.
fn in_turn_of_levels<P: Sample>(
    alloc: Global,
    first: Rule<'_>,
    second: Rule<'_>,
    f: ArrayImage<'_>,
    out: &mut [P],
) -> Result<(), NoMemory>
    requires sound { IsArrayImage f }
    requires grey { (picture_in f).kind ≡ kind.Grey }
    requires room { length out.old ≡ array_sample_count f }
    requires first { IsSlide first }
    requires second { IsSlide second }
    requires stands { P.stands (picture_in f).maxval }
    ensures made { IfOk result (λ _. map P.level out.new ≡ (rule_picture second.entry (rule_picture first.entry (picture_in f.entry))).samples) }
    ensures kept { IfErr result (λ _. out.new ≡ out.old) }
{
    if put_two_steps(alloc, first, second, f, out)? {
        return Ok(());
    }
    let formula = Formula::One(Layer::Twice(second, first, f));
    if write_composite(alloc, Composite::InTurn(first, second), f, formula, out)? {
        return Ok(());
    }
    if are_by_strips(second, first, f) {
        return write_all(alloc, formula, out);
    }
    let plane = levels_made::<P>(alloc, first, f)?;
    let between = P::like(f, plane.as_slice());
    one(alloc, second, between, out)
}

/// Writes what two rules in turn make.
fn in_turn<P: Sample>(
    alloc: Global,
    first: Rule<'_>,
    second: Rule<'_>,
    f: ArrayImage<'_>,
    out: &mut [P],
) -> Result<(), NoMemory>
    requires sound { IsArrayImage f }
    requires room { length out.old ≡ array_sample_count f }
    requires first { IsSlide first }
    requires second { IsSlide second }
    requires stands { P.stands (picture_in f).maxval }
    ensures made { IfOk result (λ _. map P.level out.new ≡ (rule_picture second.entry (rule_picture first.entry (picture_in f.entry))).samples) }
    ensures kept { IfErr result (λ _. out.new ≡ out.old) }
{
    if is_set(f) {
        in_turn_of_set(alloc, first, second, f, out)
    } else {
        in_turn_of_levels(alloc, first, second, f, out)
    }
}

/// Writes what is left over of the image and a layer.
fn left_over<P: Sample>(
    alloc: Global,
    rest: Rest,
    f: ArrayImage<'_>,
    layer: Layer<'_>,
    out: &mut [P],
) -> Result<(), NoMemory>
    requires sound { IsArrayImage f }
    requires layer { IsOrigin (origin_of layer) }
    requires alike { SameShape (layer_picture layer) (picture_in f) }
    requires room { length out.old ≡ array_sample_count f }
    requires stands { P.stands (picture_in f).maxval }
    ensures made { IfOk result (λ _. map P.level out.new ≡ (rest_picture rest (picture_in f.entry) (layer_picture layer.entry)).samples) }
    ensures kept { IfErr result (λ _. out.new ≡ out.old) }
{
    let itself = Layer::Itself(f);
    match rest {
        Rest::Taken => write_all(alloc, Formula::Less(itself, layer), out),
        Rest::Added => write_all(alloc, Formula::Less(layer, itself), out),
    }
}

/// Writes what is left over of a set and what two rules in turn make of it, with words between them.
fn residue_of_set<P: Sample>(
    alloc: Global,
    rest: Rest,
    first: Rule<'_>,
    second: Rule<'_>,
    f: ArrayImage<'_>,
    out: &mut [P],
) -> Result<(), NoMemory>
    requires sound { IsArrayImage f }
    requires set { (picture_in f).kind ≡ kind.Bit }
    requires room { length out.old ≡ array_sample_count f }
    requires first { IsSlide first }
    requires second { IsSlide second }
    requires stands { P.stands (picture_in f).maxval }
    ensures made { IfOk result (λ _. map P.level out.new ≡ (rest_picture rest (picture_in f.entry) (rule_picture second.entry (rule_picture first.entry (picture_in f.entry)))).samples) }
    ensures kept { IfErr result (λ _. out.new ≡ out.old) }
{
    let image = set_made(alloc, first, f)?;
    let layer = Layer::By(second, Origin::Made(&image));
    left_over(alloc, rest, f, layer, out)
}

/// Writes what is left over by full rectangles, where there are kernels for that.
fn put_left_over<P: Sample>(
    alloc: Global,
    rest: Rest,
    first: Rule<'_>,
    second: Rule<'_>,
    f: ArrayImage<'_>,
    out: &mut [P],
) -> Result<bool, NoMemory>
    requires sound { IsArrayImage f }
    requires room { length out.old ≡ (picture_in f).height * (picture_in f).width }
    ensures made { IfOk result (λ done. done ≡ true → map P.level out.new ≡ (rest_picture rest (picture_in f.entry) (rule_picture second.entry (rule_picture first.entry (picture_in f.entry)))).samples) }
    ensures near { IfOk result (λ done. AreTwoSteps P.top_level first.entry second.entry f.entry → done ≡ true) }
    ensures left_out { IfOk result (λ done. done ≡ false → out.new ≡ out.old) }
    ensures kept { IfErr result (λ _. out.new ≡ out.old) }
{
    match rest {
        Rest::Taken => put_what_is_taken(alloc, first, second, f, out),
        Rest::Added => put_what_is_added(alloc, first, second, f, out),
    }
}

/// Writes what is left over by elements of any shape, where kernels make rows of it.
fn write_left_over<P: Sample>(
    alloc: Global,
    rest: Rest,
    first: Rule<'_>,
    second: Rule<'_>,
    f: ArrayImage<'_>,
    out: &mut [P],
) -> Result<bool, NoMemory>
    requires sound { IsArrayImage f }
    requires room { length out.old ≡ (picture_in f).height * (picture_in f).width }
    requires first { IsSlide first }
    requires second { IsSlide second }
    requires stands { P.stands (picture_in f).maxval }
    ensures made { IfOk result (λ done. done ≡ true → map P.level out.new ≡ (rest_picture rest (picture_in f.entry) (rule_picture second.entry (rule_picture first.entry (picture_in f.entry)))).samples) }
    ensures left_out { IfOk result (λ done. done ≡ false → out.new ≡ out.old) }
    ensures kept { IfErr result (λ _. out.new ≡ out.old) }
{
    let itself = Layer::Itself(f);
    let layer = Layer::Twice(second, first, f);
    match rest {
        Rest::Taken => {
            let formula = Formula::Less(itself, layer);
            write_composite(alloc, Composite::Taken(first, second), f, formula, out)
        }
        Rest::Added => {
            let formula = Formula::Less(layer, itself);
            write_composite(alloc, Composite::Added(first, second), f, formula, out)
        }
    }
}

/// Writes what is left over of levels and what two rules in turn make of them: where rows stand, else by strips, else with a plane
/// between the two.
fn residue_of_levels<P: Sample>(
    alloc: Global,
    rest: Rest,
    first: Rule<'_>,
    second: Rule<'_>,
    f: ArrayImage<'_>,
    out: &mut [P],
) -> Result<(), NoMemory>
    requires sound { IsArrayImage f }
    requires grey { (picture_in f).kind ≡ kind.Grey }
    requires room { length out.old ≡ array_sample_count f }
    requires first { IsSlide first }
    requires second { IsSlide second }
    requires stands { P.stands (picture_in f).maxval }
    ensures made { IfOk result (λ _. map P.level out.new ≡ (rest_picture rest (picture_in f.entry) (rule_picture second.entry (rule_picture first.entry (picture_in f.entry)))).samples) }
    ensures kept { IfErr result (λ _. out.new ≡ out.old) }
{
    if put_left_over(alloc, rest, first, second, f, out)? {
        return Ok(());
    }
    if write_left_over(alloc, rest, first, second, f, out)? {
        return Ok(());
    }
    if are_by_strips(second, first, f) {
        return left_over(alloc, rest, f, Layer::Twice(second, first, f), out);
    }
    let plane = levels_made::<P>(alloc, first, f)?;
    let between = P::like(f, plane.as_slice());
    let layer = Layer::By(second, Origin::Array(between));
    left_over(alloc, rest, f, layer, out)
}

/// Writes what is left over of an image and what two rules in turn make of it.
fn residue<P: Sample>(
    alloc: Global,
    rest: Rest,
    first: Rule<'_>,
    second: Rule<'_>,
    f: ArrayImage<'_>,
    out: &mut [P],
) -> Result<(), NoMemory>
    requires sound { IsArrayImage f }
    requires room { length out.old ≡ array_sample_count f }
    requires first { IsSlide first }
    requires second { IsSlide second }
    requires stands { P.stands (picture_in f).maxval }
    ensures made { IfOk result (λ _. map P.level out.new ≡ (rest_picture rest (picture_in f.entry) (rule_picture second.entry (rule_picture first.entry (picture_in f.entry)))).samples) }
    ensures kept { IfErr result (λ _. out.new ≡ out.old) }
{
    if is_set(f) {
        residue_of_set(alloc, rest, first, second, f, out)
    } else {
        residue_of_levels(alloc, rest, first, second, f, out)
    }
}

/// Writes what a form makes.
fn write_form<P: Sample>(
    alloc: Global,
    form: Form<'_>,
    f: ArrayImage<'_>,
    out: &mut [P],
) -> Result<(), NoMemory>
    requires sound { IsArrayImage f }
    requires form { IsForm form }
    requires room { length out.old ≡ array_sample_count f }
    requires stands { P.stands (form_picture form (picture_in f)).maxval }
    ensures made { IfOk result (λ _. map P.level out.new ≡ (form_picture form.entry (picture_in f.entry)).samples) }
    ensures kept { IfErr result (λ _. out.new ≡ out.old) }
{
    match form {
        Form::One(rule) => one(alloc, rule, f, out),
        Form::InTurn(first, second) => in_turn(alloc, first, second, f, out),
        Form::Residue(rest, first, second) => residue(alloc, rest, first, second, f, out),
        Form::Less(upper, lower) => difference(alloc, upper, lower, f, out),
    }
}

/// Writes what a plan makes of an image, which is one that can be made by strips.
pub fn write_plan<P: Sample>(
    alloc: Global,
    plan: &Plan,
    f: ArrayImage<'_>,
    out: &mut [P],
) -> Result<(), NoMemory>
    requires sound { IsArrayImage f }
    requires strips { is_strip_plan plan.now ≡ true }
    requires room { length out.old ≡ array_sample_count f }
    requires stands { P.stands (last_plane plan.now (picture_in f)).maxval }
    ensures made { IfOk result (λ _. map P.level out.new ≡ (last_plane plan.now (picture_in f.entry)).samples) }
    ensures kept { IfErr result (λ _. out.new ≡ out.old) }
{
    match form_of(plan) {
        Some(form) => write_form(alloc, form, f, out),
        None => unreachable!(),
    }
}
