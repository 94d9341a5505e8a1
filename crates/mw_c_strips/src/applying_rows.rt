//! Some rows of what plans make whose rows stand alone, from array to array: as many from row `first` on as the array has. They write
//! nothing where memory is refused.

ghost use Rattle.std.specs.Prelude.{◌≡◌, length, map, IfErr, IfOk, IfSome, is_some, false, true};
ghost use Rattle.mw_model.specs.Pictures.{Picture};
ghost use Rattle.mw_plan.specs.Steps.{last_plane};
ghost use Rattle.mw_c_arrays.specs.Sources.{IsArrayImage, picture_in};
ghost use Rattle.mw_plan.specs.Forms.{is_row_plan};
ghost use Rattle.mw_c_forms.specs.Forms.{IsForm, form_picture, form_steps};
ghost use Rattle.mw_c_lent.specs.Composites.{composite_picture};
ghost use Rattle.mw_c_layers.specs.Layers.{IsFormula, formula_picture};
ghost use Rattle.mw_c_strips.specs.Rows.{AreRows, rows_from};

use crate::Sample;
use crate::writing::{write_composite_rows, write_rows};
use mw_c_arrays::ArrayImage;
use mw_c_forms::{Form, form_of};
use mw_c_layers::{Formula, Layer, Origin};
use mw_c_lent::Composite;
use mw_model::NoMemory;
use mw_plan::Plan;
use std::alloc::Global;

/// What makes a form of which rows stand alone.
fn formula_of<'a>(form: Form<'a>, f: ArrayImage<'a>) -> Formula<'a>
    requires sound { IsArrayImage f }
    requires form { IsForm form }
    requires alone { is_row_plan (form_steps form) ≡ true }
    ensures sound { IsFormula result }
    ensures picture { formula_picture result ≡ form_picture form.entry (picture_in f.entry) }
{
    let f = Origin::Array(f);
    match form {
        Form::One(rule) => Formula::One(Layer::By(rule, f)),
        Form::Less(upper, lower) => Formula::Less(Layer::By(upper, f), Layer::By(lower, f)),
        Form::InTurn(_, _) => unreachable!(),
        Form::Residue(_, _, _) => unreachable!(),
    }
}

/// The difference that a form is, if it is one of what two rules make.
fn composite_of(form: Form<'_>) -> Option<Composite<'_>>
    ensures { IfSome result (λ x. (f : Picture) → composite_picture x f ≡ form_picture form.entry f) }
{
    match form {
        Form::Less(upper, lower) => Some(Composite::Less(upper, lower)),
        Form::One(_) => None,
        Form::InTurn(_, _) => None,
        Form::Residue(_, _, _) => None,
    }
}

/// Writes rows of what a form makes of which rows stand alone.
fn write_form_rows<P: Sample>(
    alloc: Global,
    form: Form<'_>,
    f: ArrayImage<'_>,
    first: u32,
    out: &mut [P],
) -> Result<(), NoMemory>
    requires sound { IsArrayImage f }
    requires form { IsForm form }
    requires alone { is_row_plan (form_steps form) ≡ true }
    requires rows { AreRows first (length out.old) (picture_in f) }
    requires stands { P.stands (form_picture form (picture_in f)).maxval }
    ensures made { IfOk result (λ _. map P.level out.new ≡ rows_from first (length out.old) (form_picture form.entry (picture_in f.entry))) }
    ensures kept { IfErr result (λ _. out.new ≡ out.old) }
{
    let formula = formula_of(form, f);
    if let Some(composite) = composite_of(form) {
        if write_composite_rows(alloc, composite, f, formula, first, out)? {
            return Ok(());
        }
    }
    write_rows(alloc, formula, first, out)
}

/// Writes rows of what a plan makes of an image, whose rows can be made alone.
pub fn write_plan_rows<P: Sample>(
    alloc: Global,
    plan: &Plan,
    f: ArrayImage<'_>,
    first: u32,
    out: &mut [P],
) -> Result<(), NoMemory>
    requires sound { IsArrayImage f }
    requires alone { is_row_plan plan.now ≡ true }
    requires rows { AreRows first (length out.old) (picture_in f) }
    requires stands { P.stands (last_plane plan.now (picture_in f)).maxval }
    ensures made { IfOk result (λ _. map P.level out.new ≡ rows_from first (length out.old) (last_plane plan.now (picture_in f.entry))) }
    ensures kept { IfErr result (λ _. out.new ≡ out.old) }
{
    match form_of(plan) {
        Some(form) => write_form_rows(alloc, form, f, first, out),
        None => unreachable!(),
    }
}
