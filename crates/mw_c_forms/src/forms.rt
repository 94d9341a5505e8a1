//! Plans of few steps, as what strips make of an image.

ghost use Rattle.std.specs.Prelude.{◌≡◌, [], ◌∷◌, is_some, true, IfNone, IfSome};
ghost use Rattle.mw_model.specs.Pictures.{Picture};
ghost use Rattle.mw_model.specs.PlanSteps.{AtLeast};
ghost use Rattle.mw_model.specs.Plans.{FromInput};
ghost use Rattle.mw_step_task.specs.Meanings.{meaning};
ghost use Rattle.mw_plan.specs.Seen.{planned, source, sources};
ghost use Rattle.mw_plan.specs.Steps.{last_plane, less};
ghost use Rattle.mw_plan.specs.Forms.{is_difference, is_minus, is_residue_form, is_slide, reads_source, is_strip_plan, is_threshold, lessens, read_by, reads_one, reads_two, slides, thresholds};
ghost use Rattle.mw_c_lent.specs.Rules.{step_of};
ghost use Rattle.mw_c_forms.specs.Forms.{IsForm, IsSlide, form_picture, form_steps};

use mw_c_lent::Rule;
use mw_plan::{Plan, PlannedStep, Source, Sources};
use mw_step_task::Step;

/// What is left over of an image and another that was made of it.
#[derive(Clone, Copy)]
pub enum Rest {
    /// The image less the other.
    Taken,
    /// The other less the image.
    Added,
}

/// What is made of an image by one step, by two in turn, or by a difference behind them.
#[derive(Clone, Copy)]
pub enum Form<'a> {
    One(Rule<'a>),
    /// The second of what the first makes.
    InTurn(Rule<'a>, Rule<'a>),
    /// What two in turn take from the image, or add to it.
    Residue(Rest, Rule<'a>, Rule<'a>),
    /// What the first makes less what the second makes.
    Less(Rule<'a>, Rule<'a>),
}

/// The rule of a step that is an extremum or a rank.
fn slide_rule(step: &Step) -> Option<Rule<'_>>
    ensures some { IfSome result (λ r. step_of r ≡ meaning step.entry.now) }
    ensures any { is_some result ≡ is_slide (meaning step.entry.now) }
{
    match step {
        Step::Erode(element) => Some(Rule::Least(element)),
        Step::Dilate(element) => Some(Rule::Greatest(element)),
        Step::ErodeBox(offsets) => Some(Rule::LeastBox(*offsets)),
        Step::DilateBox(offsets) => Some(Rule::GreatestBox(*offsets)),
        Step::Rank(element, k) => Some(Rule::Nth(element, *k)),
        _ => None,
    }
}

/// The level of a threshold.
fn level_of(step: &Step) -> Option<u32>
    ensures some { IfSome result (λ k. AtLeast k ≡ meaning step.entry.now) }
    ensures any { is_some result ≡ is_threshold (meaning step.entry.now) }
{
    match step {
        Step::AtLeast(k) => Some(*k),
        _ => None,
    }
}

/// Whether the step is a difference.
fn is_minus(step: &Step) -> bool
    ensures { result ≡ is_minus (meaning step.now) }
{
    matches!(step, Step::Minus)
}

/// Whether a source is the wanted one.
fn reads_source(wanted: Source, from: Source) -> bool
    ensures { result ≡ reads_source (source wanted) (source from) }
{
    match (wanted, from) {
        (Source::Input(a), Source::Input(b)) => a == b,
        (Source::Step(a), Source::Step(b)) => a == b,
        (Source::Input(_), Source::Step(_)) => false,
        (Source::Step(_), Source::Input(_)) => false,
    }
}

/// Whether the wanted source is the only one.
fn reads_one(wanted: Source, from: Sources) -> bool
    ensures { result ≡ reads_one (source wanted) (sources from) }
{
    match from {
        Sources::Nothing => false,
        Sources::One(a) => reads_source(wanted, a),
        Sources::Two(_, _) => false,
        Sources::Three(_, _, _) => false,
    }
}

/// Whether these two are the sources.
fn reads_two(first: Source, second: Source, from: Sources) -> bool
    ensures { result ≡ reads_two (source first) (source second) (sources from) }
{
    match from {
        Sources::Nothing => false,
        Sources::One(_) => false,
        Sources::Two(a, b) => reads_source(first, a) && reads_source(second, b),
        Sources::Three(_, _, _) => false,
    }
}

/// The rule of a step that is an extremum or a rank of the wanted source.
fn slide_from(step: &PlannedStep, wanted: Source) -> Option<Rule<'_>>
    ensures some { IfSome result (λ r. IsSlide r × (planned step.entry.now ≡ read_by (source wanted) (step_of r))) }
    ensures any { is_some result ≡ slides (source wanted) (planned step.entry.now) }
{
    let rule = slide_rule(&step.step)?;
    if reads_one(wanted, step.sources) {
        return Some(rule);
    }
    None
}

/// The rule of a threshold of the wanted source.
fn threshold_from(step: &PlannedStep, wanted: Source) -> Option<Rule<'_>>
    ensures some { IfSome result (λ r. planned step.entry.now ≡ read_by (source wanted) (step_of r)) }
    ensures any { is_some result ≡ thresholds (source wanted) (planned step.entry.now) }
{
    let level = level_of(&step.step)?;
    if reads_one(wanted, step.sources) {
        return Some(Rule::AtLeast(level));
    }
    None
}

/// Whether a step is the difference of these sources.
fn lessens(first: Source, second: Source, step: &PlannedStep) -> bool
    ensures value { result ≡ lessens (source first) (source second) (planned step.now) }
    ensures is { result ≡ true → planned step.now ≡ less (source first) (source second) }
{
    is_minus(&step.step) && reads_two(first, second, step.sources)
}

/// The form of one step.
fn of_one(a: &PlannedStep) -> Option<Form<'_>>
    ensures some { IfSome result (λ s. IsForm s × (planned a.entry.now ∷ [] ≡ form_steps s)) }
    ensures any { is_some result ≡ is_strip_plan (planned a.entry.now ∷ []) }
{
    if let Some(rule) = slide_from(a, Source::Input(0)) {
        return Some(Form::One(rule));
    }
    if let Some(rule) = threshold_from(a, Source::Input(0)) {
        return Some(Form::One(rule));
    }
    None
}

/// The form of two steps.
fn of_two<'a>(a: &'a PlannedStep, b: &'a PlannedStep) -> Option<Form<'a>>
    ensures some { IfSome result (λ s. IsForm s × (planned a.entry.now ∷ planned b.entry.now ∷ [] ≡ form_steps s)) }
    ensures any { is_some result ≡ is_strip_plan (planned a.entry.now ∷ planned b.entry.now ∷ []) }
{
    let first = slide_from(a, Source::Input(0))?;
    let second = slide_from(b, Source::Step(0))?;
    Some(Form::InTurn(first, second))
}

/// The form of a difference of two steps of the image, of which the first is known.
fn difference_of<'a>(first: Rule<'a>, b: &'a PlannedStep, c: &PlannedStep) -> Option<Form<'a>>
    requires { IsSlide first }
    ensures some { IfSome result (λ s. IsForm s × (read_by (FromInput 0) (step_of first.entry) ∷ planned b.entry.now ∷ planned c.now ∷ [] ≡ form_steps s)) }
    ensures any { is_some result ≡ is_difference (planned b.entry.now) (planned c.now) }
{
    let second = slide_from(b, Source::Input(0))?;
    if lessens(Source::Step(0), Source::Step(1), c) {
        return Some(Form::Less(first, second));
    }
    None
}

/// The form of a difference of the image and two steps in turn, of which the first is known.
fn residue_of<'a>(first: Rule<'a>, b: &'a PlannedStep, c: &PlannedStep) -> Option<Form<'a>>
    requires { IsSlide first }
    ensures some { IfSome result (λ s. IsForm s × (read_by (FromInput 0) (step_of first.entry) ∷ planned b.entry.now ∷ planned c.now ∷ [] ≡ form_steps s)) }
    ensures any { is_some result ≡ is_residue_form (planned b.entry.now) (planned c.now) }
{
    let second = slide_from(b, Source::Step(0))?;
    if lessens(Source::Input(0), Source::Step(1), c) {
        return Some(Form::Residue(Rest::Taken, first, second));
    }
    if lessens(Source::Step(1), Source::Input(0), c) {
        return Some(Form::Residue(Rest::Added, first, second));
    }
    None
}

/// The form of three steps.
fn of_three<'a>(a: &'a PlannedStep, b: &'a PlannedStep, c: &PlannedStep) -> Option<Form<'a>>
    ensures some { IfSome result (λ s. IsForm s × (planned a.entry.now ∷ planned b.entry.now ∷ planned c.now ∷ [] ≡ form_steps s)) }
    ensures any { is_some result ≡ is_strip_plan (planned a.entry.now ∷ planned b.entry.now ∷ planned c.now ∷ []) }
{
    let first = slide_from(a, Source::Input(0))?;
    if let Some(form) = difference_of(first, b, c) {
        return Some(form);
    }
    residue_of(first, b, c)
}

/// The form of a plan, if it is one that is made by strips.
pub fn form_of(plan: &Plan) -> Option<Form<'_>>
    ensures sound { IfSome result IsForm }
    ensures steps { IfSome result (λ s. plan.entry.now ≡ form_steps s) }
    ensures means { IfSome result (λ s. (f : Picture) → last_plane plan.entry.now f ≡ form_picture s f) }
    ensures any { is_some result ≡ is_strip_plan plan.entry.now }
{
    match plan.len() {
        1 => of_one(plan.step(0)),
        2 => of_two(plan.step(0), plan.step(1)),
        3 => of_three(plan.step(0), plan.step(1), plan.step(2)),
        _ => None,
    }
}
