//! What is made at each place of images.

ghost use Rattle.std.specs.Prelude.{◌≡◌, IfOk};
ghost use Rattle.mw_step_task.specs.Meanings.{meaning};
ghost use Rattle.mw_c_layers.specs.Layers.{origin_of, step_of};

use crate::origins::Origin;
use mw_c_arrays::ArrayImage;
use mw_c_lent::Rule;
use mw_model::NoMemory;
use mw_step_task::Step;
use std::sync::Arc;

/// An image, what a rule makes of one, or what a second rule makes of what a first makes of one.
#[derive(Clone, Copy)]
pub enum Layer<'a> {
    Itself(ArrayImage<'a>),
    By(Rule<'a>, Origin<'a>),
    Twice(Rule<'a>, Rule<'a>, ArrayImage<'a>),
}

/// A layer, or what a first layer has more than a second.
#[derive(Clone, Copy)]
pub enum Formula<'a> {
    One(Layer<'a>),
    Less(Layer<'a>, Layer<'a>),
}

/// The step of a plan that does the same, as one more owner of the element.
pub(crate) fn step_of(rule: Rule<'_>) -> Result<Step, NoMemory>
    ensures { IfOk result (λ s. meaning s ≡ step_of rule.entry) }
{
    Ok(match rule {
        Rule::Least(element) => Step::Erode(Arc::try_clone(element)?),
        Rule::Greatest(element) => Step::Dilate(Arc::try_clone(element)?),
        Rule::LeastBox(offsets) => Step::ErodeBox(offsets),
        Rule::GreatestBox(offsets) => Step::DilateBox(offsets),
        Rule::Nth(element, k) => Step::Rank(Arc::try_clone(element)?, k),
        Rule::AtLeast(k) => Step::AtLeast(k),
    })
}

/// The image that a layer looks at.
pub fn origin_of(layer: Layer<'_>) -> Origin<'_>
    ensures { result ≡ origin_of layer.entry }
{
    match layer {
        Layer::Itself(f) => Origin::Array(f),
        Layer::By(_, f) => f,
        Layer::Twice(_, _, f) => Origin::Array(f),
    }
}
