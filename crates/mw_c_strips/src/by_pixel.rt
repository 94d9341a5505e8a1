//! What formulas make at one place, by the definitions alone and without memory: slow, and never refused. Where memory is refused
//! for a strip after others were written, its rows are made so.

ghost use Rattle.std.specs.Prelude.{◌≡◌, ◌<◌};
ghost use Rattle.mw_model.specs.Pictures.{sample};
ghost use Rattle.mw_c_layers.specs.Layers.{IsFormula, formula_picture, layer_picture, origin_of, rule_picture};
ghost use Rattle.mw_c_layers.specs.Origins.{IsOrigin, origin_picture};

use mw_c_layers::{Formula, Layer, Origin};
use mw_c_lent::Rule;
use mw_c_places::{Between, Levels, made_at};

/// What a rule makes at column x of row y.
fn by_rule_at(rule: Rule<'_>, f: Origin<'_>, x: u32, y: u32) -> u16
    requires sound { IsOrigin f }
    requires across { x < (origin_picture f).width }
    requires down { y < (origin_picture f).height }
    ensures { result ≡ sample (rule_picture rule.entry (origin_picture f.entry)) x y }
{
    match f {
        Origin::Array(f) => made_at(rule, &f, x, y),
        Origin::Made(f) => made_at(rule, f, x, y),
    }
}

/// The level of a layer at column x of row y.
fn layer_at(layer: Layer<'_>, x: u32, y: u32) -> u16
    requires sound { IsOrigin (origin_of layer) }
    requires across { x < (layer_picture layer).width }
    requires down { y < (layer_picture layer).height }
    ensures { result ≡ sample (layer_picture layer.entry) x y }
{
    match layer {
        Layer::Itself(f) => f.level_in(x, y),
        Layer::By(rule, f) => by_rule_at(rule, f, x, y),
        Layer::Twice(second, first, f) => made_at(second, &Between { rule: first, f }, x, y),
    }
}

/// The level at column x of row y.
pub(crate) fn level_at(formula: Formula<'_>, x: u32, y: u32) -> u16
    requires sound { IsFormula formula }
    requires across { x < (formula_picture formula).width }
    requires down { y < (formula_picture formula).height }
    ensures { result ≡ sample (formula_picture formula.entry) x y }
{
    match formula {
        Formula::One(layer) => layer_at(layer, x, y),
        Formula::Less(first, second) => layer_at(first, x, y).saturating_sub(layer_at(
            second, x, y,
        )),
    }
}
