//! What is made of a strip, by the steps that plans have.

ghost use Rattle.std.specs.Prelude.{◌≡◌, ◌≤◌, [], ◌∷◌, false, IfOk};
ghost use Rattle.std.specs.List.{AllByRecursion};
ghost use Rattle.mw_model.specs.Flat.{minus};
ghost use Rattle.mw_model.specs.Laws.{SameShape};
ghost use Rattle.mw_model.specs.Plans.{is_sum};
ghost use Rattle.mw_model.specs.declared.limits.TheConstants.{SIDE_LIMIT};
ghost use Rattle.mw_tile.specs.Windows.{window_of};
ghost use Rattle.mw_step_task.specs.Meanings.{meaning};
ghost use Rattle.mw_step_task.specs.WindowTasks.{FitsStep, IsBounded};
ghost use Rattle.mw_c_arrays.specs.Sources.{IsArrayImage, picture_in};
ghost use Rattle.mw_c_layers.specs.Layers.{IsFormula, formula_picture, layer_picture, origin_of, rule_picture};
ghost use Rattle.mw_c_layers.specs.Origins.{IsOrigin, origin_picture};
ghost use Rattle.mw_c_layers.specs.Parts.{IsStrip, made_picture, part_of, whole_window};

use crate::layers::{Formula, Layer, step_of};
use crate::origins::Origin;
use crate::rows::rows;
use crate::windows::{standing, window};
use mw_c_arrays::ArrayImage;
use mw_c_lent::Rule;
use mw_grid::{grown, whole_frame};
use mw_model::{NoMemory, Rect, TaskId};
use mw_pixel::Image;
use mw_step_task::{Step, TileDone, Work};
use mw_tile_pieces::SharedWindow;
use std::alloc::Global;

/// A task wants numbers, which nobody looks at here.
const TASK: TaskId = TaskId {
    ticket: 0,
    step: 0,
    tile: 0,
};

/// The step, done in the tile.
fn done(
    alloc: Global,
    step: Step,
    tile: Rect,
    windows: Vec<SharedWindow>,
) -> Result<TileDone, NoMemory>
    requires { FitsStep (meaning step) tile windows.items }
    ensures step { IfOk result (λ d. d.step ≡ meaning step) }
    ensures place { IfOk result (λ d. d.rect ≡ tile) }
    ensures windows { IfOk result (λ d. d.windows ≡ windows.items) }
{
    match Work::new(TASK, tile, step, windows) {
        Some(work) => match mw_step::run(alloc, work) {
            Ok(done) => Ok(done),
            Err(_refused) => Err(NoMemory),
        },
        None => unreachable!(),
    }
}

/// What the step makes of the windows in the tile.
fn made_of(
    alloc: Global,
    step: Step,
    tile: Rect,
    windows: Vec<SharedWindow>,
) -> Result<Image, NoMemory>
    requires fits { FitsStep (meaning step) tile windows.items }
    requires unsummed { is_sum (meaning step) ≡ false }
    requires bounded { AllByRecursion IsBounded windows.items }
    ensures { IfOk result (λ g. g ≡ made_picture (meaning step) windows.items tile) }
{
    let done = done(alloc, step, tile, windows)?;
    Ok(done.into_image())
}

/// One window in a list.
fn alone(alloc: Global, window: SharedWindow) -> Result<Vec<SharedWindow>, NoMemory>
    ensures { IfOk result (λ v. v.items ≡ window ∷ []) }
{
    let mut windows = Vec::with_capacity(alloc, 1)?;
    windows.push(window)?;
    Ok(windows)
}

/// Two windows in a list.
fn pair(alloc: Global, a: SharedWindow, b: SharedWindow) -> Result<Vec<SharedWindow>, NoMemory>
    ensures { IfOk result (λ v. v.items ≡ a ∷ b ∷ []) }
{
    let mut windows = Vec::with_capacity(alloc, 2)?;
    windows.push(a)?;
    windows.push(b)?;
    Ok(windows)
}

/// The rows of a strip, as a rule makes them of an image.
pub fn by_rule(alloc: Global, rule: Rule<'_>, f: Origin<'_>, strip: Rect) -> Result<Image, NoMemory>
    requires sound { IsOrigin f }
    requires strip { IsStrip strip (origin_picture f) }
    ensures { IfOk result (λ g. g ≡ part_of (rule_picture rule.entry (origin_picture f.entry)) strip) }
{
    let step = step_of(rule)?;
    let place = grown(strip, step.reach(), f.width(), f.height());
    let seen = window(alloc, f, place)?;
    let windows = alone(alloc, seen)?;
    made_of(alloc, step, strip, windows)
}

/// The window of some rows of what a rule makes of an array.
fn window_between(
    alloc: Global,
    rule: Rule<'_>,
    f: ArrayImage<'_>,
    place: Rect,
) -> Result<SharedWindow, NoMemory>
    requires sound { IsArrayImage f }
    requires strip { IsStrip place (picture_in f) }
    ensures window { IfOk result (λ w. w ≡ window_of place (rule_picture rule.entry (picture_in f.entry))) }
    ensures bounded { IfOk result IsBounded }
{
    let image = by_rule(alloc, rule, Origin::Array(f), place)?;
    standing(alloc, f.width(), f.height(), place, &image)
}

/// The rows of a strip, as a second rule makes them of what a first makes of an array: of that only the rows that the second looks
/// at are made.
fn by_two_rules(
    alloc: Global,
    second: Rule<'_>,
    first: Rule<'_>,
    f: ArrayImage<'_>,
    strip: Rect,
) -> Result<Image, NoMemory>
    requires sound { IsArrayImage f }
    requires strip { IsStrip strip (picture_in f) }
    ensures { IfOk result (λ g. g ≡ part_of (rule_picture second.entry (rule_picture first.entry (picture_in f.entry))) strip) }
{
    let step = step_of(second)?;
    let beyond = step.reach();
    let place = grown(strip, beyond, f.width(), f.height());
    let seen = window_between(alloc, first, f, place)?;
    let windows = alone(alloc, seen)?;
    made_of(alloc, step, strip, windows)
}

/// The rows of a strip of a layer.
fn layer_strip(alloc: Global, layer: Layer<'_>, strip: Rect) -> Result<Image, NoMemory>
    requires sound { IsOrigin (origin_of layer) }
    requires strip { IsStrip strip (layer_picture layer) }
    ensures { IfOk result (λ g. g ≡ part_of (layer_picture layer.entry) strip) }
{
    match layer {
        Layer::Itself(f) => rows(alloc, f, strip),
        Layer::By(rule, f) => by_rule(alloc, rule, f, strip),
        Layer::Twice(second, first, f) => by_two_rules(alloc, second, first, f, strip),
    }
}

/// The window that has the whole image.
fn whole(alloc: Global, image: &Image) -> Result<SharedWindow, NoMemory>
    ensures window { IfOk result (λ w. w ≡ whole_window image.now) }
    ensures bounded { IfOk result IsBounded }
{
    // for what holds of every image
    let _picture = image.view();
    SharedWindow::of_image(alloc, image, whole_frame(image.width(), image.height()))
}

/// What the first image has more than the second.
fn less(alloc: Global, a: &Image, b: &Image) -> Result<Image, NoMemory>
    requires alike { SameShape b.now a.now }
    requires wide { (1 ≤ a.now.width) × (a.now.width ≤ SIDE_LIMIT) }
    requires high { (1 ≤ a.now.height) × (a.now.height ≤ SIDE_LIMIT) }
    ensures { IfOk result (λ g. g ≡ minus a.now b.now) }
{
    let frame = whole_frame(a.width(), a.height());
    let first = whole(alloc, a)?;
    let second = whole(alloc, b)?;
    let windows = pair(alloc, first, second)?;
    made_of(alloc, Step::Minus, frame, windows)
}

/// Whether a layer is an image that stands in an array.
fn is_itself(layer: Layer<'_>) -> bool {
    match layer {
        Layer::Itself(_) => true,
        Layer::By(_, _) => false,
        Layer::Twice(_, _, _) => false,
    }
}

/// The rows of a strip of what a first layer has more than a second. The copy of rows that stand somewhere is made last, since what
/// rules make wants more memory.
fn strip_of_both(
    alloc: Global,
    first: Layer<'_>,
    second: Layer<'_>,
    strip: Rect,
) -> Result<Image, NoMemory>
    requires first { IsOrigin (origin_of first) }
    requires second { IsOrigin (origin_of second) }
    requires alike { SameShape (layer_picture second) (layer_picture first) }
    requires strip { IsStrip strip (layer_picture first) }
    ensures { IfOk result (λ g. g ≡ part_of (minus (layer_picture first.entry) (layer_picture second.entry)) strip) }
{
    if is_itself(first) {
        let lower = layer_strip(alloc, second, strip)?;
        let upper = layer_strip(alloc, first, strip)?;
        return less(alloc, &upper, &lower);
    }
    let a = layer_strip(alloc, first, strip)?;
    let b = layer_strip(alloc, second, strip)?;
    less(alloc, &a, &b)
}

/// The rows of a strip.
pub fn strip_of(alloc: Global, formula: Formula<'_>, strip: Rect) -> Result<Image, NoMemory>
    requires sound { IsFormula formula }
    requires strip { IsStrip strip (formula_picture formula) }
    ensures { IfOk result (λ g. g ≡ part_of (formula_picture formula.entry) strip) }
{
    match formula {
        Formula::One(layer) => layer_strip(alloc, layer, strip),
        Formula::Less(first, second) => strip_of_both(alloc, first, second, strip),
    }
}
