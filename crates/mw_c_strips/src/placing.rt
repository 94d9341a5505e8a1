//! Strips of differences of two layers that kernels make where they are to stand: by rectangles that do not have the place that they
//! are put on, in frames of few columns, and of an image and a plane that was made of it. No window of an image is copied for them, and no
//! image of a strip. A kernel says whether it made its rows; where not, `mw_c_layers` makes the strip.

ghost use Rattle.std.specs.Prelude.{◌≡◌, ◌+◌, ◌*◌, ◌<◌, ◌^◌, length, map, IfErr, IfOk, IfSome, false, true};
ghost use Rattle.mw_model.specs.Flat.{minus};
ghost use Rattle.mw_model.specs.Laws.{SameShape};
ghost use Rattle.mw_model.specs.Pictures.{sample};
ghost use Rattle.mw_model.specs.Tasks.{cells_in};
ghost use Rattle.mw_c_arrays.specs.Sources.{IsArrayImage, picture_in};
ghost use Rattle.mw_c_layers.specs.Layers.{IsFormula, formula_picture, layer_picture, origin_of, rule_picture};
ghost use Rattle.mw_c_layers.specs.Origins.{IsOrigin, origin_picture};
ghost use Rattle.mw_c_layers.specs.Parts.{IsStrip};

use crate::Sample;
use mw_c_arrays::ArrayImage;
use mw_c_layers::{Formula, Layer, Origin, origin_of};
use mw_c_lent::{Middle, Rule, put_middle};
use mw_model::{NoMemory, Rect};
use mw_pixel::copies;
use std::alloc::Global;

/// The rows of a strip, and what is made of them.
fn middle<'a>(rule: Rule<'a>, f: ArrayImage<'a>, strip: Rect) -> Middle<'a>
    requires low { strip.y + strip.height < 2 ^ 32 }
    ensures rule { result.rule ≡ rule.entry }
    ensures image { result.f ≡ f.entry }
    ensures from { result.from ≡ strip.y }
    ensures to { result.to ≡ strip.y + strip.height }
{
    Middle {
        rule,
        f,
        from: strip.y,
        to: strip.y + strip.height,
    }
}

/// The samples of a strip of an image, if they stand in an array of such samples.
fn own_rows<'a, P: Sample>(f: ArrayImage<'a>, strip: Rect) -> Option<&'a [P]>
    requires sound { IsArrayImage f }
    requires strip { IsStrip strip (picture_in f) }
    ensures rows { IfSome result (λ rows. map P.level rows.now ≡ cells_in strip (sample (picture_in f.entry))) }
    ensures size { IfSome result (λ rows. length rows.now ≡ strip.height * strip.width) }
{
    let Some(samples) = P::grey(f) else {
        return None;
    };
    let start = strip.y as usize * strip.width as usize;
    let count = strip.height as usize * strip.width as usize;
    let end = start + count;
    Some(&samples[start..end])
}

/// Writes the rows of a strip of what a rule makes, if there is a kernel for that.
fn put_by<P: Sample>(
    alloc: Global,
    rule: Rule<'_>,
    f: Origin<'_>,
    strip: Rect,
    out: &mut [P],
) -> Result<bool, NoMemory>
    requires sound { IsOrigin f }
    requires strip { IsStrip strip (origin_picture f) }
    requires room { length out.old ≡ strip.height * strip.width }
    ensures made { IfOk result (λ done. done ≡ true → map P.level out.new ≡ cells_in strip (sample (rule_picture rule.entry (origin_picture f.entry)))) }
    ensures left_out { IfOk result (λ done. done ≡ false → out.new ≡ out.old) }
    ensures kept { IfErr result (λ _. out.new ≡ out.old) }
{
    match f {
        Origin::Array(f) => put_middle(alloc, middle(rule, f, strip), out),
        Origin::Made(_) => Ok(false),
    }
}

/// Writes the rows of a strip of what a rule makes, if there is a kernel for that. What goes by two rules came before there were strips.
fn put_layer<P: Sample>(
    alloc: Global,
    layer: Layer<'_>,
    strip: Rect,
    out: &mut [P],
) -> Result<bool, NoMemory>
    requires sound { IsOrigin (origin_of layer) }
    requires strip { IsStrip strip (layer_picture layer) }
    requires room { length out.old ≡ strip.height * strip.width }
    ensures made { IfOk result (λ done. done ≡ true → map P.level out.new ≡ cells_in strip (sample (layer_picture layer.entry))) }
    ensures left_out { IfOk result (λ done. done ≡ false → out.new ≡ out.old) }
    ensures kept { IfErr result (λ _. out.new ≡ out.old) }
{
    match layer {
        Layer::Itself(_) => Ok(false),
        Layer::By(rule, f) => put_by(alloc, rule, f, strip, out),
        Layer::Twice(_, _, _) => Ok(false),
    }
}

/// Writes the rows of a strip of what an image has more than a layer, if there are kernels for that.
fn put_taken<P: Sample>(
    alloc: Global,
    f: ArrayImage<'_>,
    layer: Layer<'_>,
    strip: Rect,
    out: &mut [P],
) -> Result<bool, NoMemory>
    requires image { IsArrayImage f }
    requires sound { IsOrigin (origin_of layer) }
    requires alike { SameShape (layer_picture layer) (picture_in f) }
    requires strip { IsStrip strip (picture_in f) }
    requires room { length out.old ≡ strip.height * strip.width }
    ensures made { IfOk result (λ done. done ≡ true → map P.level out.new ≡ cells_in strip (sample (minus (picture_in f.entry) (layer_picture layer.entry)))) }
    ensures left_out { IfOk result (λ done. done ≡ false → out.new ≡ out.old) }
    ensures kept { IfErr result (λ _. out.new ≡ out.old) }
{
    let Some(own) = own_rows::<P>(f, strip) else {
        return Ok(false);
    };
    if !put_layer(alloc, layer, strip, out)? {
        return Ok(false);
    }
    P::subtract_from_row(out, own);
    Ok(true)
}

/// Writes the rows of a strip of what a layer has more than an image, if there are kernels for that.
fn put_added<P: Sample>(
    alloc: Global,
    layer: Layer<'_>,
    f: ArrayImage<'_>,
    strip: Rect,
    out: &mut [P],
) -> Result<bool, NoMemory>
    requires image { IsArrayImage f }
    requires sound { IsOrigin (origin_of layer) }
    requires alike { SameShape (picture_in f) (layer_picture layer) }
    requires strip { IsStrip strip (layer_picture layer) }
    requires room { length out.old ≡ strip.height * strip.width }
    ensures made { IfOk result (λ done. done ≡ true → map P.level out.new ≡ cells_in strip (sample (minus (layer_picture layer.entry) (picture_in f.entry)))) }
    ensures left_out { IfOk result (λ done. done ≡ false → out.new ≡ out.old) }
    ensures kept { IfErr result (λ _. out.new ≡ out.old) }
{
    let Some(own) = own_rows::<P>(f, strip) else {
        return Ok(false);
    };
    if !put_layer(alloc, layer, strip, out)? {
        return Ok(false);
    }
    P::subtract_row(out, own);
    Ok(true)
}

/// Writes the rows of a strip of what a first layer has more than a second, whose rows are written beside, if there are kernels for
/// both.
fn put_less_beside<P: Sample>(
    alloc: Global,
    first: Layer<'_>,
    second: Layer<'_>,
    strip: Rect,
    beside: &mut [P],
    out: &mut [P],
) -> Result<bool, NoMemory>
    requires first { IsOrigin (origin_of first) }
    requires second { IsOrigin (origin_of second) }
    requires alike { SameShape (layer_picture second) (layer_picture first) }
    requires strip { IsStrip strip (layer_picture first) }
    requires beside { length beside.old ≡ strip.height * strip.width }
    requires room { length out.old ≡ strip.height * strip.width }
    ensures made { IfOk result (λ done. done ≡ true → map P.level out.new ≡ cells_in strip (sample (minus (layer_picture first.entry) (layer_picture second.entry)))) }
    ensures left_out { IfOk result (λ done. done ≡ false → out.new ≡ out.old) }
    ensures kept { IfErr result (λ _. out.new ≡ out.old) }
{
    if !put_layer(alloc, second, strip, beside)? {
        return Ok(false);
    }
    if !put_layer(alloc, first, strip, out)? {
        return Ok(false);
    }
    P::subtract_row(out, beside);
    Ok(true)
}

/// Whether a layer looks at an array of such samples: of others there are no kernels, so no room is asked for.
fn looks_at_samples<P: Sample>(layer: Layer<'_>) -> bool {
    match origin_of(layer) {
        Origin::Array(f) => P::grey(f).is_some(),
        Origin::Made(_) => false,
    }
}

/// Writes the rows of a strip of what a first layer has more than a second, if there are kernels for both.
fn put_less<P: Sample>(
    alloc: Global,
    first: Layer<'_>,
    second: Layer<'_>,
    strip: Rect,
    out: &mut [P],
) -> Result<bool, NoMemory>
    requires first { IsOrigin (origin_of first) }
    requires second { IsOrigin (origin_of second) }
    requires alike { SameShape (layer_picture second) (layer_picture first) }
    requires strip { IsStrip strip (layer_picture first) }
    requires room { length out.old ≡ strip.height * strip.width }
    ensures made { IfOk result (λ done. done ≡ true → map P.level out.new ≡ cells_in strip (sample (minus (layer_picture first.entry) (layer_picture second.entry)))) }
    ensures left_out { IfOk result (λ done. done ≡ false → out.new ≡ out.old) }
    ensures kept { IfErr result (λ _. out.new ≡ out.old) }
{
    let Some(nothing) = P::of(0) else {
        return Ok(false);
    };
    if !looks_at_samples::<P>(second) {
        return Ok(false);
    }
    let mut beside = copies(alloc, out.len(), nothing)?;
    put_less_beside(alloc, first, second, strip, beside.as_mut_slice(), out)
}

/// Writes the rows of a strip of a difference, if there are kernels for that.
fn put_difference<P: Sample>(
    alloc: Global,
    first: Layer<'_>,
    second: Layer<'_>,
    strip: Rect,
    out: &mut [P],
) -> Result<bool, NoMemory>
    requires first { IsOrigin (origin_of first) }
    requires second { IsOrigin (origin_of second) }
    requires alike { SameShape (layer_picture second) (layer_picture first) }
    requires strip { IsStrip strip (layer_picture first) }
    requires room { length out.old ≡ strip.height * strip.width }
    ensures made { IfOk result (λ done. done ≡ true → map P.level out.new ≡ cells_in strip (sample (minus (layer_picture first.entry) (layer_picture second.entry)))) }
    ensures left_out { IfOk result (λ done. done ≡ false → out.new ≡ out.old) }
    ensures kept { IfErr result (λ _. out.new ≡ out.old) }
{
    if let Layer::Itself(f) = first {
        return put_taken(alloc, f, second, strip, out);
    }
    if let Layer::Itself(f) = second {
        return put_added(alloc, first, f, strip, out);
    }
    put_less(alloc, first, second, strip, out)
}

/// Writes the rows of a strip of a difference, if there are kernels for that. Rows of one layer are all made before there are strips, where
/// there is a kernel for them.
pub(crate) fn put_in_place<P: Sample>(
    alloc: Global,
    formula: Formula<'_>,
    strip: Rect,
    out: &mut [P],
) -> Result<bool, NoMemory>
    requires sound { IsFormula formula }
    requires strip { IsStrip strip (formula_picture formula) }
    requires room { length out.old ≡ strip.height * strip.width }
    ensures made { IfOk result (λ done. done ≡ true → map P.level out.new ≡ cells_in strip (sample (formula_picture formula.entry))) }
    ensures left_out { IfOk result (λ done. done ≡ false → out.new ≡ out.old) }
    ensures kept { IfErr result (λ _. out.new ≡ out.old) }
{
    match formula {
        Formula::One(_) => Ok(false),
        Formula::Less(first, second) => put_difference(alloc, first, second, strip, out),
    }
}
