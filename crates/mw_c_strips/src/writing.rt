//! Strips that are written one after another into a caller's array, which takes all rows of an image or some of them.

ghost use Rattle.std.specs.Prelude.{◌≡◌, ℕ, ◌+◌, ◌*◌, ◌<◌, ◌≤◌, length, map, IfErr, IfOk, IfSome, false, true};
ghost use Rattle.mw_model.specs.Pictures.{Picture};
ghost use Rattle.mw_c_arrays.specs.Sources.{IsArrayImage, picture_in};
ghost use Rattle.mw_c_lent.specs.Composites.{composite_picture};
ghost use Rattle.mw_c_lent.specs.InPlace.{AreMiddleRows};
ghost use Rattle.mw_c_layers.specs.declared.origins.Origin.TheVariants.{Array};
ghost use Rattle.mw_c_layers.specs.declared.layers.Layer.TheVariants.{By};
ghost use Rattle.mw_c_layers.specs.declared.layers.Formula.TheVariants.{One};
ghost use Rattle.mw_c_layers.specs.Layers.{IsFormula, first_origin, formula_picture, rule_picture};
ghost use Rattle.mw_c_layers.specs.Parts.{HasImageRows, IsStrip, part_of};
ghost use Rattle.mw_c_strips.specs.Rows.{AreRows, EndAt, rows_from};

use crate::Sample;
use crate::by_pixel::level_at;
use crate::cuts::{ask_once, rows_of, strip_from};
use crate::placing::put_in_place;
use mw_c_arrays::ArrayImage;
use mw_c_layers::{Formula, Layer, Origin, origin_of, strip_of};
use mw_c_lent::{Composite, Middle, middle_of, put_composite, put_middle};
use mw_model::{NoMemory, Rect};
use mw_pixel::Image;
use std::alloc::Global;

/// The sample of a level.
fn sample_of<P: Sample>(level: u16) -> P
    requires { level ≤ P.top_level }
    ensures { P.level result ≡ level }
{
    match P::of(level) {
        Some(sample) => sample,
        None => unreachable!(),
    }
}

/// Writes row y place by place, without memory. The array begins with row `first`.
fn put_row<P: Sample>(formula: Formula<'_>, width: u32, first: u32, y: u32, out: &mut [P])
    requires sound { IsFormula formula }
    requires wide { width ≡ (formula_picture formula).width }
    requires down { y < (formula_picture formula).height }
    requires behind { first ≤ y }
    requires room { (y + 1) * width ≤ first * width + length out.old }
    requires stands { P.stands (formula_picture formula).maxval }
    requires before { HasImageRows P.level (formula_picture formula) first y out.old }
    ensures { HasImageRows P.level (formula_picture formula.entry) first (y + 1) out.new }
{
    let start = (y - first) as usize * width as usize;
    for x in 0..width {
        let level = level_at(formula, x, y);
        out[start + x as usize] = sample_of(level);
    }
}

/// Writes the rows of a strip place by place, without memory. The array begins with row `first`.
fn put_by_pixel<P: Sample>(formula: Formula<'_>, strip: Rect, first: u32, out: &mut [P])
    requires sound { IsFormula formula }
    requires strip { IsStrip strip (formula_picture formula) }
    requires behind { first ≤ strip.y }
    requires room { (strip.y + strip.height) * strip.width ≤ first * strip.width + length out.old }
    requires stands { P.stands (formula_picture formula).maxval }
    requires before { HasImageRows P.level (formula_picture formula) first strip.y out.old }
    ensures { HasImageRows P.level (formula_picture formula.entry) first (strip.y + strip.height) out.new }
{
    for y in strip.y..strip.y + strip.height {
        put_row(formula, strip.width, first, y, out);
    }
}

/// Writes the rows of a strip behind so many rows that are done.
fn put_rows<P: Sample>(image: &Image, strip: Rect, done: u32, out: &mut [P])
    requires size { length image.now.samples ≡ strip.height * strip.width }
    requires stands { P.stands image.now.maxval }
    requires room { done * strip.width + strip.height * strip.width ≤ length out.old }
    ensures { (f : Picture) (first : ℕ) → image.now ≡ part_of f strip → IsStrip strip f → length f.samples ≡ f.height * f.width → strip.y ≡ first + done → HasImageRows P.level f first strip.y out.old → HasImageRows P.level f first (strip.y + strip.height) out.new }
{
    let start = done as usize * strip.width as usize;
    let count = strip.height as usize * strip.width as usize;
    P::put(image, &mut out[start..start + count]);
}

/// Writes the rows of a strip behind so many rows that are done, if there are kernels for that.
fn put_standing<P: Sample>(
    alloc: Global,
    formula: Formula<'_>,
    strip: Rect,
    done: u32,
    out: &mut [P],
) -> Result<bool, NoMemory>
    requires sound { IsFormula formula }
    requires strip { IsStrip strip (formula_picture formula) }
    requires room { done * strip.width + strip.height * strip.width ≤ length out.old }
    ensures made { IfOk result (λ is. is ≡ true → (first : ℕ) → strip.y ≡ first + done → HasImageRows P.level (formula_picture formula.entry) first strip.y out.old → HasImageRows P.level (formula_picture formula.entry) first (strip.y + strip.height) out.new) }
    ensures left_out { IfOk result (λ is. is ≡ false → out.new ≡ out.old) }
    ensures kept { IfErr result (λ _. out.new ≡ out.old) }
{
    let start = done as usize * strip.width as usize;
    let count = strip.height as usize * strip.width as usize;
    let end = start + count;
    put_in_place(alloc, formula, strip, &mut out[start..end])
}

/// Writes the rows of a strip behind so many rows that are done: where they are to stand, or by an image of them.
fn put_made<P: Sample>(
    alloc: Global,
    formula: Formula<'_>,
    strip: Rect,
    done: u32,
    out: &mut [P],
) -> Result<(), NoMemory>
    requires sound { IsFormula formula }
    requires strip { IsStrip strip (formula_picture formula) }
    requires stands { P.stands (formula_picture formula).maxval }
    requires room { done * strip.width + strip.height * strip.width ≤ length out.old }
    ensures made { IfOk result (λ _. (first : ℕ) → strip.y ≡ first + done → HasImageRows P.level (formula_picture formula.entry) first strip.y out.old → HasImageRows P.level (formula_picture formula.entry) first (strip.y + strip.height) out.new) }
    ensures kept { IfErr result (λ _. out.new ≡ out.old) }
{
    if put_standing(alloc, formula, strip, done, out)? {
        return Ok(());
    }
    let image = strip_of(alloc, formula, strip)?;
    put_rows(&image, strip, done, out);
    Ok(())
}

/// Writes the rows of a strip, place by place where memory is refused. The array begins with row `first`.
fn put_strip<P: Sample>(alloc: Global, formula: Formula<'_>, strip: Rect, first: u32, out: &mut [P])
    requires sound { IsFormula formula }
    requires strip { IsStrip strip (formula_picture formula) }
    requires behind { first ≤ strip.y }
    requires room { (strip.y + strip.height) * strip.width ≤ first * strip.width + length out.old }
    requires stands { P.stands (formula_picture formula).maxval }
    requires before { HasImageRows P.level (formula_picture formula) first strip.y out.old }
    ensures { HasImageRows P.level (formula_picture formula.entry) first (strip.y + strip.height) out.new }
{
    match put_made(alloc, formula, strip, strip.y - first, out) {
        Ok(()) => (),
        Err(NoMemory) => put_by_pixel(formula, strip, first, out),
    }
}

/// Writes the rows from y on up to `end`, strip by strip. The array begins with row `first`.
fn put_rest<P: Sample>(
    alloc: Global,
    formula: Formula<'_>,
    first: u32,
    y: u32,
    end: u32,
    out: &mut [P],
)
    requires sound { IsFormula formula }
    requires behind { first ≤ y }
    requires within { y ≤ end }
    requires ends { EndAt first end (length out.old) (formula_picture formula) }
    requires stands { P.stands (formula_picture formula).maxval }
    requires before { HasImageRows P.level (formula_picture formula) first y out.old }
    ensures { map P.level out.new ≡ rows_from first (length out.old) (formula_picture formula.entry) }
{
    let f = first_origin(formula);
    let width = f.width();
    let rows = rows_of(formula);
    let mut done = y;
    'strips: while done < end {
        let strip = strip_from(rows, width, end, done);
        put_strip(alloc, formula, strip, first, out);
        done += strip.height;
    }
}

/// The image that a formula looks at first.
fn first_origin(formula: Formula<'_>) -> Origin<'_>
    ensures { result ≡ first_origin formula.entry }
{
    match formula {
        Formula::One(layer) => origin_of(layer),
        Formula::Less(first, _) => origin_of(first),
    }
}

/// The row behind so many samples that are rows from row `first` on.
fn end_of(formula: Formula<'_>, first: u32, count: usize) -> u32
    requires sound { IsFormula formula }
    requires rows { AreRows first count (formula_picture formula) }
    ensures { EndAt first result count (formula_picture formula.entry) }
{
    let f = first_origin(formula);
    let width = f.width();
    let rows = count / width as usize;
    first + rows as u32
}

/// Writes the rows from `first` on up to `end`, strip by strip. It wants memory only before the first row is written: where
/// memory is refused to a strip behind the first, its rows are made place by place.
fn put_strips<P: Sample>(
    alloc: Global,
    formula: Formula<'_>,
    first: u32,
    end: u32,
    out: &mut [P],
) -> Result<(), NoMemory>
    requires sound { IsFormula formula }
    requires ends { EndAt first end (length out.old) (formula_picture formula) }
    requires stands { P.stands (formula_picture formula).maxval }
    ensures made { IfOk result (λ _. map P.level out.new ≡ rows_from first (length out.old) (formula_picture formula.entry)) }
    ensures kept { IfErr result (λ _. out.new ≡ out.old) }
{
    let f = first_origin(formula);
    let width = f.width();
    let rows = rows_of(formula);
    ask_once(alloc, rows, end - first);
    let strip = strip_from(rows, width, end, first);
    put_made(alloc, formula, strip, 0, out)?;
    let done = first + strip.height;
    put_rest(alloc, formula, first, done, end, out);
    Ok(())
}

/// Writes the rows from `first` on up to `end`, if there are any.
fn put_any<P: Sample>(alloc: Global, formula: Formula<'_>, first: u32, end: u32, out: &mut [P])
    requires sound { IsFormula formula }
    requires ends { first < end → EndAt first end (length out.old) (formula_picture formula) }
    requires none { end ≤ first → length out.old ≡ 0 }
    requires stands { P.stands (formula_picture formula).maxval }
    ensures { map P.level out.new ≡ rows_from first (length out.old) (formula_picture formula.entry) }
{
    if first < end {
        put_rest(alloc, formula, first, first, end, out);
    }
}

/// Writes the rows from `first` on up to `end`, if there is a kernel for those in the middle: these come first, since nothing else
/// may want memory that is not there.
fn put_around<P: Sample>(
    alloc: Global,
    middle: Middle<'_>,
    first: u32,
    end: u32,
    out: &mut [P],
) -> Result<bool, NoMemory>
    requires sound { IsArrayImage middle.f }
    requires between { AreMiddleRows first end middle }
    requires ends { EndAt first end (length out.old) (picture_in middle.f) }
    requires stands { P.stands (rule_picture middle.rule (picture_in middle.f)).maxval }
    ensures made { IfOk result (λ done. done ≡ true → map P.level out.new ≡ rows_from first (length out.old) (rule_picture middle.entry.rule (picture_in middle.entry.f))) }
    ensures left_out { IfOk result (λ done. done ≡ false → out.new ≡ out.old) }
    ensures kept { IfErr result (λ _. out.new ≡ out.old) }
{
    let width = middle.f.width() as usize;
    let above = (middle.from - first) as usize * width;
    let count = (middle.to - middle.from) as usize * width;
    let (head, rest) = out.split_at_mut(above);
    let (made, tail) = rest.split_at_mut(count);
    if !put_middle(alloc, middle, made)? {
        return Ok(false);
    }
    let formula = Formula::One(Layer::By(middle.rule, Origin::Array(middle.f)));
    put_any(alloc, formula, first, middle.from, head);
    put_any(alloc, formula, middle.to, end, tail);
    Ok(true)
}

/// Writes what a composite makes from row `first` on, as many rows as the array has, where kernels make the first of them of rows that
/// stand: those that they leave are made strip by strip. The formula makes the same image.
pub(crate) fn write_composite_rows<P: Sample>(
    alloc: Global,
    composite: Composite<'_>,
    f: ArrayImage<'_>,
    formula: Formula<'_>,
    first: u32,
    out: &mut [P],
) -> Result<bool, NoMemory>
    requires image { IsArrayImage f }
    requires sound { IsFormula formula }
    requires same { formula_picture formula ≡ composite_picture composite (picture_in f) }
    requires rows { AreRows first (length out.old) (formula_picture formula) }
    requires stands { P.stands (formula_picture formula).maxval }
    ensures made { IfOk result (λ done. done ≡ true → map P.level out.new ≡ rows_from first (length out.old) (formula_picture formula.entry)) }
    ensures left_out { IfOk result (λ done. done ≡ false → out.new ≡ out.old) }
    ensures kept { IfErr result (λ _. out.new ≡ out.old) }
{
    let end = end_of(formula, first, out.len());
    let next = put_composite(alloc, composite, f, first, end, out)?;
    if next == first {
        return Ok(false);
    }
    put_rest(alloc, formula, first, next, end, out);
    Ok(true)
}

/// Writes all that a composite makes, in the same way.
pub(crate) fn write_composite<P: Sample>(
    alloc: Global,
    composite: Composite<'_>,
    f: ArrayImage<'_>,
    formula: Formula<'_>,
    out: &mut [P],
) -> Result<bool, NoMemory>
    requires image { IsArrayImage f }
    requires sound { IsFormula formula }
    requires same { formula_picture formula ≡ composite_picture composite (picture_in f) }
    requires size { length out.old ≡ (formula_picture formula).height * (formula_picture formula).width }
    requires stands { P.stands (formula_picture formula).maxval }
    ensures made { IfOk result (λ done. done ≡ true → map P.level out.new ≡ (formula_picture formula.entry).samples) }
    ensures left_out { IfOk result (λ done. done ≡ false → out.new ≡ out.old) }
    ensures kept { IfErr result (λ _. out.new ≡ out.old) }
{
    write_composite_rows(alloc, composite, f, formula, 0, out)
}

/// Of the rows from `first` on up to `end` those that a kernel may make of rows that stand in an array.
fn middle_in<'a>(formula: Formula<'a>, first: u32, end: u32) -> Option<Middle<'a>>
    ensures { IfSome result (λ m. AreMiddleRows first end m × (formula.entry ≡ One (By m.rule (Array m.f)))) }
{
    match formula {
        Formula::One(Layer::By(rule, Origin::Array(f))) => middle_of(rule, f, first, end),
        Formula::One(Layer::By(_, Origin::Made(_))) => None,
        Formula::One(Layer::Itself(_)) => None,
        Formula::One(Layer::Twice(_, _, _)) => None,
        Formula::Less(_, _) => None,
    }
}

/// Writes what the formula makes from row `first` on, as many rows as the array has: in place where there is a kernel for that,
/// else strip by strip.
pub(crate) fn write_rows<P: Sample>(
    alloc: Global,
    formula: Formula<'_>,
    first: u32,
    out: &mut [P],
) -> Result<(), NoMemory>
    requires sound { IsFormula formula }
    requires rows { AreRows first (length out.old) (formula_picture formula) }
    requires stands { P.stands (formula_picture formula).maxval }
    ensures made { IfOk result (λ _. map P.level out.new ≡ rows_from first (length out.old) (formula_picture formula.entry)) }
    ensures kept { IfErr result (λ _. out.new ≡ out.old) }
{
    let end = end_of(formula, first, out.len());
    if let Some(middle) = middle_in(formula, first, end) {
        if put_around(alloc, middle, first, end, out)? {
            return Ok(());
        }
    }
    put_strips(alloc, formula, first, end, out)
}

/// Writes all that the formula makes.
pub(crate) fn write_all<P: Sample>(
    alloc: Global,
    formula: Formula<'_>,
    out: &mut [P],
) -> Result<(), NoMemory>
    requires sound { IsFormula formula }
    requires size { length out.old ≡ (formula_picture formula).height * (formula_picture formula).width }
    requires stands { P.stands (formula_picture formula).maxval }
    ensures made { IfOk result (λ _. map P.level out.new ≡ (formula_picture formula.entry).samples) }
    ensures kept { IfErr result (λ _. out.new ≡ out.old) }
{
    write_rows(alloc, formula, 0, out)
}
