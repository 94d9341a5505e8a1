//! Planes between two steps, put together strip by strip: of levels a list of samples, of a set its words.

ghost use Rattle.std.specs.Prelude.{◌≡◌, map, IfOk};
ghost use Rattle.mw_model.specs.declared.shapes.Kind.TheVariants as kind;
ghost use Rattle.mw_pixel.specs.Images.{set_of};
ghost use Rattle.mw_pixel.specs.mw_pixel_words.Packed.{samples_of, IsPacked};
ghost use Rattle.mw_c_arrays.specs.Sources.{IsArrayImage, picture_in};
ghost use Rattle.mw_c_layers.specs.Layers.{rule_picture};

use crate::Sample;
use crate::cuts::{ask_once, rows_of_layer, strip_from};
use mw_c_arrays::ArrayImage;
use mw_c_layers::{Layer, Origin, by_rule};
use mw_c_lent::Rule;
use mw_model::NoMemory;
use mw_pixel::words::stride;
use mw_pixel::{Image, Plane, View, Words};
use std::alloc::Global;
use std::sync::Arc;

/// The levels that a rule makes of the whole image.
pub(crate) fn levels_made<P: Sample>(
    alloc: Global,
    rule: Rule<'_>,
    f: ArrayImage<'_>,
) -> Result<Vec<P>, NoMemory>
    requires sound { IsArrayImage f }
    requires grey { (rule_picture rule (picture_in f)).kind ≡ kind.Grey }
    requires stands { P.stands (rule_picture rule (picture_in f)).maxval }
    ensures { IfOk result (λ v. map P.level v.items ≡ (rule_picture rule.entry (picture_in f.entry)).samples) }
{
    let (width, height) = (f.width(), f.height());
    let rows = rows_of_layer(Layer::By(rule, Origin::Array(f)));
    ask_once(alloc, rows, height);
    let mut plane = Vec::with_capacity(alloc, f.count())?;
    let mut done = 0;
    'strips: while done < height {
        let strip = strip_from(rows, width, height, done);
        let image = by_rule(alloc, rule, Origin::Array(f), strip)?;
        plane.extend_from_slice(P::levels(&image))?;
        done += strip.height;
    }
    Ok(plane)
}

/// The words of a set.
fn words_in(image: &Image) -> &[u64]
    requires { image.now.kind ≡ kind.Bit }
    ensures packed { IsPacked image.now.width image.now.height result.now }
    ensures samples { samples_of image.now.width image.now.height result.now ≡ image.now.samples }
{
    match image.view() {
        View::Bits(set) => set.words().words(),
        View::Grey8(_, _) => unreachable!(),
        View::Grey16(_, _) => unreachable!(),
    }
}

/// The words of what a rule makes of the whole image, which is a set.
fn words_made(alloc: Global, rule: Rule<'_>, f: ArrayImage<'_>) -> Result<Vec<u64>, NoMemory>
    requires sound { IsArrayImage f }
    requires set { (rule_picture rule (picture_in f)).kind ≡ kind.Bit }
    ensures packed { IfOk result (λ v. IsPacked (picture_in f.entry).width (picture_in f.entry).height v.items) }
    ensures samples { IfOk result (λ v. samples_of (picture_in f.entry).width (picture_in f.entry).height v.items ≡ (rule_picture rule.entry (picture_in f.entry)).samples) }
{
    let (width, height) = (f.width(), f.height());
    let rows = rows_of_layer(Layer::By(rule, Origin::Array(f)));
    ask_once(alloc, rows, height);
    let mut words = Vec::with_capacity(alloc, height as usize * stride(width))?;
    let mut done = 0;
    'strips: while done < height {
        let strip = strip_from(rows, width, height, done);
        let image = by_rule(alloc, rule, Origin::Array(f), strip)?;
        words.extend_from_slice(words_in(&image))?;
        done += strip.height;
    }
    Ok(words)
}

/// The set as an image.
fn image_of(alloc: Global, set: Words) -> Result<Image, NoMemory>
    ensures { IfOk result (λ g. g ≡ set_of set) }
{
    let plane = Plane::of_words(set);
    // for its pixels, which are 0 or 1
    let _words = plane.words();
    Ok(Image::bits(Arc::new(alloc, plane)?))
}

/// The set that a rule makes of the whole image.
pub(crate) fn set_made(alloc: Global, rule: Rule<'_>, f: ArrayImage<'_>) -> Result<Image, NoMemory>
    requires sound { IsArrayImage f }
    requires set { (rule_picture rule (picture_in f)).kind ≡ kind.Bit }
    requires top { (rule_picture rule (picture_in f)).maxval ≡ 1 }
    ensures { IfOk result (λ g. g ≡ rule_picture rule.entry (picture_in f.entry)) }
{
    let words = words_made(alloc, rule, f)?;
    image_of(alloc, Words::new(f.width(), f.height(), words))
}
