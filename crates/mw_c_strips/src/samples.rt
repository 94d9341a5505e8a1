//! Samples of a caller's array.

ghost use Rattle.std.specs.Prelude.{◌≡◌, ◌≤◌, length, map};
ghost use Rattle.mw_model.specs.declared.shapes.Kind.TheVariants as kind;
ghost use Rattle.mw_model.specs.Pictures.{IsImage, Picture};
ghost use Rattle.mw_c_arrays.specs.Sources.{IsArrayImage, picture_in};
ghost use Rattle.mw_c_strips.specs.Refilled.{refilled};

use mw_c_arrays::{ArrayImage, Grey8, Grey16, Set, put_bytes, put_words};
use mw_c_lent::Lendable;
use mw_pixel::{Image, View};

/// A sample of an array that an operator writes.
pub trait Sample: Lendable {
    ghost use Rattle.std.specs.Prelude.{ℕ};

    /// Levels up to this maxval stand in such samples.
    ghost stands: { ℕ → Type 0 };

    /// Writes the samples of an image whose levels stand in such samples.
    fn put(image: &Image, out: &mut [Self])
        requires size { length image.now.samples ≡ length out.old }
        requires stands { stands image.now.maxval }
        ensures { map Self.level out.new ≡ image.now.samples };

    /// The levels of an image in levels of grey that stand in such samples.
    fn levels(image: &Image) -> &[Self]
        requires grey { image.now.kind ≡ kind.Grey }
        requires stands { stands image.now.maxval }
        ensures { map Self.level result.now ≡ image.now.samples };

    /// An image of the kind, the sides and the maxval of another, with these samples.
    fn like<'a>(f: ArrayImage<'_>, samples: &'a [Self]) -> ArrayImage<'a>
        requires sound { IsArrayImage f }
        requires stands { stands (picture_in f).maxval }
        requires image { IsImage (refilled (picture_in f) (map Self.level samples.now)) }
        ensures sound { IsArrayImage result }
        ensures image { picture_in result ≡ refilled (picture_in f.entry) (map Self.level samples.entry.now) };

    ghost stands_within: { (m : ℕ) → stands m → m ≤ Self.top_level };
}

impl Sample for u8 {
    ghost stands = { λ m. m ≤ 255 };

    fn put(image: &Image, out: &mut [u8]) {
        put_bytes(image, out);
    }

    fn levels(image: &Image) -> &[u8] {
        match image.view() {
            View::Grey8(plane, _) => plane.samples(),
            View::Bits(_) => unreachable!(),
            View::Grey16(_, _) => unreachable!(),
        }
    }

    fn like<'a>(f: ArrayImage<'_>, samples: &'a [u8]) -> ArrayImage<'a> {
        match f {
            ArrayImage::Grey8(f) => ArrayImage::Grey8(Grey8 {
                samples,
                width: f.width,
                height: f.height,
                maxval: f.maxval,
            }),
            ArrayImage::Grey16(_) => unreachable!(),
            ArrayImage::Pixels(f) => ArrayImage::Pixels(Set {
                pixels: samples,
                width: f.width,
                height: f.height,
            }),
        }
    }

    ghost stands_within = { λ m e. e };
}

impl Sample for u16 {
    ghost use Rattle.std.specs.Prelude.{◌≤◌};
    ghost use Rattle.mw_model.specs.declared.limits.TheConstants.{LEVEL_LIMIT};

    ghost stands = { λ m. (256 ≤ m) × (m ≤ LEVEL_LIMIT) };

    fn put(image: &Image, out: &mut [u16]) {
        put_words(image, out);
    }

    fn levels(image: &Image) -> &[u16] {
        match image.view() {
            View::Grey16(plane, _) => plane.samples(),
            View::Bits(_) => unreachable!(),
            View::Grey8(_, _) => unreachable!(),
        }
    }

    fn like<'a>(f: ArrayImage<'_>, samples: &'a [u16]) -> ArrayImage<'a> {
        match f {
            ArrayImage::Grey16(f) => ArrayImage::Grey16(Grey16 {
                samples,
                width: f.width,
                height: f.height,
                maxval: f.maxval,
            }),
            ArrayImage::Grey8(_) => unreachable!(),
            ArrayImage::Pixels(_) => unreachable!(),
        }
    }

    ghost stands_within = { λ m e. e.1 };
}
