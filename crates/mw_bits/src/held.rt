//! The words of a window of a set, and the plane of a set in words.
ghost use Rattle.std.specs.Prelude.{◌≡◌, ℕ, ◌+◌, ◌*◌, ◌<◌, ◌≤◌, ◌^◌, length, slice_index};
ghost use Rattle.mw_model.specs.Rasters.{raster};
ghost use Rattle.mw_offset.specs.mw_pixel_words.Packed.{bit_of, stride_of, samples_of, IsPacked};

use mw_offset::pixel::{Bit, Plane};
use mw_offset::tile::Window;
use mw_offset::words::Words;

/// All words, by rows.
pub(crate) fn words_of(set: &Window<Bit>) -> &[u64]
    ensures packed { IsPacked set.now.place.width set.now.place.height result.now }
    ensures samples { set.now.cells ≡ samples_of set.now.place.width set.now.place.height result.now }
    ensures few { length result.now < 2 ^ 58 }
    ensures size { length set.now.cells ≡ set.now.place.height * set.now.place.width }
{
    let words = set.plane().words();
    // for the number of its pixels
    let _width = words.width();
    words.words()
}

/// The words of a row, counted from the window's first.
pub fn row_of(set: &Window<Bit>, y: u32) -> &[u64]
    requires { y < set.now.place.height }
    ensures length { length result.now ≡ stride_of set.now.place.width }
    ensures samples { (x : ℕ) → x < set.now.place.width → bit_of result.now x ≡ slice_index set.now.cells (y * set.now.place.width + x) }
    ensures clean { (x : ℕ) → set.now.place.width ≤ x → bit_of result.now x ≡ 0 }
    ensures size { length set.now.cells ≡ set.now.place.height * set.now.place.width }
{
    let words = set.plane().words();
    // for the number of its pixels
    let _width = words.width();
    words.row(y)
}

/// The plane of the set that these words are.
pub(crate) fn plane_of(width: u32, height: u32, words: Vec<u64>) -> Plane<Bit>
    requires { IsPacked width height words.items }
    ensures { result ≡ raster width height (samples_of width height words.items) }
{
    Plane::of_words(Words::new(width, height, words))
}
