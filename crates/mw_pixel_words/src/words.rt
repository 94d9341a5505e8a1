//! The type of sets in words.
ghost use Rattle.std.specs.Prelude.{◌≡◌, ℕ, ◌+◌, ◌*◌, ◌/◌, ◌<◌, ◌≤◌, ◌^◌, All, cond, length, replicate, slice_get, slice_index, slice_range, IfOk, MatchResult, Some};
ghost use Rattle.mw_model.specs.Rasters.{raster};
ghost use Rattle.mw_pixel_words.specs.Packed.{bit_of, stride_of, samples_of, IsPacked};
ghost use Rattle.mw_pixel_words.specs.Runs.{put_at};

use crate::copying::copy_bits;
use crate::trimming::trim_rows;
use mw_model::NoMemory;
use std::alloc::Global;
use std::marker::Model;

/// The samples of a rectangle of a set. Each row stands in words of its own, 64 pixels a word, the leftmost in the lowest
/// bit; the bits past the width are 0.
#[derive(Drop)]
pub struct Words {
    width: u32,
    height: u32,
    words: Vec<u64>,
}

impl Model for Words {
    ghost use Rattle.std.specs.Prelude.{ℕ};
    ghost use Rattle.mw_model.specs.Rasters.{Raster, raster};
    ghost use Rattle.mw_pixel_words.specs.Packed.{samples_of, IsPacked};

    ghost Value = { Raster ℕ };

    ghost view = { λ a. raster a.width a.height (samples_of a.width a.height a.words.items) };

    ghost invariant = { λ a. IsPacked a.width a.height a.words.items };
}

/// How many words a row has.
#[inline(always)]
pub fn stride(width: u32) -> usize
    ensures value { result ≡ stride_of width }
    ensures small { result ≤ 67108864 }
{
    (width as usize + 63) / 64
}

/// That many words, all alike. It may want memory (`NoMemory`), but never for none of them.
pub fn repeated(alloc: Global, count: usize, word: u64) -> Result<Vec<u64>, NoMemory>
    ensures { MatchResult result (λ v. v.items ≡ replicate count word) (λ _. 0 < count) }
{
    if count == 0 {
        return Ok(Vec::new(alloc));
    }
    let words = vec![in alloc; word; count]?;
    Ok(words)
}

impl Words {
    /// The set that these words are.
    pub fn new(width: u32, height: u32, words: Vec<u64>) -> Words
        requires { IsPacked width height words.items }
        ensures { result ≡ raster width height (samples_of width height words.items) }
    {
        Words {
            width,
            height,
            words,
        }
    }

    /// No pixels. It may want memory (`NoMemory`), but not for a rectangle without places.
    fn none(alloc: Global, width: u32, height: u32) -> Result<Words, NoMemory>
        ensures { MatchResult result (λ p. p ≡ raster width height (replicate (height * width) 0)) (λ _. 0 < height * width) }
    {
        let words = repeated(alloc, height as usize * stride(width), 0)?;
        Ok(Words::new(width, height, words))
    }

    /// All pixels. It may want memory (`NoMemory`).
    fn all(alloc: Global, width: u32, height: u32) -> Result<Words, NoMemory>
        ensures { IfOk result (λ p. p ≡ raster width height (replicate (height * width) 1)) }
    {
        let mut words = repeated(alloc, height as usize * stride(width), u64::MAX)?;
        trim_rows(width, height as usize, words.as_mut_slice());
        Ok(Words::new(width, height, words))
    }

    /// All pixels, or none. It may want memory (`NoMemory`), but not for a rectangle without places.
    pub fn filled(alloc: Global, width: u32, height: u32, is_set: bool) -> Result<Words, NoMemory>
        ensures { MatchResult result (λ p. p ≡ raster width height (replicate (height * width) (cond is_set 1 0))) (λ _. 0 < height * width) }
    {
        if is_set && width > 0 && height > 0 {
            Words::all(alloc, width, height)
        } else {
            Words::none(alloc, width, height)
        }
    }

    /// The columns.
    pub fn width(&self) -> u32
        ensures value { result ≡ self.now.width }
        ensures size { length self.now.cells ≡ self.now.height * self.now.width }
        ensures small { All (λ s. s ≤ 1) self.now.cells }
    {
        self.width
    }

    /// The rows.
    pub fn height(&self) -> u32
        ensures { result ≡ self.now.height }
    {
        self.height
    }

    /// All words, by rows.
    pub fn words(&self) -> &[u64]
        ensures packed { IsPacked self.now.width self.now.height result.now }
        ensures samples { self.now.cells ≡ samples_of self.now.width self.now.height result.now }
        ensures few { length result.now < 2 ^ 58 }
    {
        let (_width, _height) = (self.width, self.height);
        &self.words
    }

    /// The words of a row.
    pub fn row(&self, y: u32) -> &[u64]
        requires { y < self.now.height }
        ensures length { length result.now ≡ stride_of self.now.width }
        ensures samples { (x : ℕ) → x < self.now.width → bit_of result.now x ≡ slice_index self.now.cells (y * self.now.width + x) }
        ensures clean { (x : ℕ) → self.now.width ≤ x → bit_of result.now x ≡ 0 }
    {
        let stride = stride(self.width);
        let start = y as usize * stride;
        &self.words[start..start + stride]
    }

    /// Whether the pixel in column x of row y is of the set.
    pub fn has(&self, x: u32, y: u32) -> bool
        requires across { x < self.now.width }
        requires down { y < self.now.height }
        ensures { slice_get self.now.cells (y * self.now.width + x) ≡ Some (cond result 1 0) }
    {
        // for the size
        let _width = self.width();
        let row = self.row(y);
        let word = row[(x / 64) as usize];
        (word >> (x % 64)) & 1 == 1
    }

    /// Writes so many pixels of row `v` of another set, from its column `u` on, over those of row y from column x on.
    pub fn copy_run(&mut self, x: u32, y: u32, other: &Words, u: u32, v: u32, count: u32)
        requires across { x + count ≤ self.old.width }
        requires down { y < self.old.height }
        requires across_other { u + count ≤ other.now.width }
        requires down_other { v < other.now.height }
        ensures { self.new ≡ raster self.old.width self.old.height (put_at (y * self.old.width + x) (slice_range other.now.cells (v * other.now.width + u) (v * other.now.width + u + count)) self.old.cells) }
    {
        // for the size
        let _other = other.width();
        let stride = stride(self.width);
        let start = y as usize * stride;
        copy_bits(
            &mut self.words[start..start + stride],
            x as usize,
            other.row(v),
            u as usize,
            count as usize,
        );
    }
}
