//! Samples that stand by themselves, one after another.

ghost use Rattle.std.specs.Prelude.{◌≡◌, ◌↔◌, ◌+◌, ◌*◌, ◌<◌, ◌≤◌, length, replicate, slice_get, slice_range, vec_len, Some, IsTrue, MatchResult};
ghost use Rattle.mw_model.specs.Rasters.{raster};
ghost use Rattle.mw_pixel_words.specs.Runs.{put_at};

use crate::equal::equal_rows;
use crate::{Blocks, NoMemory, Pixel, Samples};
use std::alloc::Global;
use std::marker::Model;

/// The samples of a rectangle, one after another.
#[derive(Drop)]
pub struct Listed<P: Pixel> {
    width: u32,
    height: u32,
    samples: Vec<P>,
}

impl<P: Pixel> Model for Listed<P> {
    ghost use Rattle.std.specs.Prelude.{◌≡◌, ◌*◌, length};
    ghost use Rattle.mw_model.specs.Rasters.{Raster, raster};

    ghost Value = { Raster P };

    ghost view = { λ a. raster a.width a.height a.samples.items };

    ghost invariant = { λ a. length a.samples.items ≡ a.height * a.width };
}

impl<P: Pixel> Listed<P> {
    /// A rectangle of so many columns and rows, with its samples by rows, from the left.
    pub fn new(width: u32, height: u32, samples: Vec<P>) -> Listed<P>
        requires { vec_len samples ≡ height * width }
        ensures { result ≡ raster width height samples.items }
    {
        Listed {
            width,
            height,
            samples,
        }
    }

    /// All samples, by rows.
    pub fn samples(&self) -> &[P]
        ensures value { result.now ≡ self.now.cells }
        ensures size { length self.now.cells ≡ self.now.height * self.now.width }
    {
        &self.samples
    }

    /// All samples, by rows.
    pub fn into_samples(self) -> Vec<P>
        ensures value { result.items ≡ self.cells }
        ensures size { vec_len result ≡ self.height * self.width }
    {
        self.samples
    }

    /// So many samples of row y, from column x on.
    fn part(&self, x: u32, y: u32, count: u32) -> &[P]
        requires across { x + count ≤ self.now.width }
        requires down { y < self.now.height }
        ensures value { result.now ≡ slice_range self.now.cells (y * self.now.width + x) (y * self.now.width + x + count) }
        ensures count { length result.now ≡ count }
    {
        let start = y as usize * self.width as usize + x as usize;
        &self.samples[start..start + count as usize]
    }

    /// Writes samples over those of row y, from column x on.
    fn put_row(&mut self, x: u32, y: u32, row: &[P])
        requires across { x + length row.now ≤ self.old.width }
        requires down { y < self.old.height }
        ensures { self.new ≡ raster self.old.width self.old.height (put_at (y * self.old.width + x) row.now self.old.cells) }
    {
        let start = y as usize * self.width as usize + x as usize;
        write_over(&mut self.samples, start, row);
    }
}

impl<P: Blocks> Samples<P> for Listed<P> {
    ghost shown = { λ a. a };

    fn width(&self) -> u32 {
        self.width
    }

    fn height(&self) -> u32 {
        self.height
    }

    fn at(&self, x: u32, y: u32) -> P {
        let at = y as usize * self.width as usize + x as usize;
        self.samples[at]
    }

    fn filled(alloc: Global, width: u32, height: u32, sample: P) -> Result<Self, NoMemory> {
        let samples = copies(alloc, height as usize * width as usize, sample)?;
        Ok(Listed::new(width, height, samples))
    }

    fn same(&self, other: &Self) -> bool {
        self.width == other.width
            && self.height == other.height
            && equal_rows(&self.samples, &other.samples)
    }

    fn copy_run(&mut self, x: u32, y: u32, other: &Self, u: u32, v: u32, count: u32) {
        self.put_row(x, y, other.part(u, v, count));
    }

    fn same_run(&self, x: u32, y: u32, other: &Self, u: u32, v: u32, count: u32) -> bool {
        equal_rows(self.part(x, y, count), other.part(u, v, count))
    }
}

fn write_over<P: Pixel>(to: &mut [P], start: usize, row: &[P])
    requires { start + length row.now ≤ length to.old }
    ensures { to.new ≡ put_at start row.now to.old }
{
    to[start..start + row.len()].copy_from_slice(row);
}

/// So many copies of a sample. It may want memory (`NoMemory`), but never for none of them.
pub fn copies<P: Pixel>(alloc: Global, count: usize, sample: P) -> Result<Vec<P>, NoMemory>
    ensures { MatchResult result (λ v. v.items ≡ replicate count sample) (λ _. 0 < count) }
{
    if count == 0 {
        return Ok(Vec::new(alloc));
    }
    let samples = vec![in alloc; sample; count]?;
    Ok(samples)
}
