//! Rectangles of samples.

ghost use Rattle.std.specs.Prelude.{◌≡◌, ◌↔◌, ◌+◌, ◌*◌, ◌<◌, ◌≤◌, All, length, replicate, slice_get, slice_range, vec_len, Some, IfOk, IsOk, IsTrue};
ghost use Rattle.mw_model.specs.Rasters.{raster};
ghost use Rattle.mw_pixel.specs.Planes.{put_at};

use crate::{Bit, Grey, NoMemory, Planar, Samples};
use mw_pixel_words::Words;
use std::alloc::Global;
use std::marker::Model;

/// A rectangle of samples. They stand by rows from the top, and in each row from the left.
#[derive(Drop)]
pub struct Plane<P: Planar> {
    held: P::Held,
}

impl<P: Planar> Model for Plane<P> {
    ghost use Rattle.mw_model.specs.Rasters.{Raster};

    ghost Value = { Raster P };

    ghost view = { λ a. P.Held.shown a.held };
}

impl<P: Planar> Plane<P> {
    /// A plane with one sample everywhere. It may want memory (`NoMemory`), but none for no samples.
    pub fn filled(alloc: Global, width: u32, height: u32, sample: P) -> Result<Plane<P>, NoMemory>
        ensures value { IfOk result (λ p. p ≡ raster width height (replicate (height * width) sample)) }
        ensures nothing { height * width ≡ 0 → IsOk result }
    {
        let held = P::Held::filled(alloc, width, height, sample)?;
        Ok(Plane { held })
    }

    /// A plane of so many columns and rows, whose samples are to be written. It may want memory (`NoMemory`).
    pub fn blank(alloc: Global, width: u32, height: u32) -> Result<Plane<P>, NoMemory>
        ensures width { IfOk result (λ p. p.width ≡ width) }
        ensures height { IfOk result (λ p. p.height ≡ height) }
        ensures size { IfOk result (λ p. length p.cells ≡ height * width) }
    {
        // for a set these are words of 0, whose rows need not be cut to the width
        let lowest = P::of(0).unwrap_or(P::TOP);
        let plane = Plane::filled(alloc, width, height, lowest)?;
        Ok(plane)
    }

    /// The columns.
    pub fn width(&self) -> u32
        ensures value { result ≡ self.now.width }
        ensures size { length self.now.cells ≡ self.now.height * self.now.width }
    {
        self.held.width()
    }

    /// The rows.
    pub fn height(&self) -> u32
        ensures value { result ≡ self.now.height }
        ensures size { length self.now.cells ≡ self.now.height * self.now.width }
    {
        // for the size
        let _width = self.held.width();
        self.held.height()
    }

    /// The sample in column x of row y.
    pub fn at(&self, x: u32, y: u32) -> P
        requires across { x < self.now.width }
        requires down { y < self.now.height }
        ensures { slice_get self.now.cells (y * self.now.width + x) ≡ Some result }
    {
        self.held.at(x, y)
    }

    /// What holds the samples.
    pub fn held(&self) -> &P::Held
        ensures { P.Held.shown result.now ≡ self.now }
    {
        &self.held
    }

    /// Whether both planes have the same sides and samples.
    pub fn same(&self, other: &Plane<P>) -> bool
        ensures { IsTrue result ↔ (self.now ≡ other.now) }
    {
        self.held.same(&other.held)
    }

    /// Writes so many samples of row `v` of another plane, from its column `u` on, over those of row y from column x on.
    pub fn copy_run(&mut self, x: u32, y: u32, other: &Plane<P>, u: u32, v: u32, count: u32)
        requires across { x + count ≤ self.old.width }
        requires down { y < self.old.height }
        requires across_other { u + count ≤ other.now.width }
        requires down_other { v < other.now.height }
        ensures { self.new ≡ raster self.old.width self.old.height (put_at (y * self.old.width + x) (slice_range other.now.cells (v * other.now.width + u) (v * other.now.width + u + count)) self.old.cells) }
    {
        self.held.copy_run(x, y, &other.held, u, v, count);
    }

    /// Whether so many samples of row y from column x on are those of row `v` of another plane from its column `u` on.
    pub fn same_run(&self, x: u32, y: u32, other: &Plane<P>, u: u32, v: u32, count: u32) -> bool
        requires across { x + count ≤ self.now.width }
        requires down { y < self.now.height }
        requires across_other { u + count ≤ other.now.width }
        requires down_other { v < other.now.height }
        ensures { IsTrue result ↔ (slice_range self.now.cells (y * self.now.width + x) (y * self.now.width + x + count) ≡ slice_range other.now.cells (v * other.now.width + u) (v * other.now.width + u + count)) }
    {
        self.held.same_run(x, y, &other.held, u, v, count)
    }
}

impl<P: Grey> Plane<P> {
    /// A plane of so many columns and rows, with its samples by rows, from the left.
    pub fn new(width: u32, height: u32, samples: Vec<P>) -> Plane<P>
        requires { vec_len samples ≡ height * width }
        ensures { result ≡ raster width height samples.items }
    {
        Plane {
            held: P::hold(width, height, samples),
        }
    }

    /// All samples, by rows.
    pub fn samples(&self) -> &[P]
        ensures value { result.now ≡ self.now.cells }
        ensures size { length self.now.cells ≡ self.now.height * self.now.width }
    {
        // for the size
        let _width = self.held.width();
        P::samples_in(&self.held)
    }

    /// All samples, by rows, without the plane.
    pub fn into_samples(self) -> Vec<P>
        ensures value { result.items ≡ self.cells }
        ensures size { vec_len result ≡ self.height * self.width }
    {
        // for the size
        let _width = self.held.width();
        P::samples_of(self.held)
    }

    /// The samples of row y.
    pub fn row(&self, y: u32) -> &[P]
        requires { y < self.now.height }
        ensures value { result.now ≡ slice_range self.now.cells (y * self.now.width) (y * self.now.width + self.now.width) }
        ensures length { length result.now ≡ self.now.width }
    {
        let width = self.width() as usize;
        let start = y as usize * width;
        &self.samples()[start..start + width]
    }

    /// So many samples of row y, from column x on.
    pub fn part(&self, x: u32, y: u32, count: u32) -> &[P]
        requires across { x + count ≤ self.now.width }
        requires down { y < self.now.height }
        ensures value { result.now ≡ slice_range self.now.cells (y * self.now.width + x) (y * self.now.width + x + count) }
        ensures count { length result.now ≡ count }
    {
        let start = y as usize * self.width() as usize + x as usize;
        &self.samples()[start..start + count as usize]
    }
}

impl Plane<Bit> {
    /// The plane of a set.
    pub fn of_words(words: Words) -> Plane<Bit>
        ensures { result ≡ words }
    {
        Plane { held: words }
    }

    /// The words of a set.
    pub fn words(&self) -> &Words
        ensures value { result.now ≡ self.now }
        ensures small { All (λ s. s ≤ 1) self.now.cells }
    {
        // for its samples
        let _width = self.held.width();
        &self.held
    }
}
