//! Images of the reference.

ghost use Rattle.std.specs.Prelude.{◌≡◌, ◌<◌, ◌^◌, ◌-ℤ◌, pos, sum};
ghost use Rattle.mw_model.specs.declared.limits.TheConstants.{SIDE_LIMIT};

use mw_model::{Kind, Offset};
use std::marker::Model;

/// An image of at most 8,192 by 8,192 pixels, with its samples in one list.
#[derive(Debug, Drop)]
pub struct ReferenceImage {
    kind: Kind,
    width: u32,
    height: u32,
    maxval: u16,
    samples: Vec<u16>,
}

/// One coordinate less another.
fn less(a: u32, b: i16) -> i64
    ensures { result ≡ pos a -ℤ b }
{
    i64::from(a) - i64::from(b)
}

/// The sum of numbers that is known to fit.
fn total(numbers: &[u16]) -> u64
    requires { sum numbers.now < 2 ^ 64 }
    ensures { result ≡ sum numbers.now }
{
    let mut total = 0;
    for n in numbers {
        total += u64::from(*n);
    }
    total
}

impl Model for ReferenceImage {
    ghost use Rattle.mw_model.specs.Pictures.{Picture, picture, IsSmallPicture};

    ghost Value = { Picture };

    ghost view = { λ a. picture a.kind a.width a.height a.maxval a.samples.items };

    ghost invariant = { λ a. IsSmallPicture (picture a.kind a.width a.height a.maxval a.samples.items) };
}

impl ReferenceImage {
    ghost use Rattle.std.specs.Prelude.{◌+ℤ◌, ◌≤◌, ◌*◌, All, vec_len};
    ghost use Rattle.mw_model.specs.Pictures.{picture, sample, sample_at, IsSmallPicture};

    /// The image with these samples, by rows from the top.
    pub fn new(
        kind: Kind,
        width: u32,
        height: u32,
        maxval: u16,
        samples: Vec<u16>,
    ) -> ReferenceImage
        requires columns { width ≤ SIDE_LIMIT }
        requires rows { height ≤ SIDE_LIMIT }
        requires size { vec_len samples ≡ height * width }
        requires bounded { All (λ s. s ≤ maxval) samples.items }
        ensures { result ≡ picture kind width height maxval samples.items }
    {
        ReferenceImage {
            kind,
            width,
            height,
            maxval,
            samples,
        }
    }

    /// Tells a proof that the image is small, and that no sample is above the maxval. It does nothing.
    pub fn is_small(&self)
        ensures { IsSmallPicture self.now }
    {
        let _kind = &self.kind;
    }

    pub fn kind(&self) -> Kind
        ensures { result ≡ self.now.kind }
    {
        self.kind
    }

    /// The number of columns.
    pub fn width(&self) -> u32
        ensures is { result ≡ self.now.width }
        ensures small { IsSmallPicture self.now }
    {
        self.width
    }

    /// The number of rows.
    pub fn height(&self) -> u32
        ensures is { result ≡ self.now.height }
        ensures small { IsSmallPicture self.now }
    {
        self.height
    }

    pub fn maxval(&self) -> u16
        ensures { result ≡ self.now.maxval }
    {
        self.maxval
    }

    /// All samples, by rows from the top.
    pub fn samples(&self) -> &[u16]
        ensures is { result.now ≡ self.now.samples }
        ensures small { IsSmallPicture self.now }
    {
        &self.samples
    }

    /// The sum of all samples.
    pub fn sum(&self) -> u64
        ensures { result ≡ sum self.now.samples }
    {
        total(&self.samples)
    }

    /// The sample in column x of row y; behind the last sample it is 0.
    pub fn sample(&self, x: u32, y: u32) -> u16
        ensures { result ≡ sample self.now x y }
    {
        match self
            .samples
            .get(y as usize * self.width as usize + x as usize)
        {
            Some(s) => *s,
            None => 0,
        }
    }

    /// The sample at a place of the plane, where the frame has that place.
    pub fn sample_at(&self, column: i64, row: i64) -> Option<u16>
        ensures { result ≡ sample_at self.now column row }
    {
        if column < 0
            || row < 0
            || column >= i64::from(self.width)
            || row >= i64::from(self.height)
        {
            return None;
        }
        Some(self.sample(column as u32, row as u32))
    }

    /// The sample at the offset from column x of row y, where the frame has that place.
    pub fn sample_from(&self, x: u32, y: u32, b: Offset) -> Option<u16>
        ensures { result ≡ sample_at self.now (pos x +ℤ b.dx) (pos y +ℤ b.dy) }
    {
        self.sample_at(
            i64::from(x) + i64::from(b.dx),
            i64::from(y) + i64::from(b.dy),
        )
    }

    /// The sample from which the offset leads to column x of row y, where the frame has that place.
    pub fn sample_back(&self, x: u32, y: u32, b: Offset) -> Option<u16>
        ensures { result ≡ sample_at self.now (pos x -ℤ b.dx) (pos y -ℤ b.dy) }
    {
        self.sample_at(less(x, b.dx), less(y, b.dy))
    }
}
