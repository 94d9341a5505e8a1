//! Arrays with the sides of what stands in them.

use crate::cases::{first_of, when};
use crate::tests::{
    any_over_8, any_over_16, any_set, bitmap_sides_fit, fills, image_sides_fit, lies_from,
};
use mw_model::{Code, LEVEL_LIMIT};

/// An image in levels of grey of one byte: its samples by rows from the top, without gaps.
#[derive(Clone, Copy)]
pub struct Grey8<'a> {
    pub samples: &'a [u8],
    pub width: u32,
    pub height: u32,
    pub maxval: u32,
}

/// An image in levels of grey of two bytes: its samples by rows from the top, without gaps.
#[derive(Clone, Copy)]
pub struct Grey16<'a> {
    pub samples: &'a [u16],
    pub width: u32,
    pub height: u32,
    pub maxval: u32,
}

/// A set: a byte for each pixel by rows from the top, without gaps. What is not 0 is of the set.
#[derive(Clone, Copy)]
pub struct Set<'a> {
    pub pixels: &'a [u8],
    pub width: u32,
    pub height: u32,
}

/// The bitmap of an element, as that of a set, with the column and the row of its origin, counted from 0.
#[derive(Clone, Copy)]
pub struct Bitmap<'a> {
    pub pixels: &'a [u8],
    pub width: u32,
    pub height: u32,
    pub origin_x: u32,
    pub origin_y: u32,
}

impl<'a> Grey8<'a> {
    ghost use Rattle.std.specs.Prelude.{◌≡◌, IfNone};
    ghost use Rattle.mw_c_arrays.specs.Faults.{grey8_fault};
    ghost use Rattle.mw_c_arrays.specs.Sound.{IsGrey8};

    /// The first thing that is wrong with it, if anything is.
    pub fn fault(&self) -> Option<Code>
        ensures first { result ≡ grey8_fault self.now }
        ensures sound { IfNone result (IsGrey8 self.now) }
    {
        first_of(&[
            when(!image_sides_fit(self.width, self.height), Code::Size),
            when(
                !fills(self.samples.len(), self.width, self.height),
                Code::Length,
            ),
            when(!lies_from(1, 255, self.maxval), Code::Maxval),
            when(any_over_8(self.samples, self.maxval), Code::Sample),
        ])
    }
}

impl<'a> Grey16<'a> {
    ghost use Rattle.std.specs.Prelude.{◌≡◌, IfNone};
    ghost use Rattle.mw_c_arrays.specs.Faults.{grey16_fault};
    ghost use Rattle.mw_c_arrays.specs.Sound.{IsGrey16};

    /// The first thing that is wrong with it, if anything is.
    pub fn fault(&self) -> Option<Code>
        ensures first { result ≡ grey16_fault self.now }
        ensures sound { IfNone result (IsGrey16 self.now) }
    {
        first_of(&[
            when(!image_sides_fit(self.width, self.height), Code::Size),
            when(
                !fills(self.samples.len(), self.width, self.height),
                Code::Length,
            ),
            when(!lies_from(256, LEVEL_LIMIT, self.maxval), Code::Maxval),
            when(any_over_16(self.samples, self.maxval), Code::Sample),
        ])
    }
}

impl<'a> Set<'a> {
    ghost use Rattle.std.specs.Prelude.{◌≡◌, IfNone};
    ghost use Rattle.mw_model.specs.Pictures.{IsImage};
    ghost use Rattle.mw_c_arrays.specs.Arrays.{set_picture};
    ghost use Rattle.mw_c_arrays.specs.Faults.{set_fault};

    /// The first thing that is wrong with it, if anything is.
    pub fn fault(&self) -> Option<Code>
        ensures first { result ≡ set_fault self.now }
        ensures sound { IfNone result (IsImage (set_picture self.now)) }
    {
        first_of(&[
            when(!image_sides_fit(self.width, self.height), Code::Size),
            when(
                !fills(self.pixels.len(), self.width, self.height),
                Code::Length,
            ),
        ])
    }
}

impl<'a> Bitmap<'a> {
    ghost use Rattle.std.specs.Prelude.{◌≡◌, IfNone};
    ghost use Rattle.mw_c_arrays.specs.Faults.{bitmap_fault};
    ghost use Rattle.mw_c_arrays.specs.Sound.{IsElementBitmap};

    /// The first thing that is wrong with it, if anything is.
    pub fn fault(&self) -> Option<Code>
        ensures first { result ≡ bitmap_fault self.now }
        ensures sound { IfNone result (IsElementBitmap self.now) }
    {
        first_of(&[
            when(!bitmap_sides_fit(self.width, self.height), Code::Size),
            when(
                !fills(self.pixels.len(), self.width, self.height),
                Code::Length,
            ),
            when(!self.holds_origin(), Code::Origin),
            when(!any_set(self.pixels), Code::Empty),
        ])
    }

    ghost use Rattle.std.specs.Prelude.{◌&&◌, nat_lt};

    /// Whether the origin lies in the bitmap.
    fn holds_origin(&self) -> bool
        ensures { result ≡ (nat_lt self.now.origin_x self.now.width && nat_lt self.now.origin_y self.now.height) }
    {
        self.origin_x < self.width && self.origin_y < self.height
    }
}
