//! Images written into arrays.

ghost use Rattle.std.specs.Prelude.{◌≡◌, ◌≤◌, length};

use crate::unpacking::put_pixels;
use mw_pixel::{Image, View};

/// Writes the samples of a set, or of an image in levels of one byte.
pub fn put_bytes(image: &Image, out: &mut [u8])
    requires size { length image.now.samples ≡ length out.old }
    requires small { image.now.maxval ≤ 255 }
    ensures { out.new ≡ image.now.samples }
{
    match image.view() {
        View::Bits(set) => put_pixels(set, out),
        View::Grey8(plane, _) => out.copy_from_slice(plane.samples()),
        View::Grey16(_, _) => unreachable!(),
    }
}

/// Writes the samples of an image in levels of two bytes.
pub fn put_words(image: &Image, out: &mut [u16])
    requires size { length image.now.samples ≡ length out.old }
    requires high { 256 ≤ image.now.maxval }
    ensures { out.new ≡ image.now.samples }
{
    match image.view() {
        View::Grey16(plane, _) => out.copy_from_slice(plane.samples()),
        View::Grey8(_, _) => unreachable!(),
        View::Bits(_) => unreachable!(),
    }
}
