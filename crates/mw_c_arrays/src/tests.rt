//! Tests of sides, numbers and samples, none of which takes memory.

ghost use Rattle.std.specs.Prelude.{◌≡◌, ◌&&◌, ◌*◌, ◌==◌, length, nat_le, nat_lt, not};
ghost use Rattle.std.specs.List.{list_any};
ghost use Rattle.mw_c_arrays.specs.Faults.{bitmap_sides_fit, image_sides_fit};

use mw_model::{ELEMENT_SIDE_LIMIT, PIXEL_LIMIT, SIDE_LIMIT};

/// Whether the number is from the first to the last.
pub(crate) fn lies_from(first: u32, last: u32, n: u32) -> bool
    ensures { result ≡ (nat_le first n && nat_le n last) }
{
    first <= n && n <= last
}

/// Whether an image may have these sides.
pub(crate) fn image_sides_fit(width: u32, height: u32) -> bool
    ensures { result ≡ image_sides_fit width height }
{
    lies_from(1, SIDE_LIMIT, width) && lies_from(1, SIDE_LIMIT, height) && is_small(width, height)
}

/// Whether an image of these sides has no more pixels than it may.
fn is_small(width: u32, height: u32) -> bool
    ensures { result ≡ nat_le (height * width) PIXEL_LIMIT }
{
    height as usize * width as usize <= PIXEL_LIMIT as usize
}

/// Whether an element's bitmap may have these sides.
pub(crate) fn bitmap_sides_fit(width: u32, height: u32) -> bool
    ensures { result ≡ bitmap_sides_fit width height }
{
    lies_from(1, ELEMENT_SIDE_LIMIT, width) && lies_from(1, ELEMENT_SIDE_LIMIT, height)
}

/// Whether so many are as many as the places of a rectangle.
pub(crate) fn fills(count: usize, width: u32, height: u32) -> bool
    ensures { result ≡ (count == height * width) }
{
    count == height as usize * width as usize
}

/// Whether a sample is over the level. At the top of its type none is looked at.
pub(crate) fn any_over_8(samples: &[u8], most: u32) -> bool
    ensures { result ≡ list_any (λ s. nat_lt most s) samples.now }
{
    if most >= 255 {
        return false;
    }
    samples.iter().any(|s| u32::from(*s) > most)
}

/// Whether a sample is over the level. At the top of its type none is looked at.
pub(crate) fn any_over_16(samples: &[u16], most: u32) -> bool
    ensures { result ≡ list_any (λ s. nat_lt most s) samples.now }
{
    if most >= 65535 {
        return false;
    }
    samples.iter().any(|s| u32::from(*s) > most)
}

/// Whether a byte is not 0.
pub(crate) fn any_set(bytes: &[u8]) -> bool
    ensures { result ≡ list_any (λ s. nat_le 1 s) bytes.now }
{
    bytes.iter().any(|s| 1 <= *s)
}
