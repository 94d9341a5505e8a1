//! Bitmaps of structuring elements, as plain files of at most 255 x 255 pixels.

use crate::chance::Chance;
use crate::fault::Fault;
use std::alloc::Global;

/// The form of an element.
#[derive(Clone, Copy)]
pub(crate) enum Form {
    /// The pixels of a square that are nowhere further from its middle than half its side.
    Disc,
    /// The middle pixel and those beside, above and below it.
    Cross,
    /// All pixels of a square.
    Square,
    /// The pixels from the upper left to the lower right.
    Diagonal,
    /// Pixels without a pattern, five of eight, with gaps and mostly without the origin.
    Scattered(Chance),
    /// The upper left corner of a square of three, set.
    Corner(u32),
    /// The pixels of the square of three that are not the corner, set where the corner must not be.
    Opposite(u32),
}

/// Whether the pixel in column x of row y of three rows is of the corner, turned so many times by a quarter.
fn is_corner(turns: u32, x: u32, y: u32) -> bool {
    let (x, y) = match turns % 4 {
        0 => (x, y),
        1 => (y, 2u32.saturating_sub(x)),
        2 => (2u32.saturating_sub(x), 2u32.saturating_sub(y)),
        _ => (2u32.saturating_sub(y), x),
    };
    x <= 1 && y <= 1
}

/// Whether a pixel is of the element.
fn has(form: Form, across: u32, x: u32, y: u32) -> bool {
    let middle = across / 2;
    let (dx, dy) = (x.abs_diff(middle), y.abs_diff(middle));
    match form {
        Form::Disc => dx.wrapping_mul(dx).wrapping_add(dy.wrapping_mul(dy))
            <= middle.wrapping_mul(middle),
        Form::Cross => dx == 0 || dy == 0,
        Form::Square => true,
        Form::Diagonal => x == y,
        Form::Scattered(chance) => {
            let mut chance = chance.part(y.wrapping_mul(256).wrapping_add(x));
            chance.below(8) < 5
        }
        Form::Corner(turns) => is_corner(turns, x, y),
        Form::Opposite(turns) => !is_corner(turns, x, y),
    }
}

/// The bitmap of an element of so many columns and rows.
pub(crate) fn bitmap(alloc: Global, form: Form, across: u32) -> Result<Vec<u8>, Fault> {
    let head = format!(in alloc; "P1\n{across} {across}\n")?;
    let mut bytes = Vec::from_slice(alloc, head.as_bytes())?;
    for y in 0..across {
        for x in 0..across {
            bytes.push(if has(form, across, x, y) { b'1' } else { b'0' })?;
        }
        bytes.push(b'\n')?;
    }
    Ok(bytes)
}
