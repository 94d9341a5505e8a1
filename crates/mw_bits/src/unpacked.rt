//! A window of a set written out in levels of one byte, for kernels that count levels.
ghost use Rattle.std.specs.Prelude.{◌≡◌, ◌*◌, length, IfOk};
ghost use Rattle.mw_offset.specs.mw_pixel_words.Packed.{stride_of};

use crate::held::{row_of, words_of};
use mw_bits_rows::unpack_row;
use mw_model::NoMemory;
use mw_offset::pixel::{Bit, Plane, copies};
use mw_offset::tile::Window;
use mw_offset::words::stride;
use std::alloc::Global;

/// The pixels of all rows.
fn unpack_rows(alloc: Global, set: &Window<Bit>, line: &mut [Bit]) -> Result<Vec<Bit>, NoMemory>
    requires { length line.old ≡ 64 * stride_of set.now.place.width }
    ensures { IfOk result (λ v. v.items ≡ set.now.cells) }
{
    let place = set.place();
    // for the number of its pixels
    let _words = words_of(set);
    let mut samples = Vec::with_capacity(alloc, place.height as usize * place.width as usize)?;
    for y in 0..place.height {
        unpack_row(row_of(set, y), line);
        samples.extend_from_slice(&line[..place.width as usize])?;
    }
    Ok(samples)
}

/// The pixels as levels.
fn numbers(alloc: Global, bits: &[Bit]) -> Result<Vec<u8>, NoMemory>
    ensures { IfOk result (λ v. v.items ≡ bits.now) }
{
    let mut levels = Vec::with_capacity(alloc, bits.len())?;
    for bit in bits {
        levels.push(bit.number())?;
    }
    Ok(levels)
}

/// The window with a level of 0 or 1 for each pixel. It may want memory (`NoMemory`).
pub fn as_levels(alloc: Global, set: &Window<Bit>) -> Result<Window<u8>, NoMemory>
    ensures { IfOk result (λ w. w ≡ set.now) }
{
    let place = set.place();
    let (width, height) = (set.frame_width(), set.frame_height());
    // for the number of its pixels
    let _words = words_of(set);
    let mut line = copies(alloc, 64 * stride(place.width), Bit::new(false))?;
    let bits = unpack_rows(alloc, set, line.as_mut_slice())?;
    let levels = numbers(alloc, &bits)?;
    let plane = Plane::new(place.width, place.height, levels);
    Ok(Window::new(width, height, place, plane))
}
