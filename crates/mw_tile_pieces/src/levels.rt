//! Blocks of samples that stand one after another.

ghost use Rattle.std.specs.Prelude.{◌≡◌, ◌+◌, ◌*◌, ◌<◌, ◌≤◌, ◌^◌, length, slice_get};
ghost use Rattle.mw_tile_pieces.specs.Patches.{value_in, HasValues};
ghost use Rattle.mw_tile_pieces.specs.Blocks.{BlockFits, CopiesRun, IsPasted};
ghost use Rattle.mw_tile_pieces.specs.Laid.{IsLaid};

use crate::blocks::{Block, common};
use crate::{Piece, Pieces};
use mw_model::Rect;
use mw_tile::pixel::{Grey, Pixel};

/// Blocks of so few columns are copied column by column: a call for each row would take longer.
const NARROW: usize = 4;

/// Writes a run of samples over others.
#[inline(always)]
fn copy_run<P: Pixel>(out: &mut [P], to: usize, from: &[P], at: usize, count: usize)
    requires room { to + count ≤ length out.old }
    requires other { at + count ≤ length from.now }
    ensures { CopiesRun (slice_get out.old) (slice_get out.new) (slice_get from.now) to at count }
{
    out[to..to + count].copy_from_slice(&from[at..at + count]);
}

/// Writes a block of one column.
fn copy_column<P: Pixel>(out: &mut [P], from: &[P], block: Block)
    requires fits { BlockFits block (length out.old) (length from.now) }
    requires column { block.width ≡ 1 }
    ensures { IsPasted block (slice_get out.old) (slice_get out.new) (slice_get from.now) }
{
    for y in 0..block.high {
        out[block.start + y * block.wide] = from[block.first + y * block.own];
    }
}

/// Writes a block column by column.
fn copy_columns<P: Pixel>(out: &mut [P], from: &[P], block: Block)
    requires fits { BlockFits block (length out.old) (length from.now) }
    requires some { 0 < block.high }
    ensures { IsPasted block (slice_get out.old) (slice_get out.new) (slice_get from.now) }
{
    for x in 0..block.width {
        let column = Block {
            start: block.start + x,
            first: block.first + x,
            width: 1,
            ..block
        };
        copy_column(out, from, column);
    }
}

/// Writes a block row by row.
fn copy_rows<P: Pixel>(out: &mut [P], from: &[P], block: Block)
    requires { BlockFits block (length out.old) (length from.now) }
    ensures { IsPasted block (slice_get out.old) (slice_get out.new) (slice_get from.now) }
{
    for y in 0..block.high {
        let (to, at) = (block.start + y * block.wide, block.first + y * block.own);
        copy_run(out, to, from, at, block.width);
    }
}

/// Writes a block.
fn copy_block<P: Pixel>(out: &mut [P], from: &[P], block: Block)
    requires fits { BlockFits block (length out.old) (length from.now) }
    requires some { 0 < block.high }
    ensures { IsPasted block (slice_get out.old) (slice_get out.new) (slice_get from.now) }
{
    if block.width <= NARROW {
        copy_columns(out, from, block);
    } else {
        copy_rows(out, from, block);
    }
}

/// Writes what a piece has of the window.
fn lay<P: Grey>(out: &mut [P], place: Rect, piece: &Piece<P>)
    requires size { length out.old ≡ place.height * place.width }
    requires across { place.x + place.width < 2 ^ 32 }
    requires down { place.y + place.height < 2 ^ 32 }
    requires across_other { piece.now.place.x + piece.now.place.width < 2 ^ 32 }
    requires down_other { piece.now.place.y + piece.now.place.height < 2 ^ 32 }
    ensures { IsLaid place piece.now out.old out.new }
{
    let held = piece.place();
    let block = common(place, held, place.width as usize, held.width as usize);
    if let Some(block) = block {
        copy_block(out, piece.plane().samples(), block);
    }
}

/// Writes the samples of the window, piece by piece.
pub(crate) fn lay_all<P: Grey>(out: &mut [P], pieces: &Pieces<P>)
    requires { length out.old ≡ pieces.now.place.height * pieces.now.place.width }
    ensures { HasValues (value_in pieces.now.pieces) pieces.now.place out.new }
{
    let place = pieces.place();
    // for their ranges
    let (_width, _height) = (pieces.frame_width(), pieces.frame_height());
    for piece in pieces.pieces() {
        lay(out, place, piece);
    }
}
