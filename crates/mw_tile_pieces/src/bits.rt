//! Blocks of pixels that stand in words: place p of some words is bit p % 64 of word p / 64. A block is cut where a word
//! ends, so that each part lies in one column of words on both sides, and its shifts and mask are the same in all rows.

ghost use Rattle.std.specs.Prelude.{◌≡◌, ◌+◌, ◌*◌, ◌/◌, ◌%◌, ◌<◌, ◌≤◌, ◌^◌, length};
ghost use Rattle.mw_tile.specs.mw_pixel_words.Packed.{bit_of, samples_of, IsPacked};
ghost use Rattle.mw_tile_pieces.specs.Patches.{value_in, HasValues};
ghost use Rattle.mw_tile_pieces.specs.Blocks.{BlockFits, IsPasted};
ghost use Rattle.mw_tile_pieces.specs.Laid.{IsLaid};

use crate::blocks::{Block, common_words};
use crate::{Piece, Pieces};
use mw_model::Rect;
use mw_tile::pixel::Bit;
use mw_tile::words::blended;

/// Writes a block that lies in one column of words on both sides.
fn copy_in_words(out: &mut [u64], from: &[u64], block: Block)
    requires fits { BlockFits block (64 * length out.old) (64 * length from.now) }
    requires some { 0 < block.width }
    requires here { block.start % 64 + block.width ≤ 64 }
    requires there { block.first % 64 + block.width ≤ 64 }
    requires whole { block.wide % 64 ≡ 0 }
    requires whole_other { block.own % 64 ≡ 0 }
    ensures { IsPasted block (bit_of out.old) (bit_of out.new) (bit_of from.now) }
{
    let (to, stride, lead) = (block.start / 64, block.wide / 64, (block.start % 64) as u32);
    let (at, own, skip) = (block.first / 64, block.own / 64, (block.first % 64) as u32);
    for y in 0..block.high {
        let k = to + y * stride;
        out[k] = blended(out[k], from[at + y * own] >> skip, lead, block.width as u32);
    }
}

/// Writes a block, part by part.
fn copy_block(out: &mut [u64], from: &[u64], block: Block)
    requires fits { BlockFits block (64 * length out.old) (64 * length from.now) }
    requires few { length out.old < 2 ^ 58 }
    requires few_other { length from.now < 2 ^ 58 }
    requires some { 0 < block.high }
    requires whole { block.wide % 64 ≡ 0 }
    requires whole_other { block.own % 64 ≡ 0 }
    ensures { IsPasted block (bit_of out.old) (bit_of out.new) (bit_of from.now) }
{
    let mut done = 0;
    'parts: while done < block.width {
        let (start, first) = (block.start + done, block.first + done);
        let width = (block.width - done)
            .min(64 - start % 64)
            .min(64 - first % 64);
        let part = Block {
            start,
            first,
            width,
            ..block
        };
        copy_in_words(out, from, part);
        done += width;
    }
}

/// Writes what a piece has of the window.
fn lay(out: &mut [u64], place: Rect, piece: &Piece<Bit>)
    requires packed { IsPacked place.width place.height out.old }
    requires across { place.x + place.width < 2 ^ 32 }
    requires down { place.y + place.height < 2 ^ 32 }
    requires across_other { piece.now.place.x + piece.now.place.width < 2 ^ 32 }
    requires down_other { piece.now.place.y + piece.now.place.height < 2 ^ 32 }
    ensures packed { IsPacked place.width place.height out.new }
    ensures laid { IsLaid place piece.now (samples_of place.width place.height out.old) (samples_of place.width place.height out.new) }
{
    if let Some(block) = common_words(place, piece.place()) {
        copy_block(out, piece.plane().words().words(), block);
    }
}

/// Writes the pixels of the window, piece by piece.
pub(crate) fn lay_all(out: &mut [u64], pieces: &Pieces<Bit>)
    requires { IsPacked pieces.now.place.width pieces.now.place.height out.old }
    ensures packed { IsPacked pieces.now.place.width pieces.now.place.height out.new }
    ensures values { HasValues (value_in pieces.now.pieces) pieces.now.place (samples_of pieces.now.place.width pieces.now.place.height out.new) }
{
    let place = pieces.place();
    // for their ranges
    let (_width, _height) = (pieces.frame_width(), pieces.frame_height());
    for piece in pieces.pieces() {
        lay(out, place, piece);
    }
}
