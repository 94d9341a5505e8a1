//! Windows of one pixel throughout, as most are in masks of few or of compact grains. Of each piece the block that the window
//! takes is looked at, one column of words after another. What differs in a column is gathered from all its words and looked at
//! once: a branch for each word would take longer. So such a window costs a small part of laying its pieces, and of another
//! little is looked at.

ghost use Rattle.std.specs.Prelude.{◌≡◌, ℕ, ◌+◌, ◌*◌, ◌%◌, ◌<◌, ◌≤◌, ◌^◌, cond, length, replicate, IfSome, IsTrue};
ghost use Rattle.std.specs.Int.{bit_at};
ghost use Rattle.mw_tile.specs.mw_pixel_words.Packed.{bit_of};
ghost use Rattle.mw_tile_pieces.specs.Patches.{value_in, HasValues};
ghost use Rattle.mw_tile_pieces.specs.Blocks.{BlockFits, ReadsOnly};
ghost use Rattle.mw_tile_pieces.specs.Laid.{IsLaid};

use crate::blocks::{Block, common_words};
use crate::{Piece, Pieces};
use mw_model::Rect;
use mw_tile::pixel::Bit;

/// The word of 64 such pixels.
fn word_of(is_set: bool) -> u64
    ensures { (b : ℕ) → b < 64 → bit_at result b ≡ cond is_set 1 0 }
{
    if is_set { u64::MAX } else { 0 }
}

/// Whether a block that lies in one column of words has this pixel throughout.
fn is_only_in_words(from: &[u64], block: Block, is_set: bool) -> bool
    requires room { (j : ℕ) → j < block.high → block.first + (j * block.own + block.width) ≤ 64 * length from.now }
    requires some { 0 < block.width }
    requires there { block.first % 64 + block.width ≤ 64 }
    requires whole { block.own % 64 ≡ 0 }
    ensures { IsTrue result → ReadsOnly block (bit_of from.now) (cond is_set 1 0) }
{
    let pixels = word_of(is_set);
    let (at, own) = (block.first / 64, block.own / 64);
    let mut others = 0;
    for y in 0..block.high {
        others = others | (from[at + y * own] ^ pixels);
    }
    (others >> (block.first % 64)) << (64 - block.width) == 0
}

/// Whether a block has this pixel throughout.
fn is_only_in_block(from: &[u64], block: Block, is_set: bool) -> bool
    requires room { (j : ℕ) → j < block.high → block.first + (j * block.own + block.width) ≤ 64 * length from.now }
    requires few { length from.now < 2 ^ 58 }
    requires some { 0 < block.high }
    requires whole { block.own % 64 ≡ 0 }
    ensures { IsTrue result → ReadsOnly block (bit_of from.now) (cond is_set 1 0) }
{
    let mut done = 0;
    'parts: while done < block.width {
        let first = block.first + done;
        let width = (block.width - done).min(64 - first % 64);
        let part = Block {
            first,
            width,
            ..block
        };
        if !is_only_in_words(from, part, is_set) {
            return false;
        }
        done += width;
    }
    true
}

/// Whether the window takes only this pixel of a piece, so that it stays as it is where the piece is laid over it.
fn is_only_in_piece(place: Rect, piece: &Piece<Bit>, is_set: bool) -> bool
    requires across { place.x + place.width < 2 ^ 32 }
    requires down { place.y + place.height < 2 ^ 32 }
    requires across_other { piece.now.place.x + piece.now.place.width < 2 ^ 32 }
    requires down_other { piece.now.place.y + piece.now.place.height < 2 ^ 32 }
    ensures { IsTrue result → IsLaid place piece.now (replicate (place.height * place.width) (cond is_set 1 0)) (replicate (place.height * place.width) (cond is_set 1 0)) }
{
    match common_words(place, piece.place()) {
        Some(block) => is_only_in_block(piece.plane().words().words(), block, is_set),
        None => true,
    }
}

/// Whether the window has this pixel throughout.
fn is_only(pieces: &Pieces<Bit>, is_set: bool) -> bool
    ensures { IsTrue result → HasValues (value_in pieces.now.pieces) pieces.now.place (replicate (pieces.now.place.height * pieces.now.place.width) (cond is_set 1 0)) }
{
    let place = pieces.place();
    // for their ranges
    let (_width, _height) = (pieces.frame_width(), pieces.frame_height());
    for piece in pieces.pieces() {
        if !is_only_in_piece(place, piece, is_set) {
            return false;
        }
    }
    true
}

/// The pixel that the window has throughout.
pub(crate) fn only_pixel(pieces: &Pieces<Bit>) -> Option<bool>
    ensures { IfSome result (λ b. HasValues (value_in pieces.now.pieces) pieces.now.place (replicate (pieces.now.place.height * pieces.now.place.width) (cond b 1 0))) }
{
    if is_only(pieces, false) {
        return Some(false);
    }
    if is_only(pieces, true) {
        return Some(true);
    }
    None
}
