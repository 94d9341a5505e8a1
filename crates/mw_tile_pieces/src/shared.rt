//! Windows in pieces, of sets and of pictures in levels of grey. What is seen of one is a kind, a maxval and levels, as of
//! the window that it makes.

use crate::Pieces;
use mw_model::{Kind, Rect};
use mw_tile::pixel::Bit;
use std::marker::Model;

/// The pieces of a window, to be looked at; beside them the maxval of the source.
#[derive(Clone, Copy)]
pub enum PiecesView<'a> {
    Bits(&'a Pieces<Bit>),
    Grey8(&'a Pieces<u8>, u8),
    Grey16(&'a Pieces<u16>, u16),
}

#[derive(Drop)]
enum Held {
    Bits(Pieces<Bit>),
    Grey8(Pieces<u8>, u8),
    Grey16(Pieces<u16>, u16),
}

/// A window of a source, with the source's kind and maxval, as one more owner of the samples.
#[derive(Drop)]
pub struct SharedWindow {
    content: Held,
}

impl Model for SharedWindow {
    ghost use Rattle.mw_tile.specs.Windows.{SourceWindow};

    ghost Value = { SourceWindow };

    ghost use Rattle.mw_tile_pieces.specs.Shared.{joint_held, JointIsHeld};

    ghost view = { λ a. joint_held a.content };

    ghost invariant = { λ a. JointIsHeld a.content };
}

impl SharedWindow {
    ghost use Rattle.std.specs.Prelude.{◌≡◌, ◌≤◌};
    ghost use Rattle.mw_tile_pieces.specs.Shared.{set_joint, grey_joint, ShowsPieces};

    /// The window of a set.
    pub fn bits(pieces: Pieces<Bit>) -> SharedWindow
        ensures { result ≡ set_joint pieces }
    {
        // for what holds of all pieces
        let _pieces = pieces.pieces();
        SharedWindow {
            content: Held::Bits(pieces),
        }
    }

    /// The window of a grey source with a maxval from 1 to 255.
    pub fn grey8(pieces: Pieces<u8>, maxval: u8) -> SharedWindow
        requires { 1 ≤ maxval }
        ensures { result ≡ grey_joint pieces maxval }
    {
        // for what holds of all pieces
        let _pieces = pieces.pieces();
        SharedWindow {
            content: Held::Grey8(pieces, maxval),
        }
    }

    /// The window of a grey source with a maxval from 256 to 65,535.
    pub fn grey16(pieces: Pieces<u16>, maxval: u16) -> SharedWindow
        requires { 256 ≤ maxval }
        ensures { result ≡ grey_joint pieces maxval }
    {
        // for what holds of all pieces
        let _pieces = pieces.pieces();
        SharedWindow {
            content: Held::Grey16(pieces, maxval),
        }
    }

    /// What is inside, to be looked at.
    pub fn view(&self) -> PiecesView<'_>
        ensures { ShowsPieces self.now result }
    {
        match &self.content {
            Held::Bits(p) => PiecesView::Bits(p),
            Held::Grey8(p, maxval) => PiecesView::Grey8(p, *maxval),
            Held::Grey16(p, maxval) => PiecesView::Grey16(p, *maxval),
        }
    }

    /// The rectangle of the frame that the window has.
    pub fn place(&self) -> Rect
        ensures { result ≡ self.now.view.place }
    {
        match &self.content {
            Held::Bits(p) => p.place(),
            Held::Grey8(p, _) => p.place(),
            Held::Grey16(p, _) => p.place(),
        }
    }

    /// The columns of the frame.
    pub fn frame_width(&self) -> u32
        ensures { result ≡ self.now.view.frame_width }
    {
        match &self.content {
            Held::Bits(p) => p.frame_width(),
            Held::Grey8(p, _) => p.frame_width(),
            Held::Grey16(p, _) => p.frame_width(),
        }
    }

    /// The rows of the frame.
    pub fn frame_height(&self) -> u32
        ensures { result ≡ self.now.view.frame_height }
    {
        match &self.content {
            Held::Bits(p) => p.frame_height(),
            Held::Grey8(p, _) => p.frame_height(),
            Held::Grey16(p, _) => p.frame_height(),
        }
    }

    /// The kind of the source.
    pub fn kind(&self) -> Kind
        ensures { result ≡ self.now.kind }
    {
        match &self.content {
            Held::Bits(_) => Kind::Bit,
            Held::Grey8(_, _) => Kind::Grey,
            Held::Grey16(_, _) => Kind::Grey,
        }
    }

    /// The maxval of the source.
    pub fn maxval(&self) -> u16
        ensures value { result ≡ self.now.maxval }
        ensures some { 1 ≤ result }
    {
        match &self.content {
            Held::Bits(_) => 1,
            Held::Grey8(_, maxval) => u16::from(*maxval),
            Held::Grey16(_, maxval) => *maxval,
        }
    }
}
