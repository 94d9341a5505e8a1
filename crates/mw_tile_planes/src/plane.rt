//! Planes that are made tile by tile.

use crate::{Tile, TilesView};
use mw_grid::Grid;
use mw_model::{Kind, NoMemory, Rect};
use mw_step_task::pieces::{PiecesView, SharedWindow};
use mw_step_task::pixel::Bit;
use mw_tile_slots::{Placed, TiledRows, are_tiles, no_tiles, pieces_of, put, share_tiles};
use std::alloc::Global;
use std::marker::Model;

#[derive(Drop)]
enum Samples {
    Bits(Vec<Option<Placed<Bit>>>),
    Grey8(Vec<Option<Placed<u8>>>, u8),
    Grey16(Vec<Option<Placed<u16>>>, u16),
}

/// A plane of one kind and maxval on a frame that is cut into tiles. Each tile is placed once it is made, and dropped
/// once no one reads it any more.
#[derive(Drop)]
pub struct TiledPlane {
    grid: Grid,
    content: Samples,
}

impl Model for TiledPlane {
    ghost use Rattle.mw_tile_planes.specs.Tiles.{Tiled};

    ghost Value = { Tiled };

    ghost use Rattle.mw_tile_planes.specs.Held.{tiled_held, TilesAreHeld};

    ghost view = { λ p. tiled_held p.grid p.content };

    ghost invariant = { λ p. TilesAreHeld p.grid p.content };
}

impl TiledPlane {
    ghost use Rattle.std.specs.Prelude.{◌≡◌, ◌↔◌, ◌<◌, ◌≤◌, All, IfOk, IsTrue, None, Some, slice_set};
    ghost use Rattle.mw_model.specs.Pictures.{FitsKind, Picture};
    ghost use Rattle.mw_model.specs.Rectangles.{IsWithin};
    ghost use Rattle.mw_grid.specs.Grids.{tile_at, tile_count};
    ghost use Rattle.mw_step_task.specs.mw_tile.Windows.{window_of};
    ghost use Rattle.mw_step_task.specs.WindowTasks.{IsBounded};
    ghost use Rattle.mw_tile_planes.specs.Tiles.{AllPlaced, HasAll, IsPlaneOf, TiledIsSound, nothing_placed, tile_cells};
    ghost use Rattle.mw_tile_planes.specs.Held.{image_of_tile, IsTile};
    ghost use Rattle.mw_tile_planes.specs.Views.{ShowsInTiles};

    /// The plane without any tile, with the places for all.
    #[tactic(auto, using(crate::proofs::Sides::no_sets))]
    pub fn new(alloc: Global, kind: Kind, maxval: u16, grid: Grid) -> Result<TiledPlane, NoMemory>
        requires { FitsKind kind maxval }
        ensures { IfOk result (λ p. p ≡ nothing_placed kind maxval grid) }
    {
        let count = grid.len() as usize;
        match kind {
            Kind::Bit => {
                let content = Samples::Bits(no_tiles(alloc, count)?);
                Ok(TiledPlane { grid, content })
            }
            Kind::Grey => {
                if maxval <= 255 {
                    let content = Samples::Grey8(no_tiles(alloc, count)?, maxval as u8);
                    Ok(TiledPlane { grid, content })
                } else {
                    let content = Samples::Grey16(no_tiles(alloc, count)?, maxval);
                    Ok(TiledPlane { grid, content })
                }
            }
        }
    }

    /// The frame and its tiles.
    pub fn grid(&self) -> Grid
        ensures { result ≡ self.now.tiling }
    {
        match &self.content {
            Samples::Bits(_) => self.grid,
            Samples::Grey8(_, _) => self.grid,
            Samples::Grey16(_, _) => self.grid,
        }
    }

    /// Whether it is a set or in levels of grey.
    pub fn kind(&self) -> Kind
        ensures { result ≡ self.now.kind }
    {
        match &self.content {
            Samples::Bits(_) => Kind::Bit,
            Samples::Grey8(_, _) => Kind::Grey,
            Samples::Grey16(_, _) => Kind::Grey,
        }
    }

    /// The greatest level that a sample may have.
    pub fn maxval(&self) -> u16
        ensures { result ≡ self.now.maxval }
    {
        match &self.content {
            Samples::Bits(_) => 1,
            Samples::Grey8(_, maxval) => u16::from(*maxval),
            Samples::Grey16(_, maxval) => *maxval,
        }
    }

    /// Places a tile, of the plane's kind and maxval and of the sides of its place. This takes no memory, and copies
    /// nothing.
    #[tactic(auto, using(crate::proofs::Sides::written_held))]
    pub fn place(&mut self, i: u32, tile: Tile)
        requires within { i < tile_count self.old.tiling }
        requires free { tile_cells self.old.tiles i ≡ None }
        requires tile { IsTile tile }
        requires bounded { All (λ s. s ≤ (image_of_tile tile).maxval) (image_of_tile tile).samples }
        requires kind { (image_of_tile tile).kind ≡ self.old.kind }
        requires maxval { (image_of_tile tile).maxval ≡ self.old.maxval }
        requires width { (image_of_tile tile).width ≡ (tile_at self.old.tiling i).width }
        requires height { (image_of_tile tile).height ≡ (tile_at self.old.tiling i).height }
        ensures { self.new ≡ record self.old { tiles = slice_set self.old.tiles i (Some (image_of_tile tile).samples) } }
    {
        let grid = self.grid;
        match tile {
            Tile::Bits(plane) => {
                if let Samples::Bits(tiles) = &mut self.content {
                    put(grid, tiles, i, Some(Placed::new(plane)));
                }
            }
            Tile::Grey8(plane, _) => {
                if let Samples::Grey8(tiles, _) = &mut self.content {
                    put(grid, tiles, i, Some(Placed::new(plane)));
                }
            }
            Tile::Grey16(plane, _) => {
                if let Samples::Grey16(tiles, _) = &mut self.content {
                    put(grid, tiles, i, Some(Placed::new(plane)));
                }
            }
        }
    }

    /// What is so of each plane: a call that is made only for this fact.
    pub(crate) fn sound(&self)
        ensures { TiledIsSound self.now }
    {
        let _width = self.grid.width();
        let _height = self.grid.height();
        let _side = self.grid.side();
    }

    /// The window of a rectangle, as one more owner of each tile that meets it. No sample is copied.
    pub fn shared(&self, alloc: Global, rect: Rect) -> Result<SharedWindow, NoMemory>
        requires some { (1 ≤ rect.width) × (1 ≤ rect.height) }
        requires within { IsWithin rect self.now.tiling.width self.now.tiling.height }
        requires placed { HasAll self.now.tiling self.now.tiles rect }
        ensures same { IfOk result (λ w. (f : Picture) → IsPlaneOf self.now f → w ≡ window_of rect f) }
        ensures bounded { IfOk result IsBounded }
    {
        self.sound();
        Ok(self.in_pieces(alloc, rect)?)
    }

    fn in_pieces(&self, alloc: Global, rect: Rect) -> Result<SharedWindow, NoMemory>
        requires some { (1 ≤ rect.width) × (1 ≤ rect.height) }
        requires within { IsWithin rect self.now.tiling.width self.now.tiling.height }
        requires placed { HasAll self.now.tiling self.now.tiles rect }
        ensures { IfOk result (λ w. (f : Picture) → IsPlaneOf self.now f → w ≡ window_of rect f) }
    {
        let grid = self.grid;
        match &self.content {
            Samples::Bits(tiles) => {
                let pieces = pieces_of(alloc, grid, tiles, rect)?;
                Ok(SharedWindow::bits(pieces))
            }
            Samples::Grey8(tiles, maxval) => {
                let pieces = pieces_of(alloc, grid, tiles, rect)?;
                Ok(SharedWindow::grey8(pieces, *maxval))
            }
            Samples::Grey16(tiles, maxval) => {
                let pieces = pieces_of(alloc, grid, tiles, rect)?;
                Ok(SharedWindow::grey16(pieces, *maxval))
            }
        }
    }

    /// Whether a window is the plane's in a rectangle: of its kind, maxval and frame, and in that place with the same
    /// samples. They are compared piece by piece, which takes no memory.
    pub fn matches(&self, rect: Rect, window: &SharedWindow) -> bool
        requires within { IsWithin rect self.now.tiling.width self.now.tiling.height }
        requires placed { HasAll self.now.tiling self.now.tiles rect }
        ensures same { (f : Picture) → IsPlaneOf self.now f → IsTrue result ↔ (window.now ≡ window_of rect f) }
        ensures level { IsTrue result → (window.now.kind ≡ self.now.kind) × (window.now.maxval ≡ self.now.maxval) }
        ensures bounded { IsTrue result → IsBounded window.now }
    {
        self.sound();
        self.has_window(rect, window)
    }

    fn has_window(&self, rect: Rect, window: &SharedWindow) -> bool
        requires within { IsWithin rect self.now.tiling.width self.now.tiling.height }
        requires placed { HasAll self.now.tiling self.now.tiles rect }
        ensures { (f : Picture) → IsPlaneOf self.now f → IsTrue result ↔ (window.now ≡ window_of rect f) }
    {
        let grid = self.grid;
        if window.place() != rect {
            return false;
        }
        match (&self.content, window.view()) {
            (Samples::Bits(tiles), PiecesView::Bits(w)) => are_tiles(grid, tiles, w),
            (Samples::Grey8(tiles, m), PiecesView::Grey8(w, n)) => {
                *m == n && are_tiles(grid, tiles, w)
            }
            (Samples::Grey16(tiles, m), PiecesView::Grey16(w, n)) => {
                *m == n && are_tiles(grid, tiles, w)
            }
            _ => false,
        }
    }

    /// The tiles, to be looked at, once every one is placed.
    pub(crate) fn view(&self) -> TilesView<'_>
        requires { AllPlaced self.now }
        ensures { (f : Picture) → IsPlaneOf self.now f → ShowsInTiles f result }
    {
        let grid = self.grid;
        match &self.content {
            Samples::Bits(tiles) => TilesView::Bits(TiledRows::of(grid, tiles)),
            Samples::Grey8(tiles, maxval) => TilesView::Grey8(TiledRows::of(grid, tiles), *maxval),
            Samples::Grey16(tiles, maxval) => {
                TilesView::Grey16(TiledRows::of(grid, tiles), *maxval)
            }
        }
    }

    /// This plane once more, as one more owner of each of its tiles.
    pub fn share(&self, alloc: Global) -> Result<TiledPlane, NoMemory>
        ensures { IfOk result (λ p. p ≡ self.now) }
    {
        let grid = self.grid;
        match &self.content {
            Samples::Bits(tiles) => {
                let content = Samples::Bits(share_tiles(alloc, tiles)?);
                Ok(TiledPlane { grid, content })
            }
            Samples::Grey8(tiles, maxval) => {
                let content = Samples::Grey8(share_tiles(alloc, tiles)?, *maxval);
                Ok(TiledPlane { grid, content })
            }
            Samples::Grey16(tiles, maxval) => {
                let content = Samples::Grey16(share_tiles(alloc, tiles)?, *maxval);
                Ok(TiledPlane { grid, content })
            }
        }
    }

    /// Gives up the plane's ownership of a tile.
    #[tactic(auto, using(crate::proofs::Sides::written_held))]
    pub fn drop_tile(&mut self, i: u32)
        requires { i < tile_count self.old.tiling }
        ensures { self.new ≡ record self.old { tiles = slice_set self.old.tiles i None } }
    {
        let grid = self.grid;
        match &mut self.content {
            Samples::Bits(tiles) => put(grid, tiles, i, None),
            Samples::Grey8(tiles, _) => put(grid, tiles, i, None),
            Samples::Grey16(tiles, _) => put(grid, tiles, i, None),
        }
    }
}
