//! Who owns the samples of tiles: windows and shares of a plane own its tiles, and a window that has all of a piece is put together
//! without a copy. No contract says how many own a plane.

ghost use Rattle.std.specs.Prelude.{◌↔◌, ◌≤◌, All, IsTrue};
ghost use Rattle.mw_tile_planes.specs.Tiles.{AllPlaced};

use crate::given::{filled, owned, rect, window};
use mw_grid::{Grid, is_within};
use mw_model::{Kind, Rect};
use mw_pixel::{Planar, Plane};
use mw_tile::AnyWindow;
use mw_tile_pieces::{Piece, PiecesView, SharedWindow, assemble};
use mw_tile_planes::{Tile, TiledPlane};
use std::alloc::Global;
use std::process::Abort;
use std::sync::Arc;

fn bytes_fit(samples: &[u8], maxval: u8) -> bool
    ensures { IsTrue result ↔ All (λ s. s ≤ maxval) samples.now }
{
    samples.iter().all(|s| *s <= maxval)
}

const TILE: Rect = Rect {
    x: 0,
    y: 0,
    width: 22,
    height: 12,
};

/// One more owner of the tile.
fn share_of(rt: &impl Abort, tile: &Arc<Plane<u8>>) -> Arc<Plane<u8>> {
    Arc::try_clone(tile).ok().expect(rt, "memory")
}

/// The plane of bytes whose one tile this is.
fn one_tile(rt: &impl Abort, alloc: Global, tile: Arc<Plane<u8>>) -> TiledPlane
    ensures { AllPlaced result }
{
    assert!(rt; tile.width() == 22 && tile.height() == 12);
    assert!(rt; bytes_fit(tile.samples(), 255));
    let grid = Grid::new(22, 12, 64);
    assert!(rt; grid.len() == 1 && grid.rect(0) == TILE);
    let mut plane = TiledPlane::new(alloc, Kind::Grey, 255, grid).expect(rt, "memory");
    plane.place(0, Tile::Grey8(tile, 255));
    plane
}

/// The window of a rectangle of a plane whose tiles are all placed.
fn window_in(rt: &impl Abort, alloc: Global, plane: &TiledPlane, place: Rect) -> SharedWindow
    requires { AllPlaced plane.now }
{
    let grid = plane.grid();
    assert!(rt; is_within(place, grid.width(), grid.height()));
    assert!(rt; place.width > 0 && place.height > 0);
    plane.shared(alloc, place).expect(rt, "memory")
}

fn joined(rt: &impl Abort, alloc: Global, window: &SharedWindow) -> AnyWindow {
    assemble(alloc, window).expect(rt, "memory")
}

/// How many own the tile while there is a window of a rectangle of its plane, while that is put together too, and while only what
/// was put together is left beside the plane.
fn owners_in_turn(rt: &impl Abort, alloc: Global, place: Rect) -> [usize; 3] {
    let tile = owned(rt, alloc, filled(rt, alloc, (22, 12), 7u8));
    let plane = one_tile(rt, alloc, share_of(rt, &tile));
    let window = window_in(rt, alloc, &plane, place);
    let with_window = Arc::strong_count(&tile);
    let _joined = joined(rt, alloc, &window);
    let with_both = Arc::strong_count(&tile);
    drop(window);
    [with_window, with_both, Arc::strong_count(&tile)]
}

#[test]
fn windows_own_a_tile(rt: HostRuntime) {
    // what is put together of all of a tile has the tile's samples, and of a part its own
    assert_eq!(rt; owners_in_turn(&rt, rt.alloc(), TILE), [3, 4, 3]);
    assert_eq!(rt;
        owners_in_turn(&rt, rt.alloc(), rect(0, 0, 21, 12)),
        [3, 3, 2]
    );
}

/// How many own the tile beside a plane and a share of it, once the plane has dropped it, and when both are gone.
fn owners_of_shares(rt: &impl Abort, alloc: Global) -> [usize; 3] {
    let tile = owned(rt, alloc, filled(rt, alloc, (22, 12), 7u8));
    let mut plane = one_tile(rt, alloc, share_of(rt, &tile));
    let share = plane.share(alloc).expect(rt, "memory");
    let with_share = Arc::strong_count(&tile);
    assert!(rt; plane.grid().len() > 0);
    plane.drop_tile(0);
    let dropped = Arc::strong_count(&tile);
    drop(plane);
    drop(share);
    [with_share, dropped, Arc::strong_count(&tile)]
}

#[test]
fn shares_own_a_tile(rt: HostRuntime) {
    assert_eq!(rt; owners_of_shares(&rt, rt.alloc()), [3, 2, 1]);
}

/// How many own the samples of the first piece.
fn owners_of<P: Planar>(rt: &impl Abort, pieces: &[Piece<P>]) -> usize {
    let piece = pieces.first().expect(rt, "a piece");
    let owner = piece.owner().expect(rt, "memory");
    Arc::strong_count(&owner).saturating_sub(1)
}

fn owners_of_piece(rt: &impl Abort, window: &SharedWindow) -> usize {
    match window.view() {
        PiecesView::Bits(pieces) => owners_of(rt, pieces.pieces()),
        PiecesView::Grey8(pieces, _) => owners_of(rt, pieces.pieces()),
        PiecesView::Grey16(pieces, _) => owners_of(rt, pieces.pieces()),
    }
}

#[test]
fn a_window_of_one_piece_shares_it(rt: HostRuntime) {
    for maxval in [1, 255, 65535] {
        let window = window(&rt, rt.alloc(), (22, 12), (maxval, 1));
        assert_eq!(rt; owners_of_piece(&rt, &window), 1);
        let _joined = assemble(rt.alloc(), &window).expect(&rt, "memory");
        assert_eq!(rt; owners_of_piece(&rt, &window), 2);
    }
}
