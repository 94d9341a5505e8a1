//! Planes with several owners. No contract says how many own a plane, nor that it is not copied: so here its owners are
//! counted. Each test passes whichever one of its allocations is refused.

ghost use Rattle.std.specs.Prelude.{◌≡◌, replicate};
ghost use Rattle.std.specs.Arc.{arc_value};
ghost use Rattle.mw_model.specs.Rasters.{raster};

use mw_pixel::{Bit, HeldPlane, Image, Planar, Plane, SharedView};
use mw_tile::{AnyWindow, Window};
use std::alloc::Global;
use std::process::Abort;
use std::sync::Arc;

/// Three columns and two rows of one sample.
fn plane_of<P: Planar>(rt: &impl Abort, alloc: Global, sample: P) -> Plane<P>
    ensures { result ≡ raster 3 2 (replicate 6 sample) }
{
    once_more!(rt, Plane::filled(alloc, 3, 2, sample))
}

/// A plane of this sample alone, which others can own. Where memory was refused the plane came back, and is handed over once more.
fn owned_of<P: Planar>(rt: &impl Abort, alloc: Global, sample: P) -> Arc<Plane<P>>
    ensures { arc_value result ≡ raster 3 2 (replicate 6 sample) }
{
    match Arc::new(alloc, plane_of(rt, alloc, sample)) {
        Ok(plane) => plane,
        Err(refused) => match Arc::new(alloc, refused.value) {
            Ok(plane) => plane,
            Err(_refused) => panic!(rt; "there is memory"),
        },
    }
}

/// How many own the plane beside this share.
fn others(share: &SharedView) -> usize {
    let owners = match share {
        SharedView::Bits(plane) => Arc::strong_count(plane),
        SharedView::Grey8(plane, _) => Arc::strong_count(plane),
        SharedView::Grey16(plane, _) => Arc::strong_count(plane),
    };
    owners - 1
}

/// The window of the whole frame that owns its plane by this share.
fn window_of(rt: &impl Abort, share: SharedView) -> AnyWindow {
    match share {
        SharedView::Bits(plane) => AnyWindow::bits(Window::sharing(plane)),
        SharedView::Grey8(plane, maxval) => {
            assert!(rt; maxval >= 1);
            AnyWindow::grey8(Window::sharing(plane), maxval)
        }
        SharedView::Grey16(plane, maxval) => {
            assert!(rt; maxval >= 256);
            AnyWindow::grey16(Window::sharing(plane), maxval)
        }
    }
}

fn share_of(rt: &impl Abort, image: &Image) -> Image {
    once_more!(rt, image.share())
}

fn view_of(rt: &impl Abort, image: &Image) -> SharedView {
    once_more!(rt, image.shared())
}

/// How many own an image's plane beside a share: the image, another image of it, and a window; then one less in turn.
fn owners_in_turn(rt: &impl Abort, image: Image) -> [usize; 6] {
    let share = view_of(rt, &image);
    let one = others(&share);
    let other = share_of(rt, &image);
    let two = others(&share);
    let window = window_of(rt, view_of(rt, &other));
    let three = others(&share);
    drop(image);
    let without_image = others(&share);
    drop(other);
    let without_other = others(&share);
    drop(window);
    [
        one,
        two,
        three,
        without_image,
        without_other,
        others(&share),
    ]
}

#[test]
fn images_share_their_planes(rt: HostRuntime) {
    let set = Image::bits(owned_of(&rt, rt.alloc(), Bit::SET));
    assert_eq!(rt; owners_in_turn(&rt, set), [1, 2, 3, 2, 1, 0]);
    let bytes = Image::grey8(owned_of(&rt, rt.alloc(), 7u8), 9);
    assert_eq!(rt; owners_in_turn(&rt, bytes), [1, 2, 3, 2, 1, 0]);
    let words = Image::grey16(owned_of(&rt, rt.alloc(), 700u16), 999);
    assert_eq!(rt; owners_in_turn(&rt, words), [1, 2, 3, 2, 1, 0]);
}

fn clone_of(rt: &impl Abort, plane: &Arc<Plane<u8>>) -> Arc<Plane<u8>> {
    once_more!(rt, Arc::try_clone(plane))
}

#[test]
fn held_planes_have_one_owner_or_several(rt: HostRuntime) {
    let alone = HeldPlane::alone(plane_of(&rt, rt.alloc(), 7u8));
    assert_eq!(rt; alone.plane().samples(), [7; 6].as_slice());
    let plane = owned_of(&rt, rt.alloc(), 7u8);
    let held = HeldPlane::sharing(clone_of(&rt, &plane));
    assert_eq!(rt; Arc::strong_count(&plane), 2);
    assert_eq!(rt; held.plane().samples(), [7; 6].as_slice());
    drop(held);
    assert_eq!(rt; Arc::strong_count(&plane), 1);
}
