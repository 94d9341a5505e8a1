//! Each operation on sets and on samples of one and of two bytes: what is made is what the reference makes.

ghost use Rattle.std.specs.Prelude.{◌<◌};
ghost use Rattle.mw_model.specs.Pictures.{IsImage};

use crate::direct_given::{DEEP, GREY, MARKS, SET, element, name, picture, plain_of};
use crate::direct_reference::by_reference;
use mw_c_direct::{Made, apply};
use mw_element::Element;
use mw_model::{FlatOp, GranOp, Offset, Op};
use mw_pixel::Image;
use mw_reference::ReferenceImage;
use std::alloc::Global;
use std::process::Abort;
use std::sync::Arc;

/// A corner, its origin in the left pixel of the lower row.
const CORNER: &[u8] = b"P1\n2 2\n10\n11\n";

/// A full rectangle from its middle.
const SQUARE: &[u8] = b"P1\n3 3\n111\n111\n111\n";

/// The right neighbour of the origin alone.
const RIGHT: &[u8] = b"P1\n3 1\n001\n";

/// Stops where the images differ.
fn are_same(rt: &impl Abort, found: &ReferenceImage, wanted: &ReferenceImage) {
    assert!(rt; found.kind() == wanted.kind() && found.maxval() == wanted.maxval());
    assert!(rt; found.width() == wanted.width() && found.height() == wanted.height());
    assert_eq!(rt; found.samples(), wanted.samples());
}

/// Stops where another image was made, or a curve.
fn is_image(rt: &impl Abort, alloc: Global, made: Made, wanted: &ReferenceImage) {
    match made {
        Made::Image(found) => are_same(rt, &plain_of(rt, alloc, &found), wanted),
        Made::Curve(_) => panic!(rt; "an image"),
    }
}

fn made(
    rt: &impl Abort,
    alloc: Global,
    op: &Op,
    image: &Image,
    b: &Arc<Element>,
    c: Option<&Arc<Element>>,
) -> Made
    requires { IsImage image.now }
{
    apply(alloc, op, image, Some(b), c)
        .ok()
        .expect(rt, "a result")
}

/// What the reference makes by the flat operation.
fn plainly(
    rt: &impl Abort,
    alloc: Global,
    op: &FlatOp,
    image: &Image,
    b: &[Offset],
    c: &[Offset],
) -> ReferenceImage {
    by_reference(alloc, op, &plain_of(rt, alloc, image), b, c)
        .ok()
        .expect(rt, "memory")
}

/// Stops where the operation makes something else of the image than the reference.
fn is_plain(
    rt: &impl Abort,
    alloc: Global,
    op: &FlatOp,
    image: &Image,
    b: &Arc<Element>,
    c: &Arc<Element>,
)
    requires { IsImage image.now }
{
    let wanted = plainly(rt, alloc, op, image, b.offsets(), c.offsets());
    let made = made(rt, alloc, &Op::Flat(*op), image, b, Some(c));
    is_image(rt, alloc, made, &wanted);
}

/// The ten flat operations.
fn flat_operations(rt: &impl Abort) -> [FlatOp; 10] {
    let n = name(rt);
    [
        FlatOp::Erode(n, n),
        FlatOp::Dilate(n, n),
        FlatOp::Opening(n, n),
        FlatOp::Closing(n, n),
        FlatOp::Gradient(n, n),
        FlatOp::WhiteTopHat(n, n),
        FlatOp::BlackTopHat(n, n),
        FlatOp::Rank(n, n, 2),
        FlatOp::Threshold(n, 1),
        FlatOp::HitMiss(n, n, n),
    ]
}

fn flat_operations_are_plain(rt: &impl Abort, alloc: Global, bytes: &[u8]) {
    let image = picture(rt, alloc, bytes);
    let b = element(rt, alloc, CORNER, 0, 1);
    let c = element(rt, alloc, RIGHT, 0, 0);
    for op in flat_operations(rt) {
        is_plain(rt, alloc, &op, &image, &b, &c);
    }
}

#[test]
fn flat_operations_on_each_kind(rt: HostRuntime) {
    flat_operations_are_plain(&rt, rt.alloc(), SET);
    flat_operations_are_plain(&rt, rt.alloc(), GREY);
    flat_operations_are_plain(&rt, rt.alloc(), DEEP);
}

/// The full square of 255 x 255 pixels.
fn largest_square(rt: &impl Abort, alloc: Global) -> Arc<Element> {
    let mut bytes = b"P1\n255 255\n".to_vec(alloc).ok().expect(rt, "memory");
    for _ in 0..65025u32 {
        bytes.push(b'1').ok().expect(rt, "memory");
    }
    element(rt, alloc, &bytes, 126, 126)
}

fn large_operations_are_plain(rt: &impl Abort, alloc: Global, bytes: &[u8], b: &Arc<Element>) {
    let (image, n) = (picture(rt, alloc, bytes), name(rt));
    is_plain(rt, alloc, &FlatOp::Opening(n, n), &image, b, b);
    is_plain(rt, alloc, &FlatOp::Rank(n, n, 300), &image, b, b);
}

#[test]
fn operations_by_the_largest_square(rt: HostRuntime) {
    let b = largest_square(&rt, rt.alloc());
    for bytes in [SET, GREY, DEEP] {
        large_operations_are_plain(&rt, rt.alloc(), bytes, &b);
    }
}

/// So many levels, which are fewer than all that 16 bits have.
fn few(rt: &impl Abort, levels: u32) -> u16
    ensures { result < 65535 }
{
    match u16::try_from(levels) {
        Ok(few) if few < u16::MAX => few,
        _ => panic!(rt; "fewer levels"),
    }
}

/// What the reference makes by the granulometry.
fn iterated(
    rt: &impl Abort,
    alloc: Global,
    op: &GranOp,
    image: &Image,
    b: &[Offset],
) -> ReferenceImage {
    let image = plain_of(rt, alloc, image);
    match op {
        GranOp::Skeleton(_, _, k) => mw_reference::skeleton(alloc, &image, b, few(rt, *k)),
        GranOp::Restore(_, _, k) => mw_reference::restoration(alloc, &image, b, few(rt, *k)),
        GranOp::Spectrum(_, _, _) => panic!(rt; "an image"),
    }
    .ok()
    .expect(rt, "memory")
}

/// Stops where the granulometry makes something else of the bytes than the reference.
fn is_iterated(rt: &impl Abort, alloc: Global, op: GranOp, bytes: &[u8], b: &Arc<Element>) {
    let image = picture(rt, alloc, bytes);
    let wanted = iterated(rt, alloc, &op, &image, b.offsets());
    let made = made(rt, alloc, &Op::Gran(op), &image, b, None);
    is_image(rt, alloc, made, &wanted);
}

#[test]
fn a_skeleton(rt: HostRuntime) {
    let n = name(&rt);
    let b = element(&rt, rt.alloc(), SQUARE, 1, 1);
    is_iterated(&rt, rt.alloc(), GranOp::Skeleton(n, n, 3), SET, &b);
}

#[test]
fn a_restoration(rt: HostRuntime) {
    let n = name(&rt);
    let b = element(&rt, rt.alloc(), b"P1\n3 1\n111\n", 1, 0);
    is_iterated(&rt, rt.alloc(), GranOp::Restore(n, n, 2), MARKS, &b);
}

/// The volumes of three sizes, by the reference.
fn volumes(rt: &impl Abort, alloc: Global, image: &Image, b: &[Offset]) -> Vec<u64> {
    mw_reference::spectrum(alloc, &plain_of(rt, alloc, image), b, 3)
        .ok()
        .expect(rt, "memory")
}

/// Stops where the spectrum by the element is another than that of the reference.
fn spectrum_is_plain(rt: &impl Abort, alloc: Global, bytes: &[u8], b: &Arc<Element>) {
    let (image, n) = (picture(rt, alloc, bytes), name(rt));
    let wanted = volumes(rt, alloc, &image, b.offsets());
    let op = Op::Gran(GranOp::Spectrum(n, n, 3));
    match made(rt, alloc, &op, &image, b, None) {
        Made::Curve(curve) => assert_eq!(rt; curve.volumes(), wanted.as_slice()),
        Made::Image(_) => panic!(rt; "a curve"),
    }
}

#[test]
fn spectra(rt: HostRuntime) {
    let corner = element(&rt, rt.alloc(), CORNER, 0, 1);
    spectrum_is_plain(&rt, rt.alloc(), SET, &corner);
    spectrum_is_plain(&rt, rt.alloc(), GREY, &corner);
    let square = element(&rt, rt.alloc(), SQUARE, 1, 1);
    spectrum_is_plain(&rt, rt.alloc(), DEEP, &square);
}
