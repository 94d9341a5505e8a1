//! What is made where memory was refused before, by values from outside. Where memory is refused a call is made once more,
//! so each test passes whichever allocation is refused.

ghost use Rattle.std.specs.Prelude.{IfOk};
ghost use Rattle.mw_model.specs.Pictures.{IsImage};

use mw_c_direct::{Made, PlanFault, apply};
use mw_element::{Element, ElementFault};
use mw_model::{FlatOp, GranOp, Name, Op};
use mw_netpbm::{ReadFault, read};
use mw_pixel::Image;
use std::alloc::Global;
use std::process::Abort;
use std::sync::Arc;

/// What a call gives, made once more where it was refused for want of memory.
macro_rules! once_more {
    ($rt:expr, $refused:pat, $call:expr) => {
        match $call {
            Ok(made) => made,
            Err($refused) => match $call {
                Ok(made) => made,
                Err(_) => panic!($rt; "there is memory"),
            },
            Err(_) => panic!($rt; "nothing is wrong but the memory"),
        }
    };
}

const FIVE: &[u8] = b"P2\n5 1\n9\n3 1 4 1 5\n";

const LINE: &[u8] = b"P1\n5 1\n01110\n";

/// The skeleton of the line.
const MARKS: &[u8] = b"P2\n5 1\n3\n0 0 2 0 0\n";

fn picture_once(alloc: Global, bytes: &[u8]) -> Result<Image, ReadFault>
    ensures { IfOk result IsImage }
{
    read(alloc, bytes)
}

fn picture(rt: &impl Abort, alloc: Global, bytes: &[u8]) -> Image
    ensures { IsImage result }
{
    once_more!(rt, ReadFault::NoMemory, picture_once(alloc, bytes))
}

fn parsed_once(alloc: Global) -> Result<Element, ElementFault> {
    Element::parse(alloc, b"P1\n3 1\n111\n", 1, 0)
}

fn parsed(rt: &impl Abort, alloc: Global) -> Element {
    once_more!(rt, ElementFault::NoMemory, parsed_once(alloc))
}

/// Three pixels in a row, from their middle.
fn bar(rt: &impl Abort, alloc: Global) -> Arc<Element> {
    match Arc::new(alloc, parsed(rt, alloc)) {
        Ok(element) => element,
        Err(refused) => Arc::new(alloc, refused.value)
            .ok()
            .expect(rt, "there is memory"),
    }
}

fn made_once(alloc: Global, op: Op, image: &Image, b: &Arc<Element>) -> Result<Made, PlanFault>
    requires { IsImage image.now }
{
    apply(alloc, &op, image, Some(b), None)
}

/// What the operation makes of the bytes by the bar.
fn made(rt: &impl Abort, alloc: Global, op: Op, bytes: &[u8]) -> Made {
    let image = picture(rt, alloc, bytes);
    let b = bar(rt, alloc);
    once_more!(rt, PlanFault::NoMemory, made_once(alloc, op, &image, &b))
}

fn is_row(rt: &impl Abort, found: &Image, row: [u16; 5]) {
    assert!(rt; found.width() == 5 && found.height() == 1);
    for (x, level) in (0..5).zip(row) {
        assert!(rt; x < found.width() && found.sample(x, 0) == level);
    }
}

/// Stops where the operation makes something else of the bytes than this row.
fn makes_row(rt: &impl Abort, alloc: Global, op: Op, bytes: &[u8], row: [u16; 5]) {
    match made(rt, alloc, op, bytes) {
        Made::Image(found) => is_row(rt, &found, row),
        Made::Curve(_) => panic!(rt; "an image"),
    }
}

fn name(rt: &impl Abort) -> Name {
    Name::parse(b"n").expect(rt, "a name")
}

#[test]
fn one_step(rt: HostRuntime) {
    let n = name(&rt);
    let erosion = Op::Flat(FlatOp::Erode(n, n));
    makes_row(&rt, rt.alloc(), erosion, FIVE, [1, 1, 1, 1, 1]);
}

#[test]
fn three_steps(rt: HostRuntime) {
    let n = name(&rt);
    let gradient = Op::Flat(FlatOp::Gradient(n, n));
    makes_row(&rt, rt.alloc(), gradient, FIVE, [2, 3, 3, 4, 4]);
}

#[test]
fn a_skeleton_and_its_set(rt: HostRuntime) {
    let n = name(&rt);
    let skeleton = Op::Gran(GranOp::Skeleton(n, n, 2));
    makes_row(&rt, rt.alloc(), skeleton, LINE, [0, 0, 2, 0, 0]);
    let restored = Op::Gran(GranOp::Restore(n, n, 2));
    makes_row(&rt, rt.alloc(), restored, MARKS, [0, 1, 1, 1, 0]);
}

#[test]
fn a_spectrum(rt: HostRuntime) {
    let n = name(&rt);
    let spectrum = Op::Gran(GranOp::Spectrum(n, n, 2));
    match made(&rt, rt.alloc(), spectrum, FIVE) {
        Made::Curve(curve) => assert!(rt; curve.volumes() == [14, 5, 5].as_slice()),
        Made::Image(_) => panic!(rt; "a curve"),
    }
}
