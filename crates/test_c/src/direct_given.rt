//! Small images and elements, and operations by few words.

ghost use Rattle.mw_model.specs.Pictures.{IsImage};

use crate::images::image;
use mw_element::Element;
use mw_model::Name;
use mw_netpbm::read;
use mw_pixel::Image;
use mw_reference::ReferenceImage;
use std::alloc::Global;
use std::process::Abort;
use std::sync::Arc;

/// A set, in which a square of four by four pixels and a line stand.
pub(crate) const SET: &[u8] = b"P1\n7 6\n0000000\n0111100\n0111100\n0111101\n0111101\n0000001\n";

/// Samples of one byte.
pub(crate) const GREY: &[u8] = b"P2\n5 3\n9\n3 1 4 1 5\n9 2 6 5 3\n5 8 9 7 9\n";

/// Samples of two bytes.
pub(crate) const DEEP: &[u8] = b"P2\n4 3\n1000\n300 1 999 14\n1000 0 512 256\n7 77 777 70\n";

/// What a skeleton by a bar has left of a line.
pub(crate) const MARKS: &[u8] = b"P2\n7 1\n3\n0 0 2 0 0 0 1\n";

pub(crate) fn name(rt: &impl Abort) -> Name {
    Name::parse(b"n").expect(rt, "a name")
}

/// The image that the bytes are a file of.
pub(crate) fn picture(rt: &impl Abort, alloc: Global, bytes: &[u8]) -> Image
    ensures { IsImage result }
{
    match read(alloc, bytes) {
        Ok(image) => image,
        Err(_fault) => panic!(rt; "an image"),
    }
}

fn parsed(rt: &impl Abort, alloc: Global, bytes: &[u8], ox: u32, oy: u32) -> Element {
    Element::parse(alloc, bytes, ox, oy)
        .ok()
        .expect(rt, "an element")
}

/// The element of a plain bitmap with its origin at this column and row.
pub(crate) fn element(
    rt: &impl Abort,
    alloc: Global,
    bytes: &[u8],
    ox: u32,
    oy: u32,
) -> Arc<Element> {
    Arc::new(alloc, parsed(rt, alloc, bytes, ox, oy))
        .ok()
        .expect(rt, "memory")
}

/// The levels of the image, by rows.
fn levels_of(rt: &impl Abort, alloc: Global, given: &Image) -> Vec<u16> {
    let mut levels = Vec::new(alloc);
    for y in 0..given.height() {
        for x in 0..given.width() {
            levels.push(given.sample(x, y)).ok().expect(rt, "memory");
        }
    }
    levels
}

/// The image as the reference has it.
pub(crate) fn plain_of(rt: &impl Abort, alloc: Global, given: &Image) -> ReferenceImage {
    let levels = levels_of(rt, alloc, given);
    let (width, height) = (given.width(), given.height());
    match image(alloc, given.kind(), width, height, given.maxval(), &levels) {
        Ok(image) => image,
        Err(_fault) => panic!(rt; "an image"),
    }
}
