//! Images and elements from the bytes of files, and the bytes that are written of images.

use mw_element::{Element, ElementFault, Offset};
use mw_model::{NoMemory, Shape};
use mw_netpbm::{ReadFault, Text, parts, read, read_owned, write};
use mw_pixel::Image;
use std::alloc::Global;
use std::process::Abort;

/// The image of bytes that are read where they lie, or handed over.
fn image_once(alloc: Global, bytes: &[u8], is_owned: bool) -> Result<Image, ReadFault> {
    if is_owned {
        read_owned(alloc, Vec::from_slice(alloc, bytes)?)
    } else {
        read(alloc, bytes)
    }
}

fn text_once(alloc: Global, image: &Image) -> Result<Vec<u8>, NoMemory> {
    write(alloc, image)
}

fn parts_once(alloc: Global, image: &Image) -> Result<Text<'_>, NoMemory> {
    parts(alloc, image)
}

/// Whether these bytes follow one another in the text.
fn is_joint(text: &[u8], front: &[u8], rest: &[u8]) -> bool {
    text.len() == front.len().saturating_add(rest.len())
        && text.starts_with(front)
        && text.ends_with(rest)
}

/// Stops where the image has another text. It stays as it is where its text is made.
fn is_written(rt: &impl Abort, alloc: Global, image: &Image, front: &[u8], rest: &[u8]) {
    let text = once_more!(rt, text_once(alloc, image));
    assert!(rt; is_joint(&text, front, rest));
    let made = once_more!(rt, parts_once(alloc, image));
    assert_eq!(rt; made.front.as_slice(), front);
    assert_eq!(rt; made.rest, rest);
}

/// 130 pixels in 17 bytes: two blocks of 64 pixels, and two more.
const PLAIN_BITS: &[u8] = b"P1\n130 1\n\
        11010000110100001101000100000000110000110110010110101111101100101\
        10111010000011111011010011011011100011000100111100011000100110011";

const RAW_BITS: &[u8] = b"P4\n130 1\n\
        \xd0\xd0\xd1\x00\xc3\x65\xaf\xb2\xdd\x07\xda\x6d\xc6\x27\x8c\x4c\xc0";

/// 66 samples in 132 bytes: two blocks of 32 samples, and two more.
const PLAIN_WORDS: &[u8] = b"P2\n66 1\n65535\n\
        18507 59395 22189 59446 63983 41641 62789 35918 38144 61614 52925 19202 14753 49414 23513 \
        65447 44365 23608 11683 64469 35692 47359 8271 46622 4498 40068 47635 36811 63659 34715 \
        38515 44574 23415 1517 62167 32858 42717 35872 60678 37857 46736 45597 35897 45296 53538 \
        45881 22606 58954 47746 43822 18593 21780 26037 47451 62552 37074 10333 54608 22521 55154 \
        39671 35481 3620 25637 20974 57811";

const RAW_WORDS: &[u8] = b"P5\n66 1\n65535\n\
        \x48\x4b\xe8\x03\x56\xad\xe8\x36\xf9\xef\xa2\xa9\xf5\x45\x8c\x4e\x95\x00\xf0\xae\
        \xce\xbd\x4b\x02\x39\xa1\xc1\x06\x5b\xd9\xff\xa7\xad\x4d\x5c\x38\x2d\xa3\xfb\xd5\
        \x8b\x6c\xb8\xff\x20\x4f\xb6\x1e\x11\x92\x9c\x84\xba\x13\x8f\xcb\xf8\xab\x87\x9b\
        \x96\x73\xae\x1e\x5b\x77\x05\xed\xf2\xd7\x80\x5a\xa6\xdd\x8c\x20\xed\x06\x93\xe1\
        \xb6\x90\xb2\x1d\x8c\x39\xb0\xf0\xd1\x22\xb3\x39\x58\x4e\xe6\x4a\xba\x82\xab\x2e\
        \x48\xa1\x55\x14\x65\xb5\xb9\x5b\xf4\x58\x90\xd2\x28\x5d\xd5\x50\x57\xf9\xd7\x72\
        \x9a\xf7\x8a\x99\x0e\x24\x64\x25\x51\xee\xe1\xd3";

/// Files, and the two parts of their texts: of levels of one byte the second one is the raster.
const TEXTS: &[(&[u8], &[u8], &[u8])] = &[
    (b"P1\n3 2\n1 0 1\n010\n", b"P4\n3 2\n\xa0\x40", b""),
    (b"P4\n9 1\n\xa0\xff", b"P4\n9 1\n\xa0\x80", b""),
    (b"P4\n9 1\n\xff\xff", b"P4\n9 1\n\xff\x80", b""),
    (
        b"P2\n5 1\n9\n3 1 4 1 5\n",
        b"P5\n5 1\n9\n",
        b"\x03\x01\x04\x01\x05",
    ),
    (
        b"P5\n5 1\n9\n\x03\x01\x04\x01\x05",
        b"P5\n5 1\n9\n",
        b"\x03\x01\x04\x01\x05",
    ),
    (
        b"P2\n2 1\n1000\n7 1000\n",
        b"P5\n2 1\n1000\n\x00\x07\x03\xe8",
        b"",
    ),
    // a header that is longer than its raster, and one that is shorter
    (
        b"P5\n3 1\n255\n\x00\x07\xff",
        b"P5\n3 1\n255\n",
        b"\x00\x07\xff",
    ),
    (b"P5 6 2 99 0123456789AB", b"P5\n6 2\n99\n", b"0123456789AB"),
    (
        b"P5\n1 2\n256\n\x01\x00\x00\xff",
        b"P5\n1 2\n256\n\x01\x00\x00\xff",
        b"",
    ),
    // rows that are longer than a block
    (PLAIN_BITS, RAW_BITS, b""),
    (RAW_BITS, RAW_BITS, b""),
    (PLAIN_WORDS, RAW_WORDS, b""),
    (RAW_WORDS, RAW_WORDS, b""),
];

#[test]
fn images_are_read_and_written(rt: HostRuntime) {
    for (file, front, rest) in TEXTS {
        for is_owned in [false, true] {
            let image = once_more!(
                &rt,
                ReadFault::NoMemory,
                image_once(rt.alloc(), file, is_owned)
            );
            is_written(&rt, rt.alloc(), &image, front, rest);
        }
    }
}

fn element_once(alloc: Global) -> Result<Element, ElementFault> {
    Element::parse(alloc, b"P1 # a corner\n2 2\n10\n11\n", 0, 1)
}

fn reflected_once(alloc: Global, element: &Element) -> Result<Element, NoMemory> {
    element.reflect(alloc)
}

/// Stops where the element of two columns and rows has other offsets.
fn has_offsets(rt: &impl Abort, element: &Element, offsets: &[Offset]) {
    assert_eq!(rt; element.shape(), Shape::Element(2, 2));
    assert_eq!(rt; element.offsets(), offsets);
    assert!(rt; element.holds_origin() && element.as_rectangle().is_none());
    assert_eq!(rt; element.runs().len(), 2);
}

const CORNER: [Offset; 3] = [
    Offset { dx: 0, dy: -1 },
    Offset { dx: 0, dy: 0 },
    Offset { dx: 1, dy: 0 },
];

const TURNED: [Offset; 3] = [
    Offset { dx: 0, dy: 1 },
    Offset { dx: 0, dy: 0 },
    Offset { dx: -1, dy: 0 },
];

#[test]
fn elements_are_read_and_reflected(rt: HostRuntime) {
    let corner = once_more!(&rt, ElementFault::NoMemory, element_once(rt.alloc()));
    has_offsets(&rt, &corner, &CORNER);
    let turned = once_more!(&rt, reflected_once(rt.alloc(), &corner));
    has_offsets(&rt, &turned, &TURNED);
    has_offsets(&rt, &corner, &CORNER);
}
