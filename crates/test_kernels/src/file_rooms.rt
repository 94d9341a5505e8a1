//! How much memory an image keeps of the file that it was read from. Behind a plane no contract sees it: so here the room of
//! the samples is looked at.

use mw_netpbm::read_owned;
use mw_pixel::{Image, SharedView};
use std::alloc::Global;
use std::process::Abort;
use std::sync::Arc;

/// The image of a file that is handed over in a vector with room for a thousand bytes.
fn handed_over(rt: &impl Abort, alloc: Global, file: &[u8]) -> Image {
    let mut bytes = Vec::with_capacity(alloc, 1000).ok().expect(rt, "memory");
    bytes.extend_from_slice(file).ok().expect(rt, "memory");
    read_owned(alloc, bytes).expect(rt, "an image")
}

fn share_of(rt: &impl Abort, image: Image) -> SharedView {
    image.shared().expect(rt, "memory")
}

/// For how many samples of one byte an image keeps room.
fn room_of(rt: &impl Abort, alloc: Global, file: &[u8]) -> Option<usize> {
    let SharedView::Grey8(plane, _) = share_of(rt, handed_over(rt, alloc, file)) else {
        return None;
    };
    match Arc::into_inner(plane) {
        Some(plane) => Some(plane.into_samples().capacity()),
        None => None,
    }
}

/// Files with the room that their samples have: where they were read; without a longer header; and what plain ones take.
const FILES: [(&[u8], usize); 3] = [
    (b"P5 6 2 99 0123456789AB", 1000),
    (b"P5\n# a long comment\n3 1\n255\n\x00\x07\xff", 3),
    (b"P2\n3 1\n255\n0 7 255\n", 3),
];

#[test]
fn samples_stay_where_they_were_read(rt: HostRuntime) {
    for (file, room) in FILES {
        assert_eq!(rt; room_of(&rt, rt.alloc(), file), Some(room));
    }
}
