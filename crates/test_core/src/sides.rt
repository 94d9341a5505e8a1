//! The side of tiles that suits an element, and the one that was asked for. No reply and no contract tells it.

use mw_core::Core;
use mw_element::Element;
use mw_model::{FlatOp, Name, Op};
use mw_netpbm::read;
use std::alloc::Global;
use std::process::Abort;

/// A raw file of one row of 4,096 samples.
const HEAD: &[u8] = b"P5\n4096 1\n9\n";

fn name(rt: &impl Abort, text: &[u8]) -> Name {
    Name::parse(text).expect(rt, "a name")
}

/// Loads the row.
fn load(rt: &impl Abort, alloc: Global, core: &mut Core) {
    let mut bytes = HEAD.to_vec(alloc).ok().expect(rt, "memory");
    bytes.resize(HEAD.len() + 4096, 7).ok().expect(rt, "memory");
    let image = read(alloc, &bytes).ok().expect(rt, "an image");
    assert!(rt; core.load(name(rt, b"f"), Ok(image)).is_ok());
}

/// Defines a row that reaches so far to both sides.
fn define(rt: &impl Abort, alloc: Global, core: &mut Core, reach: u32) {
    let width = reach.saturating_mul(2).saturating_add(1);
    let head = format!(in alloc; "P1\n{width} 1\n");
    let mut bytes = head.ok().expect(rt, "memory").into_bytes();
    let size = bytes.len() + width as usize;
    bytes.resize(size, b'1').ok().expect(rt, "memory");
    let element = Element::parse(alloc, &bytes, reach, 0)
        .ok()
        .expect(rt, "an element");
    assert!(rt; core.element(name(rt, b"b"), Ok(element)).is_ok());
}

/// How many tasks of an erosion by such a row are ready at once.
fn ready(rt: &impl Abort, alloc: Global, side: u32, reach: u32) -> u64 {
    let mut core = Core::new(alloc, side).ok().expect(rt, "memory");
    load(rt, alloc, &mut core);
    define(rt, alloc, &mut core, reach);
    let op = Op::Flat(FlatOp::Erode(name(rt, b"f"), name(rt, b"b")));
    assert!(rt; core.run(name(rt, b"r"), op).is_ok());
    core.ready_count()
}

#[test]
fn tiles_suit_their_element(rt: HostRuntime) {
    let alloc = rt.alloc();
    let cases = [(1u32, 16u64), (24, 16), (25, 8), (64, 8), (65, 4), (127, 4)];
    for (reach, count) in cases {
        assert_eq!(rt; ready(&rt, alloc, 0, reach), count);
    }
}

#[test]
fn tiles_are_as_asked_for(rt: HostRuntime) {
    let alloc = rt.alloc();
    for (side, count) in [(64u32, 64u64), (128, 32), (1024, 4)] {
        assert_eq!(rt; ready(&rt, alloc, side, 127), count);
        assert_eq!(rt; ready(&rt, alloc, side, 1), count);
    }
}
