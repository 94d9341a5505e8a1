//! Calls at shapes that no session asks for succeed: no offsets, offsets and boxes far past the frame, numbers before and after all
//! ranks, and planes without samples. What they make is in their contracts, but none rules out that memory is refused.

use crate::given::{BAR, filled, rect};
use mw_line::{Steps, line};
use mw_model::{Offset, OffsetBox, Rect};
use mw_pixel::{Bit, Max, Min, Plane, copies};
use mw_tile::Window;
use std::alloc::Global;
use std::process::Abort;

/// The row of the worked examples.
fn five(rt: &impl Abort, alloc: Global) -> Window<u16> {
    let samples = [3, 1, 4, 1, 5].to_vec(alloc).expect(rt, "memory");
    assert!(rt; samples.len() == 5);
    Window::whole(Plane::new(5, 1, samples))
}

const ROW: Rect = Rect {
    x: 0,
    y: 0,
    width: 5,
    height: 1,
};

/// The least under some offsets, where 9 stands for what is not seen.
fn least(rt: &impl Abort, alloc: Global, offsets: &[Offset]) -> Plane<u16> {
    let window = five(rt, alloc);
    mw_offset::extremum::<u16, Min>(alloc, &window, offsets, 9, ROW).expect(rt, "memory")
}

const FAR: [Offset; 2] = [
    Offset { dx: -300, dy: 2 },
    Offset {
        dx: 30000,
        dy: -30000,
    },
];

const APART: [Offset; 2] = [Offset { dx: 1, dy: 0 }, Offset { dx: 30000, dy: 0 }];

/// A rank of the row on a tile.
fn ranked(rt: &impl Abort, alloc: Global, offsets: &[Offset], k: u32, tile: Rect) -> Plane<u16> {
    assert!(rt; offsets.len() < 65536);
    let window = five(rt, alloc);
    mw_rank::rank(alloc, &window, offsets, k, tile).expect(rt, "memory")
}

/// By no offsets and far ones, before and after all ranks, of no place and past the frame.
#[test]
fn extrema_and_ranks_by_offsets(rt: HostRuntime) {
    let alloc = rt.alloc();
    assert!(rt; least(&rt, alloc, &[]).samples() == [9; 5].as_slice());
    assert!(rt; least(&rt, alloc, &FAR).samples() == [9; 5].as_slice());
    assert!(rt; least(&rt, alloc, &APART).samples() == [1, 4, 1, 5, 9].as_slice());
    assert!(rt; ranked(&rt, alloc, &BAR, 0, ROW).samples() == [1; 5].as_slice());
    assert!(rt; ranked(&rt, alloc, &BAR, 9, ROW).samples() == [3, 4, 4, 5, 5].as_slice());
    assert!(rt; ranked(&rt, alloc, &[], 1, ROW).samples() == [0; 5].as_slice());
    assert!(rt;
        ranked(&rt, alloc, &BAR, 1, rect(2, 0, 0, 0))
            .samples()
            .is_empty()
    );
    assert!(rt;
        ranked(&rt, alloc, &BAR, 1, rect(90, 0, 20, 9))
            .samples()
            .len()
            == 180
    );
}

/// Boxes beside all frames: far to the right, as far as there are places, and one of none.
const BOXES: [OffsetBox; 3] = [
    OffsetBox {
        x0: 500,
        x1: 900,
        y0: 0,
        y1: 0,
    },
    OffsetBox {
        x0: 1000,
        x1: i32::MAX,
        y0: i32::MIN,
        y1: 0,
    },
    OffsetBox {
        x0: 1,
        x1: 0,
        y0: 0,
        y1: 0,
    },
];

/// The least under a box, where 999 stands for what is not seen.
fn boxed(rt: &impl Abort, alloc: Global, offsets: OffsetBox) -> Plane<u16> {
    let window = five(rt, alloc);
    mw_line::rectangle::<u16, Min>(alloc, &window, offsets, 999, ROW).expect(rt, "memory")
}

/// The greatest of a full row under a box.
fn boxed_set(rt: &impl Abort, alloc: Global, offsets: OffsetBox) -> Plane<Bit> {
    let window = Window::whole(filled(rt, alloc, (130, 1), Bit::SET));
    let made = mw_bits::rectangle::<Max>(alloc, &window, offsets, window.place());
    made.expect(rt, "memory")
}

#[test]
fn extrema_by_boxes_that_see_nothing(rt: HostRuntime) {
    for offsets in BOXES {
        assert!(rt; boxed(&rt, rt.alloc(), offsets).samples() == [999; 5].as_slice());
        let made = boxed_set(&rt, rt.alloc(), offsets);
        assert!(rt; made.words().words() == [0; 3].as_slice());
    }
}

#[test]
fn planes_without_samples(rt: HostRuntime) {
    let row = copies::<u8>(rt.alloc(), 0, 7).expect(&rt, "memory");
    assert!(rt; row.is_empty());
    assert!(rt;
        filled::<u16>(&rt, rt.alloc(), (0, 8192), 7)
            .samples()
            .is_empty()
    );
}

/// The greatest of equal samples under a bar that reaches 63 columns to both sides.
fn slid(rt: &impl Abort, alloc: Global, count: usize) -> Vec<u8> {
    let row = copies(alloc, count, 7u8).expect(rt, "memory");
    let mut out = copies(alloc, count, 0u8).expect(rt, "memory");
    assert!(rt; row.len() < 1 << 30 && out.len() == row.len());
    let mut steps = Steps { count: 0 };
    let told = line::<u8, Max>(alloc, &row, -63, 63, 0, &mut out, &mut steps);
    told.expect(rt, "memory");
    out
}

#[test]
fn long_lines(rt: HostRuntime) {
    for count in [0usize, 1, 8192, 16777216] {
        let made = slid(&rt, rt.alloc(), count);
        assert!(rt; made.len() == count && made.iter().all(|s| *s == 7));
    }
}
