//! What room results keep, and how few bits levels are said to have: more of either costs memory or time, and changes no result.

use crate::given::{BAR, filled, rect};
use mw_rank::rank;
use mw_rank_counts::bits_in;
use mw_tile::Window;
use std::process::Abort;

/// Ranks of a tile keep room for its samples alone, however large the window is.
#[test]
fn ranks_keep_the_room_of_their_tile(rt: HostRuntime) {
    let window = Window::whole(filled(&rt, rt.alloc(), (40, 30), 7u8));
    let made = rank(rt.alloc(), &window, &BAR, 2, rect(7, 5, 9, 8)).expect(&rt, "memory");
    assert!(rt; made.into_samples().capacity() == 9 * 8);
}

/// The bits of 70 samples, one of this level and else of level 0.
fn bits_at(level: u16, place: usize) -> u32 {
    let mut samples = [0u16; 70];
    if place < 70 {
        samples[place] = level;
    }
    bits_in(&samples)
}

/// Levels, each with the bits that it takes.
const BITS: [(u16, u32); 12] = [
    (0, 0),
    (1, 1),
    (2, 2),
    (3, 2),
    (127, 7),
    (128, 8),
    (255, 8),
    (256, 9),
    (4095, 12),
    (4096, 13),
    (32768, 16),
    (65535, 16),
];

#[test]
fn bits_of_the_greatest_level(rt: HostRuntime) {
    for (level, bits) in BITS {
        for place in [0usize, 1, 31, 32, 69] {
            assert!(&rt; bits_at(level, place) == bits, "{level} at {place}");
        }
    }
    let none: [u16; 0] = [];
    assert!(rt; bits_in(&none) == 0);
    assert!(rt; bits_in(&[0u8, 127]) == 7);
    assert!(rt; bits_in(&[255u8, 0]) == 8);
}
