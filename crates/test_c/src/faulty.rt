//! Calls on six samples that may be refused: their answers, or a sign that a refused call wrote into the array.

use crate::called::Called;
use crate::given::{Call, Sort, Way};
use crate::made::{even, part};
use crate::scenes::is_even;
use std::alloc::Global;
use std::process::Abort;

const SIX: [u8; 6] = [3, 0, 7, 200, 5, 9];

/// Six samples of 16 bits, 300 times as great as those of bytes.
const SIX_WORDS: [u16; 6] = [900, 0, 2100, 60000, 1500, 2700];

const VOLUME_MARK: u64 = 7777777;

/// The answer, or -1 where a refused call did not leave the array as it was.
fn told(answer: i32, is_kept: bool) -> i32 {
    if answer == 0 || is_kept { answer } else { -1 }
}

fn of_image<P: Called>(
    rt: &impl Abort,
    alloc: Global,
    call: Call<'_>,
    room: usize,
    f: &[P],
) -> i32 {
    let mut out = even(rt, alloc, 8, P::mark());
    let answer = P::image(alloc, call, f, part(out.as_mut_slice(), room));
    told(answer, is_even(&out, P::mark().value()))
}

fn of_set<P: Called>(alloc: Global, call: Call<'_>, room: usize, f: &[P]) -> i32 {
    let mut out = [77u8; 8];
    let answer = P::set(alloc, call, f, part(&mut out, room));
    told(answer, is_even(&out, 77))
}

fn of_spectrum<P: Called>(alloc: Global, call: Call<'_>, room: usize, f: &[P]) -> i32 {
    let mut out = [VOLUME_MARK; 8];
    let answer = P::volumes(alloc, call, f, part(&mut out, room));
    told(answer, out == [VOLUME_MARK; 8])
}

fn of_samples<P: Called>(
    rt: &impl Abort,
    alloc: Global,
    call: Call<'_>,
    room: usize,
    f: &[P],
) -> i32 {
    match call.way {
        Way::Flat | Way::Rows | Way::Hits => of_image(rt, alloc, call, room, f),
        Way::Spectrum => of_spectrum(alloc, call, room, f),
        _ => of_set(alloc, call, room, f),
    }
}

/// The answer where there are so many places for what is made.
pub(crate) fn answer(rt: &impl Abort, alloc: Global, call: Call<'_>, room: usize) -> i32 {
    match call.sort {
        Sort::Words => of_samples(rt, alloc, call, room, &SIX_WORDS),
        _ => of_samples(rt, alloc, call, room, &SIX),
    }
}
