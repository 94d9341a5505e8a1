//! One value written over places of an array that is written once, from its first place to its last.
//!
//! Most runs and gaps of a noisy set are shorter than a block. A block that passes the end of a run is right all the same, since
//! what stands behind is written after it; so what is short takes no loop, and its length no guess of the processor.

ghost use Rattle.std.specs.Prelude.{◌≡◌, ◌+◌, ◌≤◌, length};
ghost use Rattle.mw_geodesic_labels.specs.Overwriting.{IsOverwritten};

/// Writes one value over a block of places.
#[inline(always)]
fn write_block<T: Copy>(places: &mut [T], start: usize, value: T)
    requires { start + 8 ≤ length places.old }
    ensures { IsOverwritten start (start + 8) value places.old places.new }
{
    for k in 0..8 {
        places[start + k] = value;
    }
}

/// Writes one value over blocks of places, as many as it takes to come to the end and as there is room for. The answer is
/// the place behind them.
#[inline(always)]
fn write_blocks<T: Copy>(places: &mut [T], start: usize, end: usize, value: T) -> usize
    requires { start ≤ length places.old }
    ensures from { start ≤ result }
    ensures within { result ≤ length places.old }
    ensures written { IsOverwritten start result value places.old places.new }
{
    let mut at = start;
    'forward: while at < end && places.len() - at >= 8 {
        write_block(places, at, value);
        at += 8;
    }
    at
}

/// Writes one value from a place on up to an end.
fn write_places<T: Copy>(places: &mut [T], start: usize, end: usize, value: T)
    requires order { start ≤ end }
    requires room { end ≤ length places.old }
    ensures { IsOverwritten start end value places.old places.new }
{
    for k in start..end {
        places[k] = value;
    }
}

/// Writes one value from a place on up to an end, and maybe over what stands behind.
#[inline(always)]
pub fn overwrite<T: Copy>(places: &mut [T], start: usize, end: usize, value: T)
    requires order { start ≤ end }
    requires room { end ≤ length places.old }
    ensures { IsOverwritten start end value places.old places.new }
{
    let at = write_blocks(places, start, end, value);
    if at < end {
        write_places(places, at, end, value);
    }
}
