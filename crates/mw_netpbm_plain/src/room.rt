//! How many samples a plain raster can have, by its bytes alone: so a raster that is too short is told before memory is
//! asked for its samples. The bytes are looked at by vectors, 64 at a time.

ghost use Rattle.std.specs.Prelude.{◌≡◌, ◌≢◌, ◌+◌, ◌-◌, ◌≤◌, ◌^◌, ◌↔◌, ◌==◌, ◌||◌, true, false, Some, length, map, min, IsTrue};
ghost use Rattle.std.specs.Simd.Lanes.{mask_l};
ghost use Rattle.mw_model.specs.NetpbmGrammar.{is_white};
ghost use Rattle.mw_netpbm_plain.specs.declared.fault.ReadFault.TheVariants.{Short};
ghost use Rattle.mw_netpbm_plain.specs.PlainSamples.{place_in_text};
ghost use Rattle.mw_netpbm_plain.specs.Plain.{plain_at};
ghost use Rattle.mw_netpbm_plain.specs.Reading.{fault_alone};
ghost use Rattle.mw_netpbm_plain.specs.Tallies.{signs_in, words_in, ends_white, has_hash, room_for};

use crate::padding::padded;
use crate::plain::Places;
use std::simd::prelude::*;

/// Which of 64 bytes are this one, from the lowest bit on.
#[inline(always)]
fn places_of(b: u8, bytes: &[u8]) -> u64
    requires { length bytes.now ≡ 64 }
    ensures { result ≡ mask_l (map (λ x. x == b) bytes.now) }
{
    u8x64::from_slice(bytes)
        .simd_eq(u8x64::splat(b))
        .to_bitmask()
}

/// Which of 64 bytes are white space.
#[inline(always)]
fn blanks(bytes: &[u8]) -> u64
    requires { length bytes.now ≡ 64 }
    ensures { result ≡ mask_l (map is_white bytes.now) }
{
    let tabs = places_of(b'\t', bytes);
    let feeds = places_of(b'\n', bytes);
    let returns = places_of(b'\r', bytes);
    let spaces = places_of(b' ', bytes);
    tabs | feeds | returns | spaces
}

fn either(a: bool, b: bool) -> bool
    ensures { result ≡ (a || b) }
{
    a || b
}

/// What is counted of the bytes before some place.
#[derive(Clone, Copy)]
struct Tally {
    /// Bytes that are no white space.
    signs: usize,
    /// Those of them before which white space stands.
    words: usize,
    /// Whether the last byte was white space.
    blank: bool,
    /// Whether one of them is a #, which begins a comment.
    hash: bool,
}

impl Tally {
    /// With 64 bytes more.
    #[inline(always)]
    fn with(self, bytes: &[u8]) -> Tally
        requires { length bytes.now ≡ 64 }
        ensures signs { result.signs ≡ min (self.signs + signs_in bytes.now) (2 ^ 64 - 1) }
        ensures words { result.words ≡ min (self.words + words_in self.blank bytes.now) (2 ^ 64 - 1) }
        ensures blank { result.blank ≡ ends_white self.blank bytes.now }
        ensures hash { result.hash ≡ (self.hash || has_hash bytes.now) }
    {
        let blanks = blanks(bytes);
        let signs = (!blanks).count_ones();
        let words = (!blanks & (blanks << 1 | u64::from(self.blank))).count_ones();
        let hash = places_of(b'#', bytes) != 0;
        Tally {
            signs: self.signs.saturating_add(signs as usize),
            words: self.words.saturating_add(words as usize),
            blank: blanks >> 63 != 0,
            hash: either(self.hash, hash),
        }
    }
}

#[inline(never)]
fn counted(bytes: &[u8]) -> Tally
    ensures signs { result.signs ≡ min (signs_in bytes.now) (2 ^ 64 - 1) }
    ensures words { result.words ≡ min (words_in true bytes.now) (2 ^ 64 - 1) }
    ensures hash { result.hash ≡ has_hash bytes.now }
{
    let mut tally = Tally {
        signs: 0,
        words: 0,
        blank: true,
        hash: false,
    };
    let mut rest = bytes;
    'by_block: while rest.len() >= 64 {
        let (front, after) = rest.split_at(64);
        tally = tally.with(front);
        rest = after;
    }
    let last = padded(rest, b' ');
    tally.with(&last)
}

/// Whether there are as many signs, or as many words, as a raster is to have pixels or samples, and no comments.
fn holds(places: Places, count: usize, bytes: &[u8]) -> bool
    ensures { IsTrue result ↔ (has_hash bytes.now ≡ false) × (count ≤ room_for places bytes.now) }
{
    let tally = counted(bytes);
    let found = match places {
        Places::Pixels => tally.signs,
        Places::Samples(_) => tally.words,
    };
    !tally.hash && count <= found
}

/// Whether a raster has a sign for each pixel, or a word for each sample, and no comments: then it is not too short.
pub(crate) fn has_room(places: Places, count: usize, bytes: &[u8]) -> bool
    ensures exact { IsTrue result ↔ (has_hash bytes.now ≡ false) × (count ≤ room_for places bytes.now) }
    // Memory for a raster that is too short is not asked for: such a raster is checked first.
    ensures long { IsTrue result → fault_alone (plain_at (place_in_text places) count bytes.now) ≢ Some Short }
{
    holds(places, count, bytes)
}
