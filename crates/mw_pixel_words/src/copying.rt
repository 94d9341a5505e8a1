//! Bits that are written over others, from any place to any place.
ghost use Rattle.std.specs.Prelude.{◌+◌, ◌*◌, ◌<◌, ◌≤◌, ◌^◌, length};
ghost use Rattle.mw_pixel_words.specs.Runs.{HasCopied, IsBlended};

use crate::shifting::bits_from;

/// The word with so many bits of another, its lowest ones, from a bit on. There is at least one, and all lie in the word.
#[inline(always)]
pub fn blended(word: u64, other: u64, lead: u32, count: u32) -> u64
    requires some { 0 < count }
    requires room { lead + count ≤ 64 }
    ensures { IsBlended lead count word other result }
{
    let mask = (u64::MAX >> (64 - count)) << lead;
    word ^ ((word ^ (other << lead)) & mask)
}

/// Writes so many bits of other words, from a place of theirs on, over those from a place on.
pub(crate) fn copy_bits(words: &mut [u64], place: usize, other: &[u64], from: usize, count: usize)
    requires room { place + count ≤ 64 * length words.old }
    requires few { length words.old < 2 ^ 57 }
    requires small { from + count < 2 ^ 64 }
    ensures { HasCopied place from count other.now words.old words.new }
{
    let mut done = 0usize;
    'parts: while done < count {
        let at = place + done;
        let lead = (at % 64) as u32;
        let part = (count - done).min(64 - lead as usize);
        let bits = bits_from(other, from + done);
        words[at / 64] = blended(words[at / 64], bits, lead, part as u32);
        done += part;
    }
}
