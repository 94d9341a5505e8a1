//! Bits that are compared with others, from any place with any place.
ghost use Rattle.std.specs.Prelude.{◌≡◌, ◌↔◌, ℕ, ◌+◌, ◌*◌, ◌<◌, ◌≤◌, ◌^◌, IsTrue, slice_range};
ghost use Rattle.std.specs.Int.{bit_at};
ghost use Rattle.mw_pixel_words.specs.Runs.{HasSame};

use crate::Words;
use crate::shifting::bits_from;

/// Whether so many lowest bits of both words are the same.
#[inline(always)]
fn low_same(a: u64, b: u64, count: u32) -> bool
    requires { (0 < count) × (count ≤ 64) }
    ensures { IsTrue result ↔ ((i : ℕ) → i < count → bit_at a i ≡ bit_at b i) }
{
    let mask = u64::MAX >> (64 - count);
    a & mask == b & mask
}

/// Whether the words have from a place on so many bits as other words have from a place of theirs on.
fn same_bits(words: &[u64], place: usize, other: &[u64], from: usize, count: usize) -> bool
    requires small { (place + count < 2 ^ 64) × (from + count < 2 ^ 64) }
    ensures { IsTrue result ↔ HasSame place from count words.now other.now }
{
    let mut done = 0usize;
    'parts: while done < count {
        let part = (count - done).min(64);
        let bits = bits_from(words, place + done);
        let others = bits_from(other, from + done);
        if !low_same(bits, others, part as u32) {
            return false;
        }
        done += part;
    }
    true
}

impl Words {
    /// Whether so many pixels of row y from column x on are those of row `v` of another set from its column `u` on.
    pub fn same_run(&self, x: u32, y: u32, other: &Words, u: u32, v: u32, count: u32) -> bool
        requires across { x + count ≤ self.now.width }
        requires down { y < self.now.height }
        requires across_other { u + count ≤ other.now.width }
        requires down_other { v < other.now.height }
        ensures { IsTrue result ↔ (slice_range self.now.cells (y * self.now.width + x) (y * self.now.width + x + count) ≡ slice_range other.now.cells (v * other.now.width + u) (v * other.now.width + u + count)) }
    {
        // for the sizes
        let _first = self.width();
        let _second = other.width();
        same_bits(
            self.row(y),
            x as usize,
            other.row(v),
            u as usize,
            count as usize,
        )
    }

    /// Whether both sets have the same sides and pixels.
    pub fn same(&self, other: &Words) -> bool
        ensures { IsTrue result ↔ (self.now ≡ other.now) }
    {
        if self.width() != other.width() {
            return false;
        }
        if self.height() != other.height() {
            return false;
        }
        let words = self.words();
        same_bits(words, 0, other.words(), 0, 64 * words.len())
    }
}
