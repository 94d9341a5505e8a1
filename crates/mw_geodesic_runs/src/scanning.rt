//! Where the pixels of a row change, found 64 pixels at a time.

ghost use Rattle.std.specs.Prelude.{◌≡◌, ℕ, ◌-◌, ◌*◌, ◌<◌, ◌≤◌, ◌^◌, length, if◌then◌else◌};
ghost use Rattle.std.specs.Int.{bit_at};
ghost use Rattle.mw_pixel.specs.mw_pixel_words.Packed.{bit_of};

/// The lowest bit from `low` on that is 1; 64 where there is none.
#[inline(always)]
fn lowest(word: u64, low: u32) -> u32
    requires { low < 64 }
    ensures from { low ≤ result }
    ensures within { result ≤ 64 }
    ensures none { (i : ℕ) → low ≤ i → i < result → bit_at word i ≡ 0 }
    ensures found { result < 64 → bit_at word result ≡ 1 }
{
    let left = word >> low;
    if left == 0 {
        return 64;
    }
    low + left.trailing_zeros()
}

/// A word whose bits are 1 where those of this word are wanted.
#[inline(always)]
fn turned(word: u64, wanted: bool) -> u64
    ensures { (i : ℕ) → i < 64 → bit_at result i ≡ (if wanted then bit_at word i else 1 - bit_at word i) }
{
    if wanted { word } else { !word }
}

/// The first place from `from` on whose bit is set, or is not; where there is none, the place behind the last word.
#[inline(always)]
pub fn next_place(words: &[u64], from: usize, wanted: bool) -> usize
    requires few { length words.now < 2 ^ 32 }
    requires within { from ≤ 64 * length words.now }
    ensures from { from ≤ result }
    ensures within { result ≤ 64 * length words.now }
    ensures none { (x : ℕ) → from ≤ x → x < result → bit_of words.now x ≡ (if wanted then 0 else 1) }
    ensures found { result < 64 * length words.now → bit_of words.now result ≡ (if wanted then 1 else 0) }
{
    let mut low = (from % 64) as u32;
    for k in from / 64..words.len() {
        let place = lowest(turned(words[k], wanted), low);
        if place < 64 {
            return 64 * k + place as usize;
        }
        low = 0;
    }
    64 * words.len()
}
