//! Words that are put together place by place, 64 pixels at a time, and words whose bits are turned round.
ghost use Rattle.std.specs.Prelude.{◌≡◌, ℕ, ◌-◌, ◌*◌, ◌<◌, min, max, length};
ghost use Rattle.std.proofs.Common.{refl};
ghost use Rattle.std.specs.Int.{bit_at};
ghost use Rattle.mw_line.specs.mw_pixel_words.Packed.{bit_of};

/// What becomes of two pixels, 64 pairs at a time.
pub trait PairOfWords {
    ghost of_two: { ℕ → ℕ → ℕ };

    fn of_words(a: u64, b: u64) -> u64
        ensures { (i : ℕ) → i < 64 → bit_at result i ≡ of_two (bit_at a i) (bit_at b i) };

    ghost none_of_none: { of_two 0 0 ≡ 0 };
}

/// The pixels of the first set that are not in the second.
pub struct Less;

/// The pixels of both sets.
pub struct Both;

/// The pixels of either set.
pub struct Either;

impl PairOfWords for Less {
    ghost of_two = { λ (m n : ℕ). m - n };

    #[inline(always)]
    fn of_words(a: u64, b: u64) -> u64 {
        a & !b
    }

    ghost none_of_none = { refl };
}

impl PairOfWords for Both {
    ghost of_two = { min };

    #[inline(always)]
    fn of_words(a: u64, b: u64) -> u64 {
        a & b
    }

    ghost none_of_none = { refl };
}

impl PairOfWords for Either {
    ghost of_two = { max };

    #[inline(always)]
    fn of_words(a: u64, b: u64) -> u64 {
        a | b
    }

    ghost none_of_none = { refl };
}

/// Puts the other words into the first ones.
pub fn merge_words<O: PairOfWords>(words: &mut [u64], other: &[u64])
    requires { length words.old ≡ length other.now }
    ensures { (q : ℕ) → q < 64 * length words.old → bit_of words.new q ≡ O.of_two (bit_of words.old q) (bit_of other.now q) }
{
    for i in 0..words.len() {
        words[i] = O::of_words(words[i], other[i]);
    }
}

/// Turns each bit round.
pub fn flip_words(words: &mut [u64])
    ensures { (q : ℕ) → q < 64 * length words.old → bit_of words.new q ≡ 1 - bit_of words.old q }
{
    for i in 0..words.len() {
        words[i] = !words[i];
    }
}
