//! How many bits of words are set.
ghost use Rattle.std.specs.Prelude.{◌≡◌, ℕ, ◌<◌, ◌^◌, length, slice_index};
ghost use Rattle.mw_bits_rows.specs.Rows.{bits_in};

/// How many bits are set.
pub fn count_bits(words: &[u64]) -> u64
    requires { length words.now < 2 ^ 58 }
    ensures count { result ≡ bits_in words.now }
    ensures fits { (k : ℕ) → slice_index words.now k < 2 ^ 64 }
{
    let mut count = 0u64;
    for word in words {
        count += u64::from(word.count_ones());
    }
    count
}
