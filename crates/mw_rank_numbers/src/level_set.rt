//! A set of levels of 16 bits, a bit each, and how many levels of it are below a level: those of the words before its own
//! are summed up once, and those of its word are counted by one instruction.
ghost use Rattle.std.specs.Prelude.{◌≡◌, ℕ, ◌*◌, ◌<◌, length, slice_index, IfOk};
ghost use Rattle.mw_rank_numbers.specs.LevelSets.{set_words, bit_in, below_in, IsSummed};

use mw_model::NoMemory;
use std::alloc::Global;

/// How many words a set has: a bit for each of the 65,536 levels of 16 bits.
pub(crate) const WORDS: usize = 1024;

/// How many levels of a set are below the levels of each of its words, and how many there are.
#[derive(Drop)]
pub(crate) struct Sums {
    pub before: Vec<u32>,
    pub count: u32,
}

/// Puts a level into the set.
#[inline(always)]
pub(crate) fn mark(words: &mut [u64], level: u16)
    requires { length words.old ≡ set_words }
    ensures size { length words.new ≡ set_words }
    ensures marked { bit_in words.new level ≡ 1 }
    ensures kept { (v : ℕ) → bit_in words.old v ≡ 1 → bit_in words.new v ≡ 1 }
{
    let at = level as usize / 64;
    words[at] |= 1u64 << (level % 64);
}

/// Counts the levels of the set.
pub(crate) fn sums_of(alloc: Global, words: &[u64]) -> Result<Sums, NoMemory>
    requires { length words.now ≡ set_words }
    ensures { IfOk result (λ s. IsSummed words.now s.before.items s.count) }
{
    let mut before = Vec::with_capacity(alloc, words.len())?;
    let mut count = 0u32;
    for word in words {
        before.push(count)?;
        count += word.count_ones();
    }
    Ok(Sums { before, count })
}

/// How many levels of the set are below that one.
#[inline(always)]
pub(crate) fn number_of(words: &[u64], before: &[u32], level: u16) -> u16
    requires size { length words.now ≡ set_words }
    requires summed { (count : ℕ) × IsSummed words.now before.now count }
    ensures { result ≡ below_in words.now level }
{
    let at = level as usize / 64;
    let lower = words[at] & ((1u64 << (level % 64)) - 1);
    (before[at] + lower.count_ones()) as u16
}
