//! What is made of 64 samples at once: a word with a bit for each of them, or their sum.
ghost use Rattle.std.specs.Prelude.{◌≡◌, ℕ, ◌<◌, ◌^◌, ◌==◌, nat_le, if◌then◌else◌, length, map, slice_index, sum_by};
ghost use Rattle.std.specs.Int.{bit_at};

use mw_pixel::Pixel;

/// Samples that are compared and summed 64 at a time, by vector code. Of a word the lowest bit is that of the first
/// sample.
pub trait LevelBlocks: Pixel {
    /// Which of 64 samples have level `k` or more.
    fn at_least(block: &[Self], k: u32) -> u64
        requires { length block.now ≡ 64 }
        ensures { (i : ℕ) → i < 64 → bit_at result i ≡ slice_index (map (λ s. if nat_le k (Self.level s) then 1 else 0) block.now) i };

    /// Which of 64 samples have level `v`.
    fn equal(block: &[Self], v: u32) -> u64
        requires { length block.now ≡ 64 }
        ensures { (i : ℕ) → i < 64 → bit_at result i ≡ slice_index (map (λ s. if Self.level s == v then 1 else 0) block.now) i };

    /// The sum of the levels of 64 samples.
    fn sum(block: &[Self]) -> u64
        requires { length block.now ≡ 64 }
        ensures sum { result ≡ sum_by Self.level block.now }
        ensures small { result < 2 ^ 32 };
}
