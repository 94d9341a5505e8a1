//! Blocks of raw samples, by SIMD: 32 samples and their 64 bytes, 512 pixels and their 64 bytes.

ghost use Rattle.std.specs.Prelude.{◌≡◌, ◌+◌, ◌-◌, ◌*◌, ◌/◌, ◌<◌, ◌≤◌, ◌++◌, length, map, replicate};
ghost use Rattle.std.specs.List.{flat_map};
ghost use Rattle.mw_model.specs.NetpbmGrammar.{bits_of};
ghost use Rattle.mw_model.specs.NetpbmWriting.{packed, two_bytes};
ghost use Rattle.mw_netpbm.specs.Rasters.{two_byte_samples, row_bits};
ghost use Rattle.mw_netpbm.specs.Swapping.{swap};
ghost use Rattle.mw_netpbm.specs.SetWords.{turn, pixels_of};
ghost use Rattle.mw_netpbm_plain.specs.SetWords.{in_words};

use mw_netpbm_plain::padded;
use std::simd::prelude::*;

/// Each word with its two bytes swapped.
#[inline(always)]
fn swapped(words: u16x32) -> u16x32
    ensures { result ≡ map swap words }
{
    (words << u16x32::splat(8)) + (words >> u16x32::splat(8))
}

/// The 32 samples in 64 bytes, the higher byte first.
#[inline(always)]
pub(crate) fn words_in(bytes: &[u8]) -> u16x32
    requires { length bytes.now ≡ 64 }
    ensures { result ≡ two_byte_samples bytes.now }
{
    swapped(u16x32::from_le_bytes(u8x64::from_slice(bytes)))
}

/// The bytes of 32 samples, the higher byte first.
#[inline(always)]
pub(crate) fn words_as_bytes(samples: &[u16]) -> [u8; 64]
    requires { length samples.now ≡ 32 }
    ensures { result ≡ flat_map two_bytes samples.now }
{
    swapped(u16x32::from_slice(samples))
        .to_le_bytes()
        .to_array()
}

/// Each byte with its bits turned round: neighbours are swapped, then pairs, then fours.
#[inline(always)]
fn turned(bytes: u8x64) -> u8x64
    ensures { result ≡ map turn bytes }
{
    let one = u8x64::splat(1);
    let two = u8x64::splat(2);
    let four = u8x64::splat(4);
    let odd = u8x64::splat(0x55);
    let pair = u8x64::splat(0x33);
    let low = u8x64::splat(0x0f);
    let first = ((bytes >> one) & odd) | ((bytes & odd) << one);
    let second = ((first >> two) & pair) | ((first & pair) << two);
    ((second >> four) & low) | ((second & low) << four)
}

/// The eight words of the 512 pixels in 64 bytes.
#[inline(always)]
pub(crate) fn pixels_in(bytes: &[u8]) -> [u64; 8]
    requires { length bytes.now ≡ 64 }
    ensures { result ≡ in_words 8 (flat_map bits_of bytes.now) }
{
    u64x8::from_le_bytes(turned(u8x64::from_slice(bytes))).to_array()
}

/// The bytes of the 512 pixels in eight words.
#[inline(always)]
pub(crate) fn pixels_as_bytes(words: &[u64]) -> [u8; 64]
    requires { length words.now ≡ 8 }
    ensures { result ≡ packed 64 (flat_map pixels_of words.now) }
{
    turned(u64x8::from_slice(words).to_le_bytes()).to_array()
}

/// The bytes of so many pixels with blank pixels behind them; the spare bits of the last byte mean nothing.
pub(crate) fn block_of(count: usize, row: &[u8]) -> [u8; 64]
    requires some { (0 < count) × (count ≤ 512) }
    requires long { length row.now ≡ (count + 7) / 8 }
    ensures { flat_map bits_of result ≡ row_bits count row.now ++ replicate (512 - count) 0 }
{
    let mut block = padded(row, 0);
    let last = row.len() - 1;
    let spare = 8 * row.len() - count;
    block[last] = (block[last] >> spare) << spare;
    block
}

/// The words with words of 0 behind them.
pub(crate) fn eight_words(words: &[u64]) -> [u64; 8]
    requires { length words.now ≤ 8 }
    ensures { result ≡ words.now ++ replicate (8 - length words.now) 0 }
{
    let mut block = [0u64; 8];
    block[..words.len()].copy_from_slice(words);
    block
}
