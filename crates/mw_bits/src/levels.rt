//! Sets of the places of a grey window that have a level, or a level or more, as words: a row of samples is tested into a
//! line of pixels, which is packed, so that no plane of one byte a pixel is made.
ghost use Rattle.std.specs.Prelude.{◌≡◌, ℕ, ◌*◌, ◌<◌, ◌==◌, length, map, cond, nat_le, slice_index, if◌then◌else◌, IfOk};
ghost use Rattle.std.specs.Int.{bit_at};
ghost use Rattle.mw_offset.specs.mw_pixel_words.Packed.{stride_of, IsPacked, samples_of};

use crate::held::plane_of;
use mw_bits_rows::pack_row;
use mw_model::NoMemory;
use mw_offset::lane::LevelBlocks;
use mw_offset::pixel::{Bit, Grey, Pixel, Plane, copies};
use mw_offset::tile::Window;
use mw_offset::words::{repeated, stride};
use std::alloc::Global;

/// Whether a level belongs to a set that a number picks.
pub(crate) trait LevelTest {
    ghost is_in: { ℕ → ℕ → ℕ };

    fn holds(k: u32, level: u16) -> bool
        ensures { cond result 1 0 ≡ is_in k level };

    /// Which of 64 samples have such a level, a bit each.
    fn of_block<P: LevelBlocks>(k: u32, block: &[P]) -> u64
        requires { length block.now ≡ 64 }
        ensures { (i : ℕ) → i < 64 → bit_at result i ≡ slice_index (map (λ s. is_in k (P.level s)) block.now) i };
}

/// The level is the number or more.
pub(crate) struct FromLevel;

/// The level is the number.
pub(crate) struct OfLevel;

impl LevelTest for FromLevel {
    ghost is_in = { λ (k n : ℕ). if nat_le k n then 1 else 0 };

    #[inline(always)]
    fn holds(k: u32, level: u16) -> bool {
        u32::from(level) >= k
    }

    #[inline(always)]
    fn of_block<P: LevelBlocks>(k: u32, block: &[P]) -> u64 {
        P::at_least(block, k)
    }
}

impl LevelTest for OfLevel {
    ghost is_in = { λ (k n : ℕ). if n == k then 1 else 0 };

    #[inline(always)]
    fn holds(k: u32, level: u16) -> bool {
        u32::from(level) == k
    }

    #[inline(always)]
    fn of_block<P: LevelBlocks>(k: u32, block: &[P]) -> u64 {
        P::equal(block, k)
    }
}

/// Puts those places into the line whose sample is in the set.
fn test_row<P: Pixel, T: LevelTest>(src: &[P], k: u32, line: &mut [Bit])
    requires { length line.old ≡ length src.now }
    ensures { line.new ≡ map (λ s. T.is_in k (P.level s)) src.now }
{
    for i in 0..src.len() {
        line[i] = Bit::new(T::holds(k, src[i].value()));
    }
}

/// Tests and packs each row of the window.
fn test_rows<P: Grey, T: LevelTest>(window: &Window<P>, k: u32, line: &mut [Bit], out: &mut [u64])
    requires line { length line.old ≡ window.now.place.width }
    requires room { length out.old ≡ window.now.place.height * stride_of window.now.place.width }
    ensures packed { IsPacked window.now.place.width window.now.place.height out.new }
    ensures samples { samples_of window.now.place.width window.now.place.height out.new ≡ map (λ s. T.is_in k (P.level s)) window.now.cells }
{
    let place = window.place();
    let _samples = window.samples();
    let stride = stride(place.width);
    for y in 0..place.height {
        let start = y as usize * stride;
        test_row::<P, T>(window.row(y), k, line);
        pack_row(line, &mut out[start..start + stride]);
    }
}

/// The places of a window whose sample is in the set.
fn tested<P: Grey, T: LevelTest>(
    alloc: Global,
    window: &Window<P>,
    k: u32,
) -> Result<Plane<Bit>, NoMemory>
    ensures width { IfOk result (λ p. p.width ≡ window.now.place.width) }
    ensures height { IfOk result (λ p. p.height ≡ window.now.place.height) }
    ensures cells { IfOk result (λ p. p.cells ≡ map (λ s. T.is_in k (P.level s)) window.now.cells) }
{
    let place = window.place();
    let mut line = copies(alloc, place.width as usize, Bit::new(false))?;
    let mut words = repeated(alloc, place.height as usize * stride(place.width), 0u64)?;
    test_rows::<P, T>(window, k, line.as_mut_slice(), words.as_mut_slice());
    Ok(plane_of(place.width, place.height, words))
}

/// The places of a window with level `k` or more. It may want memory (`NoMemory`).
pub fn at_least<P: Grey>(alloc: Global, window: &Window<P>, k: u32) -> Result<Plane<Bit>, NoMemory>
    ensures width { IfOk result (λ p. p.width ≡ window.now.place.width) }
    ensures height { IfOk result (λ p. p.height ≡ window.now.place.height) }
    ensures cells { IfOk result (λ p. p.cells ≡ map (λ s. if nat_le k (P.level s) then 1 else 0) window.now.cells) }
{
    tested::<P, FromLevel>(alloc, window, k)
}

/// The places of a window with level `v`. It may want memory (`NoMemory`).
pub fn equal<P: Grey>(alloc: Global, window: &Window<P>, v: u32) -> Result<Plane<Bit>, NoMemory>
    ensures width { IfOk result (λ p. p.width ≡ window.now.place.width) }
    ensures height { IfOk result (λ p. p.height ≡ window.now.place.height) }
    ensures cells { IfOk result (λ p. p.cells ≡ map (λ s. if P.level s == v then 1 else 0) window.now.cells) }
{
    tested::<P, OfLevel>(alloc, window, v)
}
