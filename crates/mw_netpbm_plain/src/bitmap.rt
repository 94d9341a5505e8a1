//! Plain bitmaps, which elements come from.

ghost use Rattle.std.specs.Prelude.{◌≡◌, ◌≢◌, ℕ, ◌*◌, ◌<◌, ◌≤◌, IfOk, IfErr, MatchResult, Ok, Err};
ghost use Rattle.mw_model.specs.Rasters.{Raster};
ghost use Rattle.mw_model.specs.Bitmaps.{IsBitmap, BitmapRefuses};
ghost use Rattle.mw_netpbm_plain.specs.Reading.{result_viewed, Gives};
ghost use Rattle.mw_netpbm_plain.specs.Whole.{bitmap_at};
ghost use Rattle.mw_netpbm_plain.specs.Faults.{facts_at};
ghost use Rattle.mw_netpbm_plain.specs.Faults.{bitmap_code_of, facts_of};

use crate::fault::{BitmapFault, ReadFault, as_bitmap_fault};
use crate::head::read_bitmap_head;
use crate::plain::{self, Places};
use crate::sets;
use mw_pixel::{Bit, Plane};
use std::alloc::Global;

/// What a scan tells of a plain bitmap.
#[derive(Clone, Copy, Debug, PartialEq, Eq)]
pub struct BitmapFacts {
    /// In pixels.
    pub width: u32,
    /// In pixels.
    pub height: u32,
    /// How many pixels are 1.
    pub ones: u64,
}

/// The bitmap that the bytes are, with sides up to a limit, or the first case by which they are none.
#[tactic(auto, using(crate::proofs::Bitmaps::read_only, crate::proofs::Bitmaps::read_refuses, crate::proofs::Bitmaps::read_memory))]
pub fn read_plain_bitmap(alloc: Global, bytes: &[u8], side: u32) -> Result<Plane<Bit>, BitmapFault>
    ensures found { IfOk result (λ f. IsBitmap bytes.now side f) }
    // A bitmap is read, unless memory runs out.
    ensures only { (f : Raster ℕ) → IsBitmap bytes.now side f → MatchResult result (λ g. g ≡ f) (λ e. e ≡ BitmapFault.NoMemory) }
    ensures refused { IfErr result (λ e. e ≢ BitmapFault.NoMemory → BitmapRefuses bytes.now side (bitmap_code_of e)) }
    // Memory is wanting only where the bytes are a bitmap.
    ensures memory { result ≡ Err BitmapFault.NoMemory → (f : Raster ℕ) × IsBitmap bytes.now side f }
{
    match pixels(alloc, bytes, side) {
        Ok(plane) => Ok(plane),
        Err(fault) => Err(as_bitmap_fault(fault)),
    }
}

/// The facts of the bitmap that the bytes are, with the tests of `read_plain_bitmap` and without memory.
pub fn scan_plain_bitmap(bytes: &[u8], side: u32) -> Result<BitmapFacts, BitmapFault>
    ensures found { IfOk result (λ facts. (f : Raster ℕ) × IsBitmap bytes.now side f × (facts ≡ facts_of f)) }
    ensures only { (f : Raster ℕ) → IsBitmap bytes.now side f → result ≡ Ok (facts_of f) }
    ensures refused { IfErr result (λ e. BitmapRefuses bytes.now side (bitmap_code_of e)) }
{
    match facts(bytes, side) {
        Ok(facts) => Ok(facts),
        Err(fault) => Err(as_bitmap_fault(fault)),
    }
}

#[tactic(auto, unfolding(crate::specs::Whole::bitmap_at), using(crate::proofs::Faults::Fails_from, crate::proofs::Faults::Fails_then, crate::proofs::Faults::map_same))]
fn pixels(alloc: Global, bytes: &[u8], side: u32) -> Result<Plane<Bit>, ReadFault>
    ensures { Gives (λ f. f) result (bitmap_at side bytes.now) }
{
    let (head, rest) = read_bitmap_head(bytes, side)?;
    let words = sets::set(alloc, head.width as u32, head.height as u32, rest)?;
    Ok(Plane::of_words(words))
}

#[tactic(auto, unfolding(crate::specs::Faults::facts_at))]
fn facts(bytes: &[u8], side: u32) -> Result<BitmapFacts, ReadFault>
    ensures { result_viewed (λ x. x) result ≡ facts_at side bytes.now }
{
    let (head, rest) = read_bitmap_head(bytes, side)?;
    let count = head.height as usize * head.width as usize;
    let ones = plain::count_ones(Places::Pixels, count, rest)?;
    Ok(BitmapFacts {
        width: head.width as u32,
        height: head.height as u32,
        ones,
    })
}
