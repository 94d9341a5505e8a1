//! Sets of the places with a level, or with a level or more. A set has the levels 0 and 1 alone.

ghost use Rattle.std.specs.Prelude.{◌≡◌, ℕ, ◌*◌, ◌≤◌, ◌==◌, All, length, map, IfOk, nat_le, if◌then◌else◌};

use mw_model::NoMemory;
use mw_rank_bits::bits;
use mw_rank_bits::bits::{invert, join};
use mw_rank_bits::lane::LevelBlocks;
use mw_step_task::pixel::{Bit, Grey, Plane};
use mw_step_task::tile::Window;
use std::alloc::Global;

/// What is so of each set: a call that is made only for these facts.
pub(crate) fn is_sound(set: &Window<Bit>)
    ensures size { length set.now.cells ≡ set.now.place.height * set.now.place.width }
    ensures small { All (λ s. s ≤ 1) set.now.cells }
{
    let plane = set.plane();
    let _width = plane.width();
    let _words = plane.words();
}

/// The places of a set with level `v`.
pub(crate) fn level_of_set(alloc: Global, v: u16, set: &Window<Bit>) -> Result<Plane<Bit>, NoMemory>
    ensures width { IfOk result (λ p. p.width ≡ set.now.place.width) }
    ensures height { IfOk result (λ p. p.height ≡ set.now.place.height) }
    ensures cells { IfOk result (λ p. p.cells ≡ map (λ s. if s == v then 1 else 0) set.now.cells) }
    ensures size { length set.now.cells ≡ set.now.place.height * set.now.place.width }
{
    is_sound(set);
    let place = set.place();
    if v == 0 {
        return Ok(invert(alloc, set)?);
    }
    if v == 1 {
        // the set itself
        return Ok(join(alloc, set, set)?);
    }
    Ok(Plane::filled(alloc, place.width, place.height, Bit::new(false))?)
}

/// The places of a set with level `k` or more.
pub(crate) fn upper_of_set(alloc: Global, k: u32, set: &Window<Bit>) -> Result<Plane<Bit>, NoMemory>
    ensures width { IfOk result (λ p. p.width ≡ set.now.place.width) }
    ensures height { IfOk result (λ p. p.height ≡ set.now.place.height) }
    ensures cells { IfOk result (λ p. p.cells ≡ map (λ s. if nat_le k s then 1 else 0) set.now.cells) }
    ensures size { length set.now.cells ≡ set.now.place.height * set.now.place.width }
{
    is_sound(set);
    let place = set.place();
    if k == 0 {
        return Ok(Plane::filled(alloc, place.width, place.height, Bit::SET)?);
    }
    if k == 1 {
        // the set itself
        return Ok(join(alloc, set, set)?);
    }
    Ok(Plane::filled(alloc, place.width, place.height, Bit::new(false))?)
}

/// The places of a window in levels of grey with level `v`.
pub(crate) fn level_set<P: LevelBlocks + Grey>(
    alloc: Global,
    v: u16,
    a: &Window<P>,
) -> Result<Plane<Bit>, NoMemory>
    ensures width { IfOk result (λ p. p.width ≡ a.now.place.width) }
    ensures height { IfOk result (λ p. p.height ≡ a.now.place.height) }
    ensures cells { IfOk result (λ p. p.cells ≡ map (λ s. if P.level s == v then 1 else 0) a.now.cells) }
    ensures size { length a.now.cells ≡ a.now.place.height * a.now.place.width }
{
    // for their number
    let _samples = a.samples();
    Ok(bits::level_set(alloc, a, u32::from(v))?)
}

/// The places of a window in levels of grey with level `k` or more.
pub(crate) fn upper_set<P: LevelBlocks + Grey>(
    alloc: Global,
    k: u32,
    a: &Window<P>,
) -> Result<Plane<Bit>, NoMemory>
    ensures width { IfOk result (λ p. p.width ≡ a.now.place.width) }
    ensures height { IfOk result (λ p. p.height ≡ a.now.place.height) }
    ensures cells { IfOk result (λ p. p.cells ≡ map (λ s. if nat_le k (P.level s) then 1 else 0) a.now.cells) }
    ensures size { length a.now.cells ≡ a.now.place.height * a.now.place.width }
{
    // for their number
    let _samples = a.samples();
    Ok(bits::threshold(alloc, a, k)?)
}
