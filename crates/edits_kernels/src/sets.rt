//! Of `mw_bits`.

ghost use Rattle.std.specs.Prelude.{◌≡◌, ◌*◌, min, length, map, nat_le, IfOk, if◌then◌else◌};
ghost use lib.Lanes.{zip2};

use mw_lane::LevelBlocks;
use mw_model::NoMemory;
use mw_tile::Window;
use mw_tile::pixel::{Bit, Grey, Plane};
use std::alloc::Global;

/// `mw_bits::meet`.
pub fn meet(alloc: Global, a: &Window<Bit>, b: &Window<Bit>) -> Result<Plane<Bit>, NoMemory>
    requires { a.now.place ≡ b.now.place }
    ensures width { IfOk result (λ p. p.width ≡ a.now.place.width) }
    ensures height { IfOk result (λ p. p.height ≡ a.now.place.height) }
    ensures cells { IfOk result (λ p. p.cells ≡ zip2 min a.now.cells b.now.cells) }
    ensures first { length a.now.cells ≡ a.now.place.height * a.now.place.width }
    ensures second { length b.now.cells ≡ a.now.place.height * a.now.place.width }
{
    mw_bits::meet(alloc, a, b)
}

/// `mw_bits::threshold`.
pub fn threshold<P: LevelBlocks + Grey>(
    alloc: Global,
    window: &Window<P>,
    k: u32,
) -> Result<Plane<Bit>, NoMemory>
    ensures width { IfOk result (λ p. p.width ≡ window.now.place.width) }
    ensures height { IfOk result (λ p. p.height ≡ window.now.place.height) }
    ensures cells { IfOk result (λ p. p.cells ≡ map (λ s. if nat_le k (P.level s) then 1 else 0) window.now.cells) }
{
    mw_bits::threshold(alloc, window, k)
}
