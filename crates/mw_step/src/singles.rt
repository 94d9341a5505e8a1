//! Steps that look at one image, place by place, or at none.

ghost use Rattle.std.specs.Prelude.{◌≡◌, ◌-◌, ◌*◌, ◌≤◌, ◌==◌, nat_le, if◌then◌else◌, length, sum, sum_by, IfOk};
ghost use Rattle.mw_model.specs.declared.limits.TheConstants.{SIDE_LIMIT};
ghost use Rattle.mw_model.specs.declared.shapes.Kind.TheVariants as kind;
ghost use Rattle.mw_step_task.specs.Products.{HoldsImage, each_drawn, tile_drawn};

use crate::kinds::{made_bits, made_bytes, made_words, of_samples};
use crate::pointwise::inverted;
use crate::thresholds::{level_of_set, level_set, upper_of_set, upper_set};
use mw_model::{NoMemory, Rect};
use mw_rank_bits::bits;
use mw_rank_bits::lane::LevelBlocks;
use mw_step_task::TileResult;
use mw_step_task::pixel::Plane;
use mw_step_task::tile::{AnyWindow, WindowView};
use std::alloc::Global;

/// The maxval less each sample.
pub(crate) fn invert(alloc: Global, a: &AnyWindow) -> Result<TileResult, NoMemory>
    ensures { IfOk result (HoldsImage (each_drawn a.now.kind a.now.maxval (λ n. a.now.maxval - n) a.now.view)) }
{
    of_samples!(
        alloc,
        a,
        |set| bits::invert(alloc, set),
        |samples, maxval| inverted(alloc, maxval, samples)
    )
}

/// The set of the places with level `k` or more.
pub(crate) fn at_least(alloc: Global, k: u32, a: &AnyWindow) -> Result<TileResult, NoMemory>
    ensures { IfOk result (HoldsImage (each_drawn kind.Bit 1 (λ n. if nat_le k n then 1 else 0) a.now.view)) }
{
    match a.view() {
        WindowView::Bits(set) => made_bits(alloc, upper_of_set(alloc, k, set)?),
        WindowView::Grey8(samples, _) => made_bits(alloc, upper_set(alloc, k, samples)?),
        WindowView::Grey16(samples, _) => made_bits(alloc, upper_set(alloc, k, samples)?),
    }
}

/// The set of the places with level `v`.
pub(crate) fn equal(alloc: Global, v: u16, a: &AnyWindow) -> Result<TileResult, NoMemory>
    ensures { IfOk result (HoldsImage (each_drawn kind.Bit 1 (λ n. if n == v then 1 else 0) a.now.view)) }
{
    match a.view() {
        WindowView::Bits(set) => made_bits(alloc, level_of_set(alloc, v, set)?),
        WindowView::Grey8(samples, _) => made_bits(alloc, level_set(alloc, v, samples)?),
        WindowView::Grey16(samples, _) => made_bits(alloc, level_set(alloc, v, samples)?),
    }
}

/// Level 0 everywhere.
pub(crate) fn blank(alloc: Global, maxval: u16, tile: Rect) -> Result<TileResult, NoMemory>
    requires { 1 ≤ maxval }
    ensures { IfOk result (HoldsImage (tile_drawn kind.Grey maxval tile (λ x y. 0))) }
{
    if maxval < 256 {
        let plane = Plane::filled(alloc, tile.width, tile.height, 0u8)?;
        made_bytes(alloc, plane, maxval as u8)
    } else {
        let plane = Plane::filled(alloc, tile.width, tile.height, 0u16)?;
        made_words(alloc, plane, maxval)
    }
}

/// The sum of the samples.
pub(crate) fn sum_up(a: &AnyWindow) -> u64
    requires wide { a.now.view.place.width ≤ SIDE_LIMIT }
    requires high { a.now.view.place.height ≤ SIDE_LIMIT }
    ensures value { result ≡ sum a.now.view.cells }
    ensures fills { length a.now.view.cells ≡ a.now.view.place.height * a.now.view.place.width }
{
    match a.view() {
        WindowView::Bits(w) => bits::count(w),
        WindowView::Grey8(w, _) => total(w.samples()),
        WindowView::Grey16(w, _) => total(w.samples()),
    }
}

/// The sum of the levels, of 64 samples at a time.
fn total<P: LevelBlocks>(samples: &[P]) -> u64
    requires { length samples.now ≤ 67108864 }
    ensures { result ≡ sum_by P.level samples.now }
{
    let mut total = 0u64;
    let mut at = 0usize;
    'by_block: while samples.len() - at >= 64 {
        total += P::sum(&samples[at..at + 64]);
        at += 64;
    }
    'by_one: while at < samples.len() {
        total += u64::from(samples[at].value());
        at += 1;
    }
    total
}
