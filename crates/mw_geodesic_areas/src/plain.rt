//! The same level by level, by the components of each threshold: for elements without a kernel, and for tests.

ghost use Rattle.std.specs.Prelude.{◌≡◌, ℕ, ◌-◌, ◌<◌, ◌≤◌, ◌==◌, ◌&&◌, false, if◌then◌else◌, length, slice_index, IfOk};
ghost use Rattle.mw_geodesic.specs.Components.{area_closing, area_opening};
ghost use Rattle.mw_geodesic.specs.Neighbours.{IsSymmetric};
ghost use Rattle.mw_geodesic_areas.specs.Plain.{AreOpenedOver};

use mw_geodesic::area_opening_of_set;
use mw_model::{NoMemory, Offset};
use mw_reference::{ReferenceImage, complement, threshold};
use std::alloc::Global;

/// Whether a sample has the level.
fn occurs(samples: &[u16], level: u16) -> bool
    ensures { result ≡ false → (i : ℕ) → i < length samples.now → slice_index samples.now i ≡ level → ⊥ }
{
    for i in 0..samples.len() {
        if samples[i] == level {
            return true;
        }
    }
    false
}

/// Gives the level to each place of a set that has none.
fn give(levels: &mut [u16], set: &[u16], level: u16)
    requires { length set.now ≡ length levels.old }
    ensures size { length levels.new ≡ length levels.old }
    ensures each { (i : ℕ) → i < length levels.old → slice_index levels.new i ≡ (if slice_index set.now i == 1 && slice_index levels.old i == 0 then level else slice_index levels.old i) }
{
    for i in 0..levels.len() {
        if set[i] == 1 && levels[i] == 0 {
            levels[i] = level;
        }
    }
}

/// Gives the level to what is large at it, and not at a higher one. A level that does not occur gives what the next one gave.
fn open_at(
    alloc: Global,
    image: &ReferenceImage,
    least: u32,
    around: &[Offset],
    level: u16,
    levels: &mut [u16],
) -> Result<(), NoMemory>
    requires symmetric { IsSymmetric around.now }
    requires some { 1 ≤ level }
    requires low { level ≤ image.now.maxval }
    requires above { AreOpenedOver around.now least image.now level levels.old }
    ensures { IfOk result (λ _. AreOpenedOver around.now least image.now (level - 1) levels.new) }
{
    if !occurs(image.samples(), level) {
        return Ok(());
    }
    let set = threshold(alloc, image, u32::from(level))?;
    let large = area_opening_of_set(alloc, &set, least, around)?;
    give(levels, large.samples(), level);
    Ok(())
}

/// The area opening of an image under a symmetric element. It may want memory (`NoMemory`).
pub fn plain_area_opening(
    alloc: Global,
    image: &ReferenceImage,
    least: u32,
    around: &[Offset],
) -> Result<ReferenceImage, NoMemory>
    requires { IsSymmetric around.now }
    ensures { IfOk result (λ r. r ≡ area_opening around.now least image.now) }
{
    let (width, height) = (image.width(), image.height());
    let top = image.maxval();
    let mut levels = vec![in alloc; 0u16; image.samples().len()]?;
    for n in 0..top {
        open_at(alloc, image, least, around, top - n, &mut levels)?;
    }
    Ok(ReferenceImage::new(image.kind(), width, height, top, levels))
}

/// The area closing of an image under a symmetric element. It may want memory (`NoMemory`).
pub fn plain_area_closing(
    alloc: Global,
    image: &ReferenceImage,
    least: u32,
    around: &[Offset],
) -> Result<ReferenceImage, NoMemory>
    requires { IsSymmetric around.now }
    ensures { IfOk result (λ r. r ≡ area_closing around.now least image.now) }
{
    let turned = complement(alloc, image)?;
    let opened = plain_area_opening(alloc, &turned, least, around)?;
    complement(alloc, &opened)
}
