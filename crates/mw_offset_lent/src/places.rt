//! Offsets as places among cells that are laid out around a tile, and which of them two rows share.
ghost use Rattle.std.specs.Prelude.{◌≡◌, ◌⊎◌, ℕ, ◌+◌, ◌-◌, ◌*◌, ◌<◌, ◌≤◌, ◌^◌, pos, ◌+ℤ◌, ◌≤ℤ◌, length, map, ◌++◌, ◌∷◌, [], Contains, IfOk, IfSome, IsSome, IsTrue, OnOk};
ghost use Rattle.std.specs.List.{AllByRecursion};
ghost use Rattle.mw_model.specs.Rectangles.{nonnegative};
ghost use Rattle.mw_offset_lent.specs.Offsets.{LeadsWithin, place_among};
ghost use Rattle.mw_offset_lent.specs.Splits.{IsCover};

use mw_model::{NoMemory, Offset};
use std::alloc::Global;

/// How many columns and rows are laid out on either side of a tile.
#[derive(Clone, Copy)]
pub(crate) struct Around {
    pub across: usize,
    pub down: usize,
}

/// The most offsets, and the farthest. Under more it is sooner to grow runs first.
const MOST: usize = 64;

const FARTHEST: usize = 64;

/// How far an offset leads.
fn far_of(offset: Offset) -> Around
    ensures within { LeadsWithin result.across result.down offset }
    ensures least { (columns rows : ℕ) → LeadsWithin columns rows offset → (result.across ≤ columns) × (result.down ≤ rows) }
{
    Around {
        across: usize::from(offset.dx.unsigned_abs()),
        down: usize::from(offset.dy.unsigned_abs()),
    }
}

/// How far the offsets lead, if they are few and near.
pub(crate) fn around_of(offsets: &[Offset]) -> Option<Around>
    ensures within { IfSome result (λ a. AllByRecursion (LeadsWithin a.across a.down) offsets.now) }
    ensures near { IfSome result (λ a. (a.across ≤ 64) × (a.down ≤ 64)) }
    ensures always { length offsets.now ≤ 64 → AllByRecursion (LeadsWithin 64 64) offsets.now → IsSome result }
{
    if offsets.len() > MOST {
        return None;
    }
    let mut across = 0usize;
    let mut down = 0usize;
    for i in 0..offsets.len() {
        let far = far_of(offsets[i]);
        across = across.max(far.across);
        down = down.max(far.down);
    }
    if across > FARTHEST || down > FARTHEST {
        return None;
    }
    Some(Around { across, down })
}

/// How many steps a number is from the one that lies `far` before 0.
fn steps_from(far: usize, number: i16) -> usize
    requires few { far ≤ 64 }
    requires low { pos 0 ≤ℤ (number +ℤ pos far) }
    requires high { number ≤ℤ pos far }
    ensures value { result ≡ nonnegative (number +ℤ pos far) }
    ensures few { result ≤ 128 }
{
    (i64::from(number) + far as i64) as usize
}

/// The place of an offset among rows of so many cells.
fn place_of(offset: Offset, around: Around, wide: usize) -> usize
    requires within { LeadsWithin around.across around.down offset }
    requires across { around.across ≤ 64 }
    requires down { around.down ≤ 64 }
    requires small { wide < 2 ^ 34 }
    ensures { result ≡ place_among around wide offset }
{
    let column = steps_from(around.across, offset.dx);
    let row = steps_from(around.down, offset.dy);
    row * wide + column
}

/// The places of all offsets.
pub(crate) fn places_of(
    alloc: Global,
    offsets: &[Offset],
    around: Around,
    wide: usize,
) -> Result<Vec<usize>, NoMemory>
    requires within { AllByRecursion (LeadsWithin around.across around.down) offsets.now }
    requires across { around.across ≤ 64 }
    requires down { around.down ≤ 64 }
    requires small { wide < 2 ^ 34 }
    ensures { IfOk result (λ v. v.items ≡ map (place_among around wide) offsets.now) }
{
    let mut places = Vec::with_capacity(alloc, offsets.len())?;
    for i in 0..offsets.len() {
        places.push(place_of(offsets[i], around, wide))?;
    }
    Ok(places)
}

/// Whether a place is one of these.
fn has(places: &[usize], place: usize) -> bool
    ensures { IsTrue result → Contains places.now place }
{
    places.contains(&place)
}

/// Adds the place that is so far ahead of this one, if it is a place too.
fn push_shared(
    all: &[usize],
    place: usize,
    ahead: usize,
    shared: &mut Vec<usize>,
) -> Result<(), NoMemory>
    requires { place + ahead < 2 ^ 64 }
    ensures { OnOk result ((shared.new.items ≡ shared.old.items) ⊎ ((Contains all.now (place + ahead)) × (shared.new.items ≡ shared.old.items ++ (place + ahead) ∷ []))) }
{
    if has(all, place + ahead) {
        shared.push(place + ahead)?;
    }
    Ok(())
}

/// The places that are so far ahead of another one.
pub(crate) fn shared_of(alloc: Global, all: &[usize], ahead: usize) -> Result<Vec<usize>, NoMemory>
    requires { AllByRecursion (λ p. p + ahead < 2 ^ 64) all.now }
    ensures ahead { IfOk result (λ v. (p : ℕ) → Contains v.items p → (q : ℕ) × (Contains all.now q) × (p ≡ q + ahead)) }
    ensures within { IfOk result (λ v. (p : ℕ) → Contains v.items p → Contains all.now p) }
{
    let mut shared = Vec::with_capacity(alloc, all.len())?;
    for place in all {
        push_shared(all, *place, ahead, &mut shared)?;
    }
    Ok(shared)
}

/// Adds a place, unless the one that is so far ahead of it is shared.
fn push_rest(
    shared: &[usize],
    place: usize,
    ahead: usize,
    rest: &mut Vec<usize>,
) -> Result<(), NoMemory>
    requires { place + ahead < 2 ^ 64 }
    ensures { OnOk result (((Contains shared.now (place + ahead)) × (rest.new.items ≡ rest.old.items)) ⊎ (rest.new.items ≡ rest.old.items ++ place ∷ [])) }
{
    if has(shared, place + ahead) {
        return Ok(());
    }
    rest.push(place)?;
    Ok(())
}

/// The places of a row that are left, where it lies so far ahead of the one that the shared places are those of.
pub(crate) fn rest_of(
    alloc: Global,
    all: &[usize],
    shared: &[usize],
    ahead: usize,
) -> Result<Vec<usize>, NoMemory>
    requires small { AllByRecursion (λ p. p + ahead < 2 ^ 64) all.now }
    requires shared { (p : ℕ) → Contains shared.now p → (q : ℕ) × (Contains all.now q) × (p ≡ q + ahead) }
    ensures { IfOk result (λ v. IsCover shared.now v.items all.now ahead) }
{
    let mut rest = Vec::with_capacity(alloc, all.len())?;
    for place in all {
        push_rest(shared, *place, ahead, &mut rest)?;
    }
    Ok(rest)
}
