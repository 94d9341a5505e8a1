//! What two rows of results share, and what is left of either.
ghost use Rattle.std.specs.Prelude.{◌≡◌, ℕ, ◌+◌, ◌*◌, ◌<◌, ◌≤◌, ◌^◌, IfOk};
ghost use Rattle.std.specs.List.{AllByRecursion};
ghost use Rattle.mw_offset_lent.specs.Splits.{IsCover, IsShift, IsSplit};

use crate::pairs::Split;
use crate::places::{rest_of, shared_of};
use crate::shifts::Shift;
use mw_model::NoMemory;
use std::alloc::Global;

/// The places that two rows of results share, and those that are left of either, where the lower row lies so far ahead.
#[derive(Drop)]
pub(crate) struct Shares {
    pub shared: Vec<usize>,
    pub upper: Vec<usize>,
    pub lower: Vec<usize>,
    pub ahead: usize,
}

/// Which of all places two rows share that are shifted beside one another, among cells in rows of `wide`.
pub(crate) fn shares_of(
    alloc: Global,
    all: &[usize],
    shift: Shift,
    wide: usize,
) -> Result<Shares, NoMemory>
    requires shift { IsShift shift }
    requires wide { wide < 2 ^ 40 }
    requires places { AllByRecursion (λ p. p + (wide + 8) < 2 ^ 64) all.now }
    ensures upper { IfOk result (λ s. IsCover s.shared.items s.upper.items all.now 0) }
    ensures lower { IfOk result (λ s. IsCover s.shared.items s.lower.items all.now s.ahead) }
    ensures ahead { IfOk result (λ s. 8 ≤ wide → s.ahead + shift.left ≡ wide + shift.right) }
{
    let ahead = (wide + shift.right).saturating_sub(shift.left);
    let both = shared_of(alloc, all, ahead)?;
    let shared = both.as_slice();
    let upper = rest_of(alloc, all, shared, 0)?;
    let lower = rest_of(alloc, all, shared, ahead)?;
    Ok(Shares {
        shared: both,
        upper,
        lower,
        ahead,
    })
}

/// All places and what two rows share of them, for rows of `width` results.
pub(crate) fn split_of<'a>(
    all: &'a [usize],
    shares: &'a Shares,
    shift: Shift,
    wide: usize,
    width: usize,
) -> Split<'a>
    requires shift { IsShift shift }
    requires upper { IsCover shares.now.shared.items shares.now.upper.items all.now 0 }
    requires lower { IsCover shares.now.shared.items shares.now.lower.items all.now shares.now.ahead }
    requires ahead { 8 ≤ wide → shares.now.ahead + shift.left ≡ wide + shift.right }
    ensures all { result.all.now ≡ all.entry.now }
    ensures wide { result.wide ≡ wide }
    ensures width { result.width ≡ width }
    ensures split { (lanes : ℕ) → 4 ≤ lanes → 2 * lanes + 8 ≤ width → width ≤ wide → IsSplit lanes result }
{
    let shared = shares.shared.as_slice();
    let upper = shares.upper.as_slice();
    let lower = shares.lower.as_slice();
    Split {
        all,
        shared,
        upper,
        lower,
        ahead: shares.ahead,
        left: shift.left,
        right: shift.right,
        wide,
        width,
    }
}
