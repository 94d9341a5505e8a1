//! Whether each call in a log has exactly one receipt, block by block: the receipts of a block's places are counted in a
//! row of bytes, so that no memory is asked for.

ghost use Rattle.std.specs.Prelude.{◌≡◌, ◌↔◌, ◌<◌, ◌≤◌, ◌+◌, ◌^◌, ℕ, IsTrue, All, length, slice_get, slice_index, Some};
ghost use Rattle.mw_model.specs.declared.calls.Call.{Call};
ghost use Rattle.mw_model.specs.declared.calls.Reply.{Reply};
ghost use Rattle.mw_model.specs.Receipts.{Rises, count_at};
ghost use Rattle.mw_pool_passes.specs.Blocks.{IsTally, IsOnceAt};

use crate::pass::Pass;
use crate::stretches::{BLOCK, tally};
use mw_core::Core;
use mw_model::LogItem;

/// No receipt at any place.
fn no_counts() -> [u8; BLOCK]
    ensures size { length result ≡ 4096 }
    ensures each { (k : ℕ) → k < 4096 → slice_index result k ≡ 0 }
{
    [0; BLOCK]
}

/// The receipts of all passes at each place of a block, counted up to 255.
fn counts_of(passes: &[Pass], base: usize) -> [u8; BLOCK]
    requires { All Rises passes.now }
    ensures { IsTally result base (count_at passes.now) }
{
    let mut counts = no_counts();
    for pass in passes {
        tally(pass.receipts(), base, &mut counts);
    }
    counts
}

/// Whether so many receipts are right for the item at this place: one of a call, any number of another item.
fn is_right(core: &Core, place: usize, count: u8) -> bool
    requires { place < length core.now.log }
    ensures { IsTrue result ↔ ((c : Call) (r : Reply) → slice_get core.now.log place ≡ Some (LogItem.Call c r) → count ≡ 1) }
{
    match core.log_at(place) {
        LogItem::Call(_, _) => count == 1,
        _ => true,
    }
}

/// Whether each call of a block has exactly one receipt.
fn are_once(core: &Core, passes: &[Pass], base: usize) -> bool
    requires rising { All Rises passes.now }
    requires fits { base + 4096 ≤ 2 ^ 64 }
    ensures { IsTrue result ↔ ((k : ℕ) → k < 4096 → IsOnceAt core.now.log passes.now (base + k)) }
{
    let counts = counts_of(passes, base);
    for k in 0..BLOCK {
        let place = base + k;
        if place < core.log_len() && !is_right(core, place, counts[k]) {
            return false;
        }
    }
    true
}

/// Whether each call in the log has exactly one receipt in all the passes, in each of which the places rise.
pub(crate) fn each_once(core: &Core, passes: &[Pass]) -> bool
    requires { All Rises passes.now }
    ensures { IsTrue result ↔ ((place : ℕ) → IsOnceAt core.now.log passes.now place) }
{
    for block in 0..core.log_len() / BLOCK + 1 {
        if !are_once(core, passes, block * BLOCK) {
            return false;
        }
    }
    true
}
