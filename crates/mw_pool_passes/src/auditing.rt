//! Whether passes cover the log of a core. No memory is asked for.

ghost use Rattle.std.specs.Prelude.{◌≡◌, ◌↔◌, IsTrue, All};
ghost use Rattle.mw_model.specs.Receipts.{IsLogged, Rises, Covers};

use crate::blocks::each_once;
use crate::pass::Pass;
use crate::same::{same_call, same_reply};
use mw_core::Core;
use mw_model::{LogItem, Receipt};

/// Whether the places rise in each pass, each receipt is of the call at its place, and each call in the log has exactly one
/// receipt in all the passes. The time grows with the log and the receipts together: the log is gone through once, block by
/// block, each pass once, and in each block one search by halves finds where a pass enters it.
pub fn audit(core: &Core, passes: &[Pass]) -> bool
    ensures { IsTrue result ↔ Covers core.now.log passes.now }
{
    all_rise(passes) && all_logged(core, passes) && each_once(core, passes)
}

fn rises(receipts: &[Receipt]) -> bool
    ensures { IsTrue result ↔ Rises receipts.now }
{
    for k in 1..receipts.len() {
        if receipts[k - 1].place >= receipts[k].place {
            return false;
        }
    }
    true
}

fn all_rise(passes: &[Pass]) -> bool
    ensures { IsTrue result ↔ All Rises passes.now }
{
    passes.iter().all(|pass| rises(pass.receipts()))
}

/// Whether the item is the call that the receipt tells, with its reply.
fn is_of(item: &LogItem, receipt: &Receipt) -> bool
    ensures { IsTrue result ↔ (item.now ≡ LogItem.Call receipt.now.call receipt.now.reply) }
{
    match item {
        LogItem::Call(call, reply) => same_call(*call, receipt.call)
            && same_reply(*reply, receipt.reply),
        _ => false,
    }
}

/// Whether the receipt is of the call that stands at its place.
fn is_logged(core: &Core, receipt: &Receipt) -> bool
    ensures { IsTrue result ↔ IsLogged core.now.log receipt.now }
{
    if receipt.place >= core.log_len() {
        return false;
    }
    is_of(&core.log_at(receipt.place), receipt)
}

fn are_logged(core: &Core, receipts: &[Receipt]) -> bool
    ensures { IsTrue result ↔ All (IsLogged core.now.log) receipts.now }
{
    receipts.iter().all(|receipt| is_logged(core, receipt))
}

fn all_logged(core: &Core, passes: &[Pass]) -> bool
    ensures { IsTrue result ↔ All (All (IsLogged core.now.log)) passes.now }
{
    passes.iter().all(|pass| are_logged(core, pass.receipts()))
}
