//! Places in the log: they are made by rows of 16, so that memory is asked for only where the rows are full.

ghost use Rattle.std.specs.Prelude.{◌≡◌, ◌≤◌, ◌<◌, ◌+◌, ◌%◌, vec_len, vec_capacity, OnOk, OnErr};

use crate::compact::Compact;
use mw_model::NoMemory;

const ROW: usize = 16;

/// Makes places for so many items more, at least twice as many as there were where there are too few.
pub(crate) fn make_places(log: &mut Vec<Compact>, more: usize) -> Result<(), NoMemory>
    requires small { more ≤ 4294967295 }
    requires rows { vec_capacity log.old % 16 ≡ 0 }
    ensures items { log.new.items ≡ log.old.items }
    ensures len { vec_len log.new ≡ vec_len log.old }
    ensures ok { OnOk result (vec_len log.new + more ≤ vec_capacity log.new) }
    ensures rows { vec_capacity log.new % 16 ≡ 0 }
    ensures full { OnErr result (vec_capacity log.old < vec_len log.old + more) }
    ensures err { OnErr result (vec_capacity log.new ≡ vec_capacity log.old) }
{
    let (have, needed) = (log.capacity(), log.len() + more);
    if needed <= have {
        return Ok(());
    }
    let places = (2 * have).max((needed + (ROW - 1)) / ROW * ROW);
    log.reserve_exact(places - log.len())?;
    Ok(())
}
