//! Places for one more entry: they are made for rows of 16 at least, so that memory is asked for only where rows are full.

ghost use Rattle.std.specs.Prelude.{◌≡◌, ◌≤◌, ◌<◌, ◌+◌, length, vec_len, vec_capacity, OnOk, OnErr};
ghost use Rattle.indexmap.specs.IndexSet.{spare};
ghost use Rattle.mw_store.specs.RowRoom.{FillsRows, HasRow};

use indexmap::IndexSet;
use mw_model::{Name, NoMemory};

const ROW: usize = 16;

/// Makes places in a column to the end of the row that one more entry begins or goes on with.
pub fn reserve_row<T>(column: &mut Vec<T>) -> Result<(), NoMemory>
    ensures items { column.new.items ≡ column.old.items }
    ensures len { vec_len column.new ≡ vec_len column.old }
    ensures capacity { vec_capacity column.old ≤ vec_capacity column.new }
    ensures row { OnOk result (HasRow (vec_len column.old + 1) (vec_capacity column.new)) }
    ensures place { OnOk result (vec_len column.new < vec_capacity column.new) }
    ensures memory { OnErr result (HasRow (vec_len column.old) (vec_capacity column.old) → FillsRows (vec_len column.old)) }
{
    column.reserve(ROW - column.len() % ROW)?;
    Ok(())
}

/// Makes places for the names to the end of the row that one more begins or goes on with.
pub(crate) fn reserve_name(names: &mut IndexSet<Name>) -> Result<(), NoMemory>
    ensures keys { names.new.keys ≡ names.old.keys }
    ensures spare { spare names.old ≤ spare names.new }
    ensures row { OnOk result (HasRow (length names.old.keys + 1) (length names.old.keys + spare names.new)) }
    ensures place { OnOk result (0 < spare names.new) }
    ensures memory { OnErr result (HasRow (length names.old.keys) (length names.old.keys + spare names.old) → FillsRows (length names.old.keys)) }
{
    names.reserve(ROW - names.len() % ROW)?;
    Ok(())
}
