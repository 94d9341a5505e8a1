//! The ledger: its parts, what holds of it, and what it shows.

ghost use Rattle.std.specs.Prelude.{◌≡◌, ◌+◌, ◌<◌, ◌≤◌, length, IfOk, Some};

use crate::compact::Compact;
use mw_core_tasks::{PlanProgress, Store};
use mw_model::{LogItem, NoMemory};
use std::alloc::Global;
use std::marker::Model;

/// The entries, the work under each pending one, and the log of what was accepted and of how it ended.
#[derive(Drop)]
pub struct Ledger {
    pub(crate) store: Store,
    pub(crate) in_progress: Vec<Option<PlanProgress>>,
    pub(crate) log: Vec<Compact>,
    pub(crate) side: u32,
    pub(crate) alloc: Global,
}

impl Model for Ledger {
    ghost use Rattle.std.specs.Prelude.{◌≡◌, ◌+◌, ◌%◌, ◌≤◌, count_by, vec_len, vec_capacity};
    ghost use Rattle.mw_model.specs.Refusals.{is_pending};
    ghost use Rattle.mw_core_tasks.specs.mw_store.RowRoom.{HasRow};
    ghost use Rattle.mw_core_ledger.specs.Books.{Book, IsOrderly, room_in};

    ghost Value = { Book };

    ghost view = { λ l. record {
      table = l.store.table;
      kept = l.store.kept;
      in_progress = l.in_progress.items;
      log = l.log.items;
      side = l.side;
      room = room_in (vec_capacity l.log) (vec_len l.log) l.store.table.outcomes;
    } };

    // Each pending entry has a place in the log for its end, and places are made by rows.
    ghost invariant = { λ l. ((vec_len l.log + count_by is_pending l.store.table.outcomes ≤ vec_capacity l.log)
        × (vec_capacity l.log % 16 ≡ 0)
        × HasRow (vec_len l.in_progress) (vec_capacity l.in_progress))
        × IsOrderly (record {
          table = l.store.table;
          kept = l.store.kept;
          in_progress = l.in_progress.items;
          log = l.log.items;
          side = l.side;
          room = room_in (vec_capacity l.log) (vec_len l.log) l.store.table.outcomes;
        }) };
}

impl Ledger {
    ghost use Rattle.std.specs.Prelude.{slice_get};
    ghost use Rattle.mw_core_ledger.specs.Books.{IsOrderly, empty_book, stored_in};

    /// A ledger without entries. The side is that of the tiles, in pixels; where tiles may not have it, those of each command have
    /// one that suits it.
    pub fn new(alloc: Global, side: u32) -> Result<Ledger, NoMemory>
        ensures { IfOk result (λ l. l ≡ empty_book side) }
    {
        Ok(Ledger {
            store: Store::new(alloc)?,
            in_progress: Vec::with_capacity(alloc, 16)?,
            log: Vec::with_capacity(alloc, 16)?,
            side,
            alloc,
        })
    }

    /// What holds of every ledger.
    pub fn sound(&self)
        ensures { IsOrderly self.now }
    {
        let _side = self.side;
    }

    /// The entries and what is kept of them.
    pub fn store(&self) -> &Store
        ensures { result.now ≡ stored_in self.now }
    {
        &self.store
    }

    /// The side of tiles that it was made with, in pixels.
    pub fn side(&self) -> u32
        ensures { result ≡ self.now.side }
    {
        self.side
    }

    /// How many items the log has.
    pub fn log_len(&self) -> usize
        ensures { result ≡ length self.now.log }
    {
        self.log.len()
    }

    /// An item of the log.
    pub fn log_at(&self, i: usize) -> LogItem
        requires { i < length self.now.log }
        ensures { slice_get self.now.log i ≡ Some result }
    {
        self.log[i].item()
    }
}
