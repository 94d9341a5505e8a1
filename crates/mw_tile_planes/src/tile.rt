//! The samples of one tile.

use mw_step_task::pixel::{Bit, Plane};
use std::sync::Arc;

/// The plane of a tile, of whom others can be owners too; beside it the maxval.
#[derive(Drop)]
pub enum Tile {
    Bits(Arc<Plane<Bit>>),
    Grey8(Arc<Plane<u8>>, u8),
    Grey16(Arc<Plane<u16>>, u16),
}
