//! The samples or the number that a task makes.

use mw_element::pixel::{Bit, Plane};
use std::sync::Arc;

/// The plane of a tile, which others can own too, and beside it the maxval; or the sum of the samples of a tile.
#[derive(Drop)]
pub enum TileResult {
    Bits(Arc<Plane<Bit>>),
    Grey8(Arc<Plane<u8>>, u8),
    Grey16(Arc<Plane<u16>>, u16),
    Number(u64),
}
