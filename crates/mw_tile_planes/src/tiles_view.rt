//! The tiles of a whole plane, whatever its samples are.

use mw_step_task::pixel::Bit;
use mw_tile_slots::TiledRows;

/// The tiles of a whole plane, to be looked at; beside them the maxval.
#[derive(Drop)]
pub enum TilesView<'a> {
    Bits(TiledRows<'a, Bit>),
    Grey8(TiledRows<'a, u8>, u8),
    Grey16(TiledRows<'a, u16>, u16),
}
