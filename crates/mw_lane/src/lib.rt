//! Kernels over whole rows of samples: the extremum of two rows, their difference, and the set of the samples from a level
//! on.
//!
//! Each does its work 64 samples at a time, by vector code for bytes and 16-bit samples, and one at a time for the rest
//! of a row. Its contract is that of one at a time, so a caller never sees which samples went through vectors.
//!
//! ```text
//! combine_rows::<u8, Min>(&mut nearest, &other);  // nearest[i] = min(nearest[i], other[i])
//! subtract_rows(&mut dilated, &eroded);           // dilated[i] = max(0, dilated[i] - eroded[i])
//! threshold_row(&levels, 128, &mut set);          // set[i] = (levels[i] >= 128)
//! ```
#![tactic(auto)]

mod ahead;
mod combine;
mod lanes;
mod lanes_16;
mod lanes_8;
mod lanes_bit;
mod level_blocks;
mod level_blocks_16;
mod level_blocks_8;
mod shifted;
mod subtract;
mod threshold;

pub use ahead::combine_ahead;
pub use combine::combine_rows;
pub use lanes::Lanes;
pub use level_blocks::LevelBlocks;
pub use mw_pixel::equal_rows;
pub use shifted::combine_shifted;
pub use subtract::subtract_rows;
pub use threshold::threshold_row;
