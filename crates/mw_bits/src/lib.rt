//! Kernels on sets as words of 64 pixels: windows of sets counted, put together and made of levels of grey, and their extrema
//! over any list of offsets and over boxes.
//!
//! ```text
//! let eroded = extremum::<Min>(alloc, &window, element.offsets(), tile)?;
//! let opened = rectangle::<Max>(alloc, &Window::whole(eroded), offsets, tile)?;
//! let rest = minus(alloc, &window, &Window::whole(opened))?;
//! let volume = count(&window);
//! ```
#![tactic(auto)]

mod boxes;
mod by_runs;
mod compared;
mod counting;
mod held;
mod kernel;
mod levels;
mod pairs;
mod sizes;
mod spread;
mod uniform;
mod unpacked;
mod window_rows;

pub use boxes::rectangle;
pub use by_runs::is_near;
pub use compared::{level_set, threshold};
pub use counting::count;
pub use held::row_of;
pub use kernel::{extremum, extremum_of_runs};
pub use levels::{at_least, equal};
pub use mw_bits_rows::WordExtremum;
pub use mw_model::NoMemory;
pub use pairs::{invert, is_within, join, meet, minus};
pub use uniform::is_blank;
pub use unpacked::as_levels;

// What lower crates offer, for the crates above.
pub mod lane {
    pub use mw_offset::lane::{Lanes, LevelBlocks, combine_rows, subtract_rows};
}

pub mod line {
    pub use mw_offset::line::rectangle;
}

pub mod offset {
    pub use mw_offset::extremum_of_runs;
}

pub mod pixel {
    pub use mw_bits_rows::pixel::{Max, Min};
    pub use mw_offset::pixel::{Bit, Plane};
}

pub mod run {
    pub use mw_offset::run::{
        Extent, Run, columns_after, extent_of, first_column, first_row, rows_after, start_of_run,
    };
}

pub mod spreading {
    pub use crate::spread::spread;
}

pub mod tile {
    pub use mw_offset::tile::Window;
}

pub mod word_rows {
    pub use mw_bits_rows::{Both, flip_words, merge_words};
}

pub mod words {
    pub use mw_offset::words::{Words, repeated, stride, trimmed};
}
