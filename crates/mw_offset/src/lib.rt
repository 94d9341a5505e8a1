//! Extrema over any list of offsets, on a window: erosions and dilations by elements of any shape.
//!
//! ```text
//! let eroded = extremum::<u8, Min>(alloc, &window, element.offsets(), maxval, tile)?;
//! let dilated = extremum::<u8, Max>(alloc, &window, element.offsets(), 0, tile)?;
//! ```
#![tactic(auto)]

mod by_runs;
mod merging;
mod narrow;
mod offsets;
mod sizes;
mod strips;

pub use mw_model::NoMemory;
pub use offsets::{extremum, extremum_of_runs};

// What lower crates offer, for the crates above.
pub mod lane {
    pub use mw_line::lane::{Lanes, LevelBlocks, combine_rows, subtract_rows};
}

pub mod line {
    pub use mw_line::{first_seen, rectangle, seen_across, seen_down};
}

pub mod pixel {
    pub use mw_line::pixel::{Bit, Grey, Pixel, Plane, copies};
}

pub mod run {
    pub use mw_element_runs::{
        Extent, Run, Sizes, columns_after, counts_of, extent_of, first_column, first_row, place_of,
        rows_after, runs_either_way, start_of_run,
    };
}

pub mod tile {
    pub use mw_line::tile::Window;
}

pub mod words {
    pub use mw_line::words::{Words, repeated, stride, trimmed};
}
