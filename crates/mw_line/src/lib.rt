//! Sliding extrema: along a line, with a count of its combines, and over rectangles on a window.
//!
//! Both give the extremum of the neutral sample and the samples that exist, for every length, origin and direction. Lines
//! go by forward and backward passes over blocks (van Herk 1992, Gil and Werman 1993), in at most 3n + k combines, of which
//! each is counted; rectangles go by doubling with shifted rows, by vector code, and columns grow as their rows are made.
//!
//! ```text
//! line::<u8, Min>(alloc, &row, -7, 7, maxval, &mut out, &mut steps)?;   // out[i] = min of row[i - 7 ..= i + 7]
//! let eroded = rectangle::<u8, Min>(alloc, &window, offsets, maxval, tile)?;
//! let dilated = rectangle::<u8, Max>(alloc, &window, offsets, 0, tile)?;
//! ```
#![tactic(auto)]

mod columns;
mod doubling;
mod in_cache;
mod laws;
mod padding;
mod pairs;
mod passes;
mod rectangles;
mod sides;
mod slides;
mod sliding;
mod spreading;
mod steps;
mod window_rows;

pub use doubling::slide_by;
pub use laws::{
    sliding_maximum_is_dilation, sliding_minimum_is_erosion, windows_of_a_row_are_operators,
};
pub use mw_model::NoMemory;
pub use rectangles::rectangle;
pub use sides::{SeenSide, first_seen, seen_across, seen_down};
pub use sliding::line;
pub use spreading::{SpreadRows, spread};
pub use steps::Steps;
pub use window_rows::combine_window_row;

// What lower crates offer, for the crates above.
pub mod lane {
    pub use mw_lane::{Lanes, LevelBlocks, combine_ahead, combine_rows, subtract_rows};
}

pub mod pixel {
    pub use mw_tile::pixel::{Bit, Extremum, Grey, Max, Min, Pixel, Plane, copies};
}

pub mod tile {
    pub use mw_tile::Window;
}

pub mod words {
    pub use mw_tile::words::{Words, funnel, repeated, stride, trimmed};
}
