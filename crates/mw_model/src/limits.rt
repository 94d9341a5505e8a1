//! The limits of what a session takes, each with its name. Code compares with them; definitions and contracts cite the same
//! constants, from `specs.declared.limits.TheConstants`.

/// The most entries of a session.
pub const ENTRY_LIMIT: usize = 65_536;

/// The most columns or rows of an image.
pub const SIDE_LIMIT: u32 = 8192;

/// The most pixels of an image.
pub const PIXEL_LIMIT: u32 = 16_777_216;

/// The greatest maxval of an image, and the greatest level of a threshold: what two bytes hold.
pub const LEVEL_LIMIT: u32 = 65_535;

/// The most columns or rows of an element's bitmap.
pub const ELEMENT_SIDE_LIMIT: u32 = 255;

/// The most offsets of an element: as many as its bitmap has places.
pub const OFFSET_LIMIT: usize = 65_025;

/// The most turns of a skeleton or of a restoration.
pub const TURN_LIMIT: u32 = 254;

/// The most sizes of a spectrum.
pub const SIZE_LIMIT: u32 = 32;

/// The most steps of a plan.
pub const STEP_LIMIT: usize = 896;

/// The most tasks under one ticket: each step of a plan for each tile of a frame.
pub const TASK_LIMIT: usize = 4_194_304;

/// The most times that a session reads.
pub const READ_LIMIT: u64 = 4_294_967_295;

/// The least side of a tile in pixels, of which each other is a multiple: the pixels of a word.
pub const TILE_SIDE_UNIT: u32 = 64;

/// The greatest side of a tile in pixels.
pub const TILE_SIDE_LIMIT: u32 = 1024;

/// The farthest column or row that a kernel is asked for: with the offset of an element it stays far below what 64 bits
/// hold.
pub const FAR_LIMIT: u64 = 1 << 40;
