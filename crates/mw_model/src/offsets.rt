//! Places of a frame, in pixels: x grows to the right and y downwards.

/// Where a pixel of a structuring element lies, seen from the origin.
#[derive(Clone, Copy, PartialEq, Eq, Debug)]
pub struct Offset {
    pub dx: i16,
    pub dy: i16,
}

/// All offsets of a full rectangle, both ends included.
#[derive(Clone, Copy, PartialEq, Eq, Debug)]
pub struct OffsetBox {
    pub x0: i32,
    pub x1: i32,
    pub y0: i32,
    pub y1: i32,
}

/// The greatest distance to which a step looks on each side.
#[derive(Clone, Copy, PartialEq, Eq, Debug)]
pub struct Reach {
    pub left: u32,
    pub right: u32,
    pub up: u32,
    pub down: u32,
}

/// A rectangle of a frame, by its upper left pixel and its sides.
#[derive(Clone, Copy, PartialEq, Eq, Debug)]
pub struct Rect {
    pub x: u32,
    pub y: u32,
    pub width: u32,
    pub height: u32,
}
