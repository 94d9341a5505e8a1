//! Frames of places.

/// The sides of a set, and how many columns further than above and below a place reaches in the next row.
#[derive(Clone, Copy, Debug)]
pub(crate) struct Frame {
    pub width: u32,
    pub height: u32,
    pub reach: u32,
}
