//! What the header of a Netpbm file says.

/// The kinds of Netpbm files that are read.
#[derive(Clone, Copy, PartialEq, Eq, Debug)]
pub enum Format {
    /// P1: a set, a character for each pixel.
    PlainBits,
    /// P2: levels of grey, a number for each sample.
    PlainGrey,
    /// P4: a set, eight pixels to a byte.
    RawBits,
    /// P5: levels of grey, one or two bytes for each sample.
    RawGrey,
}

/// A header. The numbers have any size; the maxval of a set is 1.
#[derive(Clone, Copy, PartialEq, Eq, Debug)]
pub struct Header {
    pub format: Format,
    pub width: u64,
    pub height: u64,
    pub maxval: u64,
}
