//! The operations of a RUN, with their inputs by name.

use crate::Name;

/// One pass of flat morphology.
#[derive(Clone, Copy, PartialEq, Eq, Debug)]
pub enum FlatOp {
    /// Image, element.
    Erode(Name, Name),
    Dilate(Name, Name),
    Opening(Name, Name),
    Closing(Name, Name),
    Gradient(Name, Name),
    WhiteTopHat(Name, Name),
    BlackTopHat(Name, Name),
    /// Image, element, and the number of the sample in rising order.
    Rank(Name, Name, u32),
    /// Image and level.
    Threshold(Name, u32),
    /// Image, the element that hits and the one that misses.
    HitMiss(Name, Name, Name),
}

/// Iterated operators.
#[derive(Clone, Copy, PartialEq, Eq, Debug)]
pub enum GranOp {
    /// Set, element, and the greatest number of erosions.
    Skeleton(Name, Name, u32),
    /// Marked image, element, and the greatest number of dilations.
    Restore(Name, Name, u32),
    /// Image, element, and the greatest number of erosions.
    Spectrum(Name, Name, u32),
}

/// What a RUN computes.
#[derive(Clone, Copy, PartialEq, Eq, Debug)]
pub enum Op {
    Flat(FlatOp),
    Gran(GranOp),
}
