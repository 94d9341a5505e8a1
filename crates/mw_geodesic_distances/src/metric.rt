//! How far a place is from another.

/// Steps to the four neighbours, steps to the eight, or the square of the straight way.
#[derive(Clone, Copy, PartialEq, Eq, Debug)]
pub enum Metric {
    CityBlock,
    Chessboard,
    SquaredEuclid,
}
