//! What the rows of a rectangle's passes hold.

/// At each place the extremum of `across` by `down` places of the window from one on, which for the first place stands in this
/// column and row; there are `width` places in each of `height` rows.
#[derive(Clone, Copy)]
pub(crate) struct Slide {
    pub(crate) column: i64,
    pub(crate) row: i64,
    pub(crate) across: usize,
    pub(crate) down: usize,
    pub(crate) width: usize,
    pub(crate) height: usize,
}
