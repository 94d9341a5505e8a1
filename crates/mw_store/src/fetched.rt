//! What a FETCH is answered.

use crate::plates::Plate;
use mw_gran::Curve;
use mw_model::Reply;

/// What a FETCH hands out: a share of an image, or a copy of a curve.
#[derive(Drop)]
pub enum FetchedValue {
    Nothing,
    Image(Plate),
    Curve(Curve),
}

/// The answer to a FETCH.
#[derive(Drop)]
pub struct Fetched {
    pub reply: Reply,
    pub value: FetchedValue,
}
