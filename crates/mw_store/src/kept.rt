//! Values as the store keeps them, and entries as they are handed to it.

use mw_gran::Curve;
use mw_model::Submission;
use mw_tile_planes::WholePlane;
use mw_tile_planes::element::Element;
use mw_tile_planes::pixel::Image;
use std::sync::Arc;

/// A value that is kept under a ticket. Others can own the plane of an image, each of the tiles, and the element.
#[derive(Drop)]
pub enum StoredValue {
    Image(Image),
    /// An image as the tiles that it was made of.
    Tiles(WholePlane),
    Element(Arc<Element>),
    Curve(Curve),
}

/// What is added under a new name.
#[derive(Drop)]
pub enum Entry {
    /// The payload of a LOAD, which is done at once.
    Image(Image),
    /// The payload of an ELEMENT, which is done at once.
    Element(Element),
    /// An accepted RUN, which is pending.
    Run(Submission),
}
