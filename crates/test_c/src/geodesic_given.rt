//! Both ways of hanging together, and what is given to them.

use mw_geodesic_labels::Neighbours;
use mw_model::NoMemory;
use mw_reference::ReferenceImage;
use std::process::Abort;
use std::test::Fail;

/// The image that was made.
pub(crate) fn made(rt: &impl Abort, image: Result<ReferenceImage, Fail>) -> ReferenceImage {
    match image {
        Ok(image) => image,
        Err(_fault) => panic!(rt; "an image"),
    }
}

pub(crate) const WAYS: [Neighbours; 2] = [Neighbours::Four, Neighbours::Eight];

/// Stops where memory was wanting.
pub(crate) fn is_made<T: Drop>(rt: &impl Abort, made: Result<T, NoMemory>) {
    assert!(rt; made.is_ok());
}
