//! What is made at each place of an image.

use mw_element::Element;
use mw_model::OffsetBox;
use std::sync::Arc;

/// What is made of the samples around a place.
#[derive(Clone, Copy)]
pub enum Rule<'a> {
    /// The least under the element.
    Least(&'a Arc<Element>),
    /// The greatest under the element.
    Greatest(&'a Arc<Element>),
    /// The least under a full rectangle.
    LeastBox(OffsetBox),
    /// The greatest under a full rectangle.
    GreatestBox(OffsetBox),
    /// Of those under the element in rising order, the one of this number, counted from 1.
    Nth(&'a Arc<Element>, u32),
    /// 1 where the level is this or more, else 0.
    AtLeast(u32),
}
