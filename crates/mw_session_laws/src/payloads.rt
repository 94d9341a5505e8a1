//! Reading payloads.

ghost use Rattle.std.specs.Result.{ForOk};
ghost use Rattle.mw_model.specs.Pictures.{IsImage};
ghost use Rattle.mw_session_laws.specs.Payloads.{ReadsImage, ReadsElement};

use mw_element::Element;
use mw_element::pixel::Image;
use mw_model::Code;
use std::alloc::Global;

/// The image that a payload is a file of, or why it is none. Samples of one byte stay where they are.
pub fn read_image(alloc: Global, bytes: Vec<u8>) -> Result<Image, Code>
    ensures read { ReadsImage bytes.items result }
    ensures image { ForOk result IsImage }
{
    match mw_netpbm::read_owned(alloc, bytes) {
        Ok(image) => Ok(image),
        Err(fault) => Err(fault.code()),
    }
}

/// The element that a payload is with its origin in this column and row of the bitmap, or why it is none.
pub fn read_element(alloc: Global, bytes: &[u8], ox: u32, oy: u32) -> Result<Element, Code>
    ensures { ReadsElement bytes.now ox oy result }
{
    match Element::parse(alloc, bytes, ox, oy) {
        Ok(element) => Ok(element),
        Err(fault) => Err(fault.code()),
    }
}
