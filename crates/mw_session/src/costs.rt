//! At most how many bytes the reading of a payload takes, reckoned before it is read.

use mw_core_waves::values::Image;
use mw_model::{Code, Kind};

/// An entry in the columns of the core, and what is small beside it.
const ENTRY: u64 = 4096;

/// The most pixels of an element's bitmap.
const PIXELS: u64 = 65_025;

/// What words take beyond the bytes of a raster, where rows end within them.
const ROW_ENDS: u64 = 1 << 16;

/// The maxval of a raw file in levels of grey; 65535 where the first bytes do not tell.
fn raw_maxval(payload: &[u8]) -> u32 {
    let mut fields = 0u32;
    let mut number = 0u32;
    let mut is_in_number = false;
    for &byte in payload.iter().skip(2).take(64) {
        if byte.is_ascii_digit() {
            number = number
                .saturating_mul(10)
                .saturating_add(u32::from(byte) % 16);
            is_in_number = true;
        } else {
            if byte == b'#' {
                return 65535;
            }
            if is_in_number {
                fields = fields.saturating_add(1);
                if fields == 3 {
                    return number;
                }
            }
            number = 0;
            is_in_number = false;
        }
    }
    65535
}

/// Whether a payload is a raw file in levels of grey.
pub(crate) fn is_raw(payload: &[u8]) -> bool {
    matches!(payload, [b'P', b'5', ..])
}

/// What a LOAD of this payload, which has so many places, keeps; and what it takes for a while. Samples of one byte of a raw file stay
/// where they are.
pub(crate) fn of_load(payload: &[u8], places: usize) -> (u64, u64) {
    let places = places as u64;
    let image = (payload.len() as u64).saturating_add(ROW_ENDS);
    if is_raw(payload) && raw_maxval(payload) <= 255 {
        (places.saturating_add(ENTRY), places)
    } else {
        (image.saturating_add(ENTRY), places.saturating_add(image))
    }
}

/// What the places of a payload of so many bytes take beyond the image that was read of it, if one was. Samples of one byte of a raw file
/// stay in them, where no more stands before the samples than there are of them.
pub(crate) fn beside_image(image: &Result<Image, Code>, is_raw: bool, bytes: usize) -> u64 {
    let Ok(image) = image else {
        return 0;
    };
    let plane = u64::from(image.width()).saturating_mul(u64::from(image.height()));
    let is_byte = image.kind() == Kind::Grey && image.maxval() <= 255;
    if is_raw && is_byte && bytes as u64 <= plane.saturating_mul(2) {
        (bytes as u64).saturating_sub(plane)
    } else {
        0
    }
}

/// An ELEMENT of a payload of so many bytes.
pub(crate) fn of_element(bytes: usize) -> u64 {
    let pixels = (bytes as u64).min(PIXELS);
    (bytes as u64)
        .saturating_add(pixels.saturating_mul(24))
        .saturating_add(ENTRY)
}
