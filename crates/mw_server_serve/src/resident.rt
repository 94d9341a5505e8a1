//! How much memory the process has, as the system tells it. The file that tells is opened once and shared by reference, since
//! each look at its beginning has the system write it anew.

use std::fs::File;
use std::os::unix::fs::FileExt;
use std::rt::Files;

/// What stands in it are numbers of pages; the second one is of those that are resident.
const PATH: &str = "/proc/self/statm";

/// How many bytes a page has.
const PAGE: u64 = 4096;

/// The file, where the system has it and a descriptor is left for it.
pub(crate) fn open_sizes<R: Files<File = File>>(rt: &R) -> Option<File> {
    File::open(rt, PATH).ok()
}

/// The second number of a text, at its end or before a space.
fn second_number(text: &[u8]) -> u64 {
    let mut is_second = false;
    let mut number = 0u64;
    for &byte in text {
        if byte.is_ascii_digit() {
            number = number
                .saturating_mul(10)
                .saturating_add(u64::from(byte) % 16);
        } else {
            if is_second {
                return number;
            }
            is_second = true;
            number = 0;
        }
    }
    number
}

/// How many bytes of memory are resident. None where the system does not tell.
pub(crate) fn resident(sizes: &File) -> Option<u64> {
    let mut text = [0u8; 128];
    match sizes.read_at(&mut text, 0) {
        Ok(count) if count > 0 => Some(second_number(&text[..count]).saturating_mul(PAGE)),
        _ => None,
    }
}
