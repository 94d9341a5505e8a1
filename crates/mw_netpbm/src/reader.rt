//! Reading a whole file: its header says which raster is to follow, and the raster decides.

ghost use Rattle.std.specs.Prelude.{◌≡◌, ℕ, ◌≤◌, ◌<◌, ◌*◌, ◌-◌, List, length, drop, ◌≢◌, IfOk, IfErr, Ok, Err, true, nat_lt, MatchResult};
ghost use Rattle.mw_netpbm_plain.specs.Reading.{result_viewed, Gives};
ghost use Rattle.mw_netpbm_plain.specs.Heading.{head_at, limits};
ghost use Rattle.mw_netpbm_plain.specs.Whole.{IsFit};
ghost use Rattle.mw_netpbm.specs.Whole.{grey_from, image_at, reading};
ghost use Rattle.mw_netpbm_plain.specs.Faults.{code_of};
ghost use Rattle.mw_model.specs.NetpbmGrammar.{IsFile};
ghost use Rattle.mw_model.specs.NetpbmRefusals.{Refuses};
ghost use Rattle.mw_model.specs.Pictures.{Picture, IsImage};
ghost use Rattle.mw_model.specs.declared.limits.TheConstants.{LEVEL_LIMIT, PIXEL_LIMIT, SIDE_LIMIT};
ghost use Rattle.mw_netpbm_plain.specs.mw_pixel.Images.{set_of};
ghost use Rattle.mw_model.specs.declared.formats.Format.TheVariants as Format;

use crate::raw;
use mw_model::{Format, Header};
use mw_netpbm_plain::pixel::{Image, Plane, Words};
use mw_netpbm_plain::{Places, ReadFault, check_limits, read_head, samples, set};
use std::alloc::Global;
use std::sync::Arc;

/// The image of the set that was found.
#[tactic(auto, using(crate::proofs::Made::Fails_from))]
fn set_image(alloc: Global, found: Result<Words, ReadFault>) -> Result<Image, ReadFault>
    ensures { Gives (λ i. i) result (result_viewed set_of found) }
{
    let plane = Plane::of_words(found?);
    // for its samples
    let _words = plane.words();
    Ok(Image::bits(Arc::new(alloc, plane)?))
}

/// The picture of these samples, of one byte each.
#[tactic(auto, using(crate::proofs::Made::Fails_from))]
fn grey8_image(
    alloc: Global,
    width: u32,
    height: u32,
    maxval: u8,
    found: Result<Vec<u8>, ReadFault>,
) -> Result<Image, ReadFault>
    requires some { 1 ≤ maxval }
    requires fit { IfOk found (λ v. IsFit (height * width) maxval v.items) }
    ensures { Gives (λ i. i) result (grey_from width height maxval (result_viewed (λ v. v.items) found)) }
{
    let plane = Plane::new(width, height, found?);
    Ok(Image::grey8(Arc::new(alloc, plane)?, maxval))
}

/// The picture of these samples, of two bytes each.
#[tactic(auto, using(crate::proofs::Made::Fails_from))]
fn grey16_image(
    alloc: Global,
    width: u32,
    height: u32,
    maxval: u16,
    found: Result<Vec<u16>, ReadFault>,
) -> Result<Image, ReadFault>
    requires deep { 256 ≤ maxval }
    requires fit { IfOk found (λ v. IsFit (height * width) maxval v.items) }
    ensures { Gives (λ i. i) result (grey_from width height maxval (result_viewed (λ v. v.items) found)) }
{
    let plane = Plane::new(width, height, found?);
    Ok(Image::grey16(Arc::new(alloc, plane)?, maxval))
}

/// The image in the raster under a header.
#[tactic(auto, unfolding(crate::specs::Whole::raster_as))]
fn raster(alloc: Global, head: &Header, raster: &[u8]) -> Result<Image, ReadFault>
    requires width { head.now.width ≤ SIDE_LIMIT }
    requires height { head.now.height ≤ SIDE_LIMIT }
    requires area { head.now.height * head.now.width ≤ PIXEL_LIMIT }
    requires some { 1 ≤ head.now.maxval }
    requires maxval { head.now.maxval ≤ LEVEL_LIMIT }
    ensures { Gives (λ i. i) result (image_at head.now raster.now) }
{
    let width = head.width as u32;
    let height = head.height as u32;
    let maxval = head.maxval as u16;
    let count = height as usize * width as usize;
    match head.format {
        Format::PlainBits => {
            let found = set(alloc, width, height, raster);
            set_image(alloc, found)
        }
        Format::RawBits => {
            let found = raw::bits(alloc, width, height, raster);
            set_image(alloc, found)
        }
        Format::PlainGrey if maxval < 256 => {
            let found = samples(alloc, Places::Samples(maxval), count, raster);
            grey8_image(alloc, width, height, maxval as u8, found)
        }
        Format::PlainGrey => {
            let found = samples(alloc, Places::Samples(maxval), count, raster);
            grey16_image(alloc, width, height, maxval, found)
        }
        Format::RawGrey if maxval < 256 => {
            let found = raw::grey8(alloc, count, maxval as u8, raster);
            grey8_image(alloc, width, height, maxval as u8, found)
        }
        Format::RawGrey => {
            let found = raw::grey16(alloc, count, maxval, raster);
            grey16_image(alloc, width, height, maxval, found)
        }
    }
}

/// The header, within the limits, and the raster.
#[tactic(auto, unfolding(crate::specs::Whole::reading))]
fn opened(bytes: &[u8]) -> Result<(Header, &[u8]), ReadFault>
    ensures fault { IfErr result (λ e. reading bytes.now ≡ Err e) }
    ensures found { IfOk result (λ x. reading bytes.now ≡ image_at x.0 x.1.now) }
    ensures shorter { IfOk result (λ x. length x.1.now ≤ length bytes.now) }
    ensures last { IfOk result (λ x. x.1.now ≡ drop (length bytes.now - length x.1.now) bytes.now) }
    ensures width { IfOk result (λ x. x.0.width ≤ SIDE_LIMIT) }
    ensures height { IfOk result (λ x. x.0.height ≤ SIDE_LIMIT) }
    ensures area { IfOk result (λ x. x.0.height * x.0.width ≤ PIXEL_LIMIT) }
    ensures some { IfOk result (λ x. 1 ≤ x.0.maxval) }
    ensures maxval { IfOk result (λ x. x.0.maxval ≤ LEVEL_LIMIT) }
{
    let (head, rest) = read_head(bytes)?;
    check_limits(&head)?;
    Ok((head, rest))
}

/// The image that the bytes hold.
#[tactic(auto, using(crate::proofs::Made::Fails_from))]
fn whole(alloc: Global, bytes: &[u8]) -> Result<Image, ReadFault>
    ensures { Gives (λ i. i) result (reading bytes.now) }
{
    let (head, rest) = opened(bytes)?;
    raster(alloc, &head, rest)
}

/// The picture in the raster that begins there, in the vector of the file. What stands before it is no longer than it is,
/// so that no long comment stays in memory with a small picture.
fn owned_raster(
    alloc: Global,
    head: &Header,
    start: usize,
    file: Vec<u8>,
) -> Result<Image, ReadFault>
    requires format { head.now.format ≡ Format.RawGrey }
    requires width { head.now.width ≤ SIDE_LIMIT }
    requires height { head.now.height ≤ SIDE_LIMIT }
    requires some { 1 ≤ head.now.maxval }
    requires maxval { head.now.maxval < 256 }
    requires short { 2 * start ≤ length file.items }
    ensures { Gives (λ i. i) result (image_at head.now (drop start file.items)) }
{
    let width = head.width as u32;
    let height = head.height as u32;
    let maxval = head.maxval as u8;
    let count = height as usize * width as usize;
    let found = raw::owned_grey8(count, maxval, start, file);
    grey8_image(alloc, width, height, maxval, found)
}

/// The image that the bytes hold. Samples of one byte stay in their vector, unless a header longer than they are would
/// lie idle behind them.
#[tactic(auto, using(crate::proofs::Made::Fails_from))]
fn whole_owned(alloc: Global, bytes: Vec<u8>) -> Result<Image, ReadFault>
    ensures { Gives (λ i. i) result (reading bytes.items) }
{
    let (head, rest) = opened(&bytes)?;
    let start = bytes.len() - rest.len();
    match head.format {
        Format::RawGrey if head.maxval < 256 && start <= rest.len() => {
            owned_raster(alloc, &head, start, bytes)
        }
        _ => raster(alloc, &head, rest),
    }
}

/// The image that the bytes are a file of (pbm(5), pgm(5)), or the first case by which they are none. `NoMemory` comes
/// only where there is no such case.
pub fn read(alloc: Global, bytes: &[u8]) -> Result<Image, ReadFault>
    // What is read is what the file shows.
    ensures found { IfOk result (λ i. IsFile bytes.now i) }
    ensures writable { IfOk result (λ i. IsImage i) }
    // A file is read, unless memory runs out.
    ensures only { (i : Picture) → IsFile bytes.now i → MatchResult result (λ j. j ≡ i) (λ e. e ≡ ReadFault.NoMemory) }
    // Any other fault is the first case that holds of the bytes.
    ensures refused { IfErr result (λ e. e ≢ ReadFault.NoMemory → Refuses bytes.now (code_of e)) }
    // Memory is wanting only where the bytes are a file.
    ensures memory { result ≡ Err ReadFault.NoMemory → (i : Picture) × IsFile bytes.now i }
{
    whole(alloc, bytes)
}

/// What `read` gives, of bytes that are handed over: samples of one byte stay where they are, and take no memory of their own.
pub fn read_owned(alloc: Global, bytes: Vec<u8>) -> Result<Image, ReadFault>
    ensures found { IfOk result (λ i. IsFile bytes.items i) }
    ensures writable { IfOk result (λ i. IsImage i) }
    ensures only { (i : Picture) → IsFile bytes.items i → MatchResult result (λ j. j ≡ i) (λ e. e ≡ ReadFault.NoMemory) }
    ensures refused { IfErr result (λ e. e ≢ ReadFault.NoMemory → Refuses bytes.items (code_of e)) }
    ensures memory { result ≡ Err ReadFault.NoMemory → (i : Picture) × IsFile bytes.items i }
{
    whole_owned(alloc, bytes)
}
