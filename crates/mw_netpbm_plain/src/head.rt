//! The header.

ghost use Rattle.std.specs.Prelude.{◌≡◌, ◌≤◌, ◌*◌, IfOk, OnOk};
ghost use Rattle.mw_netpbm_plain.specs.Heading.{magic_at, maxval_at, white_at, head_at, limits, side_limits};
ghost use Rattle.mw_netpbm_plain.specs.Whole.{bitmap_head_at, plain_only};
ghost use Rattle.mw_netpbm_plain.specs.Reading.{result_viewed};

use crate::fault::ReadFault;
use crate::words::{field, is_white};
use mw_model::{Format, Header, LEVEL_LIMIT, PIXEL_LIMIT, SIDE_LIMIT};

#[tactic(auto, unfolding(crate::specs::Heading::magic_at))]
fn magic(bytes: &[u8]) -> Result<(Format, &[u8]), ReadFault>
    ensures { result_viewed (λ x. (x.0, x.1.now)) result ≡ magic_at bytes.now }
{
    match bytes {
        [b'P', b'1', rest @ ..] => Ok((Format::PlainBits, rest)),
        [b'P', b'2', rest @ ..] => Ok((Format::PlainGrey, rest)),
        [b'P', b'4', rest @ ..] => Ok((Format::RawBits, rest)),
        [b'P', b'5', rest @ ..] => Ok((Format::RawGrey, rest)),
        _ => Err(ReadFault::Magic),
    }
}

#[tactic(auto, unfolding(crate::specs::Heading::maxval_at))]
fn maxval(format: Format, bytes: &[u8]) -> Result<(u64, &[u8]), ReadFault>
    ensures { result_viewed (λ x. (x.0, x.1.now)) result ≡ maxval_at format bytes.now }
{
    match format {
        Format::PlainBits | Format::RawBits => Ok((1, bytes)),
        Format::PlainGrey | Format::RawGrey => field(bytes),
    }
}

#[tactic(auto, unfolding(crate::specs::Heading::white_at))]
fn white(bytes: &[u8]) -> Result<&[u8], ReadFault>
    ensures { result_viewed (λ x. x.now) result ≡ white_at bytes.now }
{
    match bytes {
        [b, rest @ ..] if is_white(*b) => Ok(rest),
        _ => Err(ReadFault::Header),
    }
}

/// The header at the front, and the raster.
#[tactic(auto, unfolding(crate::specs::Heading::head_at))]
pub fn read_head(bytes: &[u8]) -> Result<(Header, &[u8]), ReadFault>
    ensures { result_viewed (λ x. (x.0, x.1.now)) result ≡ head_at bytes.now }
{
    let (format, rest) = magic(bytes)?;
    let (width, rest) = field(rest)?;
    let (height, rest) = field(rest)?;
    let (maxval, rest) = maxval(format, rest)?;
    let raster = white(rest)?;
    let head = Header {
        format,
        width,
        height,
        maxval,
    };
    Ok((head, raster))
}

/// The sides and the maxval are within the limits.
#[tactic(auto, unfolding(crate::specs::Heading::limits))]
pub fn check_limits(head: &Header) -> Result<(), ReadFault>
    ensures value { result_viewed (λ _. tt) result ≡ limits head.now }
    ensures width { OnOk result (head.now.width ≤ SIDE_LIMIT) }
    ensures height { OnOk result (head.now.height ≤ SIDE_LIMIT) }
    ensures area { OnOk result (head.now.height * head.now.width ≤ PIXEL_LIMIT) }
    ensures some { OnOk result (1 ≤ head.now.maxval) }
    ensures maxval { OnOk result (head.now.maxval ≤ LEVEL_LIMIT) }
{
    let Header {
        width,
        height,
        maxval,
        ..
    } = *head;
    let side = u64::from(SIDE_LIMIT);
    if width == 0
        || height == 0
        || width > side
        || height > side
        || height * width > u64::from(PIXEL_LIMIT)
    {
        return Err(ReadFault::Size);
    }
    if maxval == 0 || maxval > u64::from(LEVEL_LIMIT) {
        return Err(ReadFault::Maxval);
    }
    Ok(())
}

#[tactic(auto, unfolding(crate::specs::Whole::plain_only))]
fn check_plain(format: Format) -> Result<(), ReadFault>
    ensures { result_viewed (λ _. tt) result ≡ plain_only format }
{
    match format {
        Format::PlainBits => Ok(()),
        _ => Err(ReadFault::Magic),
    }
}

#[tactic(auto, unfolding(crate::specs::Heading::side_limits))]
fn check_sides(side: u32, head: &Header) -> Result<(), ReadFault>
    ensures value { result_viewed (λ _. tt) result ≡ side_limits side head.now }
    ensures width { OnOk result (head.now.width ≤ side) }
    ensures height { OnOk result (head.now.height ≤ side) }
{
    let Header { width, height, .. } = *head;
    let side = u64::from(side);
    if width == 0 || height == 0 || width > side || height > side {
        return Err(ReadFault::Size);
    }
    Ok(())
}

/// The header of a plain bitmap with sides up to a limit, and its raster.
#[tactic(auto, unfolding(crate::specs::Whole::bitmap_head_at))]
pub(crate) fn read_bitmap_head(bytes: &[u8], side: u32) -> Result<(Header, &[u8]), ReadFault>
    ensures value { result_viewed (λ x. (x.0, x.1.now)) result ≡ bitmap_head_at side bytes.now }
    ensures width { IfOk result (λ x. x.0.width ≤ side) }
    ensures height { IfOk result (λ x. x.0.height ≤ side) }
{
    let (format, _) = magic(bytes)?;
    check_plain(format)?;
    let (head, rest) = read_head(bytes)?;
    check_sides(side, &head)?;
    Ok((head, rest))
}
