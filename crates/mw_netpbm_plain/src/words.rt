//! White space, comments and numbers, as headers and plain rasters have them.

ghost use Rattle.std.specs.Prelude.{◌≡◌, ◌≤◌, ◌^◌, false, IfOk};
ghost use Rattle.mw_netpbm_plain.specs.Reading.{skip_from, gap_at, number_in_text, field_at, result_viewed};
ghost use Rattle.mw_model.specs.NetpbmGrammar.{is_white, is_eol};

use crate::fault::ReadFault;

/// A number stops growing here, above each limit that it is compared with.
const CAP: u64 = 1 << 32;

fn is_eol(b: u8) -> bool
    ensures { result ≡ is_eol b }
{
    b == b'\n' || b == b'\r'
}

pub(crate) fn is_white(b: u8) -> bool
    ensures { result ≡ is_white b }
{
    b == b'\t' || b == b'\n' || b == b'\r' || b == b' '
}

/// What stands after white space and comments.
#[tactic(auto, unfolding(crate::specs::Reading::skip_from))]
pub(crate) fn skip(bytes: &[u8]) -> &[u8]
    ensures { result.now ≡ skip_from false bytes.now }
{
    let mut rest = bytes;
    let mut inside = false;
    'bytes: while let [b, after @ ..] = rest {
        if inside {
            inside = !is_eol(*b);
        } else if !is_white(*b) {
            if *b != b'#' {
                return rest;
            }
            inside = true;
        }
        rest = after;
    }
    rest
}

#[tactic(auto, unfolding(crate::specs::Reading::number_in_text, crate::specs::Reading::digits_from))]
pub(crate) fn number(bytes: &[u8]) -> Result<(u64, &[u8]), ReadFault>
    ensures value { result_viewed (λ x. (x.0, x.1.now)) result ≡ number_in_text bytes.now }
    ensures small { IfOk result (λ x. x.0 ≤ 4294967296) }
{
    match bytes {
        [b'0'..=b'9', ..] => {}
        _ => return Err(ReadFault::Header),
    }
    let mut rest = bytes;
    let mut n = 0;
    'digits: while let [b @ b'0'..=b'9', after @ ..] = rest {
        n = (10 * n + u64::from(*b - b'0')).min(CAP);
        rest = after;
    }
    Ok((n, rest))
}

#[tactic(auto, unfolding(crate::specs::Reading::gap_at))]
pub(crate) fn gap(bytes: &[u8]) -> Result<&[u8], ReadFault>
    ensures { result_viewed (λ x. x.now) result ≡ gap_at bytes.now }
{
    match bytes {
        [b, after @ ..] if is_white(*b) => Ok(skip(after)),
        _ => Err(ReadFault::Header),
    }
}

#[tactic(auto, unfolding(crate::specs::Reading::field_at))]
pub(crate) fn field(bytes: &[u8]) -> Result<(u64, &[u8]), ReadFault>
    ensures value { result_viewed (λ x. (x.0, x.1.now)) result ≡ field_at bytes.now }
    ensures small { IfOk result (λ x. x.0 ≤ 4294967296) }
{
    let rest = gap(bytes)?;
    number(rest)
}
