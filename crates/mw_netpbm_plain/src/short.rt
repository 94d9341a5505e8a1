//! Samples as nearly all plain files have them: white space, a few digits and white space. Up to three digits are looked
//! for where the maxval has no more, else up to five.
//!
//! How many digits there are is no branch of the code, since a processor cannot foresee it: the numbers of one digit and
//! of more are all computed, and one is selected. A raster without a pattern takes longer where the longer samples are
//! read digit by digit, in a pass of their own.

ghost use Rattle.std.specs.Prelude.{◌≡◌, ◌≤◌, ◌+◌, ◌-◌, ◌*◌, ◌↔◌, [], ◌∷◌, ℕ, take, IfSome, IsSome, IsTrue, if◌then◌else◌};
ghost use Rattle.mw_model.specs.NetpbmGrammar.{IsNumber, IsSample, is_digit};
ghost use Rattle.mw_netpbm_plain.specs.Short.{digits_ahead, IsShort};

use crate::words::is_white;

#[inline(always)]
fn is_digit(b: u8) -> bool
    ensures { result ≡ is_digit b }
{
    b >= b'0' && b <= b'9'
}

/// What a digit counts. Any other byte counts something too, so that nothing branches.
#[inline(always)]
fn digit(b: u8) -> u32
    ensures value { IsTrue (is_digit b) → result ≡ b - 48 }
    ensures small { result ≤ 255 }
{
    u32::from(b.wrapping_sub(b'0'))
}

/// The number with another digit.
#[inline(always)]
fn with_digit(n: u32, b: u8) -> u32
    requires { n ≤ 300000 }
    ensures value { IsTrue (is_digit b) → result ≡ 10 * n + (b - 48) }
    ensures small { result ≤ 10 * n + 255 }
{
    10 * n + digit(b)
}

/// One of two numbers, each with how many digits it has.
#[inline(always)]
fn selected(is_longer: bool, longer: (u32, usize), shorter: (u32, usize)) -> (u32, usize)
    ensures { result ≡ if is_longer then longer else shorter }
{
    if is_longer { longer } else { shorter }
}

/// The number at the front of five bytes, and how many digits it has. The first byte is a digit.
#[inline(always)]
#[tactic(auto, unfolding(crate::specs::Short::digits_ahead))]
fn short_number(is_deep: bool, a: u8, b: u8, c: u8, d: u8, e: u8) -> (u32, usize)
    requires { IsTrue (is_digit a) }
    ensures number { IsNumber (take result.1 (a ∷ b ∷ c ∷ d ∷ e ∷ [])) result.0 }
    ensures count { result.1 ≡ digits_ahead (if is_deep then 5 else 3) (a ∷ b ∷ c ∷ d ∷ e ∷ []) }
    ensures few { result.1 ≤ 5 }
{
    let one = digit(a);
    let two = with_digit(one, b);
    let three = with_digit(two, c);
    let four = with_digit(three, d);
    let five = with_digit(four, e);
    let from_four = selected(is_digit(e), (five, 5), (four, 4));
    let from_three = selected(is_deep & is_digit(d), from_four, (three, 3));
    let from_two = selected(is_digit(c), from_three, (two, 2));
    selected(is_digit(b), from_two, (one, 1))
}

/// The sample at the front, and what follows it, where it is as short as that.
#[inline(always)]
pub(crate) fn short_sample(is_deep: bool, bytes: &[u8]) -> Option<(u32, &[u8])>
    ensures sample { IfSome result (λ x. (left : ℕ) → IsSample left bytes.now x.0 x.1.now) }
    ensures short { IsSome result ↔ IsShort (if is_deep then 5 else 3) bytes.now }
{
    match bytes {
        [first, a, b, c, d, e, _, ..] if is_white(*first) && is_digit(*a) => {
            let (n, count) = short_number(is_deep, *a, *b, *c, *d, *e);
            let (_, rest) = bytes.split_at(1 + count);
            if is_white(rest[0]) {
                Some((n, rest))
            } else {
                None
            }
        }
        _ => None,
    }
}
