//! Answers to C: what was made is written into its array, or the number of the refusal is told.

ghost use Rattle.std.specs.Prelude.{◌≡◌, ◌≤◌, length, IfErr, IfOk};
ghost use Rattle.mw_c_geodesic.specs.Told.{answer_told};

use crate::refusals::{Refusal, number};
use mw_c_arrays::{put_bytes, put_words};
use mw_pixel::Image;

/// Tells how many components there are, where labels were written.
pub(crate) fn answer_count(made: Result<u32, Refusal>, components: &mut u32) -> i32
    ensures answer { result ≡ answer_told made }
    ensures made { IfOk made (λ n. components.new ≡ n) }
    ensures kept { IfErr made (λ _. components.new ≡ components.old) }
{
    match made {
        Ok(count) => {
            *components = count;
            0
        }
        Err(refusal) => number(refusal),
    }
}

/// Tells whether an array was written.
pub fn answer(made: Result<(), Refusal>) -> i32
    ensures { result ≡ answer_told made }
{
    match made {
        Ok(()) => 0,
        Err(refusal) => number(refusal),
    }
}

/// Writes an image of one byte a sample.
pub fn answer_bytes(made: Result<Image, Refusal>, out: &mut [u8]) -> i32
    requires size { IfOk made (λ g. length g.samples ≡ length out.old) }
    requires small { IfOk made (λ g. g.maxval ≤ 255) }
    ensures answer { result ≡ answer_told made }
    ensures made { IfOk made (λ g. out.new ≡ g.samples) }
    ensures kept { IfErr made (λ _. out.new ≡ out.old) }
{
    match made {
        Ok(image) => {
            put_bytes(&image, out);
            0
        }
        Err(refusal) => number(refusal),
    }
}

/// Writes an image of two bytes a sample.
pub fn answer_words(made: Result<Image, Refusal>, out: &mut [u16]) -> i32
    requires size { IfOk made (λ g. length g.samples ≡ length out.old) }
    requires high { IfOk made (λ g. 256 ≤ g.maxval) }
    ensures answer { result ≡ answer_told made }
    ensures made { IfOk made (λ g. out.new ≡ g.samples) }
    ensures kept { IfErr made (λ _. out.new ≡ out.old) }
{
    match made {
        Ok(image) => {
            put_words(&image, out);
            0
        }
        Err(refusal) => number(refusal),
    }
}

/// Writes numbers.
pub(crate) fn answer_numbers(made: Result<Vec<u32>, Refusal>, out: &mut [u32]) -> i32
    requires { IfOk made (λ r. length r.items ≡ length out.old) }
    ensures answer { result ≡ answer_told made }
    ensures made { IfOk made (λ r. out.new ≡ r.items) }
    ensures kept { IfErr made (λ _. out.new ≡ out.old) }
{
    match made {
        Ok(numbers) => {
            out.copy_from_slice(&numbers);
            0
        }
        Err(refusal) => number(refusal),
    }
}
