//! Answers to C: what was made is written into its array, or the number of the refusal is told.

ghost use Rattle.std.specs.Prelude.{◌≡◌, ◌≤◌, length, IfErr, IfOk};
ghost use Rattle.mw_c_calls.specs.Answers.{answer_number, refusal_number};

use mw_c_arrays::{Code, put_bytes, put_words};
use mw_c_direct::{Curve, Image};

/// The number of a refusal.
fn number(code: Code) -> i32
    ensures { result ≡ refusal_number code }
{
    i32::from(code.number())
}

/// Tells of what was written.
pub(crate) fn answer(written: Result<(), Code>) -> i32
    ensures { result ≡ answer_number written }
{
    match written {
        Ok(()) => 0,
        Err(code) => number(code),
    }
}

/// Writes an image of one byte a sample.
pub(crate) fn answer_bytes(made: Result<Image, Code>, out: &mut [u8]) -> i32
    requires size { IfOk made (λ g. length g.samples ≡ length out.old) }
    requires small { IfOk made (λ g. g.maxval ≤ 255) }
    ensures answer { result ≡ answer_number made }
    ensures made { IfOk made (λ g. out.new ≡ g.samples) }
    ensures kept { IfErr made (λ _. out.new ≡ out.old) }
{
    match made {
        Ok(image) => {
            put_bytes(&image, out);
            0
        }
        Err(code) => number(code),
    }
}

/// Writes an image of two bytes a sample.
pub(crate) fn answer_words(made: Result<Image, Code>, out: &mut [u16]) -> i32
    requires size { IfOk made (λ g. length g.samples ≡ length out.old) }
    requires high { IfOk made (λ g. 256 ≤ g.maxval) }
    ensures answer { result ≡ answer_number made }
    ensures made { IfOk made (λ g. out.new ≡ g.samples) }
    ensures kept { IfErr made (λ _. out.new ≡ out.old) }
{
    match made {
        Ok(image) => {
            put_words(&image, out);
            0
        }
        Err(code) => number(code),
    }
}

/// Writes volumes.
pub(crate) fn answer_volumes(made: Result<Curve, Code>, out: &mut [u64]) -> i32
    requires { IfOk made (λ v. length v ≡ length out.old) }
    ensures answer { result ≡ answer_number made }
    ensures made { IfOk made (λ v. out.new ≡ v) }
    ensures kept { IfErr made (λ _. out.new ≡ out.old) }
{
    match made {
        Ok(curve) => {
            out.copy_from_slice(curve.volumes());
            0
        }
        Err(code) => number(code),
    }
}
