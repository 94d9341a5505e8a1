//! Why calls are refused.

ghost use Rattle.std.specs.Prelude.{◌≡◌};
ghost use Rattle.mw_c_geodesic.specs.Told.{number_told};

use mw_model::Code;

/// Why a call is refused.
#[derive(Clone, Copy)]
pub enum Refusal {
    /// As a command is.
    Of(Code),
    /// Two images have other sides.
    Frame,
    /// Two images have other maxvals.
    Levels,
    /// An offset of the element has no opposite in it.
    OneWay,
}

/// The number of a refusal.
pub(crate) fn number(refusal: Refusal) -> i32
    ensures { result ≡ number_told refusal }
{
    match refusal {
        Refusal::Of(code) => i32::from(code.number()),
        Refusal::Frame => 53,
        Refusal::Levels => 54,
        Refusal::OneWay => 55,
    }
}
