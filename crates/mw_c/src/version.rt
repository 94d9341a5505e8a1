//! The version of what C calls.

ghost use Rattle.std.specs.Prelude.{◌≡◌};

use mw_c_calls::version;

/// The version of what C calls: it rises when a function, a number or a structure changes its meaning.
#[unsafe(no_mangle)]
pub extern "C" fn morphd_version() -> u32
    ensures { result ≡ 1 }
{
    version()
}
