//! The version of what C calls.

ghost use Rattle.std.specs.Prelude.{◌≡◌};

/// The version of what C calls: it rises when a function, a number or a structure changes its meaning.
pub fn version() -> u32
    ensures { result ≡ 1 }
{
    1
}
