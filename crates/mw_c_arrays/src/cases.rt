//! The first of several cases.

ghost use Rattle.std.specs.Prelude.{◌≡◌};
ghost use Rattle.mw_model.specs.Refusals.{first_of, when};

use mw_model::Code;

/// The code, where the case holds.
pub fn when(holds: bool, code: Code) -> Option<Code>
    ensures { result ≡ when holds code }
{
    if holds { Some(code) } else { None }
}

/// The first case that holds.
pub fn first_of(cases: &[Option<Code>]) -> Option<Code>
    ensures { result ≡ first_of cases.now }
{
    'cases: for case in cases {
        if let Some(code) = *case {
            return Some(code);
        }
    }
    None
}
