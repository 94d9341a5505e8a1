//! Why bytes hold no element.

ghost use Rattle.std.specs.Prelude.{◌≡◌};
ghost use Rattle.mw_element.specs.Faults.{element_code_of};

use mw_model::{Code, NoMemory};
use mw_netpbm_plain::BitmapFault;

/// Why bytes with an origin are no element: the first case that holds, from top to bottom. Memory stands apart.
#[derive(Clone, Copy, Debug, PartialEq, Eq)]
pub enum ElementFault {
    /// The bytes are no plain bitmap with sides up to 255.
    Bitmap(BitmapFault),
    /// The origin lies outside the bitmap.
    Origin,
    /// No pixel is 1.
    Empty,
    NoMemory,
}

impl ElementFault {
    /// The refusal that this is.
    pub fn code(self) -> Code
        ensures { result ≡ element_code_of self }
    {
        match self {
            ElementFault::Bitmap(fault) => fault.code(),
            ElementFault::Origin => Code::Origin,
            ElementFault::Empty => Code::Empty,
            ElementFault::NoMemory => Code::Memory,
        }
    }
}

impl From<BitmapFault> for ElementFault {
    ghost use Rattle.std.specs.Prelude.{◌≡◌};
    ghost use Rattle.mw_element.specs.declared.fault.ElementFault.TheVariants as fault;

    ghost from_gives = { λ f e. e ≡ fault.Bitmap f };

    fn from(fault: BitmapFault) -> ElementFault {
        ElementFault::Bitmap(fault)
    }
}

impl From<NoMemory> for ElementFault {
    ghost use Rattle.std.specs.Prelude.{◌≡◌};
    ghost use Rattle.mw_element.specs.declared.fault.ElementFault.TheVariants as fault;

    ghost from_gives = { λ _ e. e ≡ fault.NoMemory };

    fn from(_error: NoMemory) -> ElementFault {
        ElementFault::NoMemory
    }
}
