//! Why bytes hold no image, or no plain bitmap.

ghost use Rattle.std.specs.Prelude.{◌≡◌};
ghost use Rattle.mw_netpbm_plain.specs.declared.fault.ReadFault.TheVariants.{NoMemory};
ghost use Rattle.mw_netpbm_plain.specs.Faults.{as_bitmap, bitmap_code_of, code_of};

use mw_model::Code;
use std::alloc::{AllocError, AllocFailed};

/// Why bytes are no Netpbm file: the first case that holds, from top to bottom. Memory stands apart.
#[derive(Clone, Copy, Debug, PartialEq, Eq)]
pub enum ReadFault {
    Magic,
    Header,
    Size,
    Maxval,
    Short,
    Sample,
    Trailing,
    NoMemory,
}

impl ReadFault {
    /// The refusal that this is.
    pub fn code(self) -> Code
        ensures { result ≡ code_of self }
    {
        match self {
            ReadFault::Magic => Code::Magic,
            ReadFault::Header => Code::Header,
            ReadFault::Size => Code::Size,
            ReadFault::Maxval => Code::Maxval,
            ReadFault::Short => Code::Short,
            ReadFault::Sample => Code::Sample,
            ReadFault::Trailing => Code::Trailing,
            ReadFault::NoMemory => Code::Memory,
        }
    }
}

impl From<AllocError> for ReadFault {
    ghost from_gives = { λ _ e. e ≡ NoMemory };

    fn from(_error: AllocError) -> ReadFault {
        ReadFault::NoMemory
    }
}

impl<T: Drop> From<AllocFailed<T>> for ReadFault {
    ghost from_gives = { λ _ e. e ≡ NoMemory };

    fn from(_error: AllocFailed<T>) -> ReadFault {
        ReadFault::NoMemory
    }
}

/// Why bytes are no plain bitmap: the first case that holds, from top to bottom. Memory stands apart.
#[derive(Clone, Copy, Debug, PartialEq, Eq)]
pub enum BitmapFault {
    NotPlain,
    Header,
    Size,
    Short,
    Sample,
    Trailing,
    NoMemory,
}

impl BitmapFault {
    /// The refusal that this is.
    pub fn code(self) -> Code
        ensures { result ≡ bitmap_code_of self }
    {
        match self {
            BitmapFault::NotPlain => Code::NotPlain,
            BitmapFault::Header => Code::Header,
            BitmapFault::Size => Code::Size,
            BitmapFault::Short => Code::Short,
            BitmapFault::Sample => Code::Sample,
            BitmapFault::Trailing => Code::Trailing,
            BitmapFault::NoMemory => Code::Memory,
        }
    }
}

/// The fault of a file as one of a bitmap. A bitmap has no maxval.
pub(crate) fn as_bitmap_fault(fault: ReadFault) -> BitmapFault
    ensures { result ≡ as_bitmap fault }
{
    match fault {
        ReadFault::Magic => BitmapFault::NotPlain,
        ReadFault::Header => BitmapFault::Header,
        ReadFault::Size | ReadFault::Maxval => BitmapFault::Size,
        ReadFault::Short => BitmapFault::Short,
        ReadFault::Sample => BitmapFault::Sample,
        ReadFault::Trailing => BitmapFault::Trailing,
        ReadFault::NoMemory => BitmapFault::NoMemory,
    }
}
