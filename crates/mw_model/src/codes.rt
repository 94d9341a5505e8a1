//! Refusals, each with its number and its word.

ghost use Rattle.std.specs.Prelude.{◌≡◌};
ghost use Rattle.mw_model.specs.Codes.{number_and_word};

/// Why a line, a payload or a command is refused.
#[derive(Clone, Copy, PartialEq, Eq, Debug)]
pub enum Code {
    /// A line that is not in the grammar.
    Line,
    /// A payload length over the limit.
    Length,
    /// The input ends inside a line or a payload.
    Cut,
    /// A payload that does not begin as a Netpbm file.
    Magic,
    Header,
    Size,
    Maxval,
    /// The raster ends too soon.
    Short,
    /// A sample over the maxval, or bytes that spell none.
    Sample,
    /// Bytes behind the raster.
    Trailing,
    /// An element that does not begin as a plain bitmap.
    NotPlain,
    /// An origin outside the bitmap.
    Origin,
    /// A bitmap without a pixel of value 1.
    Empty,
    NameTaken,
    Unknown,
    /// An image is wanted and the entry is none, or an element is wanted and it is none.
    Kind,
    /// The entry is cancelled, out of memory or failed.
    Dead,
    /// A set is wanted and the image is none.
    Binary,
    /// The element does not hold its origin.
    NoOrigin,
    /// The two elements share an offset.
    Overlap,
    /// A number outside its limits.
    Param,
    /// No room for one more entry.
    Full,
    /// The entry is not pending.
    Settled,
    Memory,
    Released,
    /// The entry is not settled yet.
    Pending,
}

impl Code {
    /// The number in an `ERR` line.
    pub fn number(self) -> u16
        ensures { result ≡ (number_and_word self).0 }
    {
        match self {
            Code::Line => 10,
            Code::Length => 11,
            Code::Cut => 12,
            Code::Magic => 20,
            Code::Header => 21,
            Code::Size => 22,
            Code::Maxval => 23,
            Code::Short => 24,
            Code::Sample => 25,
            Code::Trailing => 26,
            Code::NotPlain => 30,
            Code::Origin => 31,
            Code::Empty => 32,
            Code::NameTaken => 40,
            Code::Unknown => 41,
            Code::Kind => 42,
            Code::Dead => 43,
            Code::Binary => 44,
            Code::NoOrigin => 45,
            Code::Overlap => 46,
            Code::Param => 47,
            Code::Full => 48,
            Code::Settled => 49,
            Code::Memory => 50,
            Code::Released => 51,
            Code::Pending => 52,
        }
    }

    /// The word in an `ERR` line.
    pub fn word(self) -> &'static str
        ensures { result.now ≡ (number_and_word self).1 }
    {
        match self {
            Code::Line => "LINE",
            Code::Length => "LENGTH",
            Code::Cut => "CUT",
            Code::Magic => "MAGIC",
            Code::Header => "HEADER",
            Code::Size => "SIZE",
            Code::Maxval => "MAXVAL",
            Code::Short => "SHORT",
            Code::Sample => "SAMPLE",
            Code::Trailing => "TRAILING",
            Code::NotPlain => "NOT_PLAIN",
            Code::Origin => "ORIGIN",
            Code::Empty => "EMPTY",
            Code::NameTaken => "NAME_TAKEN",
            Code::Unknown => "UNKNOWN",
            Code::Kind => "KIND",
            Code::Dead => "DEAD",
            Code::Binary => "BINARY",
            Code::NoOrigin => "NO_ORIGIN",
            Code::Overlap => "OVERLAP",
            Code::Param => "PARAM",
            Code::Full => "FULL",
            Code::Settled => "SETTLED",
            Code::Memory => "MEMORY",
            Code::Released => "RELEASED",
            Code::Pending => "PENDING",
        }
    }
}
