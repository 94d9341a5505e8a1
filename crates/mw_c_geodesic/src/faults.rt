//! What is wrong with calls.

ghost use Rattle.std.specs.Prelude.{◌≡◌};
ghost use Rattle.mw_c_calls.specs.Calls.{call_fault, room_case};

use mw_c_arrays::{Code, first_of, when};

/// What is wrong with the room for so many samples.
pub fn room_fault(room: usize, count: usize) -> Option<Code>
    ensures { result ≡ room_case room count }
{
    when(room != count, Code::Length)
}

/// The first thing that is wrong with a call: its number, the image, the room for what is made, and the element.
pub fn refused(
    number: Option<Code>,
    image: Option<Code>,
    room: Option<Code>,
    element: Option<Code>,
) -> Option<Code>
    ensures { result ≡ call_fault number image room element }
{
    first_of(&[number, image, room, element])
}
