//! The last bytes of a file as a whole block of 64.

ghost use Rattle.std.specs.Prelude.{◌≡◌, ◌-◌, ◌≤◌, ◌++◌, length, replicate};

/// The bytes with others behind them, all alike.
pub fn padded(bytes: &[u8], filler: u8) -> [u8; 64]
    requires { length bytes.now ≤ 64 }
    ensures { result ≡ bytes.now ++ replicate (64 - length bytes.now) filler }
{
    let mut block = [filler; 64];
    block[..bytes.len()].copy_from_slice(bytes);
    block
}
