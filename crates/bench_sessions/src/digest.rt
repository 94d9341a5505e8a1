//! A writer that keeps a digest of what is written, whatever the pieces are in which it comes.

ghost use Rattle.std.specs.Prelude.{◌≡◌, length};

use std::io;
use std::io::Write;

/// The powers of an odd factor without a pattern, from the first on.
const POWERS: [u64; 8] = [
    0x9e37_79b9_7f4a_7c15,
    0xdf44_2d22_ce48_59b9,
    0x604a_5ce3_adde_f82d,
    0xd943_63fc_5382_27b1,
    0x2e2b_795f_2d10_fd85,
    0x4be7_956e_30a3_37e9,
    0x5ecb_31e4_ccd2_721d,
    0x06d4_b261_1beb_6861,
];

/// The polynomial of the factor whose coefficients are the bytes, and their number.
#[derive(Drop)]
pub(crate) struct Digest {
    pub(crate) value: u64,
    pub(crate) count: u64,
}

/// One byte more.
fn add(value: u64, byte: u8) -> u64 {
    value.wrapping_mul(POWERS[0]).wrapping_add(u64::from(byte))
}

/// Eight bytes more, whose products do not wait for one another.
fn add_eight(value: u64, bytes: &[u8]) -> u64
    requires { length bytes.now ≡ 8 }
{
    let mut sum = value.wrapping_mul(POWERS[7]);
    for i in 0..7 {
        sum = sum.wrapping_add(u64::from(bytes[i]).wrapping_mul(POWERS[6 - i]));
    }
    sum.wrapping_add(u64::from(bytes[7]))
}

impl Digest {
    pub(crate) fn new() -> Digest {
        Digest { value: 0, count: 0 }
    }
}

impl Write for Digest {
    fn write(&mut self, buf: &[u8]) -> io::Result<usize> {
        let blocks = buf.len() / 8;
        for k in 0..blocks {
            self.value = add_eight(self.value, &buf[8 * k..8 * k + 8]);
        }
        for i in 8 * blocks..buf.len() {
            self.value = add(self.value, buf[i]);
        }
        self.count = self.count.wrapping_add(buf.len() as u64);
        Ok(buf.len())
    }

    fn flush(&mut self) -> io::Result<()> {
        Ok(())
    }
}
