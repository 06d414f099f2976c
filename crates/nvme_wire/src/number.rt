ghost use Rattle.std.specs.Prelude.{◌≡◌, ◌+◌, ◌≤◌};
ghost use Rattle.byteorder.specs.Endian.{little_from};

use byteorder::{ByteOrder, LittleEndian};

/// The number in the eight bytes from `at` on, lowest byte first.
pub fn u64_at(bytes: &[u8; 64], at: usize) -> u64
    requires { at + 8 ≤ 64 }
    ensures { result ≡ little_from at 8 bytes.now }
{
    LittleEndian::read_u64(&bytes[at..at + 8])
}
