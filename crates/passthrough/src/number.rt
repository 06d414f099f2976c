ghost use Rattle.std.specs.Prelude.{◌≡◌, ◌+◌, ◌≤◌};
ghost use Rattle.byteorder.specs.Endian.{little_from};

use byteorder::{ByteOrder, LittleEndian};

/// The number in the two bytes from `at` on, lowest byte first.
pub(crate) fn u16_at(page: &[u8; 4096], at: usize) -> u16
    requires { at + 2 ≤ 4096 }
    ensures { result ≡ little_from at 2 page.now }
{
    LittleEndian::read_u16(&page[at..at + 2])
}

/// The number in the four bytes from `at` on, lowest byte first.
pub(crate) fn u32_at(page: &[u8; 4096], at: usize) -> u32
    requires { at + 4 ≤ 4096 }
    ensures { result ≡ little_from at 4 page.now }
{
    LittleEndian::read_u32(&page[at..at + 4])
}

/// The number in the eight bytes from `at` on, lowest byte first.
pub(crate) fn u64_at(page: &[u8; 4096], at: usize) -> u64
    requires { at + 8 ≤ 4096 }
    ensures { result ≡ little_from at 8 page.now }
{
    LittleEndian::read_u64(&page[at..at + 8])
}
