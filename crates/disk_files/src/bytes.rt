ghost use Rattle.std.specs.Prelude.{◌≡◌, ◌==◌, position};

use memchr::memchr;

/// Where a byte is first.
pub fn first_place(bytes: &[u8], byte: u8) -> Option<usize>
    ensures { result ≡ position (λ b. b == byte) bytes.now }
{
    memchr(byte, bytes)
}
