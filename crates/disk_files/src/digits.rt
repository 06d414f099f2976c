ghost use Rattle.std.specs.Prelude.{◌≡◌, ◌*◌, Some, None, length, map, true, false};
ghost use Rattle.std.specs.Simd.Lanes.{all_below};
ghost use Rattle.disk_files.specs.Words.{hex_bytes, capped, joined, value_or_none};

use std::simd::prelude::*;

/// Where the first digit of each pair stands.
const FIRST: [usize; 32] = [
    0, 2, 4, 6, 8, 10, 12, 14, 16, 18, 20, 22, 24, 26, 28, 30, 32, 34, 36, 38, 40, 42, 44, 46, 48,
    50, 52, 54, 56, 58, 60, 62,
];

/// Where the second digit of each pair stands.
const SECOND: [usize; 32] = [
    1, 3, 5, 7, 9, 11, 13, 15, 17, 19, 21, 23, 25, 27, 29, 31, 33, 35, 37, 39, 41, 43, 45, 47, 49,
    51, 53, 55, 57, 59, 61, 63,
];

/// The value of each hexadecimal digit, of either case; 16 or more for a byte that is none. Sums and
/// differences of lanes wrap: the digits 0 to 9 become the greatest ten numbers, and a byte below the first
/// letter a large one.
#[inline(always)]
fn values(digits: u8x64) -> u8x64
    ensures { map capped result ≡ map value_or_none digits }
{
    let last_ten = digits - u8x64::splat(b'9' + 1);
    let number = last_ten.saturating_sub(u8x64::splat(6)) + u8x64::splat(16);
    let letter = (digits | u8x64::splat(0x20)) - u8x64::splat(b'a');
    number.simd_min(letter.simd_min(u8x64::splat(245)) + u8x64::splat(10))
}

/// Whether all of these are values of digits.
#[inline(always)]
fn are_digits(values: u8x64) -> bool
    ensures { result ≡ all_below 16 values }
{
    values.simd_gt(u8x64::splat(15)).to_bitmask() == 0
}

/// The bytes of pairs of digits with these values.
#[inline(always)]
fn joined(values: u8x64) -> u8x32
    requires { all_below 16 values ≡ true }
    ensures { result ≡ joined values }
{
    values.swizzle(FIRST) * u8x32::splat(16) + values.swizzle(SECOND)
}

/// Decodes two digits for each of `bytes`, one after the other. Whether all of them are digits: if not,
/// nothing is said of what `bytes` holds then.
fn decode_few(digits: &[u8], bytes: &mut [u8]) -> bool
    requires { length digits.now ≡ 2 * length bytes.old }
    ensures decoded { result ≡ true → hex_bytes digits.now ≡ Some bytes.new }
    ensures none { result ≡ false → hex_bytes digits.now ≡ None }
{
    match hex::decode_to_slice(digits, bytes) {
        Ok(()) => true,
        Err(_) => false,
    }
}

/// The same, 64 digits at a time: no branch depends on which digits they are, since data has no pattern that
/// a processor could predict.
pub fn decode_pairs(digits: &[u8], bytes: &mut [u8]) -> bool
    requires { length digits.now ≡ 2 * length bytes.old }
    ensures decoded { result ≡ true → hex_bytes digits.now ≡ Some bytes.new }
    ensures none { result ≡ false → hex_bytes digits.now ≡ None }
{
    let mut done = 0;
    while bytes.len() - done >= 32 {
        let values = values(u8x64::from_slice(&digits[2 * done..]));
        if !are_digits(values) {
            return false;
        }
        joined(values).copy_to_slice(&mut bytes[done..]);
        done += 32;
    }
    decode_few(&digits[2 * done..], &mut bytes[done..])
}
