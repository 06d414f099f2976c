ghost use Rattle.std.specs.Prelude.{◌≡◌, ◌+◌, ◌*◌, ◌^◌, ◌<◌, ◌≤◌, List, ℕ, IfOk, length};
ghost use Rattle.file_drive.specs.Layout.{part};
ghost use Rattle.file_drive.specs.Sums.{sum_after, sum_of};

use file_bytes::FileBytes;
use sqlite_wal::checksum_of;
use std::io;

/// The largest prime number of 27 bits.
const PRIME: u64 = 134_217_689;

/// A sum after one more block. It has 27 bits.
#[tactic(auto, unfolding(crate::specs::Sums::sum_after))]
fn sum_after(sum: u32, block: &[u8]) -> u32
    ensures { result ≡ sum_after sum block.now }
{
    let (first, second) = checksum_of(false, (sum, 0), block);
    ((u64::from(first) * (1 << 32) + u64::from(second)) % PRIME) as u32
}

/// A sum after so many blocks of a length, one after the other.
pub fn sum_of(block: usize, count: usize, sum: u32, bytes: &[u8]) -> u32
    requires { count * block ≤ length bytes.now }
    ensures { result ≡ sum_of block count sum bytes.now }
{
    let mut after = sum;
    for index in 0..count {
        let at = index * block;
        after = sum_after(after, &bytes[at..at + block]);
    }
    after
}

/// The same of blocks that a file shows from an offset on. `room` is as long as a block.
pub fn read_sum<F: FileBytes>(
    file: &mut F,
    at: u64,
    count: u32,
    sum: u32,
    room: &mut [u8],
) -> io::Result<u32>
    requires within { at + count * length room.old ≤ length (F.FileBytes.seen file.old) }
    requires small { at + count * length room.old < 2 ^ 63 }
    ensures ok { IfOk result (λ after. after ≡ sum_of (length room.old) count sum
        (part (F.FileBytes.seen file.old) at (count * length room.old))) }
    ensures room { length room.new ≡ length room.old }
    ensures seen { F.FileBytes.seen file.new ≡ F.FileBytes.seen file.old }
    ensures leaves { (c : List ℕ) → F.FileBytes.may_leave file.new c → F.FileBytes.may_leave file.old c }
    ensures usable { F.FileBytes.is_usable file.new ≡ F.FileBytes.is_usable file.old }
{
    let block = room.len() as u64;
    let mut after = sum;
    for index in 0..count {
        file.read(at + u64::from(index) * block, room)?;
        after = sum_after(after, room);
    }
    Ok(after)
}
