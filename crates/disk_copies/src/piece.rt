// How many blocks are copied at a time.

ghost use Rattle.std.specs.Prelude.{◌≡◌, ◌<◌, ◌*◌, ◌^◌, max};
ghost use Rattle.disk_copies.specs.Copies.{piece_blocks};

use drive_port::Device;
use zone_translator::AnyDisk;

/// How many bytes are copied at a time. A block is not longer.
const PIECE_BYTES: u32 = 1_048_576;

/// How many bytes a block of a disk has.
pub(crate) fn block_of<D: Device + Drop>(disk: &AnyDisk<D>) -> u32
    ensures size { result ≡ disk.now.drive.geometry.block }
    ensures some { 0 < result }
{
    let bytes = disk.block_bytes();
    prove!(bytes > 0);
    disk.device().geometry().block
}

/// How many blocks of so many bytes are copied at a time.
pub(crate) fn piece_blocks(block: u32) -> u32
    requires { 0 < block }
    ensures { result ≡ piece_blocks block }
{
    (PIECE_BYTES / block).max(1)
}
