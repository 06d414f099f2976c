// Blocks that are copied out of the drive behind a device.

ghost use Rattle.std.specs.Prelude.{◌≡◌, IsTrue};
ghost use Rattle.zone_choice.specs.Sane.{KeepsShape};
ghost use Rattle.device_jobs.specs.Copies.{ExportsAnyway, ExportsDevice};

use disk_copies::{CopyFault, ExportJob, blocks_asked, export_blocks};
use drive_port::Device;
use job_drives::mount_any;
use std::alloc::Global;
use std::cell::Cell;
use std::io::Write;

/// Mounts a drive, and writes blocks of it. The mount repairs the drive. It is given back, also after a fault. How many
/// bytes these blocks have is put into `total` before.
pub fn export_device<D: Device + Drop, W: Write>(
    alloc: Global,
    job: &ExportJob,
    total: &Cell<Option<u64>>,
    device: D,
    writer: &mut W,
) -> (D, Result<(), CopyFault>)
    // While the drive is clean, these are the bytes of its blocks, and the array stays.
    ensures exports { IsTrue (D.drive result.0).clean → ExportsDevice job.now (D.drive device) (W.contents writer.old)
        (W.contents writer.new) result.1 (D.drive result.0) }
    // Whatever the Reads returned, the drive has the same shape, and nothing is written of one that is not mounted.
    ensures shape { KeepsShape (D.drive device) (D.drive result.0) }
    ensures anyway { ExportsAnyway (D.drive device).geometry (W.contents writer.old) (W.contents writer.new) result.1 }
{
    let mut disk = match mount_any(alloc, device, None) {
        Ok(disk) => disk,
        Err((fault, device)) => return (device, Err(CopyFault::Mount(fault))),
    };
    let blocks = blocks_asked(job.count, job.first, disk.blocks());
    total.set(Some(blocks.saturating_mul(disk.block_bytes() as u64)));
    let exported = export_blocks(alloc, &mut disk, writer, job.first, blocks);
    let device = disk.into_device();
    match exported {
        Ok(()) => (device, Ok(())),
        Err(fault) => (device, Err(CopyFault::Export(fault))),
    }
}
