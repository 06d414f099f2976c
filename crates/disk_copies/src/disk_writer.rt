// A disk as a writer.

ghost use Rattle.std.specs.Prelude.{◌≡◌, ◌+◌, ◌*◌, ◌^◌, ◌≤◌, ◌<◌, length, Some};
ghost use Rattle.zone_translator.specs.View.{disk_array, disk_size};
ghost use Rattle.zone_translator.specs.declared.status.DiskStatus.TheVariants.{Serving};
ghost use Rattle.disk_copies.specs.Written.{written_bytes};

use crate::putting::put;
use drive_port::{Device, Honest};
use std::io;
use std::io::{ErrorKind, Write};
use std::marker::Model;
use zone_translator::{AnyDisk, Disk, DiskFault};

/// A disk as a writer: whole blocks that are written go to its blocks, from the first one on. Blocks of zeros are
/// trimmed. It takes as many whole blocks as there are, and as it has room for; the rest of the bytes is not taken.
#[derive(Drop)]
pub struct DiskWriter<D: Device + Honest + Drop> {
    disk: AnyDisk<D>,
    /// The block that is written next.
    next: u64,
    /// Why the disk refused the last blocks.
    fault: Option<DiskFault>,
}

impl<D: Device + Honest + Drop> Model for DiskWriter<D> {
    ghost use Rattle.disk_copies.specs.Written.{Written};

    ghost Value = { Written };

    ghost view = { λ w. record { disk = w.disk; next = w.next } };
}

impl<D: Device + Honest + Drop> DiskWriter<D> {
    /// A writer whose first bytes go to the first block.
    pub fn new(disk: Disk<D>) -> Self
        ensures { result ≡ record { disk = disk; next = 0 } }
    {
        DiskWriter {
            disk: disk.into_any(),
            next: 0,
            fault: None,
        }
    }

    /// Why the disk refused the last blocks, if it did.
    pub fn fault(&self) -> Option<DiskFault> {
        self.fault
    }

    /// The disk within.
    pub fn into_disk(self) -> Disk<D>
        ensures { result ≡ self.disk }
    {
        Disk::of(self.disk)
    }

    /// How many blocks are taken of so many bytes: those that are whole, and for which there is room.
    fn room(&self, bytes: usize) -> usize
        ensures whole { result * self.now.disk.drive.geometry.block ≤ bytes }
        ensures room { 0 < result → self.now.next + result ≤ disk_size self.now.disk }
        ensures few { disk_size self.now.disk ≤ 2 ^ 31 }
        ensures array { self.now.disk.status ≡ Serving
            → length (disk_array self.now.disk) ≡ disk_size self.now.disk }
    {
        self.disk.device().vouch();
        let left = self.disk.blocks().saturating_sub(self.next);
        let whole = (bytes / self.disk.block_bytes()) as u64;
        whole.min(left) as usize
    }
}

impl<D: Device + Honest + Drop> Write for DiskWriter<D> {
    ghost contents = { λ w. Some (written_bytes w) };

    fn write(&mut self, bytes: &[u8]) -> io::Result<usize> {
        let blocks = self.room(bytes.len());
        let taken = blocks * self.disk.block_bytes();
        let done = put(&mut self.disk, self.next, &bytes[..taken], true);
        self.disk.device().vouch();
        match done {
            Ok(()) => {
                self.next += blocks as u64;
                Ok(taken)
            }
            Err(fault) => {
                self.fault = Some(fault);
                Err(io::Error::from(ErrorKind::Other))
            }
        }
    }

    fn flush(&mut self) -> io::Result<()> {
        Ok(())
    }
}
