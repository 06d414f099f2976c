// A drive that keeps what its Reads return.

ghost use Rattle.std.specs.Prelude.{◌≡◌};

use drive_port::{Device, Geometry, Halt};
use nvme_wire::Command;
use std::alloc::Global;
use zone_drive::Drive;

/// What a Read returned.
#[derive(Drop)]
pub struct KeptRead {
    /// Where it began.
    pub address: u64,
    pub bytes: Vec<u8>,
}

/// A drive that keeps what its Reads return, in order.
#[derive(Drop)]
pub struct KeepingDrive {
    alloc: Global,
    drive: Drive,
    reads: Vec<KeptRead>,
    /// Whether there was no memory to keep a Read.
    lacks: bool,
}

impl KeepingDrive {
    pub fn new(alloc: Global, drive: Drive) -> KeepingDrive {
        KeepingDrive {
            alloc,
            drive,
            reads: Vec::new(alloc),
            lacks: false,
        }
    }

    /// All Reads, if there was memory to keep them.
    pub fn into_reads(self) -> Option<Vec<KeptRead>> {
        if self.lacks {
            return None;
        }
        Some(self.reads)
    }

    /// Keeps the bytes that a command returned, if it is a Read.
    fn keep(&mut self, entry: &[u8; 64], returned: &[u8])
        ensures { self.new.drive ≡ self.old.drive }
    {
        let Ok(Command::Read { slba, .. }) = Command::decode(entry) else {
            return;
        };
        let Ok(bytes) = Vec::from_slice(self.alloc, returned) else {
            self.lacks = true;
            return;
        };
        let read = KeptRead {
            address: slba,
            bytes,
        };
        if self.reads.push(read).is_err() {
            self.lacks = true;
        }
    }
}

impl Device for KeepingDrive {
    ghost drive = { λ k. k.drive.state };

    fn geometry(&self) -> Geometry {
        self.drive.geometry()
    }

    fn completed(&self) -> u64 {
        self.drive.completed()
    }

    fn stopped(&self) -> bool {
        self.drive.stopped()
    }

    fn submit(
        &mut self,
        entry: &[u8; 64],
        bytes: &[u8],
        into: &mut Vec<u8>,
    ) -> Result<[u8; 16], Halt> {
        let result = self.drive.submit(entry, bytes, into);
        if result.is_ok() {
            self.keep(entry, into);
        }
        result
    }

    fn submit_extending(&mut self, entry: &[u8; 64], into: &mut Vec<u8>) -> Result<[u8; 16], Halt> {
        let held = into.len();
        let result = self.drive.submit_extending(entry, into);
        if let (Ok(_), Some(returned)) = (&result, into.get(held..)) {
            self.keep(entry, returned);
        }
        result
    }
}
