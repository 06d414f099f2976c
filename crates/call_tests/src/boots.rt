// A system before and after a loss of power, and an empty file for a drive.

ghost use Rattle.std.specs.Prelude.{◌≡◌, IfSome, IsTrue, replicate};
ghost use Rattle.file_drive.specs.Layout.{file_length};

use drive_port::Device;
use file_bytes::MemoryFile;
use file_drive::{Boot, System, file_length};
use std::alloc::Global;
use zone_drive::Drive;

/// A system before a loss of power.
#[derive(Drop)]
pub struct Before;

impl System for Before {
    ghost boot = { record { first = 1; second = 1 } };

    fn boot(&self) -> Boot {
        Boot {
            first: 1,
            second: 1,
        }
    }
}

/// The same system after it.
#[derive(Drop)]
pub struct After;

impl System for After {
    ghost boot = { record { first = 2; second = 1 } };

    fn boot(&self) -> Boot {
        Boot {
            first: 2,
            second: 1,
        }
    }
}

/// A file of zeros, as long as a drive wants.
pub fn empty_file(alloc: Global, drive: &Drive) -> Option<MemoryFile>
    ensures usable { IfSome result (λ file. IsTrue file.usable) }
    ensures zeros { IfSome result (λ file. file.bytes ≡ replicate (file_length drive.now.state.geometry) 0) }
{
    let geometry = drive.geometry();
    if geometry.check().is_err() {
        return None;
    }
    MemoryFile::new(alloc, file_length(&geometry) as usize).ok()
}
