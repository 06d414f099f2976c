// A disk that a host asks for one call after another, each kind of call once and more.

use crate::small_drives::GEOMETRY;
use disk_calls::{Asked, CallFault, Extent, Host, serve_calls};
use drive_port::Device;
use std::alloc::Global;
use std::process::Abort;
use std::test::Fail;
use zone_drive::Drive;
use zone_translator::{AnyDisk, DiskFault};

/// A host that asks what a list says, gives one byte in all blocks, and keeps what it is told as text.
#[derive(Drop)]
struct Asker<'a> {
    asked: &'a [Asked],
    next: usize,
    byte: u8,
    wants: usize,
    shown: Vec<u8>,
    extents: Vec<Extent>,
    told: Vec<Result<(), CallFault>>,
    looks: u64,
}

impl Host<Drive> for Asker<'_> {
    ghost use Rattle.std.specs.Prelude.{[], None, false};
    ghost use Rattle.disk_calls.specs.Talk.{nothing};

    // What it was told may be missing where memory is.
    ghost talk = { λ _. record { past = []; asked = None; passed = nothing; known = false } };

    fn next(&mut self, told: Result<(), CallFault>) -> Option<Asked> {
        if self.next > 0 {
            let _ = self.told.push(told);
        }
        let asked = self.asked.get(self.next).copied();
        self.next = self.next.saturating_add(1);
        asked
    }

    fn show(&mut self, bytes: &[u8]) {
        let _ = self.shown.extend_from_slice(bytes);
    }

    fn give(&mut self, room: &mut [u8]) {
        for place in room.iter_mut() {
            *place = self.byte;
        }
    }

    fn tell(&mut self, extent: Extent) -> bool {
        let _ = self.extents.push(extent);
        self.extents.len() < self.wants
    }

    fn look(&mut self, disk: &AnyDisk<Drive>) {
        self.looks = disk.blocks();
    }
}

fn host_of(alloc: Global, asked: &[Asked], wants: usize) -> Asker<'_> {
    Asker {
        asked,
        next: 0,
        byte: 7,
        wants,
        shown: Vec::new(alloc),
        extents: Vec::new(alloc),
        told: Vec::new(alloc),
        looks: 0,
    }
}

/// A disk of three blocks of a fresh drive.
fn small_disk(alloc: Global) -> Result<AnyDisk<Drive>, Fail> {
    let drive = Drive::new(alloc, GEOMETRY)?;
    match AnyDisk::mount(alloc, drive, 3) {
        Ok(disk) => Ok(disk),
        Err((fault, _)) => Err(Fail::from(fault)),
    }
}

/// Writes one block of three, reads two, and tells which have data, before and after a trim.
#[test]
fn a_host_is_answered(rt: HostRuntime) -> Result<(), Fail> {
    let asked = [
        Asked::Write {
            first: 1,
            blocks: 1,
        },
        Asked::Read {
            first: 0,
            blocks: 2,
        },
        Asked::Extents {
            first: 0,
            blocks: 3,
        },
        Asked::Trim {
            first: 1,
            blocks: 1,
        },
        Asked::Extents {
            first: 0,
            blocks: 3,
        },
        Asked::Zero {
            first: 2,
            blocks: 1,
        },
        Asked::Extents {
            first: 1,
            blocks: 2,
        },
        Asked::Flush,
        Asked::Idle,
        Asked::Look,
    ];
    let disk = small_disk(rt.alloc())?;
    let mut host = host_of(rt.alloc(), &asked, 9);
    let (_, flushed) = serve_calls(rt.alloc(), disk, false, &mut host);
    assert_eq!(rt; flushed, Ok(()));
    assert_eq!(rt; host.told.len(), asked.len());
    assert_eq!(rt; host.told.iter().all(|told| told.is_ok()), true);
    assert_eq!(rt; host.shown.len(), 1024);
    assert_eq!(rt; host.shown.iter().filter(|byte| **byte == 7).count(), 512);
    assert_eq!(rt; host.looks, 3);
    let blocks = [1, 1, 1, 3, 1, 1];
    let data = [false, true, false, false, false, true];
    assert_eq!(rt; host.extents.len(), 6);
    for (i, extent) in host.extents.iter().enumerate() {
        assert_eq!(rt; Some(&extent.blocks), blocks.get(i));
        assert_eq!(rt; Some(&extent.has_data), data.get(i));
    }
    Ok(())
}

/// A disk that may only be read refuses what would change it. No call reads more than 32 MiB or past the end.
#[test]
fn a_host_is_refused(rt: HostRuntime) -> Result<(), Fail> {
    let asked = [
        Asked::Write {
            first: 0,
            blocks: 1,
        },
        Asked::Trim {
            first: 0,
            blocks: 1,
        },
        Asked::Zero {
            first: 0,
            blocks: 1,
        },
        Asked::Grow { blocks: 4 },
        Asked::Read {
            first: 0,
            blocks: 65537,
        },
        Asked::Read {
            first: 3,
            blocks: 1,
        },
        Asked::Extents {
            first: 3,
            blocks: 1,
        },
        Asked::Flush,
        Asked::Extents {
            first: 0,
            blocks: 3,
        },
    ];
    let disk = small_disk(rt.alloc())?;
    let mut host = host_of(rt.alloc(), &asked, 1);
    let (disk, flushed) = serve_calls(rt.alloc(), disk, true, &mut host);
    assert_eq!(rt; (flushed, disk.device().completed()), (Ok(()), 1));
    let past = Err(CallFault::Disk(DiskFault::OutOfRange));
    let read_only = Err(CallFault::ReadOnly);
    let answers = [
        read_only,
        read_only,
        read_only,
        read_only,
        Err(CallFault::TooLong),
        past,
        past,
        Ok(()),
        Ok(()),
    ];
    assert_eq!(rt; host.told.len(), answers.len());
    for (i, told) in host.told.iter().enumerate() {
        assert_eq!(rt; Some(told), answers.get(i));
    }
    assert_eq!(rt; host.extents.len(), 1);
    Ok(())
}
