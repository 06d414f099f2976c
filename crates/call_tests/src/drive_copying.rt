use crate::boots::{Before, empty_file};
use drive_port::Halt;
use file_bytes::FileBytes;
use file_drive::{load, open, store, store_and_load};
use std::alloc::Global;
use std::io;
use std::test::Fail;
use zone_drive::Drive;
use zone_states::{Geometry, Zone, ZoneState};

const GEOMETRY: Geometry = Geometry {
    block: 512,
    zones: 6,
    size: 8,
    capacity: 6,
    transfer: 4,
    active: 3,
    open: 2,
};

/// A zone in a state, with blocks of one byte.
fn zone(alloc: Global, state: ZoneState, byte: u8, blocks: usize) -> Option<Zone> {
    let length = blocks.checked_mul(512)?;
    Some(Zone::from_parts(state, Vec::from_elem(alloc, byte, length).ok()?))
}

/// A drive with zones in six states. A Full one has fewer blocks than it may have, and the unusable ones have some.
fn in_memory(alloc: Global) -> Option<Drive> {
    let mut zones = Vec::new(alloc);
    zones
        .push(zone(alloc, ZoneState::ExplicitlyOpened, 1, 2)?)
        .ok()?;
    zones.push(zone(alloc, ZoneState::Full, 2, 1)?).ok()?;
    zones.push(zone(alloc, ZoneState::Empty, 0, 0)?).ok()?;
    zones.push(zone(alloc, ZoneState::ReadOnly, 4, 3)?).ok()?;
    zones.push(zone(alloc, ZoneState::Offline, 5, 6)?).ok()?;
    zones
        .push(zone(alloc, ZoneState::ImplicitlyOpened, 6, 5)?)
        .ok()?;
    Drive::from_zones(alloc, GEOMETRY, zones).ok()
}

/// Whether two drives have the same zones.
fn same_zones(drive: &Drive, other: &Drive) -> bool {
    drive.zones().len() == other.zones().len()
        && (0..drive.zones().len()).all(|index| match (drive.zone(index), other.zone(index)) {
            (Some(zone), Some(same)) => {
                zone.state() == same.state() && zone.written() == same.written()
            }
            _ => false,
        })
}

fn is_the_same_again(alloc: Global) -> Option<bool> {
    let mut drive = in_memory(alloc)?;
    let file = empty_file(alloc, &drive)?;
    let again = store_and_load(alloc, file, Before, &drive).ok()?;
    let opened = same_zones(&drive, &again);
    drive.restart();
    Some(!opened && same_zones(&drive, &again))
}

#[test]
fn a_stored_drive_is_the_same_again(rt: HostRuntime) -> Result<(), Fail> {
    assert_eq!(rt; is_the_same_again(rt.alloc()), Some(true));
    Ok(())
}

/// A file of which nothing can be read from an offset on.
#[derive(Drop)]
struct Unreadable<F: FileBytes + Drop> {
    file: F,
    from: u64,
}

impl<F: FileBytes + Drop> FileBytes for Unreadable<F> {
    ghost seen = { λ f. F.FileBytes.seen f.file };

    ghost may_leave = { λ f. F.FileBytes.may_leave f.file };

    ghost may_show = { λ f. F.FileBytes.may_show f.file };

    ghost is_usable = { λ f. F.FileBytes.is_usable f.file };

    ghost is_stuck = { λ f. F.FileBytes.is_stuck f.file };

    ghost seen_may_stay = { λ f. F.FileBytes.seen_may_stay f.file };

    ghost seen_is_shown = { λ f usable. F.FileBytes.seen_is_shown f.file usable };

    fn len(&self) -> u64 {
        self.file.len()
    }

    fn read(&mut self, at: u64, room: &mut [u8]) -> io::Result<()> {
        if at >= self.from {
            return Err(io::Error::other("unreadable"));
        }
        self.file.read(at, room)
    }

    fn write(&mut self, at: u64, bytes: &[u8]) -> io::Result<()> {
        self.file.write(at, bytes)
    }

    fn write_word(&mut self, at: u64, word: u64) -> io::Result<()> {
        self.file.write_word(at, word)
    }

    fn sync(&mut self) -> io::Result<()> {
        self.file.sync()
    }

    fn release(&mut self, at: u64, len: u64) {
        self.file.release(at, len);
    }
}

/// What a load answers if the blocks of the file cannot be read.
fn loaded_unreadable(alloc: Global) -> Option<bool> {
    let drive = in_memory(alloc)?;
    let mut file = Unreadable {
        file: empty_file(alloc, &drive)?,
        from: 1 << 20,
    };
    store(&mut file, &drive).ok()?;
    let found = open(alloc, &mut file, &Before).ok()?;
    let loaded = load(alloc, file, Before, found);
    Some(matches!(loaded, Err(Halt::Failed)))
}

#[test]
fn a_file_that_cannot_be_read_is_not_loaded(rt: HostRuntime) -> Result<(), Fail> {
    assert_eq!(rt; loaded_unreadable(rt.alloc()), Some(true));
    Ok(())
}
