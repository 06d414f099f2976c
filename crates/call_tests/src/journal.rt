// The file of a drive: changes after its image that are cut off or damaged anywhere, and a store that fails.

ghost use Rattle.std.specs.Prelude.{◌≡◌, ◌≤◌, ◌<◌};
ghost use Rattle.nvme_wire.specs.Entry.{IsAdmitted};

use crate::small_drives::action;
use disk_files::{FailAfter, LineReader};
use disk_runs::run_trace;
use drive_images::write_image;
use drive_journal::{ChangeStore, Held, Journaling, ReadFault, START, Unknown, open_drive};
use drive_port::{Device, Honest, read_extending};
use nvme_wire::{Action, Command, Completion, Status};
use std::alloc::Global;
use std::test::Fail;
use zone_drive::Drive;
use zone_states::{Geometry, ZoneState};

const GEOMETRY: Geometry = Geometry {
    block: 512,
    zones: 3,
    size: 4,
    capacity: 4,
    transfer: 2,
    active: 2,
    open: 2,
};

/// The image of a fresh drive, and where it ends.
const IMAGE: usize = 64 + 3 * 8;

/// Where each of the five changes ends.
const ENDS: [usize; 6] = [
    IMAGE,
    IMAGE + 600,
    IMAGE + 1200,
    IMAGE + 1800,
    IMAGE + 1888,
    IMAGE + 1976,
];

/// How long the file is after the five changes, and where the head of the last of them ends.
const ALL: usize = IMAGE + 1976;

const LAST_DATA: usize = IMAGE + 1888 + 80;

/// The blocks of the first two zones after as many changes.
const BLOCKS: [(usize, usize); 6] = [(0, 0), (1, 0), (1, 1), (2, 1), (2, 1), (0, 1)];

/// Submits a command, and tells whether it was done.
fn is_done<D: Device>(device: &mut D, command: Command, bytes: &[u8], into: &mut Vec<u8>) -> bool
    requires { IsAdmitted command }
{
    let Ok(completion) = device.submit(&command.encode(0), bytes, into) else {
        return false;
    };
    match Completion::decode(&completion) {
        Ok(told) => told.status == Status::Success,
        Err(_) => false,
    }
}

/// An Append of one block to the zone that starts there.
fn append_at(zslba: u64) -> Command
    ensures { result ≡ Command.Append zslba 1 }
{
    Command::Append { zslba, blocks: 1 }
}

/// Submits five commands that change the drive, and one that is refused, and counts those that are done.
fn run_five<D: Device>(alloc: Global, device: &mut D) -> usize {
    let block = [0xaa; 512];
    let mut into = Vec::new(alloc);
    if !is_done(device, append_at(0), &block, &mut into) {
        return 0;
    }
    if !is_done(device, append_at(4), &block, &mut into) {
        return 1;
    }
    if !is_done(device, append_at(0), &block, &mut into) {
        return 2;
    }
    if !is_done(device, action(4, Action::Finish), &[], &mut into) {
        return 3;
    }
    if !is_done(device, action(0, Action::Reset), &[], &mut into) {
        return 4;
    }
    if is_done(device, append_at(4), &block, &mut into) {
        return 6;
    }
    5
}

/// The file of a fresh drive after the five changes.
fn five_changes(alloc: Global) -> Result<Vec<u8>, Fail> {
    let drive = Drive::new(alloc, GEOMETRY)?;
    let mut bytes = Vec::new(alloc);
    write_image(&drive, &mut bytes)?;
    let mut device = Journaling::new(alloc, drive, Unknown::new(bytes), START);
    run_five(alloc, &mut device);
    let (_, store) = device.into_parts();
    Ok(store.into_inner())
}

/// How many changes are whole in that many bytes of the file.
fn changes_within(bytes: u64) -> usize
    ensures { result ≤ 5 }
{
    let mut changes = 0;
    for i in 1..6 {
        if ENDS[i] as u64 <= bytes {
            changes = i;
        }
    }
    changes.min(5)
}

/// The blocks of the first two zones.
fn blocks_of(drive: &Drive) -> (usize, usize) {
    let mut blocks = (9, 9);
    if let Some(zone) = drive.zone(0) {
        blocks.0 = zone.blocks(&GEOMETRY);
    }
    if let Some(zone) = drive.zone(1) {
        blocks.1 = zone.blocks(&GEOMETRY);
    }
    blocks
}

/// The file gives the drive after these changes, and is an image if nothing is after it.
fn holds(alloc: Global, bytes: &[u8], changes: usize) -> bool
    requires { changes < 6 }
{
    let Ok(opened) = open_drive(alloc, &mut &bytes[..]) else {
        return false;
    };
    if let Some(zone) = opened.drive.zone(1) {
        if changes >= 4 && zone.state() != ZoneState::Full {
            return false;
        }
    }
    let has_blocks = blocks_of(&opened.drive) == BLOCKS[changes];
    has_blocks && opened.is_image == (bytes.len() == IMAGE) && opened.whole == ENDS[changes] as u64
}

#[test]
fn opens_a_file_that_is_cut_anywhere(rt: HostRuntime) -> Result<(), Fail> {
    let bytes = five_changes(rt.alloc())?;
    assert_eq!(rt; bytes.len(), ENDS[5]);
    for end in 0..bytes.len() + 1 {
        let front = &bytes[..end];
        if end < IMAGE {
            assert!(rt; open_drive(rt.alloc(), &mut &front[..]).is_err());
        } else {
            assert!(rt; holds(rt.alloc(), front, changes_within(end as u64)));
        }
    }
    Ok(())
}

/// Whether a file with the five changes, of which the byte at this place is damaged, is refused with that change's
/// place; or, where nothing follows the damage and the head before it is right, is read as if the last change was cut
/// off.
fn tells_damage(alloc: Global, bytes: &[u8], at: usize) -> bool {
    let before = changes_within(at as u64);
    let place = ENDS[before] as u64;
    match open_drive(alloc, &mut &bytes[..]) {
        Ok(opened) => opened.whole == place && before == 4 && at >= LAST_DATA,
        Err(ReadFault::Long(end)) => end == place && at < IMAGE + 8,
        Err(fault) => {
            let is_told = fault == ReadFault::Damaged(place);
            is_told && at >= IMAGE + 8 && (before < 4 || at < LAST_DATA)
        }
    }
}

#[test]
fn tells_a_damaged_byte_from_a_cut(rt: HostRuntime) -> Result<(), Fail> {
    let all = five_changes(rt.alloc())?;
    for at in IMAGE..ALL {
        let mut bytes = all.clone()?;
        if let Some(byte) = bytes.get_mut(at) {
            *byte ^= 0x10;
        }
        assert!(rt; tells_damage(rt.alloc(), &bytes, at));
    }
    Ok(())
}

/// The third change of a run was cut off, and a change of another run is in its place. The fourth and the fifth of the
/// first run are still after it, and are not read.
#[test]
fn does_not_read_the_changes_of_another_run(rt: HostRuntime) -> Result<(), Fail> {
    let alloc = rt.alloc();
    let all = five_changes(alloc)?;
    assert_eq!(rt; all.len(), ALL);
    let mut front = all.clone()?;
    front.truncate(IMAGE + 1300);
    let opened = open_drive(alloc, &mut front.as_slice())?;
    assert_eq!(rt; opened.whole, ENDS[2] as u64);
    let mut kept = all.clone()?;
    kept.truncate(IMAGE + 1200);
    let mut device = Journaling::new(alloc, opened.drive, Unknown::new(kept), opened.sum);
    let mut none = Vec::new(alloc);
    assert!(rt; is_done(&mut device, append_at(0), &[0xbb; 512], &mut none));
    let (_, store) = device.into_parts();
    let mut bytes = store.into_inner();
    assert_eq!(rt; bytes.len(), ENDS[3]);
    assert_eq!(rt;
        open_drive(alloc, &mut bytes.as_slice())?.whole,
        ENDS[3] as u64
    );
    bytes.extend_from_slice(&all[IMAGE + 1800..])?;
    match open_drive(alloc, &mut bytes.as_slice()) {
        Ok(_) => assert!(rt; false),
        Err(fault) => assert_eq!(rt; fault, ReadFault::Damaged(ENDS[3] as u64)),
    }
    Ok(())
}

#[test]
fn tells_changes_of_the_version_before(rt: HostRuntime) -> Result<(), Fail> {
    let mut bytes = five_changes(rt.alloc())?;
    assert_eq!(rt; bytes.len(), ALL);
    bytes[IMAGE + 7] = b'1';
    match open_drive(rt.alloc(), &mut bytes.as_slice()) {
        Ok(_) => assert!(rt; false),
        Err(fault) => assert_eq!(rt; fault, ReadFault::Earlier(IMAGE as u64)),
    }
    Ok(())
}

#[test]
fn a_store_that_fails_holds_what_was_answered(rt: HostRuntime) -> Result<(), Fail> {
    for left in 0..1980 {
        let drive = Drive::new(rt.alloc(), GEOMETRY)?;
        let mut bytes = Vec::new(rt.alloc());
        write_image(&drive, &mut bytes)?;
        let writer = FailAfter::in_steps(bytes, left, 100);
        let mut device = Journaling::new(rt.alloc(), drive, Unknown::new(writer), START);
        let answered = run_five(rt.alloc(), &mut device);
        let (_, store) = device.into_parts();
        assert_eq!(rt; ChangeStore::<Drive>::has_failed(&store), left < 1976);
        let written = store.into_inner().inner;
        assert_eq!(rt; answered, changes_within((IMAGE + left) as u64));
        assert!(rt; holds(rt.alloc(), &written, answered.min(5)));
    }
    Ok(())
}

#[test]
fn reads_what_it_wrote(rt: HostRuntime) -> Result<(), Fail> {
    let alloc = rt.alloc();
    let drive = Drive::new(alloc, GEOMETRY)?;
    let mut device = Journaling::new(alloc, drive, Unknown::new(Vec::new(alloc)), START);
    let mut none = Vec::new(alloc);
    assert!(rt; is_done(&mut device, append_at(0), &[0xaa; 512], &mut none));
    let mut read = Vec::new(alloc);
    read_extending(&mut device, 0, 1, &mut read)?;
    assert_eq!(rt; read.as_slice(), [0xaa; 512].as_slice());
    assert_eq!(rt; device.completed(), 2);
    assert_eq!(rt; device.geometry(), GEOMETRY);
    Ok(())
}

#[test]
fn a_store_in_memory_holds_what_it_was_given(rt: HostRuntime) -> Result<(), Fail> {
    let mut store = Held::new(rt.alloc(), Vec::new(rt.alloc()), usize::MAX);
    ChangeStore::<Drive>::append(&mut store, b"one")?;
    ChangeStore::<Drive>::append(&mut store, b"two")?;
    assert_eq!(rt; store.bytes(), b"onetwo".as_slice());
    Ok(())
}

/// The first command is one change after the image, and past the limit. So the image is written anew before the second
/// change, and then there may be twice as many bytes as it has: one more time before the fourth.
#[test]
fn a_store_in_memory_is_written_anew(rt: HostRuntime) -> Result<(), Fail> {
    let drive = Drive::new(rt.alloc(), GEOMETRY)?;
    let store = Held::of_drive(rt.alloc(), &drive, IMAGE)?;
    let mut device = Journaling::new(rt.alloc(), drive, store, START);
    assert_eq!(rt; run_five(rt.alloc(), &mut device), 5);
    let (_, store) = device.into_parts();
    assert_eq!(rt; store.bytes().len(), IMAGE + 3 * 512 + 176);
    let opened = open_drive(rt.alloc(), &mut store.bytes())?;
    assert!(rt; !opened.is_image);
    assert_eq!(rt; blocks_of(&opened.drive), BLOCKS[5]);
    Ok(())
}

/// The lines of a run, each of which makes one change.
const LINES: &[u8] = b"fill 0 1 11\nfill 1 1 22\nfill 0 1 33\ntrim 1 1\nfill 2 1 44\n";

/// Where each of the changes ends: a header, and a block of data except for the trim.
const LINE_ENDS: [usize; 5] = [1112, 2224, 3336, 3936, 5048];

/// What the array reads after as many lines.
const ARRAYS: [&[u8]; 6] = [
    b"0 00*512\n1 00*512\n2 00*512\nok\n",
    b"0 11*512\n1 00*512\n2 00*512\nok\n",
    b"0 11*512\n1 22*512\n2 00*512\nok\n",
    b"0 33*512\n1 22*512\n2 00*512\nok\n",
    b"0 33*512\n1 00*512\n2 00*512\nok\n",
    b"0 33*512\n1 00*512\n2 44*512\nok\n",
];

/// Runs these lines over a device with 5 logical blocks, and shows the replies.
fn run_lines<D: Device + Honest + Drop>(alloc: Global, device: D, lines: &[u8]) -> (D, Vec<u8>) {
    let mut reader = LineReader::new(alloc, lines);
    let mut replies = Vec::new(alloc);
    let (device, _) = run_trace(alloc, &mut reader, &mut replies, device, 5);
    (device, replies)
}

/// A run whose store fails after that many bytes of changes: how many lines were answered, and what the store holds.
fn run_until(alloc: Global, left: usize) -> Result<(usize, Vec<u8>), Fail> {
    let geometry = Geometry {
        capacity: 6,
        zones: 4,
        size: 8,
        ..GEOMETRY
    };
    let drive = Drive::new(alloc, geometry)?;
    let mut bytes = Vec::new(alloc);
    write_image(&drive, &mut bytes)?;
    let writer = FailAfter::in_steps(bytes, left, 100);
    let device = Journaling::new(alloc, drive, Unknown::new(writer), START);
    let (device, replies) = run_lines(alloc, device, LINES);
    let (_, store) = device.into_parts();
    Ok((replies.len() / 3, store.into_inner().inner))
}

/// How many of the lines have their whole changes in that many bytes.
fn lines_within(bytes: usize) -> usize
    ensures { result ≤ 5 }
{
    let lines = LINE_ENDS.iter().filter(|end| **end <= bytes).count();
    lines.min(5)
}

#[test]
fn a_store_that_fails_holds_the_lines_that_were_answered(rt: HostRuntime) -> Result<(), Fail> {
    for left in 0..5049 {
        let (answered, bytes) = run_until(rt.alloc(), left)?;
        let lines = lines_within(left);
        assert_eq!(rt; answered, lines);
        let opened = open_drive(rt.alloc(), &mut bytes.as_slice())?;
        let (_, replies) = run_lines(rt.alloc(), opened.drive, b"read 0 3\n");
        assert_eq!(rt; replies.as_slice(), ARRAYS[lines]);
    }
    Ok(())
}
