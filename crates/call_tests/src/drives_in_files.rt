ghost use Rattle.std.specs.Prelude.{IfSome, IsTrue};

use crate::boots::{After, Before, empty_file};
use drive_port::{Device, append, finish, read, reset};
use file_bytes::{FileBytes, MemoryFile, StoppingFile};
use file_drive::{FileZones, OpenFault, System, file_length, format, open, serve, store};
use nvme_wire::Command;
use std::alloc::Global;
use std::test::Fail;
use zone_drive::{Drive, ZoneDrive};
use zone_states::Geometry;

pub const GEOMETRY: Geometry = Geometry {
    block: 512,
    zones: 4,
    size: 8,
    capacity: 6,
    transfer: 4,
    active: 4,
    open: 4,
};

/// A file of a fresh drive.
pub fn formatted(alloc: Global, geometry: &Geometry) -> Option<MemoryFile>
    ensures { IfSome result (λ file. IsTrue file.usable) }
{
    if geometry.check().is_err() {
        return None;
    }
    let mut file = MemoryFile::new(alloc, file_length(geometry) as usize).ok()?;
    format(&mut file, geometry).ok()?;
    Some(file)
}

/// A drive over a file, and whether its zones were set back to those of the last flush.
fn opened_and_told<F: FileBytes + Drop, S: System + Drop>(
    alloc: Global,
    file: F,
    system: S,
) -> Option<(ZoneDrive<FileZones<F, S>>, bool)>
    requires { IsTrue (F.FileBytes.is_usable file) }
{
    let mut file = file;
    let found = open(alloc, &mut file, &system).ok()?;
    let set_back = found.set_back;
    Some((serve(alloc, file, system, found), set_back))
}

/// A drive over a file.
pub fn opened<F: FileBytes + Drop, S: System + Drop>(
    alloc: Global,
    file: F,
    system: S,
) -> Option<ZoneDrive<FileZones<F, S>>>
    requires { IsTrue (F.FileBytes.is_usable file) }
{
    let (drive, _) = opened_and_told(alloc, file, system)?;
    Some(drive)
}

/// The file once it lost power, if it may be left with these bytes.
fn after_loss(file: MemoryFile, left: &[u8]) -> Option<MemoryFile>
    ensures { IfSome result (λ file. IsTrue file.usable) }
{
    let mut file = file;
    if file.lose_power(left) != Ok(true) {
        return None;
    }
    Some(file)
}

fn copied(alloc: Global, bytes: &[u8]) -> Option<Vec<u8>> {
    let mut copy = Vec::new(alloc);
    copy.extend_from_slice(bytes).ok()?;
    Some(copy)
}

/// The blocks of two zones, with zeros after those that are written.
fn shown<D: Device>(alloc: Global, drive: &mut D) -> Option<Vec<u8>> {
    let mut room = Vec::new(alloc);
    let mut all = Vec::new(alloc);
    for address in [0, 3, 8, 11] {
        read(drive, address, 3, &mut room).ok()?;
        all.extend_from_slice(&room).ok()?;
    }
    Some(all)
}

/// Appends blocks of one byte to a zone: whether that was answered.
fn put<D: Device>(alloc: Global, drive: &mut D, start: u64, byte: u8, blocks: usize) -> bool {
    if blocks == 0 || blocks > 4 {
        return false;
    }
    let Ok(bytes) = Vec::from_elem(alloc, byte, blocks * 512) else {
        return false;
    };
    if drive.geometry().block != 512 {
        return false;
    }
    append(alloc, drive, start, &bytes).is_ok()
}

/// Appends one block of one byte to a zone, and answers its address.
pub fn put_one<D: Device>(alloc: Global, drive: &mut D, start: u64, byte: u8) -> Option<u64> {
    let bytes = Vec::from_elem(alloc, byte, 512).ok()?;
    if drive.geometry().block != 512 {
        return None;
    }
    append(alloc, drive, start, &bytes).ok()
}

fn flush<D: Device>(alloc: Global, drive: &mut D) -> Option<()> {
    let mut into = Vec::new(alloc);
    drive
        .submit(&Command::Flush.encode(0), &[], &mut into)
        .ok()?;
    Some(())
}

/// A drive with blocks in two zones is killed: whether they are found.
fn survives_a_kill(alloc: Global) -> Option<bool> {
    let mut drive = opened(alloc, formatted(alloc, &GEOMETRY)?, Before)?;
    let put_both = put(alloc, &mut drive, 0, 1, 2) && put(alloc, &mut drive, 8, 2, 1);
    let before = shown(alloc, &mut drive)?;
    let file = drive.into_zones().into_file();
    let left = copied(alloc, file.bytes())?;
    let mut drive = opened(alloc, after_loss(file, &left)?, Before)?;
    Some(put_both && shown(alloc, &mut drive)? == before)
}

#[test]
fn a_kill_loses_nothing(rt: HostRuntime) -> Result<(), Fail> {
    assert_eq!(rt; survives_a_kill(rt.alloc()), Some(true));
    Ok(())
}

/// A flush, and then a write that a loss of power takes: whether the zones of the flush are found.
fn survives_a_loss(alloc: Global, tear: bool) -> Option<bool> {
    let mut drive = opened(alloc, formatted(alloc, &GEOMETRY)?, Before)?;
    let put_first = put(alloc, &mut drive, 0, 1, 2);
    flush(alloc, &mut drive)?;
    let before = shown(alloc, &mut drive)?;
    let file = drive.into_zones().into_file();
    let mut left = copied(alloc, file.bytes())?;
    let mut drive = opened(alloc, after_loss(file, &left)?, Before)?;
    let put_second = put(alloc, &mut drive, 0, 3, 1);
    let file = drive.into_zones().into_file();
    if tear {
        *left.get_mut(12288)? = 255;
        *left.get_mut(12292)? = 255;
    }
    let mut drive = opened(alloc, after_loss(file, &left)?, After)?;
    Some(put_first && put_second && shown(alloc, &mut drive)? == before)
}

#[test]
fn a_loss_of_power_leaves_the_last_flush(rt: HostRuntime) -> Result<(), Fail> {
    assert_eq!(rt; survives_a_loss(rt.alloc(), false), Some(true));
    Ok(())
}

#[test]
fn a_torn_word_is_not_looked_at(rt: HostRuntime) -> Result<(), Fail> {
    assert_eq!(rt; survives_a_loss(rt.alloc(), true), Some(true));
    Ok(())
}

/// Where the file has the third block of the first zone.
const THIRD: usize = 1_048_576 + 2 * 512;

/// A block that is written after a flush, in a file that shows it or an older one, in the same boot: whether the zones
/// are those after it, or else those of the flush, and whether the open says which.
fn proves_its_blocks(alloc: Global, is_older: bool) -> Option<bool> {
    let mut drive = opened(alloc, formatted(alloc, &GEOMETRY)?, Before)?;
    let put_first = put(alloc, &mut drive, 0, 1, 2);
    flush(alloc, &mut drive)?;
    let before = shown(alloc, &mut drive)?;
    let put_second = put(alloc, &mut drive, 0, 3, 1);
    let after = shown(alloc, &mut drive)?;
    let file = drive.into_zones().into_file();
    let mut left = copied(alloc, file.bytes())?;
    if is_older {
        *left.get_mut(THIRD)? = 0;
    }
    let (mut drive, set_back) = opened_and_told(alloc, after_loss(file, &left)?, Before)?;
    let wanted = if is_older { before } else { after };
    Some(put_first && put_second && set_back == is_older && shown(alloc, &mut drive)? == wanted)
}

#[test]
fn a_file_that_shows_older_blocks_is_set_back(rt: HostRuntime) -> Result<(), Fail> {
    assert_eq!(rt; proves_its_blocks(rt.alloc(), true), Some(true));
    Ok(())
}

#[test]
fn a_file_that_shows_its_blocks_is_believed(rt: HostRuntime) -> Result<(), Fail> {
    assert_eq!(rt; proves_its_blocks(rt.alloc(), false), Some(true));
    Ok(())
}

/// A file with these bytes.
fn file_of(alloc: Global, bytes: &[u8]) -> Option<MemoryFile>
    ensures { IfSome result (λ file. IsTrue file.usable) }
{
    let mut file = MemoryFile::new(alloc, bytes.len()).ok()?;
    if file.write(0, bytes).is_err() {
        return None;
    }
    Some(file)
}

/// A drive whose zones have no sums, as those of an older program: whether it opens as it was flushed, and goes on.
fn opens_without_sums(alloc: Global) -> Option<bool> {
    let mut drive = opened(alloc, formatted(alloc, &GEOMETRY)?, Before)?;
    let put_first = put(alloc, &mut drive, 0, 1, 2);
    flush(alloc, &mut drive)?;
    let before = shown(alloc, &mut drive)?;
    let file = drive.into_zones().into_file();
    let mut bytes = copied(alloc, file.bytes())?;
    for table in [12_288, 16_384, 20_480, 24_576] {
        *bytes.get_mut(table + 4)? &= 31;
        for at in table + 5..table + 8 {
            *bytes.get_mut(at)? = 0;
        }
    }
    let mut drive = opened(alloc, file_of(alloc, &bytes)?, Before)?;
    let same = shown(alloc, &mut drive)? == before;
    let put_second = put(alloc, &mut drive, 0, 3, 1);
    let after = shown(alloc, &mut drive)?;
    let file = drive.into_zones().into_file();
    let left = copied(alloc, file.bytes())?;
    let mut drive = opened(alloc, after_loss(file, &left)?, Before)?;
    Some(put_first && same && put_second && shown(alloc, &mut drive)? == after)
}

#[test]
fn a_file_without_sums_opens(rt: HostRuntime) -> Result<(), Fail> {
    assert_eq!(rt; opens_without_sums(rt.alloc()), Some(true));
    Ok(())
}

/// A zone is flushed, reset, and written again: whether a kill leaves its new blocks, and a loss of power the old ones.
fn keeps_old_and_new(alloc: Global) -> Option<bool> {
    let mut drive = opened(alloc, formatted(alloc, &GEOMETRY)?, Before)?;
    let put_old = put(alloc, &mut drive, 0, 1, 2);
    flush(alloc, &mut drive)?;
    let old = shown(alloc, &mut drive)?;
    let put_new = reset(alloc, &mut drive, 0).is_ok() && put(alloc, &mut drive, 0, 3, 3);
    let new = shown(alloc, &mut drive)?;
    let file = drive.into_zones().into_file();
    let left = copied(alloc, file.bytes())?;
    let mut drive = opened(alloc, after_loss(file, &left)?, Before)?;
    let killed = shown(alloc, &mut drive)? == new;
    let file = drive.into_zones().into_file();
    let mut drive = opened(alloc, after_loss(file, &left)?, After)?;
    let lost = shown(alloc, &mut drive)? == old;
    Some(put_old && put_new && killed && lost && old != new)
}

#[test]
fn a_reset_keeps_what_a_flush_promised(rt: HostRuntime) -> Result<(), Fail> {
    assert_eq!(rt; keeps_old_and_new(rt.alloc()), Some(true));
    Ok(())
}

/// Whether a file has a byte of this value nowhere.
fn lacks(bytes: &[u8], value: u8) -> bool {
    bytes.iter().all(|byte| *byte != value)
}

/// Blocks of two zones are flushed, and then one of the two is reset: whether the next flush takes its bytes alone.
fn gives_room_back(alloc: Global) -> Option<bool> {
    let mut drive = opened(alloc, formatted(alloc, &GEOMETRY)?, Before)?;
    let put_both = put(alloc, &mut drive, 0, 171, 2) && put(alloc, &mut drive, 8, 172, 1);
    flush(alloc, &mut drive)?;
    let is_reset = reset(alloc, &mut drive, 0).is_ok();
    flush(alloc, &mut drive)?;
    let file = drive.into_zones().into_file();
    Some(put_both && is_reset && lacks(file.bytes(), 171) && !lacks(file.bytes(), 172))
}

#[test]
fn a_flush_gives_room_back(rt: HostRuntime) -> Result<(), Fail> {
    assert_eq!(rt; gives_room_back(rt.alloc()), Some(true));
    Ok(())
}

/// How many steps there are.
const STEPS: usize = 7;

/// Does one step: whether it was answered.
fn step<D: Device>(alloc: Global, drive: &mut D, number: usize) -> bool {
    match number {
        0 => put(alloc, drive, 0, 1, 2),
        1 => put(alloc, drive, 8, 2, 1),
        3 => reset(alloc, drive, 0).is_ok(),
        4 => put(alloc, drive, 0, 3, 3),
        5 => put(alloc, drive, 8, 4, 2),
        _ => flush(alloc, drive).is_some(),
    }
}

/// Does the steps up to the first that is not answered: what is shown after it, and after each before it.
fn done<D: Device>(alloc: Global, drive: &mut D) -> Option<Vec<Vec<u8>>> {
    let mut all = Vec::new(alloc);
    all.push(shown(alloc, drive)?).ok()?;
    for number in 0..STEPS {
        if !step(alloc, drive, number) {
            return Some(all);
        }
        all.push(shown(alloc, drive)?).ok()?;
    }
    Some(all)
}

/// Whether a drive shows what was wanted after one of the steps from one number to another.
fn shows_one_of(shown: &Vec<u8>, wanted: &Vec<Vec<u8>>, first: usize, last: usize) -> bool {
    (first..=last).any(|number| wanted.get(number) == Some(shown))
}

/// A kill at a change of the file. In the same boot the drive is found as after the last step that was answered, or the
/// next. In another boot it is found as after the last flush that was answered, or a later step.
fn survives_a_stop(alloc: Global, changes: u64, wanted: &Vec<Vec<u8>>) -> Option<bool> {
    let drive = opened(alloc, formatted(alloc, &GEOMETRY)?, Before)?;
    let file = drive.into_zones().into_file();
    let left = copied(alloc, file.bytes())?;
    let file = StoppingFile::new(after_loss(file, &left)?, changes.checked_add(1)?, 700);
    let mut drive = opened(alloc, file, Before)?;
    let answered = done(alloc, &mut drive)?.len();
    let last = answered.checked_sub(1)?;
    let flushed = if last < 3 { 0 } else { 3 };
    let file = drive.into_zones().into_file().into_inner();
    let left = copied(alloc, file.bytes())?;
    let mut drive = opened(alloc, after_loss(file, &left)?, Before)?;
    let same_boot = shows_one_of(&shown(alloc, &mut drive)?, wanted, last, answered);
    let file = drive.into_zones().into_file();
    let mut drive = opened(alloc, after_loss(file, &left)?, After)?;
    let another = shows_one_of(&shown(alloc, &mut drive)?, wanted, flushed, answered);
    Some(same_boot && another)
}

fn survives_all_stops(alloc: Global) -> Option<bool> {
    let mut drive = opened(alloc, formatted(alloc, &GEOMETRY)?, Before)?;
    let wanted = done(alloc, &mut drive)?;
    for changes in 0..40 {
        if survives_a_stop(alloc, changes, &wanted) != Some(true) {
            return Some(false);
        }
    }
    Some(wanted.len() == STEPS + 1)
}

#[test]
fn a_kill_at_each_change_loses_nothing(rt: HostRuntime) -> Result<(), Fail> {
    assert_eq!(rt; survives_all_stops(rt.alloc()), Some(true));
    Ok(())
}

/// A drive in memory: an opened zone with two blocks, one Full with all six, one Full with one, and an Empty one.
fn in_memory(alloc: Global) -> Option<Drive> {
    let mut drive = Drive::new(alloc, GEOMETRY).ok()?;
    let put_all = put(alloc, &mut drive, 0, 1, 2)
        && put(alloc, &mut drive, 8, 2, 4)
        && put(alloc, &mut drive, 8, 3, 2)
        && put(alloc, &mut drive, 16, 4, 1);
    finish(alloc, &mut drive, 16).ok()?;
    if put_all { Some(drive) } else { None }
}

/// Whether a drive in memory that is stored in a file is found there: the blocks, where the next one goes, and a Full
/// zone with one block.
fn is_found_in_its_file(alloc: Global) -> Option<bool> {
    let mut drive = in_memory(alloc)?;
    let mut file = empty_file(alloc, &drive)?;
    store(&mut file, &drive).ok()?;
    let mut found = opened(alloc, file, Before)?;
    let same = shown(alloc, &mut found)? == shown(alloc, &mut drive)?;
    let refuses = !put(alloc, &mut found, 16, 5, 1) && !put(alloc, &mut found, 8, 5, 1);
    Some(same && refuses && put_one(alloc, &mut found, 0, 6) == Some(2))
}

#[test]
fn a_stored_drive_is_found(rt: HostRuntime) -> Result<(), Fail> {
    assert_eq!(rt; is_found_in_its_file(rt.alloc()), Some(true));
    Ok(())
}

/// How many changes of the file a store of that drive takes: six blocks of zeros, the blocks of four zones, three words
/// in each table, the seven words of the shape, a sync, the first word, and a sync.
const CHANGES: u64 = 26;

/// What an open says of a file in which that drive was stored up to a change.
fn opened_after(alloc: Global, changes: u64) -> Option<Result<(), OpenFault>> {
    let drive = in_memory(alloc)?;
    let mut file = StoppingFile::new(empty_file(alloc, &drive)?, changes, 700);
    let stored = store(&mut file, &drive).is_ok();
    let file = file.into_inner();
    let left = copied(alloc, file.bytes())?;
    let mut file = after_loss(file, &left)?;
    let opened = open(alloc, &mut file, &Before).map(|_| ());
    if stored == (changes >= CHANGES) {
        Some(opened)
    } else {
        None
    }
}

/// Before its first word is written a file is no drive, and after it the whole one.
fn is_told_as_no_drive(alloc: Global) -> bool {
    let unnamed = (0..CHANGES - 1).all(|changes| matches!(
        opened_after(alloc, changes),
        Some(Err(OpenFault::NotADrive))
    ));
    let named = (CHANGES - 1..CHANGES + 2).all(|changes| matches!(
        opened_after(alloc, changes),
        Some(Ok(()))
    ));
    unnamed && named
}

#[test]
fn a_store_that_is_cut_leaves_no_drive(rt: HostRuntime) -> Result<(), Fail> {
    assert!(rt; is_told_as_no_drive(rt.alloc()));
    Ok(())
}
