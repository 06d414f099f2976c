// A file is marked while a program has it. So a copy that is made meanwhile, or after a kill, is refused.

ghost use Rattle.std.specs.Prelude.{◌≡◌};

use crate::boots::Before;
use crate::drives_in_files::{GEOMETRY, formatted, opened, put_one};
use file_bytes::FileBytes;
use file_drive::{ClaimedFile, OpenFault, check_mark, mark_file};
use std::alloc::Global;
use std::test::Fail;

/// The numbers of a file, and of a copy of it.
const OWN: u32 = 7;

const OTHER: u32 = 0x8000_0001;

/// Whether a file is refused as a copy by a number.
fn is_copy<F: FileBytes>(alloc: Global, file: &mut F, number: u32) -> bool
    ensures { F.FileBytes.is_usable file.new ≡ F.FileBytes.is_usable file.old }
{
    matches!(check_mark(alloc, file, number), Err(OpenFault::Copied))
}

/// A program writes to a drive, and is killed: whether what it leaves is opened by its own number alone.
fn is_known_after_a_kill(alloc: Global) -> Option<bool> {
    let mut file = formatted(alloc, &GEOMETRY)?;
    mark_file(alloc, &mut file, OWN).ok()?;
    let mut drive = opened(alloc, ClaimedFile::new(file, OWN), Before)?;
    put_one(alloc, &mut drive, 0, 5)?;
    let mut file = drive.into_zones().into_file().into_inner();
    let by_other = is_copy(alloc, &mut file, OTHER);
    let by_own = check_mark(alloc, &mut file, OWN).is_ok();
    Some(by_other && by_own)
}

#[test]
fn a_copy_of_a_drive_in_use_is_refused(rt: HostRuntime) -> Result<(), Fail> {
    assert_eq!(rt; is_known_after_a_kill(rt.alloc()), Some(true));
    Ok(())
}

/// Whether a file that was marked, and is at rest again, is opened by any number.
fn is_free_at_rest(alloc: Global) -> Option<bool> {
    let mut file = formatted(alloc, &GEOMETRY)?;
    let before = is_copy(alloc, &mut file, OTHER);
    mark_file(alloc, &mut file, OWN).ok()?;
    mark_file(alloc, &mut file, OWN).ok()?;
    let mut file = ClaimedFile::new(file, OWN).end().ok()?;
    let after = is_copy(alloc, &mut file, OTHER);
    Some(!before && !after)
}

#[test]
fn a_copy_of_a_drive_at_rest_is_none(rt: HostRuntime) -> Result<(), Fail> {
    assert_eq!(rt; is_free_at_rest(rt.alloc()), Some(true));
    Ok(())
}

/// Whether just what touches the mark is not written.
fn keeps_its_mark(alloc: Global) -> Option<bool> {
    let mut file = formatted(alloc, &GEOMETRY)?;
    mark_file(alloc, &mut file, OWN).ok()?;
    let mut file = ClaimedFile::new(file, OWN);
    if file.len() < 4096 {
        return None;
    }
    let before = file.write(70, &[1; 10]).is_ok();
    let boot = file.write_word(72, 1).is_ok();
    let front = file.write(70, &[1; 11]).is_err();
    let end = file.write(87, &[1; 1]).is_err();
    let word = file.write_word(80, 0).is_err();
    let after = file.write(88, &[1; 10]).is_ok();
    let kept = is_copy(alloc, &mut file, OTHER);
    Some(before && boot && front && end && word && after && kept)
}

#[test]
fn no_write_touches_a_mark(rt: HostRuntime) -> Result<(), Fail> {
    assert_eq!(rt; keeps_its_mark(rt.alloc()), Some(true));
    Ok(())
}

/// Whether a part of a mark is none, as a loss of power may leave it.
fn ignores_a_part(alloc: Global) -> Option<bool> {
    let mut file = formatted(alloc, &GEOMETRY)?;
    mark_file(alloc, &mut file, OWN).ok()?;
    if file.len() < 4096 {
        return None;
    }
    file.write(84, &[0]).ok()?;
    Some(!is_copy(alloc, &mut file, OTHER))
}

#[test]
fn a_part_of_a_mark_is_none(rt: HostRuntime) -> Result<(), Fail> {
    assert_eq!(rt; ignores_a_part(rt.alloc()), Some(true));
    Ok(())
}
