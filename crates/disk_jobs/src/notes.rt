use job_drives::DiskSize;
use std::alloc::{AllocError, Global};
use write_plan::size_advice;

/// What people are told of a disk that has another size than the one that they gave.
fn other_size(alloc: Global, asked: u64, disk: DiskSize) -> Result<String, AllocError> {
    let blocks = disk.blocks;
    format!(in alloc;
        "the drive says that its disk has {blocks} logical blocks: that counts, and not --blocks {asked}"
    )
}

/// What people are told of the size of the disk in a file, a line for each: that it is not the size which they gave, if
/// they gave one; and that its random writes are slow.
pub fn size_notes(
    alloc: Global,
    path: &str,
    asked: Option<u64>,
    disk: DiskSize,
) -> Result<String, AllocError> {
    let mut notes = String::new(alloc);
    if let Some(asked) = asked
        && asked != disk.blocks
    {
        let note = other_size(alloc, asked, disk)?;
        writeln!(&mut notes, "{path}: {note}")?;
    }
    if let Some(note) = size_advice(alloc, &disk.geometry, disk.blocks)? {
        writeln!(&mut notes, "{path}: {note}")?;
    }
    Ok(notes)
}

/// What people are told of a file that had been removed while it was in use, and was saved again at its path.
pub fn restored_note(alloc: Global, path: &str) -> Result<String, AllocError> {
    format!(in alloc; "{path} had been removed while it was in use, and is saved there again")
}
