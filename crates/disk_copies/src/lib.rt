//! The blocks of a disk as flat bytes, as `dd` would copy them: written out of it and read into it; and the same of
//! the drive in a file.
//!
//! ```text
//! export_blocks(alloc, &mut disk, &mut output, 0, disk.blocks())?;
//! let taken = import_blocks(alloc, &mut disk, &mut input, 0, false, &mut written)?; // whole blocks, to the end
//! DiskWriter::new(disk).write(&bytes)?;                                // the first blocks, from a caller that writes
//! do_export(&rt, alloc, &export_job, &total, io::writer(&rt))?;       // of the drive in a file
//! let imported = do_import(&rt, alloc, &import_job, rt.reader());
//! ```
//!
//! An [`ExportJob`] or an [`ImportJob`] says which file is used, and which blocks. [`do_export`] and [`do_import`]
//! open the file of a path, lock it and, after an import, save it.
//!
//! # What is promised
//!
//! Over every reader, writer and device, while the drive is clean: as long as each Read returned what the drive holds
//! (`specs/Copies.antt`):
//!
//! * [`export_blocks`] writes exactly the bytes that one read of these blocks shows. If the writer fails, a beginning
//!   of them is written; if the disk refuses, the bytes of the first blocks. The array stays as it is (`Exports`). If
//!   the drive fails at a block, all blocks before it are written, no other byte, and the fault names it
//!   (`LeavesUnread`). That comes only if the drive has failed at a command. For blocks past the end of the disk
//!   nothing is written, and the fault has the size of the disk (`RefusesPast`).
//! * [`import_blocks`] does what one write of the blocks that it took does: the array has them all or, if the disk
//!   refused, a front of them (`TakesBlocks`). They are whole, and below the size of the disk. `Ok(n)` says that the
//!   reader was at its end, and gave n whole blocks and no other byte (`EndsImport`). `written` is how many blocks it
//!   took. Where the disk refused, so many were written before the ones that it refused, and those are a piece at most
//!   (`CountsWritten`).
//! * The faults of an import: `Input`, less than a piece was read of which nothing came; `Rest`, the reader ended
//!   within a block; `PastEnd`, a block came for which there is no room; `Memory`, nothing was read or done
//!   (`StopsImport`).
//! * What was written to a [`DiskWriter`] are the first blocks of its disk (`written_bytes` in `specs/Written.antt`).
//! * A refusal of the disk has its cause. Each drive has the same geometry, can be mounted again if it could before,
//!   and refused no command.
//!
//! The bytes are promised where reader and writer say by contract which bytes they have left and hold. Whatever the
//! Reads returned, each copy ends, and geometry and size stay (`StaysAlike`). An export that is done has written as
//! many bytes as its blocks have (`GoesWhole`). A [`DiskWriter`] is for a device that is always clean: no
//! [`Write`](std::io::Write) can come to hold bytes that are not known.
//!
//! [`import_mounted`] mounts a drive behind any device, and imports blocks to its disk. Whatever the Reads returned,
//! the shape stays. Nothing is read for a drive that is not mounted, and `Ok(n)` says of the reader what it says above
//! (`ImportsAnyway` in `specs/DriveCopies.antt`).
//!
//! Over every file and store, too (`specs/DriveCopies.antt`):
//!
//! * [`export_drive`] restarts the drive in the file, mounts it as the size that it says, and exports its blocks.
//!   Before another fault than the export's own nothing is written (`ExportsFile`).
//! * [`import_drive`] restarts the drive in the file, mounts it as the size that it says or the number that was given,
//!   and imports blocks to its disk. Whatever ends that, the store holds the drive that is left, in its image and its
//!   changes, which can be mounted again. A failed store is told exactly. Without a mounted drive nothing is read, and
//!   the fault is the first (`ImportsFile`).
//!
//! What is saved after an import, and what is told if its file failed, is decided by `job_drives`.
//!
//! # What is not proved
//!
//! * That a [`DiskWriter`] takes bytes at all while its disk has room, and which refusal it keeps.
//! * That `Input` and `Output` come only if the reader or the writer failed.
//! * That `sparse` trims blocks of zeros. `tools/real_copies` copies real files, dense and sparse, compares their
//!   bytes, and counts the trimmed blocks.
//! * [`do_export`] and [`do_import`]: no contract says what a file holds. That a completed import survives a loss of
//!   power is tested (`tools/power_cuts`). Their lock and `--progress` have no test.
//!
//! Tests: the rows of `tool_rows`.
#![tactic(auto)]

mod copy_fault;
mod disk_writer;
mod drive_export;
mod drive_import;
mod explanation;
mod exporting;
mod file;
mod importing;
mod job;
mod piece;
mod putting;
mod stream_fault;

pub use copy_fault::CopyFault;
pub use disk_writer::DiskWriter;
pub use drive_export::{blocks_asked, export_drive};
pub use drive_import::{import_drive, import_mounted};
pub use explanation::{explain, written_text};
pub use exporting::export_blocks;
pub use file::{Imported, do_export, do_import};
pub use importing::import_blocks;
pub use job::{CopyJob, ExportJob, ImportJob};
pub use stream_fault::{ExportFault, ImportFault};
