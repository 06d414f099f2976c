ghost use Rattle.std.specs.Prelude.{◌≡◌, ◌==◌, ◌&&◌, List, ℕ, IfErr, IfOk};
ghost use Rattle.file_drive.specs.Faults.{IsOpenFault};
ghost use Rattle.file_drive.specs.Found.{IsFound};
ghost use Rattle.file_drive.specs.Head.{is_known};

use crate::boot::Boot;
use crate::entries::table_entries;
use crate::entry::Entry;
use crate::fault::OpenFault;
use crate::head::{Head, read_head};
use crate::proving::live_entries;
use crate::tables::{Tables, read_tables};
use file_bytes::FileBytes;
use std::alloc::Global;

/// All that an open reads of a file.
#[derive(Drop)]
pub struct Found {
    pub head: Head,
    pub tables: Tables,
    /// The zones by the table that counts.
    pub entries: Vec<Entry>,
    /// Whether the file names this boot, but does not show what was written since the last flush. Then the zones are
    /// those of that flush.
    pub set_back: bool,
}

/// Whether a file that was served in one boot of a system is opened in the same one.
pub fn is_same_boot(served: Boot, boot: Boot) -> bool
    ensures { result ≡ (is_known boot && (served.first == boot.first && served.second == boot.second)) }
{
    boot.second != 0 && served.first == boot.first && served.second == boot.second
}

/// Reads and checks what an open in this boot of a system needs. In the boot that the file names the live table counts,
/// if the file proves it, and else the flushed one.
pub fn read_all<F: FileBytes>(alloc: Global, file: &mut F, boot: Boot) -> Result<Found, OpenFault>
    ensures ok { IfOk result (IsFound boot (F.FileBytes.seen file.old)) }
    ensures err { IfErr result (IsOpenFault (F.FileBytes.seen file.old)) }
    ensures seen { F.FileBytes.seen file.new ≡ F.FileBytes.seen file.old }
    ensures leaves { (c : List ℕ) → F.FileBytes.may_leave file.new c → F.FileBytes.may_leave file.old c }
    ensures usable { F.FileBytes.is_usable file.new ≡ F.FileBytes.is_usable file.old }
{
    let head = read_head(alloc, file)?;
    let geometry = &head.geometry;
    let tables = read_tables(alloc, file, geometry)?;
    let flushed = table_entries(alloc, geometry, &tables.safe)?;
    if !is_same_boot(head.boot, boot) {
        return Ok(Found {
            head,
            tables,
            entries: flushed,
            set_back: false,
        });
    }
    match live_entries(alloc, file, geometry, &tables)? {
        Some(entries) => Ok(Found {
            head,
            tables,
            entries,
            set_back: false,
        }),
        None => Ok(Found {
            head,
            tables,
            entries: flushed,
            set_back: true,
        }),
    }
}
