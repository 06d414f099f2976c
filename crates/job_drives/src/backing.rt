// What a file has to do so that changes can be appended to it.

ghost use Rattle.std.specs.Prelude.{◌≡◌, IfSome, length};
ghost use Rattle.job_drives.specs.Backing.{AppendsToFile, CutsFile, FileState, IsFrontOf, NamesFile, RenewsFile};
ghost use Rattle.job_drives.specs.Backing.{SyncsFile};

use crate::file_fault::{FileFault, SystemError};
use zone_drive::Drive;

/// A file that was just written anew.
#[derive(Clone, Copy, Debug, PartialEq, Eq)]
pub struct Renewed {
    /// Whether the old file had been removed, so that nothing was at its path.
    pub is_restored: bool,
    /// Whether the name of the new file is on the disk. Its bytes always are.
    pub name: Result<(), SystemError>,
}

/// A file to which changes are appended. A loss of power leaves what was synced, and any of the
/// changes since.
pub trait Backing {
    /// The bytes of the file now and at the last sync, and whether its name is on the disk.
    ghost state: { Self → FileState };

    /// How many bytes the file has.
    fn length(&self) -> u64
        ensures { IfSome (state self.now).bytes (λ bytes. result ≡ length bytes) };

    /// Whether its name is on the disk, as far as this program knows.
    fn is_named(&self) -> bool
        ensures { result ≡ (state self.now).is_named };

    /// Drops all bytes after the first `whole`.
    fn cut(&mut self, whole: u64) -> Result<(), SystemError>
        ensures { CutsFile whole (state self.old) result (state self.new) };

    /// Writes bytes at the end of the file. All bytes of the last sync have to be there still. Else a
    /// loss of power could bring those back that were dropped, with the new ones behind them.
    fn append(&mut self, bytes: &[u8]) -> Result<(), SystemError>
        requires { IsFrontOf (state self.old).synced (state self.old).bytes }
        ensures { AppendsToFile bytes.now (state self.old) result (state self.new) };

    /// Brings the bytes of the file to the disk, and its metadata.
    fn sync_all(&mut self) -> Result<(), SystemError>
        ensures { SyncsFile (state self.old) result (state self.new) };

    /// Brings the bytes of the file to the disk.
    fn sync_data(&mut self) -> Result<(), SystemError>
        ensures { SyncsFile (state self.old) result (state self.new) };

    /// Brings the name of the file to the disk.
    fn sync_name(&mut self) -> Result<(), SystemError>
        ensures { NamesFile (state self.old) result (state self.new) };

    /// Replaces the file by the image of a drive, once that is on the disk. After a fault it is as
    /// before.
    fn renew(&mut self, drive: &Drive) -> Result<Renewed, FileFault>
        ensures { RenewsFile drive.now.state (state self.old) result (state self.new) };
}
