// The whole bytes of a file, and the changes that are gathered for it.

ghost use Rattle.std.specs.Prelude.{◌≡◌, [], IfOk, OnErr, OnOk, is_ok};
ghost use Rattle.std.specs.Io.KnownBytes.{append_known};
ghost use Rattle.drive_journal.specs.Cut.{front_of};
ghost use Rattle.job_drives.specs.Backing.{HoldsImage, IsReady, IsWhole, held_by};

use crate::backing::{Backing, Renewed};
use crate::file_fault::{FileFault, SystemError};
use crate::whole_file::WholeFile;
use std::io;
use zone_drive::Drive;

/// How many bytes of changes are gathered at most. A longer change is written directly.
const MOST_GATHERED: usize = 1 << 16;

/// A file, and the changes that follow its whole bytes and are not written yet.
#[derive(Drop)]
pub(crate) struct GatheredBytes<B: Backing + Drop> {
    pub(crate) file: WholeFile<B>,
    pub(crate) gathered: Vec<u8>,
}

impl<B: Backing + Drop> GatheredBytes<B> {
    /// How many bytes the file and the changes have together.
    pub(crate) fn length(&self) -> u64 {
        self.file.whole.saturating_add(self.gathered.len() as u64)
    }

    /// Writes what is gathered.
    pub(crate) fn write_out(&mut self) -> Result<(), SystemError>
        requires whole { IsWhole (B.state self.old.file.file) self.old.file.whole self.old.file.is_synced }
        requires ready { IsReady (B.state self.old.file.file) self.old.file.whole self.old.file.is_at_end }
        ensures whole { IsWhole (B.state self.new.file.file) self.new.file.whole self.new.file.is_synced }
        ensures ready { OnOk result (IsReady (B.state self.new.file.file) self.new.file.whole self.new.file.is_at_end) }
        ensures held { held_by (B.state self.new.file.file) self.new.file.whole self.new.gathered.items
            ≡ held_by (B.state self.old.file.file) self.old.file.whole self.old.gathered.items }
        ensures none { OnOk result (self.new.gathered.items ≡ []) }
    {
        if self.gathered.is_empty() {
            return Ok(());
        }
        self.file.append(&self.gathered)?;
        self.gathered.clear();
        Ok(())
    }

    /// Appends a change. It is gathered, unless it is too long for that.
    pub(crate) fn append(&mut self, change: &[u8]) -> Result<(), SystemError>
        requires whole { IsWhole (B.state self.old.file.file) self.old.file.whole self.old.file.is_synced }
        requires ready { IsReady (B.state self.old.file.file) self.old.file.whole self.old.file.is_at_end }
        ensures whole { IsWhole (B.state self.new.file.file) self.new.file.whole self.new.file.is_synced }
        ensures ready { OnOk result (IsReady (B.state self.new.file.file) self.new.file.whole self.new.file.is_at_end) }
        ensures ok { OnOk result (held_by (B.state self.new.file.file) self.new.file.whole self.new.gathered.items
            ≡ append_known (held_by (B.state self.old.file.file) self.old.file.whole self.old.gathered.items)
            change.now) }
        ensures err { OnErr result (held_by (B.state self.new.file.file) self.new.file.whole self.new.gathered.items
            ≡ held_by (B.state self.old.file.file) self.old.file.whole self.old.gathered.items) }
    {
        if change.len() > MOST_GATHERED {
            self.write_out()?;
            return self.file.append(change);
        }
        if change.len() > MOST_GATHERED.saturating_sub(self.gathered.len()) {
            self.write_out()?;
        }
        match self.gathered.extend_from_slice(change) {
            Ok(()) => Ok(()),
            Err(error) => Err(SystemError::from(io::Error::from(error))),
        }
    }

    /// Drops all bytes after the first `whole`, those of the file before it takes more.
    pub(crate) fn cut(&mut self, whole: u64)
        requires whole { IsWhole (B.state self.old.file.file) self.old.file.whole self.old.file.is_synced }
        ensures whole { IsWhole (B.state self.new.file.file) self.new.file.whole self.new.file.is_synced }
        ensures ready { IsReady (B.state self.old.file.file) self.old.file.whole self.old.file.is_at_end
            → IsReady (B.state self.new.file.file) self.new.file.whole self.new.file.is_at_end }
        ensures file { B.state self.new.file.file ≡ B.state self.old.file.file }
        ensures held { held_by (B.state self.new.file.file) self.new.file.whole self.new.gathered.items
            ≡ front_of whole (held_by (B.state self.old.file.file) self.old.file.whole self.old.gathered.items) }
    {
        self.gathered
            .truncate(whole.saturating_sub(self.file.whole) as usize);
        self.file.cut(whole);
    }

    /// Puts the image of a drive in the place of all of them. After a fault they are as before.
    pub(crate) fn renew(&mut self, drive: &Drive) -> Result<Renewed, FileFault>
        ensures ok { IfOk result (λ renewed. HoldsImage drive.now.state (is_ok renewed.name)
            (B.state self.old.file.file) (B.state self.new.file.file)) }
        ensures whole { OnOk result (IsWhole (B.state self.new.file.file) self.new.file.whole
            self.new.file.is_synced) }
        ensures ready { OnOk result (IsReady (B.state self.new.file.file) self.new.file.whole
            self.new.file.is_at_end) }
        ensures held { OnOk result (held_by (B.state self.new.file.file) self.new.file.whole self.new.gathered.items
            ≡ (B.state self.new.file.file).bytes) }
        ensures err { OnErr result ((B.state self.new.file.file ≡ B.state self.old.file.file)
            × (self.new.file.whole ≡ self.old.file.whole) × (self.new.file.is_at_end ≡ self.old.file.is_at_end)
            × (self.new.file.is_synced ≡ self.old.file.is_synced) × (self.new.gathered ≡ self.old.gathered)) }
    {
        let renewed = self.file.renew(drive)?;
        self.gathered.clear();
        Ok(renewed)
    }
}
