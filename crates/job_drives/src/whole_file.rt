// A file of which only the first bytes count.

ghost use Rattle.std.specs.Prelude.{◌≡◌, ◌≤◌, IfErr, IfOk, IfSome, OnErr, OnOk, false, is_some, length, min, true};
ghost use Rattle.std.specs.Io.KnownBytes.{append_known};
ghost use Rattle.drive_journal.specs.Cut.{front_of};
ghost use Rattle.job_drives.specs.Backing.{HoldsImage, IsReady, IsWhole};
ghost use Rattle.std.specs.Prelude.{is_ok};

use crate::backing::{Backing, Renewed};
use crate::file_fault::{FileFault, SystemError};
use zone_drive::Drive;

/// A file whose first bytes are whole: an image and whole changes. What follows them is cut off
/// before more is appended.
#[derive(Drop)]
pub(crate) struct WholeFile<B: Backing + Drop> {
    pub(crate) file: B,
    /// How many bytes are whole.
    pub(crate) whole: u64,
    /// Whether the file is known to end after them.
    pub(crate) is_at_end: bool,
    /// Whether all bytes of the file are on the disk.
    pub(crate) is_synced: bool,
}

impl<B: Backing + Drop> WholeFile<B> {
    /// Cuts off what is not whole, and syncs the cut before more is written. Without the sync a
    /// loss of power could bring back the old bytes behind the new ones.
    fn cut_rest(&mut self) -> Result<(), SystemError>
        requires whole { IsWhole (B.state self.old.file) self.old.whole self.old.is_synced }
        requires ready { IsReady (B.state self.old.file) self.old.whole self.old.is_at_end }
        requires unsynced { self.old.is_synced ≡ false }
        ensures whole { IsWhole (B.state self.new.file) self.new.whole self.new.is_synced }
        ensures ready { OnOk result (IsReady (B.state self.new.file) self.new.whole true) }
        ensures unsynced { self.new.is_synced ≡ false }
        ensures length { self.new.whole ≡ self.old.whole }
        ensures bytes { front_of self.new.whole (B.state self.new.file).bytes
            ≡ front_of self.old.whole (B.state self.old.file).bytes }
    {
        if self.whole < self.file.length() {
            self.file.cut(self.whole)?;
            self.file.sync_all()?;
        }
        Ok(())
    }

    /// Makes the file ready to be appended to.
    fn begin(&mut self) -> Result<(), SystemError>
        requires whole { IsWhole (B.state self.old.file) self.old.whole self.old.is_synced }
        requires ready { IsReady (B.state self.old.file) self.old.whole self.old.is_at_end }
        ensures whole { IsWhole (B.state self.new.file) self.new.whole self.new.is_synced }
        ensures ready { OnOk result (IsReady (B.state self.new.file) self.new.whole true) }
        ensures at_end { OnOk result (self.new.is_at_end ≡ true) }
        ensures unsynced { self.new.is_synced ≡ false }
        ensures length { self.new.whole ≡ self.old.whole }
        ensures bytes { front_of self.new.whole (B.state self.new.file).bytes
            ≡ front_of self.old.whole (B.state self.old.file).bytes }
    {
        self.is_synced = false;
        if !self.is_at_end {
            self.cut_rest()?;
            self.is_at_end = true;
        }
        Ok(())
    }

    /// Appends bytes to the whole ones. After a fault the whole bytes are as before, and no more
    /// are appended.
    pub(crate) fn append(&mut self, bytes: &[u8]) -> Result<(), SystemError>
        requires whole { IsWhole (B.state self.old.file) self.old.whole self.old.is_synced }
        requires ready { IsReady (B.state self.old.file) self.old.whole self.old.is_at_end }
        ensures whole { IsWhole (B.state self.new.file) self.new.whole self.new.is_synced }
        ensures ready { OnOk result (IsReady (B.state self.new.file) self.new.whole self.new.is_at_end) }
        ensures ok { OnOk result (front_of self.new.whole (B.state self.new.file).bytes
            ≡ append_known (front_of self.old.whole (B.state self.old.file).bytes) bytes.now) }
        ensures err { OnErr result (front_of self.new.whole (B.state self.new.file).bytes
            ≡ front_of self.old.whole (B.state self.old.file).bytes) }
    {
        self.begin()?;
        self.file.append(bytes)?;
        self.whole = self.file.length();
        Ok(())
    }

    /// Brings all bytes of the file and its name to the disk.
    pub(crate) fn sync(&mut self) -> Result<(), SystemError>
        requires whole { IsWhole (B.state self.old.file) self.old.whole self.old.is_synced }
        ensures whole { IsWhole (B.state self.new.file) self.new.whole self.new.is_synced }
        ensures ready { IsReady (B.state self.old.file) self.old.whole self.old.is_at_end
            → IsReady (B.state self.new.file) self.new.whole self.new.is_at_end }
        ensures bytes { (B.state self.new.file).bytes ≡ (B.state self.old.file).bytes }
        ensures length { self.new.whole ≡ self.old.whole }
        ensures synced { OnOk result ((B.state self.new.file).synced ≡ (B.state self.new.file).bytes) }
        ensures is_named { OnOk result ((B.state self.new.file).is_named ≡ true) }
    {
        if !self.file.is_named() {
            self.file.sync_all()?;
            self.file.sync_name()?;
        } else if !self.is_synced {
            self.file.sync_data()?;
        }
        self.is_synced = true;
        Ok(())
    }

    /// Notes that only this many bytes are whole, or fewer.
    pub(crate) fn cut(&mut self, whole: u64)
        requires whole { IsWhole (B.state self.old.file) self.old.whole self.old.is_synced }
        ensures whole { IsWhole (B.state self.new.file) self.new.whole self.new.is_synced }
        ensures ready { IsReady (B.state self.old.file) self.old.whole self.old.is_at_end
            → IsReady (B.state self.new.file) self.new.whole self.new.is_at_end }
        ensures file { self.new.file ≡ self.old.file }
        ensures length { self.new.whole ≡ min self.old.whole whole }
    {
        self.whole = self.whole.min(whole);
        self.is_at_end = false;
    }

    /// Replaces the file by the image of a drive, which is on the disk then. After a fault it is
    /// as before.
    pub(crate) fn renew(&mut self, drive: &Drive) -> Result<Renewed, FileFault>
        ensures ok { IfOk result (λ renewed.
            HoldsImage drive.now.state (is_ok renewed.name) (B.state self.old.file) (B.state self.new.file)) }
        ensures whole { OnOk result (IsWhole (B.state self.new.file) self.new.whole self.new.is_synced) }
        ensures ready { OnOk result (IsReady (B.state self.new.file) self.new.whole self.new.is_at_end) }
        ensures length { OnOk result (IfSome (B.state self.new.file).bytes (λ bytes. self.new.whole ≡ length bytes)) }
        ensures err { OnErr result ((B.state self.new.file ≡ B.state self.old.file) × (self.new.whole ≡ self.old.whole)
            × (self.new.is_at_end ≡ self.old.is_at_end) × (self.new.is_synced ≡ self.old.is_synced)) }
    {
        let renewed = self.file.renew(drive)?;
        self.whole = self.file.length();
        self.is_at_end = false;
        self.is_synced = true;
        Ok(renewed)
    }
}
