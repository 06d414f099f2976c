// The file of a drive, with the changes that are gathered for it.

ghost use Rattle.std.specs.Prelude.{◌≡◌, ◌↔◌, ◌+◌, Err, IfErr, IfOk, IfSome, IsErr, IsTrue, None, OnErr, OnOk, false};
ghost use Rattle.std.specs.Prelude.{is_some, true};
ghost use Rattle.std.specs.Io.KnownBytes.{append_known};
ghost use Rattle.drive_journal.specs.Change.{start};
ghost use Rattle.drive_journal.specs.Cut.{front_of};
ghost use Rattle.drive_journal.specs.File.{IsStoredWhole};
ghost use Rattle.job_drives.specs.Backing.{IsFrontOf, IsTooLong, SavesDrive, fault_of, limit_of};

use crate::backing::Backing;
use crate::changes_output::SentAfter;
use crate::file_end::FileEnd;
use crate::file_fault::{FileFault, SystemError};
use crate::gathered_bytes::GatheredBytes;
use crate::input_gate::Gate;
use crate::new_file::Saved;
use crate::whole_file::WholeFile;
use std::alloc::Global;
use std::marker::Model;
use zone_drive::Drive;

/// A file is written anew when it is longer than twice the image of its drive by more than this.
const ROOM: u64 = 1 << 20;

/// How far the changes of a file have come: written, or on the disk. Only the file makes such a
/// value, so whoever has one knows that it is true.
#[derive(Drop)]
pub struct Reached {
    so_far: SentAfter,
}

impl Model for Reached {
    ghost use Rattle.job_drives.specs.declared.changes_output.SentAfter.{SentAfter};

    ghost Value = { SentAfter };

    ghost view = { λ r. r.so_far };
}

/// The file of a drive, to which changes are appended. They are gathered, and written together.
/// Until the first one is written, the file is unchanged.
///
/// The file is written anew when it is more than 1 MiB longer than twice the image of the drive.
/// To know the length of the image, the blocks of the drive are counted, which takes time. So they
/// are counted only once the file is longer than `limit`. Each count sets the next limit.
#[derive(Drop)]
pub struct GatheredFile<'g, B: Backing + Drop> {
    bytes: GatheredBytes<B>,
    /// Why it cannot be written, if it was opened only to be read.
    read_only: Option<SystemError>,
    /// When the file is longer than this, the blocks of the drive are counted.
    limit: u64,
    is_changed: bool,
    /// Why it takes no more changes.
    change_fault: Option<FileFault>,
    /// Why a sync failed. It is kept, since the system tells of lost bytes only once. From then on
    /// the file may have bytes that are not on the disk.
    sync_fault: Option<FileFault>,
    /// Why the file can never be written anew, if that is so.
    never_anew: Option<FileFault>,
    /// Whether somebody removed the file, and it was made again at its path.
    is_restored: bool,
    /// The gate that is shut at the first fault.
    gate: Option<&'g Gate>,
}

impl<'g, B: Backing + Drop> Model for GatheredFile<'g, B> {
    ghost use Rattle.std.specs.Prelude.{◌≡◌, ◌||◌, None, is_some};
    ghost use Rattle.job_drives.specs.Backing.{Gathered, IsReady, IsWhole, held_by};

    ghost Value = { Gathered };

    ghost view = { λ f. record {
      held = held_by (B.state f.bytes.file.file) f.bytes.file.whole f.bytes.gathered.items;
      file = B.state f.bytes.file.file;
      change_fault = f.change_fault;
      sync_fault = f.sync_fault;
      end = record { is_changed = f.is_changed; takes_none = is_some f.change_fault || is_some f.read_only };
    } };

    // While it takes changes, the file is ready for them.
    ghost invariant = { λ f. IsWhole (B.state f.bytes.file.file) f.bytes.file.whole f.bytes.file.is_synced
        × (f.change_fault ≡ None → IsReady (B.state f.bytes.file.file) f.bytes.file.whole f.bytes.file.is_at_end) };
}

/// The length at which the blocks of a drive are counted again, after a count that gave this
/// image.
fn limit_of(image: u64) -> u64
    ensures { result ≡ limit_of image }
{
    image.saturating_add(ROOM).saturating_mul(2)
}

/// Whether a file is too long, and so is written anew, if the image of its drive has this length.
fn is_too_long(length: u64, image: u64) -> bool
    ensures { IsTrue result ↔ IsTooLong length image }
{
    length > image.saturating_mul(2).saturating_add(ROOM)
}

/// How many bytes the image of a drive has.
fn image_length(drive: &Drive) -> u64 {
    let mut bytes: u64 = 64;
    for zone in drive.zones() {
        bytes = bytes
            .saturating_add(8)
            .saturating_add(zone.written().len() as u64);
    }
    bytes
}

impl<'g, B: Backing + Drop> GatheredFile<'g, B> {
    /// A file to which nothing was appended. `read_only` says why it cannot be written, if that is
    /// so.
    pub fn new(alloc: Global, file: B, read_only: Option<SystemError>) -> Self
        requires { IsFrontOf (B.state file).synced (B.state file).bytes }
        ensures held { result.held ≡ (B.state file).bytes }
        ensures file { result.file ≡ B.state file }
        ensures sound { fault_of result ≡ None }
        ensures unchanged { result.end ≡ record { is_changed = false; takes_none = is_some read_only } }
    {
        let file = WholeFile {
            whole: file.length(),
            file,
            is_at_end: false,
            is_synced: false,
        };
        GatheredFile {
            bytes: GatheredBytes {
                file,
                gathered: Vec::new(alloc),
            },
            read_only,
            limit: limit_of(0),
            is_changed: false,
            change_fault: None,
            sync_fault: None,
            never_anew: None,
            is_restored: false,
            gate: None,
        }
    }

    /// Shuts this gate at the first fault.
    pub fn set_gate(&mut self, gate: &'g Gate)
        ensures { self.new ≡ self.old }
    {
        self.gate = Some(gate);
    }

    /// What a job tells of its file at the end.
    pub fn end(&self) -> FileEnd
        ensures { result ≡ self.now.end }
    {
        FileEnd {
            is_changed: self.is_changed,
            takes_none: self.change_fault.is_some() || self.read_only.is_some(),
        }
    }

    /// Why it takes no more changes, or why what it has may not be on the disk.
    pub fn fault(&self) -> Option<FileFault>
        ensures { result ≡ fault_of self.now }
    {
        self.change_fault.or(self.sync_fault)
    }

    /// Says how many bytes of the file are its image and whole changes.
    pub fn cut(&mut self, whole: u64)
        ensures held { self.new.held ≡ front_of whole self.old.held }
        ensures file { self.new.file ≡ self.old.file }
        ensures fault { fault_of self.new ≡ fault_of self.old }
    {
        self.bytes.cut(whole);
    }

    /// Shuts the gate if there is a fault.
    fn note(&self) {
        if let (Some(_), Some(gate)) = (self.fault(), self.gate) {
            gate.shut();
        }
    }

    /// Appends a change to a file that takes changes.
    fn take(&mut self, change: &[u8]) -> Result<(), FileFault>
        requires { self.old.change_fault ≡ None }
        ensures ok { OnOk result (self.new.held ≡ append_known self.old.held change.now) }
        ensures err { OnErr result (self.new.held ≡ self.old.held) }
        ensures fault { IfErr result (λ fault. self.new.change_fault ≡ Some fault) }
        ensures changed { self.new.end.is_changed ≡ true }
        ensures sync_fault { self.new.sync_fault ≡ self.old.sync_fault }
    {
        self.is_changed = true;
        let taken = match self.read_only {
            Some(error) => Err(error),
            None => self.bytes.append(change),
        };
        let taken = taken.map_err(FileFault::Change);
        self.change_fault = taken.err();
        taken
    }

    /// Appends a change. It may be gathered. After a fault none is appended.
    pub fn append(&mut self, change: &[u8]) -> Result<(), FileFault>
        ensures ok { OnOk result (self.new.held ≡ append_known self.old.held change.now) }
        ensures err { OnErr result (self.new.held ≡ self.old.held) }
        ensures changed { OnOk result (self.new.end.is_changed ≡ true) }
        ensures fault { IfErr result (λ fault. fault_of self.new ≡ Some fault) }
        ensures refused { IfSome (fault_of self.old) (λ fault. result ≡ Err fault) }
    {
        if let Some(fault) = self.fault() {
            return Err(fault);
        }
        let taken = self.take(change);
        self.note();
        taken
    }

    /// Writes all gathered changes to the file. If none is gathered, this succeeds, even after a
    /// change was refused.
    pub fn write_out(&mut self) -> Result<(), FileFault>
        ensures held { self.new.held ≡ self.old.held }
        ensures written { OnOk result (IsFrontOf self.new.held self.new.file.bytes) }
        ensures fault { IfErr result (λ fault. self.new.change_fault ≡ Some fault) }
        ensures sync_fault { self.new.sync_fault ≡ self.old.sync_fault }
    {
        if self.bytes.gathered.is_empty() {
            return Ok(());
        }
        if let Some(fault) = self.change_fault {
            return Err(fault);
        }
        let written = self.bytes.write_out().map_err(FileFault::Change);
        self.change_fault = written.err();
        self.note();
        written
    }

    /// Syncs the file, unless a sync failed before.
    fn bring_to_disk(&mut self) -> Result<(), FileFault>
        ensures held { self.new.held ≡ self.old.held }
        ensures file { self.new.file.bytes ≡ self.old.file.bytes }
        ensures synced { OnOk result (self.new.file.synced ≡ self.new.file.bytes) }
        ensures is_named { OnOk result (self.new.file.is_named ≡ true) }
        ensures fault { IfErr result (λ fault. self.new.sync_fault ≡ Some fault) }
        ensures refused { IfSome self.old.sync_fault (λ fault. result ≡ Err fault) }
    {
        if let Some(fault) = self.sync_fault {
            return Err(fault);
        }
        let synced = self.bytes.file.sync().map_err(FileFault::Sync);
        self.sync_fault = synced.err();
        synced
    }

    /// Writes all gathered changes to the file, and brings the file and its name to the disk.
    /// After one fault it always fails.
    pub fn sync(&mut self) -> Result<(), FileFault>
        ensures held { self.new.held ≡ self.old.held }
        ensures synced { OnOk result (IsFrontOf self.new.held self.new.file.synced) }
        ensures is_named { OnOk result (self.new.file.is_named ≡ true) }
        ensures fault { OnErr result (is_some (fault_of self.new) ≡ true) }
        ensures refused { IfSome self.old.sync_fault (λ fault. IsErr result) }
    {
        self.write_out()?;
        let synced = self.bring_to_disk();
        self.note();
        synced
    }

    /// Writes all gathered changes to the file. If asked to, it also brings them to the disk.
    pub fn reach(&mut self, after: SentAfter) -> Result<Reached, FileFault>
        ensures reached { IfOk result (λ reached. reached ≡ after) }
        ensures held { self.new.held ≡ self.old.held }
        ensures written { OnOk result (after ≡ SentAfter.Write → IsFrontOf self.new.held self.new.file.bytes) }
        ensures synced { OnOk result (after ≡ SentAfter.Sync → IsFrontOf self.new.held self.new.file.synced) }
    {
        match after {
            SentAfter::Write => self.write_out()?,
            SentAfter::Sync => self.sync()?,
        }
        Ok(Reached { so_far: after })
    }

    /// Whether the file is not written anew at all: it failed, cannot be written, or cannot be
    /// replaced.
    fn is_never_renewed(&self) -> bool {
        self.fault().is_some() || self.read_only.is_some() || self.never_anew.is_some()
    }

    /// Writes the image of the drive to a new file, which takes the place of this one. The image
    /// has all changes, also the gathered ones, and is on the disk.
    fn write_anew(&mut self, drive: &Drive) -> Result<(), FileFault>
        ensures ok { OnOk result (IfSome self.new.held (λ bytes. IsStoredWhole bytes drive.now.state start)) }
        ensures synced { OnOk result (self.new.file.synced ≡ self.new.held) }
        ensures err { OnErr result (self.new ≡ self.old) }
        ensures known { is_some self.new.held ≡ is_some self.old.held }
    {
        let renewed = self.bytes.renew(drive)?;
        self.limit = limit_of(self.bytes.file.whole);
        self.is_restored = self.is_restored || renewed.is_restored;
        Ok(())
    }

    /// Writes the file anew, if it is too long, and says whether it did.
    pub fn renew(&mut self, drive: &Drive) -> bool
        ensures anew { IsTrue result → IfSome self.new.held (λ bytes. IsStoredWhole bytes drive.now.state start) }
        ensures synced { IsTrue result → self.new.file.synced ≡ self.new.held }
        ensures same { result ≡ false → self.new ≡ self.old }
        ensures known { is_some self.new.held ≡ is_some self.old.held }
    {
        let length = self.bytes.length();
        if length <= self.limit || self.is_never_renewed() {
            return false;
        }
        let image = image_length(drive);
        if !is_too_long(length, image) {
            self.limit = limit_of(image);
            return false;
        }
        if let Err(fault) = self.write_anew(drive) {
            // It is tried again when the file is twice as long, unless it can never succeed.
            self.limit = length.saturating_mul(2);
            self.never_anew = fault.is_final().then_some(fault);
            return false;
        }
        true
    }

    /// Saves a drive in the file, if there is one to save. Gathered changes are dropped.
    pub fn save(&mut self, drive: Option<Drive>) -> Result<Saved, FileFault>
        ensures { SavesDrive drive self.old.file result self.new.file }
    {
        let Some(drive) = drive else {
            return Ok(Saved {
                is_restored: self.is_restored,
            });
        };
        if let Some(fault) = self.never_anew {
            return Err(fault);
        }
        let renewed = self.bytes.renew(&drive)?;
        renewed.name.map_err(FileFault::Sync)?;
        Ok(Saved {
            is_restored: self.is_restored || renewed.is_restored,
        })
    }
}
