ghost use Rattle.std.specs.Prelude.{◌≡◌, ℕ, ◌+◌, ◌<◌, ◌≤◌, Bool, OnErr, OnOk};

use crate::fault::MediumFault;
use std::marker::Model;

/// What keeps a drive when the power fails, as the file that its changes are written to. No contract can say what it
/// keeps: a `sync` that answers `Ok` has made all that was written before durable.
pub trait Medium {
    /// How many syncs it has completed.
    ghost syncs: { Self → ℕ };

    /// Whether a sync of a disk is a Flush of its drive, which the medium only counts.
    ghost flushes: { Self → Bool };

    /// Whether the drive is flushed before each sync. That never changes.
    fn flushes(&self) -> bool
        ensures { result ≡ flushes self.now };

    /// Makes durable what was written. After a fault it never answers `Ok` again, since what it lost is unknown.
    fn sync(&mut self) -> Result<(), MediumFault>
        ensures ok { OnOk result (syncs self.old < syncs self.new) }
        ensures err { OnErr result (syncs self.old ≤ syncs self.new) }
        ensures flushes { flushes self.new ≡ flushes self.old };
}

/// How many syncs a medium has completed, as a medium counts them.
#[derive(Debug, Drop)]
pub struct SyncCount {
    count: u64,
}

impl Model for SyncCount {
    ghost use Rattle.std.specs.Prelude.{ℕ};

    ghost Value = { ℕ };

    ghost view = { λ s. s.count };
}

impl SyncCount {
    /// No sync.
    pub const fn new() -> SyncCount
        ensures { result ≡ 0 }
    {
        SyncCount { count: 0 }
    }

    /// One sync more. After 2^64 - 1 of them no more can be counted, which is a fault.
    pub fn add_one(&mut self) -> Result<(), MediumFault>
        ensures ok { OnOk result (self.new ≡ self.old + 1) }
        ensures err { OnErr result (self.new ≡ self.old) }
    {
        self.count = self.count.checked_add(1).ok_or(MediumFault)?;
        Ok(())
    }

    /// How many there are.
    pub fn get(&self) -> u64
        ensures { result ≡ self.now }
    {
        self.count
    }
}

/// The medium of a drive that keeps each completed command by itself, or is only read. A sync has nothing to do.
#[derive(Debug, Drop)]
pub struct WriteThrough {
    syncs: SyncCount,
}

impl WriteThrough {
    /// A medium that was never synced.
    pub fn new() -> WriteThrough
        ensures { result.syncs ≡ 0 }
    {
        WriteThrough {
            syncs: SyncCount::new(),
        }
    }
}

impl Medium for WriteThrough {
    ghost use Rattle.std.specs.Prelude.{false};

    ghost syncs = { λ m. m.syncs };

    ghost flushes = { λ m. false };

    fn flushes(&self) -> bool {
        false
    }

    fn sync(&mut self) -> Result<(), MediumFault> {
        self.syncs.add_one()
    }
}

/// The medium of a drive that says what a loss of power leaves: a sync is a Flush of that drive.
#[derive(Debug, Drop)]
pub struct DriveFlush {
    syncs: SyncCount,
}

impl DriveFlush {
    /// A medium of a drive that was never flushed.
    pub fn new() -> DriveFlush
        ensures { result.syncs ≡ 0 }
    {
        DriveFlush {
            syncs: SyncCount::new(),
        }
    }
}

impl Medium for DriveFlush {
    ghost use Rattle.std.specs.Prelude.{true};

    ghost syncs = { λ m. m.syncs };

    ghost flushes = { λ m. true };

    fn flushes(&self) -> bool {
        true
    }

    fn sync(&mut self) -> Result<(), MediumFault> {
        self.syncs.add_one()
    }
}
