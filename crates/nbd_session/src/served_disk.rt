ghost use Rattle.std.specs.Prelude.{◌≡◌, ◌&&◌, IsTrue, None, false, not, true};
ghost use Rattle.zone_translator.specs.Flat.{answer_while};
ghost use Rattle.nbd_session.specs.Served.{store_of};
ghost use Rattle.nbd_session.specs.Store.{StaysBySync, Syncs};

use crate::fault::StoreFault;
use crate::medium::Medium;
use crate::store::{HonestStore, Store};
use batch_log::entry_room;
use drive_port::{Device, Honest};
use std::marker::Model;
use zone_translator::{AnyDisk, Disk, DiskFault, DiskStatus, Entry};

/// What a served disk does for its client.
#[derive(Clone, Copy, Debug, PartialEq, Eq)]
pub struct ServeOptions {
    /// Whether what would change the disk is refused. Then no turn of cleaning is taken.
    pub read_only: bool,
    /// Whether a turn of cleaning is taken after each request that is answered, if one is due. So more is moved, and
    /// fewer writes wait for a clean.
    pub cleans: bool,
}

impl ServeOptions {
    /// Requests may change the disk, and no turn is taken.
    pub const PLAIN: ServeOptions = ServeOptions {
        read_only: false,
        cleans: false,
    };
}

/// A disk, and the medium that keeps its drive.
#[derive(Drop)]
pub struct ServedDisk<D: Device + Drop, M: Medium + Drop> {
    disk: AnyDisk<D>,
    medium: M,
    /// Whether a turn of cleaning is taken after each request.
    cleans: bool,
    /// Whether what would change the disk is refused, and no turn is taken.
    read_only: bool,
}

impl<D: Device + Drop, M: Medium + Drop> Model for ServedDisk<D, M> {
    ghost use Rattle.nbd_session.specs.Served.{ServedView};

    ghost Value = { ServedView M };

    ghost view = { λ s. record { disk = s.disk; medium = s.medium; read_only = s.read_only; cleans = s.cleans } };
}

impl<D: Device + Drop, M: Medium + Drop> ServedDisk<D, M> {
    /// This disk, whose drive this medium keeps.
    pub fn new(disk: Disk<D>, medium: M, options: ServeOptions) -> ServedDisk<D, M>
        ensures disk { result.disk ≡ disk }
        ensures medium { result.medium ≡ medium }
        ensures read_only { result.read_only ≡ options.read_only }
        ensures cleans { result.cleans ≡ (options.cleans && not options.read_only) }
    {
        ServedDisk::over(disk.into_any(), medium, options)
    }

    /// The same over any device.
    pub fn over(disk: AnyDisk<D>, medium: M, options: ServeOptions) -> ServedDisk<D, M>
        ensures disk { result.disk ≡ disk }
        ensures medium { result.medium ≡ medium }
        ensures read_only { result.read_only ≡ options.read_only }
        ensures cleans { result.cleans ≡ (options.cleans && not options.read_only) }
    {
        ServedDisk {
            disk,
            medium,
            cleans: options.cleans && !options.read_only,
            read_only: options.read_only,
        }
    }

    /// The disk, to be looked at.
    pub fn disk(&self) -> &AnyDisk<D>
        ensures { result.now ≡ self.now.disk }
    {
        &self.disk
    }

    /// A sync of the medium.
    fn sync_medium(&mut self) -> Result<(), StoreFault>
        requires serves { answer_while self.old.disk.status ≡ None }
        requires silent { M.flushes self.old.medium ≡ false }
        ensures syncs { Syncs (store_of M.syncs M.flushes self.old) result (store_of M.syncs M.flushes self.new) }
        ensures stays { StaysBySync (store_of M.syncs M.flushes self.old) result (store_of M.syncs M.flushes self.new) }
    {
        if let Err(_fault) = self.medium.sync() {
            return Err(StoreFault::Medium);
        }
        Ok(())
    }

    /// A Flush of the drive, which the medium counts.
    fn flush(&mut self) -> Result<(), StoreFault>
        requires serves { answer_while self.old.disk.status ≡ None }
        requires flushes { M.flushes self.old.medium ≡ true }
        ensures syncs { IsTrue self.new.disk.drive.clean
            → Syncs (store_of M.syncs M.flushes self.old) result (store_of M.syncs M.flushes self.new) }
        ensures stays { StaysBySync (store_of M.syncs M.flushes self.old) result (store_of M.syncs M.flushes self.new) }
    {
        if let Err(fault) = self.disk.flush() {
            return Err(StoreFault::Disk(fault));
        }
        if let Err(_uncounted) = self.medium.sync() {
            return Err(StoreFault::Medium);
        }
        Ok(())
    }

    /// The disk and the medium, as they are.
    pub fn into_parts(self) -> (Disk<D>, M)
        ensures disk { result.0 ≡ self.disk }
        ensures medium { result.1 ≡ self.medium }
    {
        (Disk::of(self.disk), self.medium)
    }

    /// The same, the disk over any device.
    pub fn into_any_parts(self) -> (AnyDisk<D>, M)
        ensures disk { result.0 ≡ self.disk }
        ensures medium { result.1 ≡ self.medium }
    {
        (self.disk, self.medium)
    }
}

impl<D: Device + Drop, M: Medium + Drop> Store for ServedDisk<D, M> {
    // Nothing is pending, and the syncs are those of its medium, which fails in no other call.
    ghost view = { λ s. store_of M.syncs M.flushes s };

    fn block_bytes(&self) -> u32 {
        let bytes = self.disk.block_bytes();
        prove!(bytes > 0);
        self.disk.device().geometry().block
    }

    fn blocks(&self) -> u64 {
        // A block has less than 2^32 bytes.
        let _block = self.block_bytes();
        self.disk.blocks()
    }

    fn status(&self) -> DiskStatus {
        self.disk.status()
    }

    fn is_read_only(&self) -> bool {
        self.read_only
    }

    fn read(&mut self, first: u64, blocks: u64, into: &mut Vec<u8>) -> Result<(), StoreFault> {
        if let Err(fault) = self.disk.read_joined(first, blocks, into) {
            into.clear();
            return Err(StoreFault::Disk(fault));
        }
        Ok(())
    }

    fn write(&mut self, first: u64, bytes: &[u8]) -> Result<(), StoreFault> {
        self.disk.write(first, bytes)?;
        Ok(())
    }

    fn most_listed(&self) -> u64 {
        let geometry = self.disk.device().geometry();
        let most = geometry.transfer.saturating_sub(1);
        u64::from(most.min(entry_room(geometry.block)))
    }

    fn write_list(&mut self, entries: &[Entry], bytes: &[u8]) -> Result<(), DiskFault> {
        self.disk.write_list(entries, bytes)
    }

    fn trim(&mut self, first: u64, blocks: u64) -> Result<(), StoreFault> {
        self.disk.trim(first, blocks)?;
        Ok(())
    }

    fn write_zeroes(&mut self, first: u64, blocks: u64) -> Result<(), StoreFault> {
        self.disk.fill(first, blocks, 0)?;
        Ok(())
    }

    fn sync(&mut self) -> Result<(), StoreFault> {
        match self.disk.status() {
            DiskStatus::Serving => {}
            DiskStatus::Stopped => return Err(StoreFault::Disk(DiskFault::Stopped)),
            DiskStatus::Unmounted => return Err(StoreFault::Disk(DiskFault::Unmounted)),
        }
        if self.medium.flushes() {
            self.flush()
        } else {
            self.sync_medium()
        }
    }

    /// Nothing is pending above the disk, so that all that it holds is synced.
    fn force(&mut self, _first: u64, _blocks: u64) -> Result<(), StoreFault> {
        self.sync()
    }

    fn rest(&mut self) {
        if self.cleans && !self.read_only {
            let _ = self.disk.idle();
        }
    }
}

impl<D: Device + Honest + Drop, M: Medium + Drop> HonestStore for ServedDisk<D, M> {
    fn vouch(&self) {
        self.disk.device().vouch();
    }
}
