//! A disk over a device that is always clean: what `AnyDisk` promises while the drive is clean, is always promised
//! here.

ghost use Rattle.std.specs.Prelude.{◌≡◌, ◌+◌, ◌<◌, ◌≤◌, ◌^◌, ◌++◌, [], IfErr, IfOk, None, OnErr, OnOk, false, IsTrue};
ghost use Rattle.std.specs.Prelude.{is_some, length, nat_eq, nat_lt, slice_index_or, true, ◌*◌};
ghost use Rattle.std.specs.List.{AllByRecursion, IsDistinct, concat, list_all};
ghost use Rattle.batch_log.specs.Log.{data_count};
ghost use Rattle.logical_map.specs.declared.place.Place.TheVariants as places;
ghost use Rattle.remount.specs.Kept.{KeepsMountable};
ghost use Rattle.remount.specs.Mount.{MountFails, Mounts};
ghost use Rattle.drive_survey.specs.Scan.{FailsBy};
ghost use Rattle.drive_survey.specs.Survey.{MayAsk};
ghost use Rattle.drive_array.specs.Reserve.{FitsReserve};
ghost use Rattle.zone_choice.specs.Roles.{empty_count};
ghost use Rattle.zone_choice.specs.Tables.{is_left_out, size_of};
ghost use Rattle.zone_translator.specs.Answers.{Answers, AnswersRead, AreBlocksOf, CostsAtMost, IsMounted};
ghost use Rattle.zone_translator.specs.Answers.{KeepsClean, Remounts, SaysSize, Stores, TakesTurn};
ghost use Rattle.zone_translator.specs.Answers.{StoresList, count_of_blocks, write_bytes, write_content, write_entries};
ghost use Rattle.zone_translator.specs.Batches.{CanWrite, HasBlocks, KeepsCut, KeepsCutTo, is_trim};
ghost use Rattle.zone_translator.specs.Calls.{IsSound, ReportsAll, answer_before, done_of, refusal_before, status_left};
ghost use Rattle.zone_translator.specs.Cleaning.{KeepsCleaning};
ghost use Rattle.zone_translator.specs.Flat.{answer_while, fill, flush, grow, idle, known_blocks, known_growth};
ghost use Rattle.zone_translator.specs.Flat.{blocks_from, known_range, report, trim};
ghost use Rattle.zone_translator.specs.Listed.{CanPutAll, PutSome, RefusedPuts, blocks_named, last_block};
ghost use Rattle.zone_translator.specs.Mount.{GivesBack};
ghost use Rattle.zone_translator.specs.Parts.{KeepsByRead, ReadStops, ReadsPieces, RefusedSome, WroteSome};
ghost use Rattle.zone_translator.specs.Read.{IsPiece};
ghost use Rattle.zone_translator.specs.View.{CompletesAtMost, CostsBatches, DiskCause, HasLive, KeepsDurable, disk_array};
ghost use Rattle.zone_translator.specs.View.{disk_places, disk_size, disk_turns, flat_of, most_batches, mounted_of};
ghost use Rattle.zone_translator.specs.declared.status.DiskStatus.TheVariants.{Serving};

use crate::disk::AnyDisk;
use crate::fault::DiskFault;
use crate::status::DiskStatus;
use batch_log::Entry;
use drive_port::{Device, Honest};
use logical_map::Place;
use remount::MountFault;
use std::alloc::Global;
use std::marker::Model;

/// An array of logical blocks above a zoned drive. A disk owns its drive, and gives it back.
#[derive(Drop)]
pub struct Disk<D: Device + Drop> {
    disk: AnyDisk<D>,
}

impl<D: Device + Drop> Model for Disk<D> {
    ghost use Rattle.zone_translator.specs.View.{DiskView};

    ghost Value = { DiskView };

    ghost view = { λ d. d.disk };
}

impl<D: Device + Drop> Disk<D> {
    /// The disk of this one over any device.
    pub fn of(disk: AnyDisk<D>) -> Disk<D>
        ensures { result ≡ disk }
    {
        Disk { disk }
    }

    /// The same disk, as one over any device.
    pub fn into_any(self) -> AnyDisk<D>
        ensures { result ≡ self }
    {
        self.disk
    }
}

impl<D: Device + Honest + Drop> Disk<D> {
    /// The disk that a drive holds, of `blocks` logical blocks if no header on the drive says how many. The drive
    /// is checked, and what a stop left of it repaired: see `remount::mount`.
    ///
    /// With the fault the drive is given back, and can be mounted if it could before.
    pub fn mount(alloc: Global, device: D, blocks: u64) -> Result<Disk<D>, (MountFault, D)>
        ensures disk { IfOk result (IsMounted (D.drive device) blocks) }
        ensures err { IfErr result
            (λ refusal. GivesBack (D.drive device) blocks refusal.0 (D.drive refusal.1)) }
        // Nothing is sent if the geometry is out of range, or if the reserve does not allow the number.
        ensures unsent { IfErr result (λ refusal. (MayAsk (D.drive device) blocks → ⊥)
            → D.drive refusal.1 ≡ D.drive device) }
    {
        match AnyDisk::mount(alloc, device, blocks) {
            Ok(disk) => {
                disk.device().vouch();
                Ok(Disk { disk })
            }
            Err((fault, device)) => {
                device.vouch();
                Err((fault, device))
            }
        }
    }

    /// The drive, to be looked at.
    pub fn device(&self) -> &D
        ensures { D.drive result.now ≡ self.now.drive }
    {
        self.disk.device()
    }

    /// The drive.
    pub fn into_device(self) -> D
        ensures { D.drive result ≡ self.drive }
    {
        self.disk.into_device()
    }

    /// How many logical blocks there are.
    pub fn blocks(&self) -> u64
        ensures size { result ≡ disk_size self.now }
        ensures few { result ≤ 2 ^ 31 }
        ensures array { self.now.status ≡ Serving
            → length (disk_array self.now) ≡ disk_size self.now }
    {
        self.disk.device().vouch();
        self.disk.blocks()
    }

    /// How many bytes a block has, 512 or 4,096.
    pub fn block_bytes(&self) -> usize
        ensures size { result ≡ self.now.drive.geometry.block }
        ensures some { 0 < result }
    {
        self.disk.block_bytes()
    }

    /// Where the newest record of a block is on the drive. A block that no record names has no place, and
    /// neither has one past the end. After `Stopped` it is the place that was known before.
    pub fn place_of(&self, block: u64) -> Place
        ensures { self.now.status ≡ Serving
            → result ≡ slice_index_or (disk_places self.now) block places.None }
    {
        self.disk.device().vouch();
        self.disk.place_of(block)
    }

    /// How many blocks have their newest record in a zone: its live records; 0 for a zone that the drive has not.
    /// After `Stopped` it is the number that was known before.
    pub fn live(&self, zone: u32) -> u32
        ensures { self.now.status ≡ Serving → HasLive self.now zone result }
    {
        self.disk.device().vouch();
        self.disk.live(zone)
    }

    /// Whether no clean takes a zone now, since the drive failed to read live data in it. That ends if those blocks are
    /// written anew or trimmed, at a remount, and if no other zone can be cleaned.
    pub fn is_left_out(&self, zone: u32) -> bool
        ensures { result ≡ is_left_out self.now.tables zone }
    {
        self.disk.is_left_out(zone)
    }

    /// Whether the disk serves calls, has answered `Stopped`, or has refused a remount.
    pub fn status(&self) -> DiskStatus
        ensures { result ≡ self.now.status }
    {
        self.disk.status()
    }

    /// Writes `blocks` blocks of one byte from `first` on.
    ///
    /// After a refusal midway the first blocks are written, perhaps none or all. After `OutOfMemory` or `Spent` the
    /// disk continues; after `Stopped` a mount of the restarted drive finds them.
    pub fn fill(&mut self, first: u64, blocks: u64, byte: u8) -> Result<(), DiskFault>
        ensures answers { Answers self.old
            (fill self.old.drive.geometry.block first blocks byte) result self.new }
        ensures stores { Stores false self.old first blocks result self.new }
        ensures costs { CostsAtMost self.old
            (most_batches false self.old blocks) result self.new }
    {
        let result = self.disk.fill(first, blocks, byte);
        self.disk.device().vouch();
        result
    }

    /// Writes these bytes from the block `first` on: any whole number of blocks.
    ///
    /// After a refusal midway the first blocks are written, perhaps none or all, as after one of a `fill`.
    pub fn write(&mut self, first: u64, bytes: &[u8]) -> Result<(), DiskFault>
        requires whole { AreBlocksOf self.old bytes.now }
        // It answers as a flat array does. Whatever it answers, the drive can be mounted again.
        ensures answers { Answers self.old (write_bytes self.old first bytes.now) result self.new }
        // Done, the newest records of these blocks have data. In any case each batch is as long as it can be.
        ensures stores { Stores false self.old first
            (count_of_blocks self.old bytes.now) result self.new }
        // It completes at most that many commands and, unless the drive stops, adds no turns to a clean that runs.
        ensures costs { CostsAtMost self.old
            (most_batches false self.old (count_of_blocks self.old bytes.now)) result self.new }
    {
        let result = self.disk.write(first, bytes);
        self.disk.device().vouch();
        result
    }

    /// Makes `blocks` blocks from `first` on zeros, by records that say so: their old data is needed no more.
    /// Blocks that were never written get such records, too.
    ///
    /// After a refusal midway the first blocks are trimmed, perhaps none or all, as after one of a `fill`.
    pub fn trim(&mut self, first: u64, blocks: u64) -> Result<(), DiskFault>
        ensures answers { Answers self.old
            (trim self.old.drive.geometry.block first blocks) result self.new }
        ensures stores { Stores true self.old first blocks result self.new }
        ensures costs { CostsAtMost self.old
            (most_batches true self.old blocks) result self.new }
    {
        let result = self.disk.trim(first, blocks);
        self.disk.device().vouch();
        result
    }

    /// Writes and trims the blocks of a list, in its order, by as few batches as a write of as many blocks in a row.
    /// `bytes` are the blocks of those entries that are not trims, in the same order. No block is named twice.
    ///
    /// A list with a block past the end is refused, and nothing is done. After a refusal midway the first blocks of the
    /// list are written, perhaps none or all, as after one of a `fill`.
    pub fn write_list(&mut self, entries: &[Entry], bytes: &[u8]) -> Result<(), DiskFault>
        requires distinct { IsDistinct nat_eq (blocks_named entries.now) }
        requires whole { length bytes.now
            ≡ data_count entries.now * self.old.drive.geometry.block }
        // It answers as a flat array does. Whatever it answers, the drive can be mounted again.
        ensures answers { Answers self.old
            (write_entries self.old entries.now bytes.now) result self.new }
        // Done, the newest record of each block is its entry's. In any case each batch is as long as it can be.
        ensures stores { StoresList self.old entries.now result self.new }
        // It completes at most that many commands and, unless the drive stops, adds no turns to a clean that runs.
        ensures costs { CostsAtMost self.old
            (length entries.now) result self.new }
    {
        let result = self.disk.write_list(entries, bytes);
        self.disk.device().vouch();
        result
    }

    /// Makes it a disk of `blocks` blocks, as many as it has or more: those that are new read as zeros. The size
    /// is written to the drive, also where it is the one that the disk has.
    ///
    /// After a refusal the disk has its old size. After `Stopped` the drive has the old size or the new one.
    pub fn grow(&mut self, blocks: u64) -> Result<(), DiskFault>
        // It answers as a flat array does, and the drive can be mounted again. Done, a header has the new size.
        ensures answers { Answers self.old (grow blocks) result self.new }
        ensures says { OnOk result (SaysSize self.old blocks self.new) }
        // Done, or if a clean ran before and no command failed, no turns are added, and the clean is not thrown back.
        // It costs at most the commands of one batch.
        ensures turns { OnOk result (disk_turns self.new ≤ disk_turns self.old) }
        ensures fewer { IsTrue self.new.drive.unfailing → is_some self.old.clean ≡ true
            → disk_turns self.new ≤ disk_turns self.old }
        ensures clean { KeepsClean self.old self.new }
        ensures completed { CostsBatches self.old 1 self.new }
    {
        let result = self.disk.grow(blocks);
        self.disk.device().vouch();
        result
    }

    /// Makes the array durable, by a Flush of the drive: a loss of power leaves it, as far as the drive says what such
    /// a loss leaves.
    ///
    /// After a refusal the array is the same, and a loss of power leaves what it might have left before, or this array.
    pub fn flush(&mut self) -> Result<(), DiskFault>
        ensures answers { Answers self.old flush result self.new }
        ensures turns { disk_turns self.new ≡ disk_turns self.old }
        ensures completed { CompletesAtMost self.old 1 self.new }
    {
        let result = self.disk.flush();
        self.disk.device().vouch();
        result
    }

    /// One turn of cleaning: the next step of the clean that runs or, if none runs, the start of one that is
    /// due.
    ///
    /// After `OutOfMemory` and `Spent` the clean is unchanged, and continues at the next turn.
    pub fn idle(&mut self) -> Result<(), DiskFault>
        ensures answers { Answers self.old idle result self.new }
        ensures turn { TakesTurn self.old result self.new }
        ensures completed { CompletesAtMost self.old 2 self.new }
    {
        let result = self.disk.idle();
        self.disk.device().vouch();
        result
    }

    /// Whether a clean runs, of which turns are left. While none runs, a zone is kept empty for the next one.
    pub fn is_cleaning(&self) -> bool
        ensures runs { result ≡ is_some self.now.clean }
        ensures spare { self.now.status ≡ Serving → result ≡ false
            → 1 ≤ empty_count self.now.tables.roles }
    {
        self.disk.device().vouch();
        self.disk.is_cleaning()
    }

    /// Mounts the drive again, as a mount with the same number of logical blocks does it. A clean that runs is
    /// forgotten. A drive that has stopped is not mounted: take it by [`into_device`](Disk::into_device), restart it,
    /// and mount it.
    ///
    /// A refusal is `Halted` or `OutOfMemory`. It leaves the array on the drive, and the disk answers `Unmounted` to
    /// every call that needs the drive, until a remount is done.
    pub fn remount(&mut self) -> Result<(), MountFault>
        ensures { Remounts self.old result self.new }
    {
        let result = self.disk.remount();
        self.disk.device().vouch();
        result
    }

    /// A report of all zones of the drive, as Zone Management Receive gives it (Zoned Namespace Command
    /// Set 1.1, section 3.4.2): a head of 64 bytes and a descriptor of 64 bytes for each zone.
    pub fn report(&mut self) -> Result<Vec<u8>, DiskFault>
        // It answers as a flat array does, and the drive can be mounted again. Done, the report is whole.
        ensures answers { Answers self.old report (done_of result) self.new }
        ensures zones { IfOk result
            (λ bytes. ReportsAll self.old.drive bytes.items self.new.drive) }
        // As many turns of a clean are left as before, and one command is completed at most.
        ensures turns { disk_turns self.new ≡ disk_turns self.old }
        ensures completed { CompletesAtMost self.old 1 self.new }
    {
        let result = self.disk.report();
        self.disk.device().vouch();
        result
    }

    /// Shows `blocks` blocks from `first` on. `into` is empty after a refusal.
    pub fn read(&mut self, first: u64, blocks: u64, into: &mut Vec<u8>) -> Result<(), DiskFault>
        ensures answers { AnswersRead self.old first blocks result into.new.items self.new }
        ensures turns { disk_turns self.new ≡ disk_turns self.old }
        ensures completed { CompletesAtMost self.old blocks self.new }
    {
        let result = self.disk.read(first, blocks, into);
        self.disk.device().vouch();
        result
    }

    /// Shows blocks as [`read`](Disk::read) does, by fewer commands: one for all blocks whose data are neighbours on
    /// the drive, as far as one command reaches.
    pub fn read_joined(
        &mut self,
        first: u64,
        blocks: u64,
        into: &mut Vec<u8>,
    ) -> Result<(), DiskFault>
        ensures answers { AnswersRead self.old first blocks result into.new.items self.new }
        ensures turns { disk_turns self.new ≡ disk_turns self.old }
        // Done, it has sent one command for each piece at most. In any case there are no more than blocks.
        ensures joins { OnOk result (ReadsPieces self.old first blocks self.new) }
        ensures completed { CompletesAtMost self.old blocks self.new }
    {
        let result = self.disk.read_joined(first, blocks, into);
        self.disk.device().vouch();
        result
    }
}
