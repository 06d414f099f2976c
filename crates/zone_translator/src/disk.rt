ghost use Rattle.std.specs.Prelude.{◌≡◌, ◌+◌, ◌<◌, ◌≤◌, ◌^◌, ◌++◌, [], IfErr, IfOk, IsTrue, None, OnErr, OnOk, false};
ghost use Rattle.std.specs.Prelude.{is_some, length, nat_eq, nat_lt, slice_index_or, true, ◌*◌};
ghost use Rattle.std.specs.List.{AllByRecursion, IsDistinct, concat, list_all};
ghost use Rattle.batch_log.specs.Log.{data_count};
ghost use Rattle.logical_map.specs.declared.place.Place.TheVariants as places;
ghost use Rattle.remount.specs.Kept.{KeepsMountable};
ghost use Rattle.remount.specs.Mount.{MountFails, Mounts};
ghost use Rattle.drive_survey.specs.Scan.{FailsBy};
ghost use Rattle.drive_survey.specs.Survey.{MayAsk};
ghost use Rattle.drive_array.specs.Reserve.{FitsReserve};
ghost use Rattle.zone_choice.specs.Roles.{empty_count};
ghost use Rattle.zone_choice.specs.Sane.{IsSane, KeepsShape};
ghost use Rattle.zone_choice.specs.Tables.{is_left_out, size_of};
ghost use Rattle.zone_translator.specs.Answers.{Answers, AnswersRead, AreBlocksOf, CostsAtMost, IsMounted};
ghost use Rattle.zone_translator.specs.Answers.{KeepsClean, Remounts, SaysSize, Stores, TakesTurn};
ghost use Rattle.zone_translator.specs.Answers.{StoresList, count_of_blocks, write_bytes, write_content, write_entries};
ghost use Rattle.zone_translator.specs.Batches.{CanWrite, HasBlocks, IsTaken, KeepsCut, KeepsCutTo, is_trim};
ghost use Rattle.zone_translator.specs.Calls.{IsSound, ReportsAll, answer_before, done_of, refusal_before, status_left};
ghost use Rattle.zone_translator.specs.Cleaning.{KeepsCleaning};
ghost use Rattle.zone_translator.specs.Flat.{answer_while, fill, flush, grow, idle, known_blocks, known_growth};
ghost use Rattle.zone_translator.specs.Flat.{blocks_from, known_range, report, trim};
ghost use Rattle.zone_translator.specs.Listed.{CanPutAll, IsFrontOf, PutSome, RefusedPuts, blocks_named, last_block};
ghost use Rattle.zone_translator.specs.Mount.{GivesBack};
ghost use Rattle.zone_translator.specs.Parts.{KeepsByRead, ReadStops, ReadsPieces, RefusedSome, WroteSome};
ghost use Rattle.zone_translator.specs.Read.{IsPiece};
ghost use Rattle.zone_translator.specs.View.{CompletesAtMost, CostsBatches, DiskCause, HasLive, KeepsDurable, StaysAlike, disk_array};
ghost use Rattle.zone_translator.specs.View.{disk_places, disk_size, disk_turns, flat_of, most_batches, mounted_of};
ghost use Rattle.zone_translator.specs.declared.status.DiskStatus.TheVariants.{Serving};

use crate::fault::DiskFault;
use crate::flush::flush_drive;
use crate::list::{ListRest, Taken, next_listed};
use crate::read::{read_block, read_piece};
use crate::report::report_all;
use crate::status::DiskStatus;
use crate::write::{Content, Rest, grow_batch, next_batch};
use batch_log::Entry;
use drive_port::Device;
use logical_map::Place;
use remount::{MountFault, mount};
use std::alloc::Global;
use std::marker::Model;
use zone_choice::{BatchBuilder, Mounted, most_blocks};
use zone_cleaner::Cleaner;

/// An array of logical blocks above a zoned drive. A disk owns its drive, and gives it back.
#[derive(Drop)]
pub struct AnyDisk<D: Device + Drop> {
    mounted: Mounted<D>,
    cleaner: Cleaner,
    status: DiskStatus,
    batch: BatchBuilder,
}

impl<D: Device + Drop> Model for AnyDisk<D> {
    ghost use Rattle.zone_translator.specs.View.{DiskView};
    ghost use Rattle.zone_translator.specs.Calls.{Holds};

    ghost Value = { DiskView };

    ghost view = { λ d. record {
      drive = d.mounted.drive;
      tables = d.mounted.tables;
      clean = d.cleaner;
      status = d.status;
    } };

    ghost invariant = { λ d. Holds d.mounted d.cleaner d.status };
}

/// How many logical blocks a mounted disk has.
fn mounted_blocks<D: Device>(disk: &Mounted<D>) -> u64
    ensures { result ≡ size_of disk.now.tables }
{
    disk.tables.blocks() as u64
}

/// A cleaner of which no clean runs.
fn new_cleaner<D: Device>(disk: &Mounted<D>) -> Cleaner
    ensures { result ≡ None }
{
    Cleaner::new(disk.alloc)
}

/// Finds the tables again on the drive. After a refusal they are the old ones.
fn mount_again<D: Device>(disk: &mut Mounted<D>) -> Result<(), MountFault>
    requires { IsSane disk.old }
    // While the drive is clean: done, the tables are what a mount finds. Refused, the fault has its cause.
    ensures ok { IsTrue disk.new.drive.clean → OnOk result
        (Mounts disk.old.drive disk.new.drive disk.old.tables.given disk.new.tables) }
    ensures err { IsTrue disk.new.drive.clean → IfErr result
        (FailsBy (MountFails disk.old.drive disk.old.tables.given) disk.new.drive) }
    // Then, whatever it answers, a drive that could be mounted still can be, with the same array.
    ensures kept { IsTrue disk.new.drive.clean
        → KeepsMountable disk.old.tables.given disk.old.drive disk.new.drive }
    // Refused, the tables do not change. Whatever the Reads returned, their numbers are in range.
    ensures tables { OnErr result (disk.new.tables ≡ disk.old.tables) }
    ensures sane { IsSane disk.new }
    ensures shape { KeepsShape disk.old.drive disk.new.drive }
{
    match mount(disk.alloc, &mut disk.device, disk.tables.given() as u64) {
        Ok(tables) => {
            disk.tables = tables;
            Ok(())
        }
        Err(fault) => Err(fault),
    }
}

/// The disk after a refusal.
fn status_of(fault: DiskFault) -> DiskStatus
    ensures { result ≡ status_left fault }
{
    match fault {
        DiskFault::Stopped | DiskFault::Damaged => DiskStatus::Stopped,
        _ => DiskStatus::Serving,
    }
}

impl<D: Device + Drop> AnyDisk<D> {
    /// The disk that a drive holds, of `blocks` logical blocks if no header on the drive says how many. The drive
    /// is checked, and what a stop left of it repaired: see `remount::mount`.
    ///
    /// With the fault the drive is given back, and can be mounted if it could before.
    pub fn mount(alloc: Global, mut device: D, blocks: u64) -> Result<AnyDisk<D>, (MountFault, D)>
        ensures disk { IfOk result (λ disk. IsTrue disk.drive.clean → IsMounted (D.drive device) blocks disk) }
        ensures err { IfErr result (λ refusal. IsTrue (D.drive refusal.1).clean
            → GivesBack (D.drive device) blocks refusal.0 (D.drive refusal.1)) }
        // Whatever the Reads returned, the drive has the same shape.
        ensures shape { IfOk result (λ disk. KeepsShape (D.drive device) disk.drive) }
        ensures back { IfErr result (λ refusal. KeepsShape (D.drive device) (D.drive refusal.1)) }
        // Nothing is sent if the geometry is out of range, or if the reserve does not allow the number.
        ensures unsent { IfErr result (λ refusal. (MayAsk (D.drive device) blocks → ⊥)
            → D.drive refusal.1 ≡ D.drive device) }
    {
        match mount(alloc, &mut device, blocks) {
            Ok(tables) => Ok(AnyDisk {
                mounted: Mounted::new(alloc, device, tables),
                cleaner: Cleaner::new(alloc),
                status: DiskStatus::Serving,
                batch: BatchBuilder::new(alloc),
            }),
            Err(fault) => Err((fault, device)),
        }
    }

    /// The drive, to be looked at.
    pub fn device(&self) -> &D
        ensures { D.drive result.now ≡ self.now.drive }
    {
        &self.mounted.device
    }

    /// The drive.
    pub fn into_device(self) -> D
        ensures { D.drive result ≡ self.drive }
    {
        self.mounted.device
    }

    /// How many logical blocks there are.
    pub fn blocks(&self) -> u64
        ensures size { result ≡ disk_size self.now }
        ensures few { result ≤ 2 ^ 31 }
        ensures array { IsTrue self.now.drive.clean → self.now.status ≡ Serving
            → length (disk_array self.now) ≡ disk_size self.now }
    {
        mounted_blocks(&self.mounted)
    }

    /// How many bytes a block has, 512 or 4,096.
    pub fn block_bytes(&self) -> usize
        ensures size { result ≡ self.now.drive.geometry.block }
        ensures some { 0 < result }
    {
        self.mounted.geometry().block as usize
    }

    /// Where the newest record of a block is on the drive. A block that no record names has no place, and
    /// neither has one past the end. After `Stopped` it is the place that was known before.
    pub fn place_of(&self, block: u64) -> Place
        ensures { IsTrue self.now.drive.clean → self.now.status ≡ Serving
            → result ≡ slice_index_or (disk_places self.now) block places.None }
    {
        if block >= mounted_blocks(&self.mounted) {
            return Place::None;
        }
        self.mounted.tables.place_of(block as u32)
    }

    /// How many blocks have their newest record in a zone: its live records; 0 for a zone that the drive has not.
    /// After `Stopped` it is the number that was known before.
    pub fn live(&self, zone: u32) -> u32
        ensures { IsTrue self.now.drive.clean → self.now.status ≡ Serving → HasLive self.now zone result }
    {
        self.mounted.tables.live(zone)
    }

    /// Whether no clean takes a zone now, since the drive failed to read live data in it. That ends if those blocks are
    /// written anew or trimmed, at a remount, and if no other zone can be cleaned.
    pub fn is_left_out(&self, zone: u32) -> bool
        ensures { result ≡ is_left_out self.now.tables zone }
    {
        self.mounted.tables.is_left_out(zone)
    }

    /// Whether the disk serves calls, has answered `Stopped`, or has refused a remount.
    pub fn status(&self) -> DiskStatus
        ensures { result ≡ self.now.status }
    {
        self.status
    }

    /// One batch of a write. After a refusal none of the blocks that are left is written; after a stop the first of
    /// them may be.
    fn write_some(&mut self, rest: Rest) -> Result<u32, DiskFault>
        // The disk serves, and what is left is in range: one block at least, with whole blocks of data.
        requires serving { self.old.status ≡ Serving }
        requires can { CanWrite (mounted_of self.old) rest }
        // Done, it has written the first of the blocks left. Refused, it may have, and the fault has its cause.
        ensures wrote { IsTrue self.new.drive.clean → IfOk result (WroteSome self.old rest.entry self.new) }
        ensures err { IsTrue self.new.drive.clean → IfErr result (RefusedSome self.old rest.entry self.new) }
        // Whatever it answers, the drive can be mounted, and the size is the same. Its batch is as long as it can be.
        ensures kept { IsTrue self.new.drive.clean → KeepsDurable self.old self.new }
        ensures cut { IsTrue self.new.drive.clean → KeepsCut self.old.drive rest.entry self.new.drive }
        // It adds no turns to a clean that ran.
        ensures clean { IsTrue self.new.drive.clean → KeepsCleaning (mounted_of self.old) self.old.clean result
            (mounted_of self.new) self.new.clean }
        // Done, it took a block at least. Whatever the Reads returned, it costs at most the commands of one batch.
        ensures taken { IfOk result (IsTaken self.old.drive.geometry rest.entry) }
        ensures alike { StaysAlike self.old self.new }
        ensures serves { OnOk result (self.new.status ≡ Serving) }
        ensures completed { CostsBatches self.old 1 self.new }
    {
        match next_batch(&mut self.mounted, &mut self.cleaner, &mut self.batch, rest) {
            Ok(count) => Ok(count),
            Err(fault) => {
                self.status = status_of(fault);
                Err(fault)
            }
        }
    }

    /// Writes n blocks from `first` on, batch by batch.
    fn write_all(&mut self, first: u64, blocks: u64, content: Content) -> Result<(), DiskFault>
        requires whole { HasBlocks self.old.drive.geometry.block blocks content }
        // It answers as a flat array does. The drive can be mounted again, and each batch is as long as it can be.
        ensures answers { IsTrue self.new.drive.clean → Answers self.old
            (write_content self.old first blocks content.entry) result self.new }
        ensures stores { IsTrue self.new.drive.clean
            → Stores (is_trim content.entry) self.old first blocks result self.new }
        // It completes at most that many commands and, unless the drive stops, adds no turns to a clean that runs.
        ensures costs { IsTrue self.new.drive.clean → CostsAtMost self.old
            (most_batches (is_trim content.entry) self.old blocks) result self.new }
        // Whatever the Reads returned, shape and size stay, and the commands have that bound.
        ensures alike { StaysAlike self.old self.new }
        ensures completed { CostsBatches self.old
            (most_batches (is_trim content.entry) self.old blocks) self.new }
    {
        if self.is_done(first, blocks)? {
            return Ok(());
        }
        let block = self.mounted.geometry().block as usize;
        let mut done = 0;
        while done < blocks as u32 {
            let unwritten = content.after(done as usize * block);
            let rest = Rest {
                first: first as u32 + done,
                left: blocks as u32 - done,
                content: unwritten,
            };
            match self.write_some(rest) {
                Ok(count) => done += count,
                Err(fault) => return Err(fault),
            }
        }
        Ok(())
    }

    /// One block of a read, shown after what `into` holds.
    fn read_one(&mut self, block: u32, into: &mut Vec<u8>) -> Result<(), DiskFault>
        // The block is the disk's, and the disk serves.
        requires in_range { block < disk_size self.old }
        requires serving { self.old.status ≡ Serving }
        // Whatever it answers, the array is the same, and the drive can be mounted again.
        ensures keeps { IsTrue self.new.drive.clean → KeepsByRead self.old self.new }
        // Done, it has added the block's bytes, and the disk still serves. Refused, the fault has its cause.
        ensures ok { IsTrue self.new.drive.clean → OnOk result (into.new.items ≡ into.old.items
            ++ slice_index_or (disk_array self.old) block []) }
        ensures serving { OnOk result (self.new.status ≡ Serving) }
        ensures err { IsTrue self.new.drive.clean → IfErr result (ReadStops self.old block self.new) }
        // Whatever the Read returned, it adds as many bytes as a block has, and shape, size and turns stay. It
        // completes one command at most.
        ensures added { OnOk result (length into.new.items ≡ length into.old.items
            + 1 * self.old.drive.geometry.block) }
        ensures alike { StaysAlike self.old self.new }
        ensures turns { disk_turns self.new ≡ disk_turns self.old }
        ensures completed { CompletesAtMost self.old 1 self.new }
    {
        match read_block(&mut self.mounted, block, into) {
            Ok(()) => Ok(()),
            Err(fault) => {
                self.status = status_of(fault);
                Err(fault)
            }
        }
    }

    /// One piece of a read, shown after what `into` holds: of at most `left` blocks from one on, the first and all its
    /// neighbours. It answers how many.
    fn read_some(&mut self, block: u32, left: u32, into: &mut Vec<u8>) -> Result<u32, DiskFault>
        // The blocks are the disk's, and the disk serves.
        requires some { 1 ≤ left }
        requires in_range { block + left ≤ disk_size self.old }
        requires serving { self.old.status ≡ Serving }
        // Whatever it answers, the array is the same, and the drive can be mounted again.
        ensures keeps { IsTrue self.new.drive.clean → KeepsByRead self.old self.new }
        // Done, it has added the bytes of a piece, and the disk still serves. Refused, the fault has its cause.
        ensures ok { IsTrue self.new.drive.clean → IfOk result (λ count. into.new.items ≡ into.old.items
            ++ concat (blocks_from (disk_array self.old) block count)) }
        ensures piece { IsTrue self.new.drive.clean
            → IfOk result (λ count. IsPiece self.old.drive.geometry (disk_places self.old) block left count) }
        ensures serving { OnOk result (self.new.status ≡ Serving) }
        ensures err { IsTrue self.new.drive.clean → IfErr result (ReadStops self.old block self.new) }
        // Whatever the Read returned, it adds as many bytes as the piece has, and shape, size and turns stay. It
        // completes one command at most.
        ensures added { IfOk result (λ count. length into.new.items ≡ length into.old.items
            + count * self.old.drive.geometry.block) }
        ensures some { IfOk result (λ count. (1 ≤ count) × (count ≤ left)) }
        ensures alike { StaysAlike self.old self.new }
        ensures turns { disk_turns self.new ≡ disk_turns self.old }
        ensures completed { CompletesAtMost self.old 1 self.new }
    {
        match read_piece(&mut self.mounted, block, left, into) {
            Ok(count) => Ok(count),
            Err(fault) => {
                self.status = status_of(fault);
                Err(fault)
            }
        }
    }

    /// Whether the disk serves calls, or which fault it answers to each.
    fn check_serving(&self) -> Result<(), DiskFault>
        // It answers what a flat array knows beforehand. Done, the disk serves; refused, the fault has its cause.
        ensures known { answer_while self.now.status ≡ refusal_before result }
        ensures serving { OnOk result (self.now.status ≡ Serving) }
        ensures cause { IsTrue self.now.drive.clean → IfErr result (DiskCause self.now) }
        // In both cases the drive can be mounted.
        ensures sound { IsSound self.now }
    {
        match self.status {
            DiskStatus::Serving => Ok(()),
            DiskStatus::Stopped => Err(DiskFault::Stopped),
            DiskStatus::Unmounted => Err(DiskFault::Unmounted),
        }
    }

    /// Whether a read or a write of n blocks is done before it begins: it is where n is 0. One past the
    /// end is refused, and so is each while the disk does not serve.
    fn is_done(&self, first: u64, blocks: u64) -> Result<bool, DiskFault>
        // It answers what a flat array knows beforehand.
        ensures known { known_range (flat_of self.now) first blocks ≡ answer_before result }
        // If the call continues, its blocks are in range, the disk serves, and the array has the disk's size.
        ensures in_range { IfOk result (λ done. done ≡ false
            → (1 ≤ blocks) × (first + blocks ≤ disk_size self.now)) }
        ensures serving { IfOk result (λ done. done ≡ false → self.now.status ≡ Serving) }
        ensures long { IsTrue self.now.drive.clean → IfOk result (λ done. done ≡ false
            → length (disk_array self.now) ≡ disk_size self.now) }
        // If it is done, it names no block. A refusal has its cause, and the drive can be mounted in any case.
        ensures none { IfOk result (λ done. done ≡ true → blocks ≡ 0) }
        ensures cause { IsTrue self.now.drive.clean → IfErr result (DiskCause self.now) }
        ensures sound { IsSound self.now }
    {
        let size = mounted_blocks(&self.mounted);
        if blocks == 0 {
            return Ok(true);
        }
        if blocks > size || first > size - blocks {
            return Err(DiskFault::OutOfRange);
        }
        self.check_serving()?;
        Ok(false)
    }

    /// Writes `blocks` blocks of one byte from `first` on.
    ///
    /// After a refusal midway the first blocks are written, perhaps none or all. After `OutOfMemory` or `Spent` the
    /// disk continues; after `Stopped` a mount of the restarted drive finds them.
    pub fn fill(&mut self, first: u64, blocks: u64, byte: u8) -> Result<(), DiskFault>
        ensures answers { IsTrue self.new.drive.clean → Answers self.old
            (fill self.old.drive.geometry.block first blocks byte) result self.new }
        ensures stores { IsTrue self.new.drive.clean → Stores false self.old first blocks result self.new }
        ensures costs { IsTrue self.new.drive.clean → CostsAtMost self.old
            (most_batches false self.old blocks) result self.new }
        // Whatever the Reads returned, shape and size stay, and the commands have that bound.
        ensures alike { StaysAlike self.old self.new }
        ensures completed { CostsBatches self.old
            (most_batches false self.old blocks) self.new }
    {
        self.write_all(first, blocks, Content::Byte(byte))
    }

    /// Writes these bytes from the block `first` on: any whole number of blocks.
    ///
    /// After a refusal midway the first blocks are written, perhaps none or all, as after one of a `fill`.
    pub fn write(&mut self, first: u64, bytes: &[u8]) -> Result<(), DiskFault>
        requires whole { AreBlocksOf self.old bytes.now }
        // It answers as a flat array does. Whatever it answers, the drive can be mounted again.
        ensures answers { IsTrue self.new.drive.clean
            → Answers self.old (write_bytes self.old first bytes.now) result self.new }
        // Done, the newest records of these blocks have data. In any case each batch is as long as it can be.
        ensures stores { IsTrue self.new.drive.clean → Stores false self.old first
            (count_of_blocks self.old bytes.now) result self.new }
        // It completes at most that many commands and, unless the drive stops, adds no turns to a clean that runs.
        ensures costs { IsTrue self.new.drive.clean → CostsAtMost self.old
            (most_batches false self.old (count_of_blocks self.old bytes.now)) result self.new }
        // Whatever the Reads returned, shape and size stay, and the commands have that bound.
        ensures alike { StaysAlike self.old self.new }
        ensures completed { CostsBatches self.old
            (most_batches false self.old (count_of_blocks self.old bytes.now)) self.new }
    {
        let block = self.mounted.geometry().block as usize;
        self.write_all(first, (bytes.len() / block) as u64, Content::Bytes(bytes))
    }

    /// Makes `blocks` blocks from `first` on zeros, by records that say so: their old data is needed no more.
    /// Blocks that were never written get such records, too.
    ///
    /// After a refusal midway the first blocks are trimmed, perhaps none or all, as after one of a `fill`.
    pub fn trim(&mut self, first: u64, blocks: u64) -> Result<(), DiskFault>
        ensures answers { IsTrue self.new.drive.clean → Answers self.old
            (trim self.old.drive.geometry.block first blocks) result self.new }
        ensures stores { IsTrue self.new.drive.clean → Stores true self.old first blocks result self.new }
        ensures costs { IsTrue self.new.drive.clean → CostsAtMost self.old
            (most_batches true self.old blocks) result self.new }
        // Whatever the Reads returned, shape and size stay, and the commands have that bound.
        ensures alike { StaysAlike self.old self.new }
        ensures completed { CostsBatches self.old
            (most_batches true self.old blocks) self.new }
    {
        self.write_all(first, blocks, Content::Trim)
    }

    /// One batch of a list. After a refusal none of the blocks that are left is written; after a stop the first of them
    /// may be.
    fn write_listed(&mut self, left: ListRest) -> Result<Taken, DiskFault>
        // The disk serves, and what is left of the list can be written.
        requires serving { self.old.status ≡ Serving }
        requires can { CanPutAll (mounted_of self.old) left }
        // Done, it has written the first of the blocks left. Refused, it may have, and the fault has its cause.
        ensures wrote { IsTrue self.new.drive.clean → IfOk result (PutSome self.old left.entry self.new) }
        ensures err { IsTrue self.new.drive.clean → IfErr result (RefusedPuts self.old left.entry self.new) }
        // Whatever it answers, the drive can be mounted, and the size is the same. Its batch is as long as it can be.
        ensures kept { IsTrue self.new.drive.clean → KeepsDurable self.old self.new }
        ensures cut { IsTrue self.new.drive.clean
            → KeepsCutTo (last_block left.entry.entries.now) self.old.drive self.new.drive }
        // It adds no turns to a clean that ran.
        ensures clean { IsTrue self.new.drive.clean → KeepsCleaning (mounted_of self.old) self.old.clean result
            (mounted_of self.new) self.new.clean }
        // Done, it took a block at least. Whatever the Reads returned, it costs at most the commands of one batch.
        ensures taken { IfOk result (IsFrontOf left.entry.entries.now) }
        ensures alike { StaysAlike self.old self.new }
        ensures serves { OnOk result (self.new.status ≡ Serving) }
        ensures completed { CostsBatches self.old 1 self.new }
    {
        match next_listed(&mut self.mounted, &mut self.cleaner, &mut self.batch, left) {
            Ok(taken) => Ok(taken),
            Err(fault) => {
                self.status = status_of(fault);
                Err(fault)
            }
        }
    }

    /// Whether all blocks of a list are the disk's.
    fn has_all(&self, entries: &[Entry]) -> bool
        ensures value { result ≡ list_all (λ e. nat_lt e.block (disk_size self.now)) entries.now }
        ensures sound { IsSound self.now }
    {
        let size = mounted_blocks(&self.mounted);
        for entry in entries {
            if entry.block >= size {
                return false;
            }
        }
        true
    }

    /// Whether a list is done before it begins: it is where it names no block. One that names a block past the end is
    /// refused, and so is each while the disk does not serve.
    fn is_list_done(&self, entries: &[Entry]) -> Result<bool, DiskFault>
        // It answers what a flat array knows beforehand.
        ensures known { known_blocks (flat_of self.now) (blocks_named entries.now)
            ≡ answer_before result }
        // If the call continues, it names a block, its blocks are in range, and the disk serves.
        ensures some { IfOk result (λ done. done ≡ false → 1 ≤ length entries.now) }
        ensures in_range { IfOk result (λ done. done ≡ false
            → AllByRecursion (λ e. e.block < disk_size self.now) entries.now) }
        ensures serving { IfOk result (λ done. done ≡ false → self.now.status ≡ Serving) }
        // If it is done, it names no block. A refusal has its cause, and the drive can be mounted in any case.
        ensures none { IfOk result (λ done. done ≡ true → length entries.now ≡ 0) }
        ensures cause { IsTrue self.now.drive.clean → IfErr result (DiskCause self.now) }
        ensures sound { IsSound self.now }
    {
        if !self.has_all(entries) {
            return Err(DiskFault::OutOfRange);
        }
        if entries.is_empty() {
            return Ok(true);
        }
        self.check_serving()?;
        Ok(false)
    }

    /// Writes and trims the blocks of a list, in its order, by as few batches as a write of as many blocks in a row.
    /// `bytes` are the blocks of those entries that are not trims, in the same order. No block is named twice.
    ///
    /// A list with a block past the end is refused, and nothing is done. After a refusal midway the first blocks of the
    /// list are written, perhaps none or all, as after one of a `fill`.
    pub fn write_list(&mut self, entries: &[Entry], bytes: &[u8]) -> Result<(), DiskFault>
        requires distinct { IsDistinct nat_eq (blocks_named entries.now) }
        requires whole { length bytes.now
            ≡ data_count entries.now * self.old.drive.geometry.block }
        // It answers as a flat array does. Whatever it answers, the drive can be mounted again.
        ensures answers { IsTrue self.new.drive.clean → Answers self.old
            (write_entries self.old entries.now bytes.now) result self.new }
        // Done, the newest record of each block is its entry's. In any case each batch is as long as it can be.
        ensures stores { IsTrue self.new.drive.clean → StoresList self.old entries.now result self.new }
        // It completes at most that many commands and, unless the drive stops, adds no turns to a clean that runs.
        ensures costs { IsTrue self.new.drive.clean → CostsAtMost self.old
            (length entries.now) result self.new }
        // Whatever the Reads returned, shape and size stay, and the commands have that bound.
        ensures alike { StaysAlike self.old self.new }
        ensures completed { CostsBatches self.old
            (length entries.now) self.new }
    {
        if self.is_list_done(entries)? {
            return Ok(());
        }
        let block = self.mounted.geometry().block as usize;
        let mut named = 0;
        let mut copied = 0;
        while named < entries.len() {
            let left = ListRest::after(entries, bytes, named, copied * block);
            match self.write_listed(left) {
                Ok(taken) => {
                    named += taken.entries;
                    copied += taken.blocks;
                }
                Err(fault) => return Err(fault),
            }
        }
        Ok(())
    }

    /// Whether a growth to `blocks` blocks is refused before it begins.
    fn check_growth(&self, blocks: u64) -> Result<(), DiskFault>
        // It answers what a flat array knows beforehand.
        ensures known { known_growth (flat_of self.now) blocks ≡ refusal_before result }
        // If the growth continues, the size is not below the disk's, the reserve allows it, and the disk serves.
        ensures grows { OnOk result ((disk_size self.now ≤ blocks) × (blocks ≤ 2 ^ 31)) }
        ensures reserve { IsTrue self.now.drive.clean
            → OnOk result (FitsReserve self.now.drive.geometry blocks) }
        ensures serving { OnOk result (self.now.status ≡ Serving) }
        // A refusal has its cause, and the drive can be mounted in any case.
        ensures cause { IsTrue self.now.drive.clean → IfErr result (DiskCause self.now) }
        ensures sound { IsSound self.now }
    {
        if blocks < mounted_blocks(&self.mounted) {
            return Err(DiskFault::Smaller);
        }
        if blocks > most_blocks(&self.mounted.geometry()) {
            return Err(DiskFault::Reserve);
        }
        self.check_serving()
    }

    /// Makes it a disk of `blocks` blocks, as many as it has or more: those that are new read as zeros. The size
    /// is written to the drive, also where it is the one that the disk has.
    ///
    /// After a refusal the disk has its old size. After `Stopped` the drive has the old size or the new one.
    pub fn grow(&mut self, blocks: u64) -> Result<(), DiskFault>
        // It answers as a flat array does, and the drive can be mounted again. Done, a header has the new size.
        ensures answers { IsTrue self.new.drive.clean → Answers self.old (grow blocks) result self.new }
        ensures says { IsTrue self.new.drive.clean → OnOk result (SaysSize self.old blocks self.new) }
        // Done, or if a clean ran before and no command failed, no turns are added, and the clean is not thrown back.
        // It costs at most the commands of one batch.
        ensures turns { IsTrue self.new.drive.clean → OnOk result (disk_turns self.new ≤ disk_turns self.old) }
        ensures fewer { IsTrue self.new.drive.clean → IsTrue self.new.drive.unfailing → is_some self.old.clean ≡ true
            → disk_turns self.new ≤ disk_turns self.old }
        ensures clean { IsTrue self.new.drive.clean → KeepsClean self.old self.new }
        // Whatever the Reads returned: done, it has this size; refused, the old one. The commands have that bound.
        ensures size { OnOk result (disk_size self.new ≡ blocks) }
        ensures same { OnErr result (disk_size self.new ≡ disk_size self.old) }
        ensures shape { KeepsShape self.old.drive self.new.drive }
        ensures completed { CostsBatches self.old 1 self.new }
    {
        self.check_growth(blocks)?;
        let blocks = blocks as u32;
        match grow_batch(
            &mut self.mounted,
            &mut self.cleaner,
            &mut self.batch,
            blocks,
        ) {
            Ok(()) => Ok(()),
            Err(fault) => {
                self.status = status_of(fault);
                Err(fault)
            }
        }
    }

    /// Makes the array durable, by a Flush of the drive: a loss of power leaves it, as far as the drive says what such
    /// a loss leaves.
    ///
    /// After a refusal the array is the same, and a loss of power leaves what it might have left before, or this array.
    pub fn flush(&mut self) -> Result<(), DiskFault>
        ensures answers { IsTrue self.new.drive.clean → Answers self.old flush result self.new }
        ensures turns { disk_turns self.new ≡ disk_turns self.old }
        ensures alike { StaysAlike self.old self.new }
        ensures completed { CompletesAtMost self.old 1 self.new }
    {
        self.check_serving()?;
        match flush_drive(&mut self.mounted) {
            Ok(()) => Ok(()),
            Err(fault) => {
                self.status = status_of(fault);
                Err(fault)
            }
        }
    }

    /// One turn of cleaning: the next step of the clean that runs or, if none runs, the start of one that is
    /// due.
    ///
    /// After `OutOfMemory` and `Spent` the clean is unchanged, and continues at the next turn.
    pub fn idle(&mut self) -> Result<(), DiskFault>
        ensures answers { IsTrue self.new.drive.clean → Answers self.old idle result self.new }
        ensures turn { IsTrue self.new.drive.clean → TakesTurn self.old result self.new }
        ensures alike { StaysAlike self.old self.new }
        ensures completed { CompletesAtMost self.old 2 self.new }
    {
        self.check_serving()?;
        match self.cleaner.turn(&mut self.mounted) {
            Ok(()) => Ok(()),
            Err(cause) => {
                let fault = DiskFault::from(cause);
                self.status = status_of(fault);
                Err(fault)
            }
        }
    }

    /// Whether a clean runs, of which turns are left. While none runs, a zone is kept empty for the next one.
    pub fn is_cleaning(&self) -> bool
        ensures runs { result ≡ is_some self.now.clean }
        ensures spare { IsTrue self.now.drive.clean → self.now.status ≡ Serving → result ≡ false
            → 1 ≤ empty_count self.now.tables.roles }
    {
        self.cleaner.running()
    }

    /// Mounts the drive again, as a mount with the same number of logical blocks does it. A clean that runs is
    /// forgotten. A drive that has stopped is not mounted: take it by [`into_device`](AnyDisk::into_device), restart
    /// it, and mount it.
    ///
    /// A refusal is `Halted` or `OutOfMemory`. It leaves the array on the drive, and the disk answers `Unmounted` to
    /// every call that needs the drive, until a remount is done.
    pub fn remount(&mut self) -> Result<(), MountFault>
        ensures remounts { IsTrue self.new.drive.clean → Remounts self.old result self.new }
        ensures shape { KeepsShape self.old.drive self.new.drive }
    {
        self.cleaner = new_cleaner(&self.mounted);
        match mount_again(&mut self.mounted) {
            Ok(()) => {
                self.status = DiskStatus::Serving;
                Ok(())
            }
            Err(fault) => {
                self.status = DiskStatus::Unmounted;
                Err(fault)
            }
        }
    }

    /// A report of all zones of the drive, as Zone Management Receive gives it (Zoned Namespace Command
    /// Set 1.1, section 3.4.2): a head of 64 bytes and a descriptor of 64 bytes for each zone.
    pub fn report(&mut self) -> Result<Vec<u8>, DiskFault>
        // It answers as a flat array does, and the drive can be mounted again. Done, the report is whole.
        ensures answers { IsTrue self.new.drive.clean → Answers self.old report (done_of result) self.new }
        ensures zones { IfOk result
            (λ bytes. ReportsAll self.old.drive bytes.items self.new.drive) }
        // As many turns of a clean are left as before, and one command is completed at most.
        ensures turns { disk_turns self.new ≡ disk_turns self.old }
        ensures alike { StaysAlike self.old self.new }
        ensures completed { CompletesAtMost self.old 1 self.new }
    {
        self.check_serving()?;
        match report_all(&mut self.mounted) {
            Ok(bytes) => Ok(bytes),
            Err(fault) => {
                self.status = status_of(fault);
                Err(fault)
            }
        }
    }

    /// Shows `blocks` blocks from `first` on. `into` has the bytes of as many blocks then, whatever the Reads returned.
    /// It is empty after a refusal.
    pub fn read(&mut self, first: u64, blocks: u64, into: &mut Vec<u8>) -> Result<(), DiskFault>
        ensures answers { IsTrue self.new.drive.clean
            → AnswersRead self.old first blocks result into.new.items self.new }
        ensures whole { OnOk result (length into.new.items ≡ blocks * self.old.drive.geometry.block) }
        ensures none { OnErr result (into.new.items ≡ []) }
        ensures turns { disk_turns self.new ≡ disk_turns self.old }
        ensures alike { StaysAlike self.old self.new }
        ensures completed { CompletesAtMost self.old blocks self.new }
    {
        into.clear();
        if self.is_done(first, blocks)? {
            return Ok(());
        }
        for i in 0..blocks as u32 {
            if let Err(fault) = self.read_one(first as u32 + i, into) {
                into.clear();
                return Err(fault);
            }
        }
        Ok(())
    }

    /// Shows blocks as [`read`](AnyDisk::read) does, by fewer commands: one for all blocks whose data are neighbours on
    /// the drive, as far as one command reaches.
    pub fn read_joined(
        &mut self,
        first: u64,
        blocks: u64,
        into: &mut Vec<u8>,
    ) -> Result<(), DiskFault>
        ensures answers { IsTrue self.new.drive.clean
            → AnswersRead self.old first blocks result into.new.items self.new }
        ensures whole { OnOk result (length into.new.items ≡ blocks * self.old.drive.geometry.block) }
        ensures none { OnErr result (into.new.items ≡ []) }
        ensures turns { disk_turns self.new ≡ disk_turns self.old }
        // Done, it has sent one command for each piece at most. In any case there are no more than blocks.
        ensures joins { IsTrue self.new.drive.clean → OnOk result (ReadsPieces self.old first blocks self.new) }
        ensures alike { StaysAlike self.old self.new }
        ensures completed { CompletesAtMost self.old blocks self.new }
    {
        into.clear();
        if self.is_done(first, blocks)? {
            return Ok(());
        }
        let mut done = 0;
        while done < blocks as u32 {
            match self.read_some(first as u32 + done, blocks as u32 - done, into) {
                Ok(count) => done += count,
                Err(fault) => {
                    into.clear();
                    return Err(fault);
                }
            }
        }
        Ok(())
    }
}
