ghost use Rattle.std.specs.Prelude.{◌≡◌, ◌≢◌, ◌⊎◌, ◌≤◌, ◌<◌, ◌+◌, ◌++◌, ◌^◌, List, length, map, nat_eq, IfErr, IfNone, IfSome};
ghost use Rattle.std.specs.Prelude.{IsTrue, OnErr, OnOk, Some, true};
ghost use Rattle.std.specs.List.{AllByRecursion, IsDistinct, list_all};
ghost use Rattle.zone_states.specs.Geometry.{IsInRange};
ghost use Rattle.zone_choice.specs.Roles.{AreApart, is_sealed_at};
ghost use Rattle.zone_choice.specs.Sane.{IsSane};
ghost use Rattle.zone_cleaner.specs.Answering.{StaysSane};
ghost use Rattle.zone_cleaner.specs.Clean.{HasRoomForMove, forgotten, destination_written, has_place, is_placed, started};
ghost use Rattle.zone_cleaner.specs.LiveRecords.{LiveRecord};
ghost use Rattle.zone_cleaner.specs.Reading.{AsksAndNotes};
ghost use Rattle.zone_choice.specs.Tables.{size_of};
ghost use Rattle.zone_cleaner.specs.Turns.{EmptiesVictim, IsAtStep, NotesLost, StepFails, StepLeaves, UndoesClean, last_step};
ghost use Rattle.zone_cleaner.specs.Turns.{step_due};
ghost use Rattle.zone_cleaner.specs.Undoing.{entry_moved};

use crate::fault::CleanFault;
use crate::gathered::{Gathered, MoveHeader, command_fault};
use crate::moved::{Moved, address_of, note_places, put_back};
use crate::step::Step;
use batch_log::Entry;
use drive_port::{Device, Geometry, reset};
use logical_map::Place;
use std::alloc::Global;
use std::marker::Model;
use zone_choice::{BatchBuilder, Filling, Mounted, Second, Tables, append_batch, batch_most};

/// A clean that runs. It moves the live records of one zone, the victim, to another, and then
/// empties the victim.
#[derive(Drop)]
pub struct Clean {
    victim: u32,
    /// The first block that was not looked at yet.
    cursor: u32,
    gathered: Gathered,
    /// What was moved so far.
    moved: Vec<Moved>,
}

impl Model for Clean {
    ghost use Rattle.std.specs.Prelude.{◌<◌};
    ghost use Rattle.std.specs.List.{AllByRecursion};
    ghost use Rattle.zone_cleaner.specs.Clean.{CleanView};

    ghost Value = { CleanView };

    ghost view = { λ c. record {
      victim = c.victim;
      cursor = c.cursor;
      gathered = c.gathered.records;
      moved = c.moved.items;
    } };

    ghost invariant = { λ c. AllByRecursion (λ r. r.block < c.cursor) c.gathered.records };
}

impl Clean {
    /// A new clean of a victim. It drops the records in `gathered`, and uses their memory. Nothing
    /// is allocated.
    pub(crate) fn new(alloc: Global, victim: u32, mut gathered: Gathered) -> Clean
        ensures { result ≡ started victim }
    {
        gathered.clear();
        Clean {
            victim,
            cursor: 0,
            gathered,
            moved: Vec::new(alloc),
        }
    }

    /// The memory of the records, for the next clean.
    pub(crate) fn into_gathered(self) -> Gathered {
        self.gathered
    }

    /// Drops the gathered records of the blocks that these entries name. Nothing is allocated.
    pub fn forget(&mut self, entries: &[Entry])
        requires { AllByRecursion (λ e. e.block < 2 ^ 32) entries.now }
        ensures { self.new ≡ forgotten entries.now self.old }
    {
        self.gathered.forget(entries);
    }

    /// The zone that the clean empties.
    pub(crate) fn victim(&self) -> u32
        ensures { result ≡ self.now.victim }
    {
        self.victim
    }

    /// Gathers the record of a block. Its place is in the victim.
    pub(crate) fn gather<D: Device>(
        &mut self,
        disk: &mut Mounted<D>,
        block: u32,
        place: Place,
    ) -> Result<(), CleanFault>
        requires next { self.old.cursor ≤ block }
        requires few { block + 1 < 2 ^ 32 }
        // While the drive is clean, this step is due, and it is done as such.
        requires at { IsTrue disk.old.drive.clean → IsAtStep (Step.Gather block place) disk.old self.old }
        ensures leaves { IsTrue disk.new.drive.clean
            → StepLeaves (Step.Gather block place) disk.old self.old result disk.new (Some self.new) }
        // Whatever the Read returned, the tables are the same, but that they note what could not be read. It completes
        // one command at most.
        ensures asks { AsksAndNotes disk.old disk.new }
    {
        if let Err(fault) = self.gathered.gather(disk, block, place) {
            return Err(note_lost(&mut disk.tables, block, place, fault));
        }
        self.cursor = block + 1;
        Ok(())
    }

    /// The destination, if by the tables a Move of the gathered records may be sent to it.
    fn destination(&self, tables: &Tables, geometry: &Geometry) -> Option<Filling>
        requires { IsInRange geometry.now }
        ensures some { IfSome result (HasRoomForMove geometry.now tables.now self.now) }
        ensures none { IfNone result ((filling : Filling)
            → HasRoomForMove geometry.now tables.now self.now filling → ⊥) }
        ensures apart { AreApart tables.now.roles }
        ensures distinct { IsDistinct nat_eq (map (λ r. r.block) self.now.gathered) }
    {
        let count = self.gathered.len();
        let destination = tables.destination()?;
        if tables.blocks() == 0 || count > batch_most(geometry) as usize {
            return None;
        }
        if destination.written as usize + count + 1 > geometry.capacity as usize {
            return None;
        }
        Some(destination)
    }

    /// Appends a Move of the gathered records to the destination. All memory is allocated before
    /// the Append.
    pub(crate) fn carry<D: Device>(&mut self, disk: &mut Mounted<D>) -> Result<(), CleanFault>
        requires sane { IsSane disk.old }
        // While the drive is clean, this step is due, and it is done as such.
        requires at { IsTrue disk.old.drive.clean → IsAtStep Step.Move disk.old self.old }
        ensures leaves { IsTrue disk.new.drive.clean
            → StepLeaves Step.Move disk.old self.old result disk.new (Some self.new) }
        // Whatever the Reads returned, the numbers stay in range. It completes two commands at most.
        ensures stays { StaysSane disk.old disk.new }
        ensures completed { disk.new.drive.completed ≤ disk.old.drive.completed + 2 }
    {
        let geometry = disk.geometry();
        let Some(destination) = self.destination(&disk.tables, &geometry) else {
            return Err(CleanFault::Damaged);
        };
        let sequence = disk.tables.next();
        if sequence >= (1 << 63) - geometry.capacity as u64 {
            return Err(CleanFault::Spent);
        }
        let header = MoveHeader {
            size: disk.tables.blocks(),
            sequence,
            source: self.victim,
            block_bytes: geometry.block,
        };
        if let Err(fault) = self.gathered.build(header) {
            return Err(fault);
        }
        disk.tables
            .reserve_moves(destination.zone, self.gathered.len() as u32)?;
        let batch = self.gathered.batch();
        let before = self.moved.len();
        if let Err(fault) = note_move(&disk.tables, batch.entries(), &mut self.moved) {
            return Err(fault);
        }
        match append_batch(disk, destination.zone, batch) {
            Ok(()) => {
                self.gathered.clear();
                Ok(())
            }
            Err(fault) => {
                self.moved.truncate(before);
                Err(command_fault(fault))
            }
        }
    }

    /// Empties the victim, once all its records are moved.
    pub(crate) fn empty_victim<D: Device>(&self, disk: &mut Mounted<D>) -> Result<(), CleanFault>
        // The victim is sealed, and the numbers of the disk are in range.
        requires sane { IsSane disk.old }
        requires sealed { is_sealed_at disk.old.tables.roles self.now.victim ≡ true }
        // While the drive is clean, this step is due.
        requires at { IsTrue disk.old.drive.clean → IsAtStep Step.Reset disk.old self.now }
        // Then the array never changes. Done, the victim is empty, and the destination is the next zone.
        ensures ok { IsTrue disk.new.drive.clean
            → OnOk result (EmptiesVictim disk.old disk.new self.now.victim) }
        ensures err { IsTrue disk.new.drive.clean
            → IfErr result (λ fault. StepFails Step.Reset fault disk.old disk.new) }
        // Whatever the Reads returned, the numbers stay in range. It completes one command at most.
        ensures stays { StaysSane disk.old disk.new }
        ensures completed { disk.new.drive.completed ≤ disk.old.drive.completed + 1 }
    {
        let start = disk.geometry().start_of(self.victim);
        if let Err(fault) = reset(disk.alloc, &mut disk.device, start) {
            return Err(command_fault(fault));
        }
        disk.tables.end_clean(self.victim);
        Ok(())
    }

    /// Gives the clean up: its destination is emptied, and each block that was moved there has its old place again.
    /// Nothing is allocated but for the Reset.
    pub(crate) fn undo<D: Device>(&self, disk: &mut Mounted<D>) -> Result<(), CleanFault>
        // The numbers of the disk are in range. While the drive is clean, this step is due.
        requires sane { IsSane disk.old }
        requires at { IsTrue disk.old.drive.clean → IsAtStep Step.Undo disk.old self.now }
        // Then the array never changes. Done, the destination is empty.
        ensures ok { IsTrue disk.new.drive.clean → OnOk result (UndoesClean disk.old disk.new) }
        ensures err { IsTrue disk.new.drive.clean
            → IfErr result (λ fault. StepFails Step.Undo fault disk.old disk.new) }
        // Whatever the Reads returned, the numbers stay in range. It completes one command at most.
        ensures stays { StaysSane disk.old disk.new }
        ensures completed { disk.new.drive.completed ≤ disk.old.drive.completed + 1 }
    {
        let Some(destination) = disk.tables.destination() else {
            return Err(CleanFault::Damaged);
        };
        let start = disk.geometry().start_of(destination.zone);
        if let Err(fault) = reset(disk.alloc, &mut disk.device, start) {
            return Err(command_fault(fault));
        }
        put_back(&mut disk.tables, destination.zone, self.moved.as_slice());
        disk.tables.undo_clean();
        Ok(())
    }

    /// What the clean does next.
    pub(crate) fn next_step<D: Device>(&self, disk: &mut Mounted<D>) -> Step
        // The geometry is in range, and the victim is one of the zones.
        requires in_range { IsInRange disk.old.drive.geometry }
        requires victim { self.now.victim < disk.old.tables.map.zones }
        // It only looks: the step is the one that is due, and nothing changes.
        ensures step { result ≡ step_due disk.old self.now }
        ensures kept { disk.new ≡ disk.old }
    {
        if disk.tables.is_left_out(self.victim) {
            return Step::Undo;
        }
        if self.gathered.len() >= batch_most(&disk.geometry()) as usize {
            return Step::Move;
        }
        if let Some((block, place)) = disk.tables.first_record(self.victim, self.cursor) {
            return Step::Gather(block, place);
        }
        last_step(disk.tables.second(), self.gathered.len())
    }
}

/// Why the record of a block was not gathered. If a command failed, that its data could not be read is noted before.
fn note_lost(tables: &mut Tables, block: u32, place: Place, fault: CleanFault) -> CleanFault
    ensures failed { result ≡ CleanFault.Failed → NotesLost block place tables.old tables.new }
    ensures other { result ≢ CleanFault.Failed → tables.new ≡ tables.old }
    ensures cause { result ≡ CleanFault.Failed → fault ≡ CleanFault.Failed }
    // It is another fault only out of memory, or if the block is not the disk's.
    ensures fault { block < size_of tables.old
        → (result ≡ fault) ⊎ (result ≡ CleanFault.OutOfMemory) }
{
    if fault != CleanFault::Failed {
        return fault;
    }
    if block >= tables.blocks() {
        return CleanFault::Damaged;
    }
    match tables.leave_out(block, address_of(place)) {
        Ok(()) => CleanFault::Failed,
        Err(_) => CleanFault::OutOfMemory,
    }
}

/// Notes where the blocks of a Move are, each of which has a place while the drive is clean. Refused, nothing is noted.
fn note_move(tables: &Tables, entries: &[Entry], moved: &mut Vec<Moved>) -> Result<(), CleanFault>
    requires { size_of tables.now ≤ 2 ^ 31 }
    ensures ok { OnOk result
        (moved.new.items ≡ moved.old.items ++ map (entry_moved tables.now.map.places) entries.now) }
    ensures placed { OnOk result (list_all (λ e. has_place tables.now e.block) entries.now ≡ true) }
    ensures err { OnErr result (moved.new.items ≡ moved.old.items) }
    ensures fault { list_all (λ e. has_place tables.now e.block) entries.now ≡ true
        → IfErr result (λ fault. fault ≡ CleanFault.OutOfMemory) }
{
    if !have_places(tables, entries) {
        return Err(CleanFault::Damaged);
    }
    let before = moved.len();
    if note_places(tables, entries, moved).is_err() {
        moved.truncate(before);
        return Err(CleanFault::OutOfMemory);
    }
    Ok(())
}

fn is_placed(place: Place) -> bool
    ensures { result ≡ is_placed place }
{
    match place {
        Place::None => false,
        _ => true,
    }
}

/// Whether each block of a Move has a place, as each that was gathered has while the drive is clean.
fn have_places(tables: &Tables, entries: &[Entry]) -> bool
    ensures { result ≡ list_all (λ e. has_place tables.now e.block) entries.now }
{
    let size = tables.blocks() as u64;
    for entry in entries {
        if entry.block >= size || !is_placed(tables.place_of(entry.block as u32)) {
            return false;
        }
    }
    true
}

/// What a clean does next when it has taken all records of its victim. If some are gathered, or no
/// Move is written yet, that is a Move. Else it is the Reset.
fn last_step(second: Option<Second>, gathered: usize) -> Step
    ensures { (rs : List LiveRecord) → length rs ≡ gathered
        → result ≡ last_step (destination_written second) rs }
{
    if gathered > 0 {
        return Step::Move;
    }
    match second {
        Some(Second::Destination(filling)) if filling.written > 0 => Step::Reset,
        _ => Step::Move,
    }
}
