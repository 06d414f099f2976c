ghost use Rattle.std.specs.Prelude.{◌≡◌, ◌≤◌, ◌<◌, ◌+◌, ◌*◌, ◌^◌, IsFalse, IsTrue, Err, None, Some, [], is_some, length, true};
ghost use Rattle.std.specs.List.{AllByRecursion};
ghost use Rattle.std.specs.Option.{option_map};
ghost use Rattle.zone_choice.specs.Builder.{IsBuilt};
ghost use Rattle.zone_choice.specs.Changes.{CanPlace, built_for};
ghost use Rattle.zone_choice.specs.Sane.{ByHalt, IsSane, KeepsShape, MayPlace, TablesAfter};
ghost use Rattle.zone_cleaner.specs.Answering.{CleanAnswers, CostsClean, PassAnswers, Readies, RoundAnswers, StaysSane, TurnAnswers};
ghost use Rattle.zone_cleaner.specs.Clean.{forgotten, started};
ghost use Rattle.zone_cleaner.specs.Host.{HostLeaves};
ghost use Rattle.zone_choice.specs.Roles.{next_of};
ghost use Rattle.zone_cleaner.specs.Start.{AgreesWithClean, CanTake, FindsDue, LacksZones, TurnLeaves};
ghost use Rattle.zone_cleaner.specs.Start.{is_given_up, unfinished};
ghost use Rattle.zone_states.specs.Geometry.{IsInRange};

use crate::clean::Clean;
use crate::fault::CleanFault;
use crate::gathered::Gathered;
use crate::step::Step;
use batch_log::Entry;
use drive_port::{Device, Geometry, PortFault};
use std::alloc::Global;
use std::marker::Model;
use std::mem::replace;
use zone_choice::{BatchBuilder, Filling, Mounted, Second, Tables, append_batch, fill};

/// Cleans the zones of a drive one after the other, in turns. The host's commands may come between
/// them.
#[derive(Drop)]
pub struct Cleaner {
    clean: Option<Clean>,
    /// The memory that the last clean used for its records: the next one uses it again.
    gathered: Gathered,
}

impl Model for Cleaner {
    ghost use Rattle.std.specs.Prelude.{Option};
    ghost use Rattle.zone_cleaner.specs.Clean.{CleanView};

    ghost Value = { Option CleanView };

    ghost view = { λ c. c.clean };
}

/// The victim of the clean that is due, if one is due.
fn due(tables: &Tables, geometry: &Geometry) -> Option<u32>
    requires in_range { IsInRange geometry.now }
    requires zones { length tables.now.roles.empty ≡ tables.now.map.zones }
    ensures { FindsDue geometry.now tables.now result }
{
    if tables.second().is_some() {
        return None;
    }
    let empty = tables.empty_count();
    if empty == 0 || empty > 2 {
        return None;
    }
    let victim = tables.least_sealed()?;
    if fill(geometry, tables.live(victim)) + 2 > geometry.capacity as u64 {
        return None;
    }
    Some(victim)
}

impl Cleaner {
    /// A cleaner that runs no clean. Nothing is allocated.
    pub fn new(alloc: Global) -> Cleaner
        ensures { result ≡ None }
    {
        Cleaner {
            clean: None,
            gathered: Gathered::new(alloc),
        }
    }

    /// Whether a clean runs.
    pub fn running(&self) -> bool
        ensures { result ≡ is_some self.now }
    {
        self.clean.is_some()
    }

    /// Drops the gathered records of the blocks that a batch of the host names. Nothing is
    /// allocated.
    ///
    /// This is for a batch that was appended. Before that, its blocks still have to be moved.
    /// `Cleaner::append_batch` does both.
    pub fn forget(&mut self, entries: &[Entry])
        requires { AllByRecursion (λ e. e.block < 2 ^ 32) entries.now }
        ensures { self.new ≡ option_map (forgotten entries.now) self.old }
    {
        if let Some(clean) = &mut self.clean {
            clean.forget(entries);
        }
    }

    /// Appends a batch of the host to the host zone and, after the Append, takes the blocks that it names out of the
    /// gathered records. A clean that runs continues, with as many turns left as before, or fewer.
    pub fn append_batch<D: Device>(
        &mut self,
        disk: &mut Mounted<D>,
        host: Filling,
        batch: &BatchBuilder,
    ) -> Result<(), PortFault>
        // The batch goes to the host zone, and the numbers of tables and batch are in range.
        requires host { disk.old.tables.roles.host ≡ Some host }
        requires built { IsBuilt disk.old.drive.geometry.block batch.now }
        requires may { MayPlace disk.old host.zone (built_for disk.old batch.now) }
        // While the drive is clean, tables, drive and clean agree, and the zone has room for the batch, the next one.
        requires cleaned { IsTrue disk.old.drive.clean → AgreesWithClean disk.old self.old }
        requires can { IsTrue disk.old.drive.clean
            → CanPlace disk.old host.zone (built_for disk.old batch.now) }
        // Then, done, it has appended the batch, and the clean has forgotten its blocks.
        // Refused, the clean is the same, and nothing was appended, unless the drive stopped.
        ensures leaves { IsTrue disk.new.drive.clean
            → ByHalt (λ answer. HostLeaves disk.old self.old host.zone (built_for disk.old batch.now)
            answer disk.new self.new) result }
        // Whatever the Reads returned, the tables count the batch once it is appended, with numbers in range.
        ensures tables { TablesAfter disk.old.drive.geometry disk.old.tables host.zone
            (built_for disk.old batch.now) result disk.new.tables }
        ensures sane { IsSane disk.new }
        ensures stays { KeepsShape disk.old.drive disk.new.drive }
        // It completes two commands at most.
        ensures completed { disk.new.drive.completed ≤ disk.old.drive.completed + 2 }
    {
        match append_batch(disk, host.zone, batch) {
            Ok(()) => {
                self.forget(batch.entries());
                Ok(())
            }
            Err(fault) => Err(fault),
        }
    }

    /// Starts the clean that is due, if one is. Its victim is the sealed zone with the fewest live
    /// records, and its destination the lowest empty zone. No command is sent.
    pub fn start<D: Device>(&mut self, disk: &mut Mounted<D>)
        // No clean runs, the geometry is in range, and roles and map have the same number of zones.
        requires none { self.old ≡ None }
        requires in_range { IsInRange disk.old.drive.geometry }
        requires zones { length disk.old.tables.roles.empty ≡ disk.old.tables.map.zones }
        // The drive never changes. Either the clean that is due has begun, or none is due and nothing changed.
        ensures turn { TurnLeaves disk.old None (Ok tt) disk.new self.new }
        ensures sane { IsSane disk.old → IsSane disk.new }
    {
        let geometry = disk.geometry();
        let Some(victim) = due(&disk.tables, &geometry) else {
            return;
        };
        if disk.tables.take_destination().is_some() {
            self.begin(disk.alloc, victim);
        }
    }

    /// Begins the clean of a victim, in the memory that the last clean used.
    fn begin(&mut self, alloc: Global, victim: u32)
        ensures { self.new ≡ Some (started victim) }
    {
        let gathered = replace(&mut self.gathered, Gathered::new(alloc));
        self.clean = Some(Clean::new(alloc, victim, gathered));
    }

    /// Ends the clean that runs, if one does, and keeps its memory.
    fn end(&mut self)
        ensures { self.new ≡ None }
    {
        if let Some(clean) = self.clean.take() {
            self.gathered = clean.into_gathered();
        }
    }

    /// Does what one turn does.
    fn step<D: Device>(&mut self, disk: &mut Mounted<D>) -> Result<(), CleanFault>
        requires sane { IsSane disk.old }
        requires cleaned { IsTrue disk.old.drive.clean → AgreesWithClean disk.old self.old }
        ensures leaves { IsTrue disk.new.drive.clean
            → TurnLeaves disk.old self.old result disk.new self.new }
        ensures stays { StaysSane disk.old disk.new }
        ensures completed { disk.new.drive.completed ≤ disk.old.drive.completed + 2 }
    {
        let Some(clean) = &mut self.clean else {
            self.start(disk);
            return Ok(());
        };
        if !disk.tables.is_sealed(clean.victim()) {
            return Err(CleanFault::Damaged);
        }
        match clean.next_step(disk) {
            Step::Gather(block, place) => clean.gather(disk, block, place),
            Step::Move => clean.carry(disk),
            Step::Reset => {
                clean.empty_victim(disk)?;
                self.end();
                Ok(())
            }
            Step::Undo => {
                clean.undo(disk)?;
                self.end();
                Ok(())
            }
        }
    }

    /// Takes one turn: the next step of the clean that runs. If none runs, the one that is due is
    /// started.
    ///
    /// After `OutOfMemory` and `Spent` the clean is as before the turn, and the next turn tries it
    /// again. At most two commands are completed.
    pub fn turn<D: Device>(&mut self, disk: &mut Mounted<D>) -> Result<(), CleanFault>
        requires sane { IsSane disk.old }
        // While the drive is clean, tables, drive and clean agree, and a turn is taken.
        requires cleaned { IsTrue disk.old.drive.clean → AgreesWithClean disk.old self.old }
        ensures answers { IsTrue disk.new.drive.clean
            → TurnAnswers disk.old self.old result disk.new self.new }
        // Whatever the Reads returned, the numbers stay in range.
        ensures stays { StaysSane disk.old disk.new }
        ensures completed { disk.new.drive.completed ≤ disk.old.drive.completed + 2 }
    {
        self.step(disk)
    }

    /// Starts the clean that is due, if none runs. Whether one runs then.
    fn readies<D: Device>(&mut self, disk: &mut Mounted<D>) -> bool
        requires sane { IsSane disk.old }
        requires cleaned { IsTrue disk.old.drive.clean → AgreesWithClean disk.old self.old }
        requires lacks { IsTrue disk.old.drive.clean → self.old ≡ None → disk.old.tables.unreadable ≡ []
            → LacksZones disk.old.tables.roles }
        ensures ready { IsTrue disk.new.drive.clean → Readies disk.old self.old disk.new self.new }
        ensures runs { result ≡ is_some self.new }
        ensures stays { StaysSane disk.old disk.new }
        ensures drive { disk.new.drive ≡ disk.old.drive }
    {
        if !self.running() {
            self.start(disk);
        }
        self.running()
    }

    /// Takes one turn of a clean, the one that runs or one that is started. That data cannot be read counts as a turn
    /// that is done, since the next one takes another zone.
    fn go_on<D: Device>(&mut self, disk: &mut Mounted<D>) -> Result<(), CleanFault>
        requires sane { IsSane disk.old }
        requires cleaned { IsTrue disk.old.drive.clean → AgreesWithClean disk.old self.old }
        // While all data could be read, a clean is started only where zones lack.
        requires lacks { IsTrue disk.old.drive.clean → self.old ≡ None → disk.old.tables.unreadable ≡ []
            → LacksZones disk.old.tables.roles }
        ensures answers { IsTrue disk.new.drive.clean
            → PassAnswers disk.old self.old result disk.new self.new }
        ensures stays { StaysSane disk.old disk.new }
        ensures completed { disk.new.drive.completed ≤ disk.old.drive.completed + 2 }
    {
        if !self.readies(disk) {
            return Err(none_to_clean(&mut disk.tables));
        }
        let result = self.turn(disk);
        if has_failed(result) && self.is_given_up(&disk.tables) {
            return Ok(());
        }
        result
    }

    /// Whether the clean that runs, if one does, is to be undone.
    fn is_given_up(&self, tables: &Tables) -> bool
        ensures { result ≡ is_given_up tables.now self.now }
    {
        match &self.clean {
            Some(clean) => tables.is_left_out(clean.victim()),
            None => false,
        }
    }

    /// Whether the host can take a zone now: no clean runs, and there is a next zone, or an empty one beside another.
    fn finds_zone(&self, tables: &Tables) -> bool
        ensures some { IsTrue result → (self.now ≡ None) × CanTake tables.now.roles }
        ensures none { IsFalse result → self.now ≡ None → CanTake tables.now.roles → ⊥ }
    {
        !self.running() && (has_next(tables) || tables.empty_count() >= 2)
    }

    /// Takes as many turns as one clean has, or fewer if the host can take a zone before.
    fn take_turns<D: Device>(&mut self, disk: &mut Mounted<D>) -> Result<(), CleanFault>
        requires sane { IsSane disk.old }
        requires host { disk.old.tables.roles.host ≡ None }
        requires cleaned { IsTrue disk.old.drive.clean → AgreesWithClean disk.old self.old }
        // While all data could be read, a clean is started only where zones lack.
        requires lacks { IsTrue disk.old.drive.clean → disk.old.tables.unreadable ≡ []
            → LacksZones disk.old.tables.roles }
        ensures answers { IsTrue disk.new.drive.clean
            → RoundAnswers disk.old self.old result disk.new self.new }
        ensures stays { StaysSane disk.old disk.new }
        ensures completed { disk.new.drive.completed + 2
            ≤ disk.old.drive.completed + 2 * disk.old.drive.geometry.capacity }
    {
        // A clean has fewer turns than a zone has blocks.
        for _ in 1..disk.geometry().capacity {
            if let Err(fault) = self.go_on(disk) {
                return Err(fault);
            }
            if self.finds_zone(&disk.tables) {
                return Ok(());
            }
        }
        Ok(())
    }

    /// Makes room at once, for a disk that has no host zone, no next zone, and at most one empty
    /// zone. The clean that runs is run to its end. If none runs, one is started before.
    /// Afterwards the host can take a zone: the next zone, with two free blocks, or an empty one.
    ///
    /// If data of a zone cannot be read, other zones are cleaned. It answers `Failed` if none is left that can be.
    pub fn clean_zone<D: Device>(&mut self, disk: &mut Mounted<D>) -> Result<(), CleanFault>
        requires sane { IsSane disk.old }
        requires lacks { LacksZones disk.old.tables.roles }
        requires cleaned { IsTrue disk.old.drive.clean → AgreesWithClean disk.old self.old }
        ensures answers { IsTrue disk.new.drive.clean
            → CleanAnswers disk.old self.old result disk.new self.new }
        ensures stays { StaysSane disk.old disk.new }
        // It completes as many commands as one clean, unless a command failed: then as many for each zone.
        ensures costs { CostsClean 2 disk.old.drive disk.new.drive }
    {
        for _ in 0..disk.geometry().zones {
            if let Err(fault) = self.take_turns(disk) {
                return Err(fault);
            }
            if self.finds_zone(&disk.tables) {
                return Ok(());
            }
            if disk.tables.unreadable().is_empty() {
                return Err(CleanFault::Damaged);
            }
        }
        Err(unfinished(&disk.tables))
    }
}

/// Whether a turn ended since a command failed.
fn has_failed(turn: Result<(), CleanFault>) -> bool
    ensures { result ≡ true → turn ≡ Err CleanFault.Failed }
{
    match turn {
        Err(fault) => fault == CleanFault::Failed,
        Ok(()) => false,
    }
}

/// Whether there is a next zone.
fn has_next(tables: &Tables) -> bool
    ensures { result ≡ is_some (next_of tables.now.roles.second) }
{
    match tables.second() {
        Some(Second::Next(_)) => true,
        _ => false,
    }
}

/// Why no clean was started. If zones are left out, they are tried again from now on.
fn none_to_clean(tables: &mut Tables) -> CleanFault
    ensures lost { tables.new ≡ record tables.old { unreadable = [] } }
    ensures fault { result ≡ unfinished tables.old }
{
    let fault = unfinished(tables);
    tables.leave_none_out();
    fault
}

/// Why a clean has not ended: data could not be read. While all can be, each clean ends.
fn unfinished(tables: &Tables) -> CleanFault
    ensures { result ≡ unfinished tables.now }
{
    if tables.unreadable().is_empty() {
        return CleanFault::Damaged;
    }
    CleanFault::Failed
}
