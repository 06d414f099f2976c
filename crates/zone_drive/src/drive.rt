ghost use Rattle.std.specs.Prelude.{◌≡◌, ◌<◌, ◌≤◌, ◌^◌, ◌↔◌, [], false, length, nat_le, replicate, true, IfErr};
ghost use Rattle.std.specs.Prelude.{IfOk, IfSome, IsErrOf, IsSome, OnErr, OnOk};
ghost use Rattle.std.specs.List.{AllByRecursion, list_all};
ghost use Rattle.nvme_wire.specs.Entry.{decode_of};
ghost use Rattle.zone_states.specs.Geometry.{IsInRange};
ghost use Rattle.zone_states.specs.Stored.{AreWholeBlocks, zone_stored};
ghost use Rattle.drive_port.specs.Drive.{IsLawful};
ghost use Rattle.drive_port.specs.Halting.{Adds, SubmitAdds, SubmitGives};
ghost use Rattle.drive_port.specs.Run.{restarted};
ghost use Rattle.drive_port.specs.Step.{zone_at};
ghost use Rattle.zone_drive.specs.Choice.{AnswersByChoice};
ghost use Rattle.zone_drive.specs.Faults.{IsFault, IsFreshFault};
ghost use Rattle.zone_drive.specs.Foreseen.{Foresees};
ghost use Rattle.zone_drive.specs.Habits.{made};
ghost use Rattle.zone_drive.specs.Memory.{may_allocate};
ghost use Rattle.zone_drive.specs.Stored.{AreZones, fresh, is_lawful, may_hold, unused, zones_of};
ghost use Rattle.zone_drive.specs.declared.drive.DriveFault.TheVariants.{OutOfMemory};

use crate::habit::Habit;
use crate::held::HeldZones;
use crate::memory_zones::MemoryZones;
use crate::zone_drive::ZoneDrive;
use drive_port::{Device, Halt, Honest};
use nvme_wire::Status;
use std::alloc::{AllocError, Global};
use std::marker::Model;
use thiserror::Error;
use zone_report::{ReportedZones, ZoneStatus};
use zone_states::{Geometry, GeometryFault, Zone, ZoneState};

/// Why there is no drive.
#[derive(Clone, Copy, Debug, PartialEq, Eq, Error)]
pub enum DriveFault {
    /// The first part of the geometry that is out of range.
    #[error("{0}")]
    Geometry(GeometryFault),
    /// An allocation failed.
    #[error("out of memory")]
    OutOfMemory,
    /// A drive of this geometry cannot have these zones.
    #[error("a drive of this geometry cannot have these zones")]
    Zones,
}

impl From<AllocError> for DriveFault {
    ghost from_gives = { λ _ fault. fault ≡ OutOfMemory };

    fn from(_error: AllocError) -> DriveFault {
        DriveFault::OutOfMemory
    }
}

/// A zoned drive in memory.
#[derive(Drop)]
pub struct Drive {
    held: ZoneDrive<MemoryZones>,
}

impl Model for Drive {
    ghost use Rattle.std.specs.Prelude.{◌≡◌, false};
    ghost use Rattle.zone_drive.specs.Habits.{MemoryDrive};

    ghost Value = { MemoryDrive };

    ghost view = { λ d. d.held.drive };

    ghost invariant = { λ d. d.held.halted ≡ false };
}

/// Whether a zone in this state may hold so many blocks, in a drive with zones of a capacity in blocks.
pub fn may_hold(state: ZoneState, capacity: u32, written: usize) -> bool
    ensures { result ≡ may_hold state capacity written }
{
    let capacity = capacity as usize;
    match state {
        ZoneState::Empty => written == 0,
        ZoneState::ImplicitlyOpened | ZoneState::ExplicitlyOpened | ZoneState::Closed => {
            written < capacity
        }
        ZoneState::Full | ZoneState::ReadOnly | ZoneState::Offline => written <= capacity,
    }
}

/// Whether a zone holds whole blocks, as many as its state allows.
fn is_lawful(geometry: &Geometry, zone: &Zone) -> bool
    requires { 1 ≤ geometry.now.block }
    ensures { result ≡ is_lawful geometry.now zone.now }
{
    if zone.written().len() % geometry.block as usize != 0 {
        return false;
    }
    may_hold(zone.state(), geometry.capacity, zone.blocks(geometry))
}

fn all_lawful(geometry: &Geometry, zones: &[Zone]) -> bool
    requires { 1 ≤ geometry.now.block }
    ensures { result ≡ list_all (is_lawful geometry.now) zones.now }
{
    zones.iter().all(|zone| is_lawful(geometry, zone))
}

fn empty_zones(alloc: Global, count: u32) -> Result<Vec<Zone>, AllocError>
    ensures { IfOk result (λ zones.
        zones.items ≡ replicate count (record { state = ZoneState.Empty; bytes = [] })) }
{
    let mut zones = Vec::new(alloc);
    for _ in 0..count {
        zones.push(Zone::new(alloc))?;
    }
    Ok(zones)
}

/// A drive of these zones, which has completed no command.
fn unused(alloc: Global, geometry: Geometry, zones: MemoryZones) -> Drive
    requires in_range { IsInRange geometry }
    requires zones { AreZones geometry zones.zones }
    requires shape { zones.shape ≡ geometry }
    ensures { result ≡ made (unused geometry (zones_of geometry.block zones.zones)) }
{
    Drive {
        held: ZoneDrive::new(alloc, geometry, zones),
    }
}

impl Drive {
    /// A drive of this shape, all of whose zones are Empty. Its habit is `Lazy`.
    pub fn new(alloc: Global, geometry: Geometry) -> Result<Drive, DriveFault>
        ensures ok { IfOk result (λ drive. drive ≡ made (fresh geometry)) }
        ensures in_range { OnOk result (IsInRange geometry) }
        ensures err { IfErr result (λ fault. IsFreshFault geometry fault) }
    {
        if let Err(fault) = geometry.check() {
            return Err(DriveFault::Geometry(fault));
        }
        let zones = empty_zones(alloc, geometry.zones)?;
        Ok(unused(alloc, geometry, MemoryZones::new(geometry, zones)))
    }

    /// A drive of this shape with these zones, which has completed no command. Its habit is `Lazy`. It
    /// allocates nothing.
    pub fn from_zones(
        alloc: Global,
        geometry: Geometry,
        zones: Vec<Zone>,
    ) -> Result<Drive, DriveFault>
        ensures ok { IfOk result (λ drive.
            drive ≡ made (unused geometry (zones_of geometry.block zones.items))) }
        ensures lawful { OnOk result (IsInRange geometry × AreZones geometry zones.items) }
        ensures err { IfErr result (λ fault. IsFault geometry zones.items fault) }
    {
        if let Err(fault) = geometry.check() {
            return Err(DriveFault::Geometry(fault));
        }
        if zones.len() != geometry.zones as usize {
            return Err(DriveFault::Zones);
        }
        if !all_lawful(&geometry, &zones) {
            return Err(DriveFault::Zones);
        }
        let zones = MemoryZones::new(geometry, zones);
        if zones.active_zones() > geometry.active || zones.open_zones() > geometry.open {
            return Err(DriveFault::Zones);
        }
        Ok(unused(alloc, geometry, zones))
    }

    /// The zone with a number.
    pub fn zone(&self, index: usize) -> Option<&Zone>
        ensures some { IfSome result (λ zone. zone_stored self.now.state.geometry.block zone.now
            ≡ zone_at self.now.state.zones index) }
        ensures whole { IfSome result
            (λ zone. AreWholeBlocks self.now.state.geometry.block zone.now.bytes) }
        ensures in_range { IsSome result ↔ (index < length self.now.state.zones) }
    {
        self.held.zones.as_slice().get(index)
    }

    /// All zones, in ascending order.
    pub fn zones(&self) -> &[Zone]
        ensures zones { zones_of self.now.state.geometry.block result.now ≡ self.now.state.zones }
        ensures whole { AllByRecursion
            (λ zone. AreWholeBlocks self.now.state.geometry.block zone.bytes) result.now }
        ensures in_range { IsInRange self.now.state.geometry }
    {
        self.held.zones.as_slice()
    }

    /// Makes open zones Closed, and begins all counts again. The habit stays. It allocates nothing.
    pub fn restart(&mut self)
        ensures { self.new ≡ record self.old { state = restarted self.old.state } }
    {
        let _ = self.held.restart();
    }

    /// Which zones the drive closes by itself.
    pub fn habit(&self) -> Habit
        ensures { result ≡ self.now.habit }
    {
        self.held.habit()
    }

    /// Changes which zones the drive closes by itself, from the next command on. An image does not store
    /// it, and a restart keeps it. It allocates nothing.
    pub fn set_habit(&mut self, habit: Habit)
        ensures { self.new ≡ record self.old { habit = habit } }
    {
        self.held.set_habit(habit);
    }

    /// Answers an entry as `submit` does, and extends what `into` holds as `submit_extending` does.
    #[inline(always)]
    pub fn answer(
        &mut self,
        entry: &[u8; 64],
        bytes: &[u8],
        into: &mut Vec<u8>,
    ) -> Result<[u8; 16], Halt>
        ensures gives { SubmitAdds self.old.state entry.now bytes.now into.old.items result
            into.new.items self.new.state }
        ensures was_lawful { IsLawful self.old.state }
        ensures lawful { IsLawful self.new.state }
        ensures memory { IsErrOf result Halt.Memory → may_allocate (decode_of entry.now) ≡ true }
        ensures choice { IfOk result (λ completion. Adds into.old.items
            (λ returned. AnswersByChoice self.old entry.now bytes.now completion returned self.new)
            into.new.items) }
        ensures stops { self.new.state.stopped ≡ nat_le (2 ^ 63) self.new.state.completed }
        ensures kept { OnErr result (self.new ≡ self.old) }
    {
        self.held.answer(entry, bytes, into)
    }

    /// The status with which the command of this entry will end, if there is memory for it and the drive has not
    /// stopped. It allocates nothing.
    pub fn foresee(&self, entry: &[u8; 64], bytes: &[u8]) -> Status
        ensures { Foresees self.now (decode_of entry.now) bytes.now result }
    {
        self.held.foresee(entry, bytes)
    }

    /// Takes the memory that the command of this entry needs for its blocks. Nothing else changes.
    pub fn reserve(&mut self, entry: &[u8; 64], bytes: &[u8]) -> Result<(), AllocError>
        ensures { self.new ≡ self.old }
    {
        self.held.reserve(entry, bytes)
    }
}

impl Device for Drive {
    ghost drive = { λ d. d.state };

    fn geometry(&self) -> Geometry {
        self.held.geometry()
    }

    fn completed(&self) -> u64 {
        self.held.completed()
    }

    fn stopped(&self) -> bool
        ensures value { result ≡ self.now.state.stopped }
        ensures lawful { IsLawful self.now.state }
        ensures by_count { self.now.state.stopped ≡ nat_le (2 ^ 63) self.now.state.completed }
    {
        self.held.stopped()
    }

    #[inline(always)]
    fn submit(
        &mut self,
        entry: &[u8; 64],
        bytes: &[u8],
        into: &mut Vec<u8>,
    ) -> Result<[u8; 16], Halt>
        ensures gives { SubmitGives self.old.state entry.now bytes.now result into.new.items
            self.new.state }
        ensures was_lawful { IsLawful self.old.state }
        ensures lawful { IsLawful self.new.state }

        // Only a Read, a Write, an Append or a Receive may be out of memory.
        ensures memory { IsErrOf result Halt.Memory → may_allocate (decode_of entry.now) ≡ true }

        // It closes what its habit says, and stops only by its count.
        ensures choice { IfOk result (λ completion.
            AnswersByChoice self.old entry.now bytes.now completion into.new.items self.new) }
        ensures stops { self.new.state.stopped ≡ nat_le (2 ^ 63) self.new.state.completed }
        ensures kept { OnErr result (self.new ≡ self.old) }
    {
        into.clear();
        self.answer(entry, bytes, into)
    }

    #[inline(always)]
    fn submit_extending(&mut self, entry: &[u8; 64], into: &mut Vec<u8>) -> Result<[u8; 16], Halt>
        ensures gives { SubmitAdds self.old.state entry.now [] into.old.items result into.new.items
            self.new.state }
        ensures was_lawful { IsLawful self.old.state }
        ensures lawful { IsLawful self.new.state }

        // Of the memory, of what it closes and of when it stops, it keeps what `submit` does.
        ensures memory { IsErrOf result Halt.Memory → may_allocate (decode_of entry.now) ≡ true }
        ensures choice { IfOk result (λ completion. Adds into.old.items
            (λ returned. AnswersByChoice self.old entry.now [] completion returned self.new)
            into.new.items) }
        ensures stops { self.new.state.stopped ≡ nat_le (2 ^ 63) self.new.state.completed }
        ensures kept { OnErr result (self.new ≡ self.old) }
    {
        self.answer(entry, &[], into)
    }
}

impl ReportedZones for Drive {
    ghost zones = { λ d. d.state.zones };

    fn status(&self, number: u32) -> ZoneStatus {
        self.held.status(number)
    }
}

impl Honest for Drive {
    fn vouch(&self) {
        self.held.vouch();
    }
}
