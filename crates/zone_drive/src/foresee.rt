ghost use Rattle.std.specs.Prelude.{◌≡◌, ◌<◌, ◌≤◌, Bool, List, ℕ, None, Ok, false, true};
ghost use Rattle.nvme_wire.specs.declared.command.ReportingOptions.{ReportingOptions};
ghost use Rattle.nvme_wire.specs.Entry.{IsAdmitted, decode_of};
ghost use Rattle.zone_states.specs.Checks.{first_failing};
ghost use Rattle.zone_states.specs.Writing.{append_bytes_checks};
ghost use Rattle.drive_port.specs.Drive.{open_count};
ghost use Rattle.drive_port.specs.Step.{zone_at};
ghost use Rattle.zone_drive.specs.Foreseen.{CouldOpen, CouldWrite, Foresees};

use crate::device::fault_status;
use crate::held::HeldZones;
use crate::zone_drive::ZoneDrive;
use nvme_wire::{Action, Command, Status};
use std::alloc::AllocError;

impl<Z: HeldZones + Drop> ZoneDrive<Z> {
    /// The status of a Write or an Append to a zone that takes it, where the zone lacks a resource.
    fn write_room_refusal(&self, number: u32, bytes: &[u8]) -> Option<Status>
        requires in_range { number < self.now.drive.state.geometry.zones }
        requires checks { None ≡ first_failing (append_bytes_checks self.now.drive.state.geometry
            (zone_at self.now.drive.state.zones number) bytes.now) }
        ensures could { CouldWrite self.now.drive number bytes.now result }
        ensures limit { open_count self.now.drive.state.zones ≤ self.now.drive.state.geometry.open }
    {
        let _ = &self.geometry;
        self.room_for(number).err()
    }

    /// The status of an Open of a zone that can be opened, where the zone lacks a resource.
    fn open_room_refusal(&self, number: u32) -> Option<Status>
        requires { number < self.now.drive.state.geometry.zones }
        ensures could { CouldOpen self.now.drive number result }
        ensures limit { open_count self.now.drive.state.zones ≤ self.now.drive.state.geometry.open }
    {
        let _ = &self.geometry;
        self.room_for(number).err()
    }

    fn foresee_append(&self, zslba: u64, blocks: u32, bytes: &[u8]) -> Status
        ensures { Foresees self.now.drive (Ok (Command.Append zslba blocks)) bytes.now result }
    {
        let geometry = self.geometry;
        if let Some(status) = self.append_refusal(zslba, blocks, bytes) {
            return status;
        }
        self.write_room_refusal(geometry.zone_of(zslba), bytes)
            .unwrap_or(Status::Success)
    }

    fn foresee_write(&self, slba: u64, blocks: u32, bytes: &[u8]) -> Status
        requires { 1 ≤ blocks }
        ensures { Foresees self.now.drive (Ok (Command.Write slba blocks)) bytes.now result }
    {
        let geometry = self.geometry;
        if let Some(status) = self.write_refusal(slba, blocks, bytes) {
            return status;
        }
        self.write_room_refusal(geometry.zone_of(slba), bytes)
            .unwrap_or(Status::Success)
    }

    fn foresee_send(&self, slba: u64, action: Action) -> Status
        ensures { (bytes : List ℕ) → Foresees self.now.drive (Ok (Command.Send slba action false)) bytes result }
    {
        let geometry = self.geometry;
        if let Some(status) = self.send_refusal(slba, action) {
            return status;
        }
        let number = geometry.zone_of(slba);
        match action {
            Action::Open => self.open_room_refusal(number).unwrap_or(Status::Success),
            _ => Status::Success,
        }
    }

    fn foresee_send_to_all(&self, slba: u64, action: Action) -> Status
        ensures { (bytes : List ℕ) → Foresees self.now.drive (Ok (Command.Send slba action true)) bytes result }
    {
        let _ = &self.geometry;
        Status::Success
    }

    fn foresee_read(&self, slba: u64, blocks: u32) -> Status
        requires { 1 ≤ blocks }
        ensures { (bytes : List ℕ) → Foresees self.now.drive (Ok (Command.Read slba blocks)) bytes result }
    {
        let _ = &self.geometry;
        match self.read_place(slba, blocks) {
            Ok(_) => Status::Success,
            Err(status) => status,
        }
    }

    fn foresee_receive(&self, slba: u64) -> Status
        ensures { (dwords : ℕ) (options : ReportingOptions) (partial : Bool) (bytes : List ℕ) →
            Foresees self.now.drive (Ok (Command.Receive slba dwords options partial)) bytes result }
    {
        if slba >= self.geometry.end() {
            return Status::LbaOutOfRange;
        }
        Status::Success
    }

    fn foresee_command(&self, command: Command, bytes: &[u8]) -> Status
        requires { IsAdmitted command }
        ensures { Foresees self.now.drive (Ok command) bytes.now result }
    {
        let _ = &self.geometry;
        match command {
            Command::Flush => Status::Success,
            Command::Read { slba, blocks } => self.foresee_read(slba, blocks),
            Command::Write { slba, blocks } => self.foresee_write(slba, blocks, bytes),
            Command::Append { zslba, blocks } => self.foresee_append(zslba, blocks, bytes),
            Command::Send {
                slba,
                action,
                all: true,
            } => self.foresee_send_to_all(slba, action),
            Command::Send {
                slba,
                action,
                all: false,
            } => self.foresee_send(slba, action),
            Command::Receive { slba, .. } => self.foresee_receive(slba),
        }
    }

    /// The status with which the command of this entry will end, if there is memory for it and the drive has not
    /// stopped. It allocates nothing.
    pub fn foresee(&self, entry: &[u8; 64], bytes: &[u8]) -> Status
        ensures { Foresees self.now.drive (decode_of entry.now) bytes.now result }
    {
        let _ = &self.geometry;
        match Command::decode(entry) {
            Ok(command) => self.foresee_command(command, bytes),
            Err(fault) => fault_status(fault),
        }
    }

    /// Takes the memory that the command of this entry needs for its blocks. Nothing else changes.
    pub fn reserve(&mut self, entry: &[u8; 64], bytes: &[u8]) -> Result<(), AllocError>
        ensures { self.new ≡ self.old }
    {
        let address = match Command::decode(entry) {
            Ok(Command::Write { slba, .. }) => slba,
            Ok(Command::Append { zslba, .. }) => zslba,
            _ => return Ok(()),
        };
        let number = address / u64::from(self.geometry.size);
        self.zones.reserve(number as usize, bytes.len())
    }
}
