ghost use Rattle.std.specs.Prelude.{◌≡◌, ◌/◌, ◌<◌, ◌≤◌, [], Some, None, Ok, IfNone, IfOk, IsErrOf, IsTrue};
ghost use Rattle.std.specs.Prelude.{OnErr, length};
ghost use Rattle.zone_states.specs.Checks.{first_failing};
ghost use Rattle.zone_states.specs.Writing.{append_bytes_checks, data_checks};
ghost use Rattle.drive_port.specs.Drive.{open_count};
ghost use Rattle.drive_port.specs.Step.{zone_at};
ghost use Rattle.zone_drive.specs.Choice.{Gives};
ghost use Rattle.zone_drive.specs.Writing.{WritesAfter, append_first, write_first};

use crate::held::HeldZones;
use crate::reply::Reply;
use crate::zone_drive::ZoneDrive;
use drive_port::Halt;
use nvme_wire::{Command, Status};
use zone_states::{append_refusal, write_refusal};

impl<Z: HeldZones + Drop> ZoneDrive<Z> {
    /// The status where the data is not that many blocks, or is more than one transfer moves.
    fn data_refusal(&self, blocks: u32, bytes: &[u8]) -> Option<Status>
        ensures checks { result ≡ first_failing
            (data_checks self.now.drive.state.geometry blocks bytes.now) }
        ensures count { IfNone result (length bytes.now / self.now.drive.state.geometry.block ≡ blocks) }
    {
        if blocks > self.geometry.transfer {
            return Some(Status::InvalidField);
        }
        if bytes.len() as u64 != u64::from(blocks) * u64::from(self.geometry.block) {
            return Some(Status::InvalidField);
        }
        None
    }

    /// The status of the first check that an Append fails, without the resources' checks.
    pub(crate) fn append_refusal(&self, zslba: u64, blocks: u32, bytes: &[u8]) -> Option<Status>
        ensures checks { result ≡ first_failing (append_first self.now.drive.state.geometry
            (zone_at self.now.drive.state.zones (zslba / self.now.drive.state.geometry.size)) zslba blocks
            bytes.now) }
        ensures count { IfNone result (length bytes.now / self.now.drive.state.geometry.block ≡ blocks) }
    {
        if let Some(status) = self.data_refusal(blocks, bytes) {
            return Some(status);
        }
        if zslba % u64::from(self.geometry.size) != 0 {
            return Some(Status::InvalidField);
        }
        if zslba >= self.geometry.end() {
            return Some(Status::LbaOutOfRange);
        }
        let number = self.geometry.zone_of(zslba);
        append_refusal(
            &self.geometry,
            self.state_of(number),
            self.written_in(number),
            u64::from(blocks),
        )
    }

    /// The status of the first check that a Write fails, without the resources' checks.
    pub(crate) fn write_refusal(&self, slba: u64, blocks: u32, bytes: &[u8]) -> Option<Status>
        requires { 1 ≤ blocks }
        ensures checks { result ≡ first_failing (write_first self.now.drive.state.geometry
            (zone_at self.now.drive.state.zones (slba / self.now.drive.state.geometry.size)) slba blocks
            bytes.now) }
        ensures count { IfNone result (length bytes.now / self.now.drive.state.geometry.block ≡ blocks) }
    {
        if let Some(status) = self.data_refusal(blocks, bytes) {
            return Some(status);
        }
        if slba.saturating_add(u64::from(blocks)) > self.geometry.end() {
            return Some(Status::LbaOutOfRange);
        }
        let number = self.geometry.zone_of(slba);
        let offset = slba % u64::from(self.geometry.size);
        write_refusal(
            &self.geometry,
            self.state_of(number),
            self.written_in(number),
            offset,
            u64::from(blocks),
        )
    }

    /// Writes whole blocks after those of a zone that takes them. A status says which resource is missing.
    fn write_after(&mut self, number: u32, bytes: &[u8]) -> Result<Option<Status>, Halt>
        requires in_range { number < self.old.drive.state.geometry.zones }
        requires checks { None ≡ first_failing (append_bytes_checks self.old.drive.state.geometry
            (zone_at self.old.drive.state.zones number) bytes.now) }
        ensures ok { IfOk result
            (λ refusal. WritesAfter self.old.drive number bytes.now refusal self.new.drive) }
        ensures limit { open_count self.old.drive.state.zones ≤ self.old.drive.state.geometry.open }
        ensures kept { OnErr result (self.new.drive ≡ self.old.drive) }
        ensures memory { IsErrOf result Halt.Memory → self.new ≡ self.old }
        ensures unfailing { IsErrOf result Halt.Failed → ⊥ }
        ensures stops { IsErrOf result Halt.Stopped → IsTrue Z.may_stop }
        ensures halted { self.new.halted ≡ self.old.halted }
    {
        let closing = match self.room_for(number) {
            Ok(closing) => closing,
            Err(status) => return Ok(Some(status)),
        };
        self.zones.write(number as usize, bytes)?;
        self.zones.close(closing);
        Ok(None)
    }

    /// A Zone Append: it answers the address of its first block. The zone's bytes grow once.
    pub(crate) fn append(&mut self, zslba: u64, blocks: u32, bytes: &[u8]) -> Result<Reply, Halt>
        ensures ok { IfOk result (λ reply.
            Gives self.old.drive (Ok (Command.Append zslba blocks)) bytes.now reply [] self.new.drive) }
        ensures kept { OnErr result (self.new.drive ≡ self.old.drive) }
        ensures memory { IsErrOf result Halt.Memory → self.new ≡ self.old }
        ensures unfailing { IsErrOf result Halt.Failed → ⊥ }
        ensures stops { IsErrOf result Halt.Stopped → IsTrue Z.may_stop }
        ensures halted { self.new.halted ≡ self.old.halted }
    {
        if let Some(status) = self.append_refusal(zslba, blocks, bytes) {
            return Ok(Reply::refused(status));
        }
        let number = self.geometry.zone_of(zslba);
        let pointer = zslba + self.written_in(number);
        match self.write_after(number, bytes)? {
            Some(status) => Ok(Reply::refused(status)),
            None => Ok(Reply::done(pointer)),
        }
    }

    /// A Write. The zone's bytes grow once.
    pub(crate) fn write(&mut self, slba: u64, blocks: u32, bytes: &[u8]) -> Result<Reply, Halt>
        requires { 1 ≤ blocks }
        ensures ok { IfOk result (λ reply.
            Gives self.old.drive (Ok (Command.Write slba blocks)) bytes.now reply [] self.new.drive) }
        ensures kept { OnErr result (self.new.drive ≡ self.old.drive) }
        ensures memory { IsErrOf result Halt.Memory → self.new ≡ self.old }
        ensures unfailing { IsErrOf result Halt.Failed → ⊥ }
        ensures stops { IsErrOf result Halt.Stopped → IsTrue Z.may_stop }
        ensures halted { self.new.halted ≡ self.old.halted }
    {
        if let Some(status) = self.write_refusal(slba, blocks, bytes) {
            return Ok(Reply::refused(status));
        }
        let number = self.geometry.zone_of(slba);
        match self.write_after(number, bytes)? {
            Some(status) => Ok(Reply::refused(status)),
            None => Ok(Reply::done(0)),
        }
    }
}
