ghost use Rattle.std.specs.Prelude.{◌≡◌, ℕ, ◌*◌, ◌/◌, ◌%◌, ◌<◌, ◌≤◌, List};
ghost use Rattle.std.specs.Prelude.{Some, None, Ok, IfOk, OnOk, IfErr, IsErrOf, IsTrue, OnErr};
ghost use Rattle.zone_states.specs.Checks.{first_failing};
ghost use Rattle.drive_port.specs.Halting.{Adds};
ghost use Rattle.drive_port.specs.Step.{read_checks, zone_at};
ghost use Rattle.zone_drive.specs.Choice.{Gives};

use crate::held::HeldZones;
use crate::reply::Reply;
use crate::zone_drive::ZoneDrive;
use drive_port::Halt;
use nvme_wire::{Command, Status};
use zone_states::ZoneState;

impl<Z: HeldZones + Drop> ZoneDrive<Z> {
    /// Where in its zone a Read of that many blocks begins, in bytes; or the status of the first check that it fails.
    pub(crate) fn read_place(&self, slba: u64, blocks: u32) -> Result<(u32, usize), Status>
        requires { 1 ≤ blocks }
        ensures passed { OnOk result (None ≡ first_failing (read_checks self.now.drive.state.geometry
            (zone_at self.now.drive.state.zones (slba / self.now.drive.state.geometry.size)) slba blocks)) }
        ensures zone { IfOk result (λ place. place.0 ≡ slba / self.now.drive.state.geometry.size) }
        ensures in_range { IfOk result (λ place. place.0 < self.now.drive.state.geometry.zones) }
        ensures from { IfOk result (λ place. place.1
            ≡ slba % self.now.drive.state.geometry.size * self.now.drive.state.geometry.block) }
        ensures refused { IfErr result (λ status. Some status ≡ first_failing
            (read_checks self.now.drive.state.geometry
            (zone_at self.now.drive.state.zones (slba / self.now.drive.state.geometry.size)) slba blocks)) }
    {
        let geometry = self.geometry;
        let end = slba.saturating_add(u64::from(blocks));
        if blocks > geometry.transfer {
            return Err(Status::InvalidField);
        }
        if end > geometry.end() {
            return Err(Status::LbaOutOfRange);
        }
        let number = geometry.zone_of(slba);
        let start = u64::from(number) * u64::from(geometry.size);
        if end > start + u64::from(geometry.size) {
            return Err(Status::ZoneBoundaryError);
        }
        if self.state_of(number) == ZoneState::Offline {
            return Err(Status::ZoneIsOffline);
        }
        let from = (slba - start) as usize * geometry.block as usize;
        Ok((number, from))
    }

    /// A Read: the bytes of the blocks go after what `into` holds, zeros for those that are not written.
    pub(crate) fn read(&mut self, slba: u64, blocks: u32, into: &mut Vec<u8>) -> Result<Reply, Halt>
        requires some { 1 ≤ blocks }
        ensures ok { (bytes : List ℕ) → IfOk result (λ reply. Adds into.old.items
            (λ returned.
            Gives self.old.drive (Ok (Command.Read slba blocks)) bytes reply returned self.new.drive)
            into.new.items) }
        ensures same { self.new.drive ≡ self.old.drive }
        ensures halted { self.new.halted ≡ self.old.halted }
        ensures memory { IsErrOf result Halt.Memory → self.new ≡ self.old }
        ensures fails { IsErrOf result Halt.Failed → IsTrue Z.may_stop }
        ensures stops { IsErrOf result Halt.Stopped → IsTrue Z.may_stop }
        ensures returned { OnErr result (into.new.items ≡ into.old.items) }
    {
        match self.read_place(slba, blocks) {
            Ok((number, from)) => {
                let len = blocks as usize * self.geometry.block as usize;
                self.zones.read(number as usize, from, len, into)?;
                Ok(Reply::done(0))
            }
            Err(status) => Ok(Reply::refused(status)),
        }
    }
}
