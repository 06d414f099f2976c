ghost use Rattle.std.specs.Prelude.{◌≡◌, ◌≤◌, ℕ, List, Ok, IfOk, IfErr, OnErr};
ghost use Rattle.drive_port.specs.Halting.{Adds};
ghost use Rattle.zone_drive.specs.Choice.{Gives};

use crate::held::HeldZones;
use crate::reply::Reply;
use crate::zone_drive::ZoneDrive;
use drive_port::Halt;
use nvme_wire::{Command, ReportingOptions, Status};
use zone_report::{ReportFault, ReportedZones, ZoneStatus, report_bytes};

impl<Z: HeldZones + Drop> ReportedZones for ZoneDrive<Z> {
    ghost zones = { λ d. d.drive.state.zones };

    fn status(&self, number: u32) -> ZoneStatus {
        let _ = &self.geometry;
        ZoneStatus {
            state: self.state_of(number),
            written: self.written_in(number) as u32,
        }
    }
}

impl<Z: HeldZones + Drop> ZoneDrive<Z> {
    /// A Zone Management Receive: the report of the zones from the one that holds `slba` on goes after
    /// what `into` holds.
    pub(crate) fn receive(
        &self,
        slba: u64,
        dwords: u64,
        options: ReportingOptions,
        partial: bool,
        into: &mut Vec<u8>,
    ) -> Result<Reply, Halt>
        requires room { 16 ≤ dwords }
        ensures ok { (bytes : List ℕ) → IfOk result (λ reply. Adds into.old.items
            (λ returned. Gives self.now.drive (Ok (Command.Receive slba dwords options partial)) bytes
            reply returned self.now.drive) into.new.items) }
        ensures err { IfErr result (λ halt. halt ≡ Halt.Memory) }
        ensures returned { OnErr result (into.new.items ≡ into.old.items) }
    {
        let geometry = self.geometry;
        match report_bytes(self.alloc, self, geometry, slba, options, partial, dwords) {
            Ok(bytes) => {
                into.extend_from_slice(&bytes)?;
                Ok(Reply::done(0))
            }
            Err(ReportFault::Range) => Ok(Reply::refused(Status::LbaOutOfRange)),
            Err(ReportFault::OutOfMemory) => Err(Halt::Memory),
            Err(ReportFault::Field) => unreachable!(),
        }
    }
}
