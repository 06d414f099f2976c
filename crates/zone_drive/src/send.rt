ghost use Rattle.std.specs.Prelude.{◌≡◌, ◌≢◌, ◌/◌, ◌<◌, ◌≤◌, false, map, List, ℕ, [], Some, None, Ok, IfErr};
ghost use Rattle.std.specs.Prelude.{IfOk, IsTrue, OnErr, OnOk};
ghost use Rattle.zone_states.specs.Checks.{first_failing};
ghost use Rattle.drive_port.specs.Drive.{open_count};
ghost use Rattle.drive_port.specs.Step.{sent_zone, zone_at};
ghost use Rattle.zone_drive.specs.Choice.{Gives};
ghost use Rattle.zone_drive.specs.Habits.{with_zones};
ghost use Rattle.zone_drive.specs.Sending.{Opens, send_first, sent_to};

use crate::held::HeldZones;
use crate::reply::Reply;
use crate::zone_drive::ZoneDrive;
use drive_port::Halt;
use nvme_wire::{Action, Command, Status};
use zone_states::next_state;

impl<Z: HeldZones + Drop> ZoneDrive<Z> {
    /// The status of the first check that an action on one zone fails, without the resources' checks.
    pub(crate) fn send_refusal(&self, slba: u64, action: Action) -> Option<Status>
        ensures { result ≡ first_failing (send_first self.now.drive.state.geometry
            (zone_at self.now.drive.state.zones (slba / self.now.drive.state.geometry.size)) slba action) }
    {
        if slba % u64::from(self.geometry.size) != 0 {
            return Some(Status::InvalidField);
        }
        if slba >= self.geometry.end() {
            return Some(Status::LbaOutOfRange);
        }
        match next_state(self.state_of(self.geometry.zone_of(slba)), action) {
            Ok(_) => None,
            Err(_) => Some(Status::InvalidZoneStateTransition),
        }
    }

    /// Opens a zone that can be opened. A status says which resource is missing.
    fn open(&mut self, number: u32) -> Result<Option<Status>, Halt>
        requires { number < self.old.drive.state.geometry.zones }
        ensures opens { IfOk result (λ refusal. Opens self.old.drive number refusal self.new.drive) }
        ensures limit { open_count self.old.drive.state.zones ≤ self.old.drive.state.geometry.open }
        ensures kept { OnErr result (self.new.drive ≡ self.old.drive) }
        ensures stops { OnErr result (IsTrue Z.may_stop) }
        ensures only { IfErr result (λ halt. halt ≡ Halt.Stopped) }
        ensures halted { self.new.halted ≡ self.old.halted }
    {
        let closing = match self.room_for(number) {
            Ok(closing) => closing,
            Err(status) => return Ok(Some(status)),
        };
        self.zones.apply(number as usize, Action::Open)?;
        self.zones.close(closing);
        Ok(None)
    }

    /// Does an action that is no Open on a zone.
    fn apply(&mut self, number: u32, action: Action) -> Result<(), Halt>
        requires in_range { number < self.old.drive.state.geometry.zones }
        requires other { action ≢ Action.Open }
        ensures ok { OnOk result (self.new.drive
            ≡ with_zones self.old.drive (sent_to self.old.drive.state.zones number action)) }
        ensures kept { OnErr result (self.new.drive ≡ self.old.drive) }
        ensures stops { OnErr result (IsTrue Z.may_stop) }
        ensures only { IfErr result (λ halt. halt ≡ Halt.Stopped) }
        ensures halted { self.new.halted ≡ self.old.halted }
    {
        self.zones.apply(number as usize, action)?;
        Ok(())
    }

    /// A Zone Management Send to one zone.
    fn send_to_one(&mut self, slba: u64, action: Action) -> Result<Reply, Halt>
        ensures ok { (bytes : List ℕ) → IfOk result (λ reply.
            Gives self.old.drive (Ok (Command.Send slba action false)) bytes reply [] self.new.drive) }
        ensures kept { OnErr result (self.new.drive ≡ self.old.drive) }
        ensures stops { OnErr result (IsTrue Z.may_stop) }
        ensures only { IfErr result (λ halt. halt ≡ Halt.Stopped) }
        ensures halted { self.new.halted ≡ self.old.halted }
    {
        if let Some(status) = self.send_refusal(slba, action) {
            return Ok(Reply::refused(status));
        }
        let number = self.geometry.zone_of(slba);
        match action {
            Action::Open => match self.open(number)? {
                Some(status) => Ok(Reply::refused(status)),
                None => Ok(Reply::done(0)),
            },
            action => {
                self.apply(number, action)?;
                Ok(Reply::done(0))
            }
        }
    }

    /// Does an action on all zones.
    pub(crate) fn send_to_all(&mut self, action: Action) -> Result<(), Halt>
        ensures ok { OnOk result (self.new.drive
            ≡ with_zones self.old.drive (map (sent_zone action) self.old.drive.state.zones)) }
        ensures kept { OnErr result (self.new.drive ≡ self.old.drive) }
        ensures stops { OnErr result (IsTrue Z.may_stop) }
        ensures only { IfErr result (λ halt. halt ≡ Halt.Stopped) }
        ensures halted { self.new.halted ≡ self.old.halted }
    {
        self.zones.apply_to_all(action)?;
        Ok(())
    }

    /// A Zone Management Send, to one zone or to all. To all it always succeeds.
    pub(crate) fn send(&mut self, slba: u64, action: Action, all: bool) -> Result<Reply, Halt>
        ensures ok { (bytes : List ℕ) → IfOk result (λ reply.
            Gives self.old.drive (Ok (Command.Send slba action all)) bytes reply [] self.new.drive) }
        ensures kept { OnErr result (self.new.drive ≡ self.old.drive) }
        ensures stops { OnErr result (IsTrue Z.may_stop) }
        ensures only { IfErr result (λ halt. halt ≡ Halt.Stopped) }
        ensures halted { self.new.halted ≡ self.old.halted }
    {
        if all {
            self.send_to_all(action)?;
            return Ok(Reply::done(0));
        }
        self.send_to_one(slba, action)
    }
}
