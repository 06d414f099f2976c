ghost use Rattle.std.specs.Prelude.{◌≡◌, ◌<◌};
ghost use Rattle.zone_states.specs.Checks.{first_failing};
ghost use Rattle.drive_port.specs.Step.{resource_checks, zone_at};
ghost use Rattle.zone_drive.specs.Choice.{RoomGives};

use crate::held::HeldZones;
use crate::zone_drive::ZoneDrive;
use nvme_wire::Status;
use zone_states::ZoneState;

impl<Z: HeldZones + Drop> ZoneDrive<Z> {
    /// Whether there are the resources that a zone needs to be opened.
    fn resource_refusal(&self, number: u32) -> Option<Status>
        requires { number < self.now.drive.state.geometry.zones }
        ensures { result ≡ first_failing
            (resource_checks self.now.drive.state.geometry self.now.drive.state.zones
            (zone_at self.now.drive.state.zones number)) }
    {
        let state = self.state_of(number);
        if state == ZoneState::Empty && self.zones.active_zones() >= self.geometry.active {
            return Some(Status::TooManyActiveZones);
        }
        if state != ZoneState::Empty && state != ZoneState::Closed {
            return None;
        }
        if self.zones.open_zones() >= self.geometry.open {
            return Some(Status::TooManyOpenZones);
        }
        None
    }

    /// Makes sure of the resources that a zone needs to be opened. Where the limit on open zones is met,
    /// `Some` is the zone that is to be closed: the lowest implicitly opened one. A strict drive closes none.
    pub(crate) fn room_for(&self, number: u32) -> Result<Option<usize>, Status>
        requires { number < self.now.drive.state.geometry.zones }
        ensures { RoomGives self.now.drive.habit self.now.drive.state.geometry self.now.drive.state.zones
            (zone_at self.now.drive.state.zones number) result }
    {
        match self.resource_refusal(number) {
            None => Ok(None),
            Some(Status::TooManyOpenZones) => match self.zone_to_close() {
                Some(low) => Ok(Some(low)),
                None => Err(Status::TooManyOpenZones),
            },
            Some(status) => Err(status),
        }
    }
}
