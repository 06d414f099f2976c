ghost use Rattle.std.specs.Prelude.{◌≡◌, ◌/◌, ◌^◌, ◌<◌, ◌≤◌, length};
ghost use Rattle.drive_port.specs.Step.{end_of, zone_at};

use crate::held::HeldZones;
use crate::zone_drive::ZoneDrive;
use zone_states::ZoneState;

impl<Z: HeldZones + Drop> ZoneDrive<Z> {
    /// The state of the zone with a number.
    pub(crate) fn state_of(&self, number: u32) -> ZoneState
        requires { number < self.now.drive.state.geometry.zones }
        ensures { result ≡ (zone_at self.now.drive.state.zones number).state }
    {
        self.zones.state(number as usize)
    }

    /// How many of the blocks of a zone are written.
    pub(crate) fn written_in(&self, number: u32) -> u64
        requires { number < self.now.drive.state.geometry.zones }
        ensures value { result ≡ length (zone_at self.now.drive.state.zones number).blocks }
        ensures few { result ≤ 2 ^ 20 }
    {
        let block = self.geometry.block as usize;
        (self.zones.written(number as usize) / block) as u64
    }
}
