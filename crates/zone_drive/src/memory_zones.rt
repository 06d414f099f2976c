ghost use Rattle.std.specs.Prelude.{◌≡◌, ◌<◌, ◌≤◌, ◌++◌, [], IfErr, IfSome, IsErrOf, IsTrue, None, OnErr, OnOk};
ghost use Rattle.std.specs.Prelude.{count_by, drop, false, length, map, position, slice_set};
ghost use Rattle.zone_states.specs.Checks.{first_failing};
ghost use Rattle.zone_states.specs.Stored.{stored_write, zone_stored};
ghost use Rattle.zone_states.specs.Transition.{is_active, is_open};
ghost use Rattle.drive_port.specs.Step.{is_selected};
ghost use Rattle.zone_drive.specs.Groups.{is_implicit};
ghost use Rattle.zone_drive.specs.Stored.{with_zeros};
ghost use Rattle.zone_drive.specs.Table.{closed_in, closed_stored, sent_in, sent_stored, stored_at};

use crate::held::HeldZones;
use crate::resources::Resources;
use drive_port::Halt;
use std::alloc::AllocError;
use std::marker::Model;
use zone_states::{Action, Geometry, Zone, ZoneState};

/// Zones in memory, with the resources that they hold counted as they change. They never stop, and say nothing of a
/// loss of power.
#[derive(Drop)]
pub struct MemoryZones {
    geometry: Geometry,
    zones: Vec<Zone>,
    resources: Resources,
}

impl Model for MemoryZones {
    ghost use Rattle.zone_drive.specs.Held.{ShapedZones};

    ghost Value = { ShapedZones };

    ghost use Rattle.zone_drive.specs.Groups.{IsCounted};

    ghost view = { λ z. record { shape = z.geometry; zones = z.zones.items } };

    ghost invariant = { λ z. IsCounted (λ zone. zone.state) z.zones.items z.resources };
}

impl MemoryZones {
    /// These zones of a drive of this shape.
    pub fn new(geometry: Geometry, zones: Vec<Zone>) -> MemoryZones
        requires { length zones.items ≤ 65536 }
        ensures { result ≡ record { shape = geometry; zones = zones.items } }
    {
        let resources = Resources::of(&zones);
        MemoryZones {
            geometry,
            zones,
            resources,
        }
    }

    /// All zones, in ascending order.
    pub fn as_slice(&self) -> &[Zone]
        ensures { result.now ≡ self.now.zones }
    {
        &self.zones
    }

    /// Does an action on one zone.
    fn act(&mut self, index: usize, action: Action)
        requires { index < length self.old.zones }
        ensures { self.new ≡ record self.old { zones = sent_in self.old.zones index action } }
    {
        let zone = &mut self.zones[index];
        let before = zone.state();
        let _ = zone.apply(action);
        self.resources.follow(&self.zones, index, before);
    }
}

impl HeldZones for MemoryZones {
    ghost shape = { λ z. z.shape };

    ghost stored = { λ z. z.zones };

    ghost durable = { λ _. [] };

    ghost may_stop = { false };

    fn state(&self, index: usize) -> ZoneState {
        self.zones[index].state()
    }

    fn written(&self, index: usize) -> usize {
        self.zones[index].written().len()
    }

    fn active_zones(&self) -> u32 {
        self.resources.active_zones
    }

    fn open_zones(&self) -> u32 {
        self.resources.open_zones
    }

    fn lowest_implicit(&self) -> Option<usize> {
        self.resources.lowest_implicit(&self.zones)
    }

    fn read(
        &mut self,
        index: usize,
        from: usize,
        len: usize,
        into: &mut Vec<u8>,
    ) -> Result<(), Halt> {
        let written = bytes_from(self.zones[index].written(), from);
        add_with_zeros(written, len, into)?;
        Ok(())
    }

    fn reserve(&mut self, index: usize, bytes: usize) -> Result<(), AllocError> {
        if index >= self.zones.len() {
            return Ok(());
        }
        self.zones[index].reserve(bytes)
    }

    fn write(&mut self, index: usize, bytes: &[u8]) -> Result<(), Halt> {
        let zone = &mut self.zones[index];
        let before = zone.state();
        zone.extend(&self.geometry, bytes)?;
        self.resources.follow(&self.zones, index, before);
        Ok(())
    }

    fn apply(&mut self, index: usize, action: Action) -> Result<(), Halt> {
        self.act(index, action);
        Ok(())
    }

    fn apply_to_all(&mut self, action: Action) -> Result<(), Halt> {
        apply_to_each(&mut self.zones, action);
        self.resources = Resources::of(&self.zones);
        Ok(())
    }

    fn close(&mut self, closing: Option<usize>) {
        if let Some(low) = closing {
            self.act(low, Action::Close);
        }
    }

    /// It looks at the counts of the groups, and at the zones of the groups that have such a zone.
    fn close_implicit(&mut self) {
        while let Some(low) = self.lowest_implicit() {
            self.act(low, Action::Close);
        }
    }

    fn flush(&mut self) -> Result<(), Halt> {
        Ok(())
    }
}

/// Whether an action on all zones acts on those in this state: the others stay (Zoned Namespace Command Set 1.1,
/// section 3.4.3).
pub fn selects(action: Action, state: ZoneState) -> bool
    ensures { result ≡ is_selected action state }
{
    match state {
        ZoneState::ImplicitlyOpened | ZoneState::ExplicitlyOpened => {
            action != Action::Open && action != Action::Offline
        }
        ZoneState::Closed => action == Action::Finish || action == Action::Reset,
        ZoneState::Full => action == Action::Reset,
        ZoneState::ReadOnly => action == Action::Offline,
        ZoneState::Empty | ZoneState::Offline => false,
    }
}

fn apply_if_selected(zone: &mut Zone, action: Action)
    ensures { zone.new ≡ sent_stored action zone.old }
{
    if selects(action, zone.state()) {
        let _ = zone.apply(action);
    }
}

/// Does an action of a Zone Management Send to each of these zones that an action on all zones selects (Zoned Namespace
/// Command Set 1.1, section 3.4.3). The others stay.
pub fn apply_to_each(zones: &mut [Zone], action: Action)
    ensures { zones.new ≡ map (sent_stored action) zones.old }
{
    for zone in zones.iter_mut() {
        apply_if_selected(zone, action);
    }
}

/// The bytes from an offset on; none where there are fewer.
fn bytes_from(bytes: &[u8], from: usize) -> &[u8]
    ensures { result.now ≡ drop from bytes.now }
{
    &bytes[bytes.len().min(from)..]
}

/// Puts the first `len` of the stored bytes after what `into` holds, and zeros where there are fewer.
fn add_with_zeros(stored: &[u8], len: usize, into: &mut Vec<u8>) -> Result<(), AllocError>
    ensures ok { OnOk result (into.new.items ≡ into.old.items ++ with_zeros len stored.now) }
    ensures err { OnErr result (into.new.items ≡ into.old.items) }
{
    if stored.len() >= len {
        return into.extend_from_slice(&stored[..len]);
    }
    into.reserve(len)?;
    let end = into.len() + len;
    into.extend_from_slice(&stored[..stored.len().min(len)])?;
    into.resize(end, 0)?;
    Ok(())
}
